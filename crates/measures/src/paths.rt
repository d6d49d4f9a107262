//! A plan with 99,999 questions on one path: the search of it, and the checker that is fed the tree.
ghost use Rattle.std.specs.Prelude.{◌≡◌, ◌≤◌};
ghost use Rattle.ask_core.specs.declared.asker.TheConstants.{MAX_QUESTIONS};

use ask_core::{Asker, MAX_PICKS, MAX_QUESTIONS, NoMemory, Picks, Tok, Turn};
use cert_check::{CheckError, Checker, Progress};
use cert_text::Tree;
use diff_graph::Lit;
use ot_prove::{Outcome, prove};
use std::alloc::Global;
use std::{io, mem};

/// An asker whose plan asks one literal again and again, as long as it is answered by yes.
#[derive(Drop)]
pub struct Deep {}

impl Asker for Deep {
    ghost use Rattle.std.specs.Prelude.{◌≤◌};
    ghost use Rattle.ask_core.specs.declared.asker.TheConstants.{MAX_QUESTIONS};
    ghost use Rattle.measures.specs.Deep.{deep_plan, IsFine-deep_plan};

    type Node = u32;

    type Why = u8;

    ghost is_own = { λ _ n. n ≤ MAX_QUESTIONS };

    ghost plan = { λ _ n. deep_plan n };

    ghost root = { λ _. deep_plan MAX_QUESTIONS };

    ghost name_count = { λ _. 2 };

    fn names(&self) -> u8 {
        2
    }

    fn start(&mut self) -> Result<u32, NoMemory> {
        Ok(MAX_QUESTIONS)
    }

    fn turn(&mut self, node: u32) -> Result<Turn<u32, u8>, NoMemory> {
        if node == 0 {
            Ok(Turn::Holds)
        } else {
            Ok(Turn::Ask {
                lit: Lit { x: 0, y: 1, k: 0 },
                yes: node - 1,
                no: 0,
            })
        }
    }

    ghost fine = { λ _ n own. IsFine-deep_plan n own };
}

/// What was read of a cycle: its whole numbers, and the digits of the next one.
#[derive(Drop)]
struct Reading {
    picks: Picks,
    number: u32,
}

// Puts the number that was read behind those of its cycle.
fn end_number(reading: &mut Reading) {
    if reading.picks.as_slice().len() < MAX_PICKS {
        reading.picks.push(reading.number);
    }
    reading.number = 0;
}

// The token that ends with a byte, if one does.
fn token_with(alloc: Global, reading: &mut Reading, byte: u8) -> Option<Tok> {
    match byte {
        b'?' => Some(Tok::Ask),
        b'.' => Some(Tok::Holds),
        b'x' => None,
        b',' => {
            end_number(reading);
            None
        }
        b';' => {
            end_number(reading);
            Some(Tok::Cycle(mem::replace(&mut reading.picks, Picks::new(alloc))))
        }
        digit => {
            let value = u32::from(digit.wrapping_sub(b'0'));
            reading.number = reading.number.wrapping_mul(10).wrapping_add(value);
            None
        }
    }
}

// Feeds the tokens to a checker, and says how it ends.
fn check(alloc: Global, tree: &Tree) -> Result<Result<Progress, CheckError>, NoMemory> {
    let mut checker = Checker::new(alloc, Deep {})?;
    let mut reading = Reading {
        picks: Picks::new(alloc),
        number: 0,
    };
    for byte in tree.as_bytes() {
        if let Some(tok) = token_with(alloc, &mut reading, *byte) {
            match checker.feed(tok) {
                Ok(Progress::More) => {}
                other => return Ok(other),
            }
        }
    }
    Ok(Ok(Progress::More))
}

// Says how the search ends, and how the checker takes the tree that it finds.
fn search(rt: &HostRuntime, budget: u64) -> io::Result<()> {
    match prove(rt.alloc(), &mut Deep {}, budget)? {
        Outcome::Yes { tree, asked } => {
            let is_accepted = matches!(check(rt.alloc(), &tree)?, Ok(Progress::Done));
            println!(rt; "{asked} questions, accepted: {is_accepted}")
        }
        Outcome::No {
            answers: _answers,
            why,
        } => println!(rt; "fails with {why}"),
        Outcome::Spent => println!(rt; "more than {budget} questions"),
    }
}

/// Searches the plan with as many questions as it has, feeds the tree to the checker, and searches with one question
/// less.
pub fn report(rt: &HostRuntime) -> io::Result<()> {
    search(rt, u64::from(MAX_QUESTIONS))?;
    search(rt, u64::from(MAX_QUESTIONS - 1))
}
