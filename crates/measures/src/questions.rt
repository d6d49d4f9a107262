//! The obligations of a function, walked through what their askers ask, without a solver.
ghost use Rattle.std.specs.Prelude.{◌≡◌, IsTrue, IfOk};
ghost use Rattle.fn_rules.specs.Obligations.{is_obligation};
ghost use Rattle.fn_rules.specs.Rules.{function_of};
ghost use Rattle.measures.specs.Walks.{WalkGoesOn};

use crate::texts::file_named;
use ask_core::{Asker, Turn};
use bumpalo::Bump;
use fn_rules::{Head, Level, NoMemory, ObName, Rules, obligations};
use fn_text::read;
use ot_paths::PathAsker;
use std::alloc::Global;
use std::io;
use std::io::{Error, ErrorKind};

// How many questions were met, and how many bytes of arenas the terms took.
#[derive(Clone, Copy)]
struct Met {
    questions: u64,
    bytes: u64,
}

#[inline]
fn same_node<N: Copy>(node: N) -> N
    ensures { result ≡ node }
{
    node
}

#[inline]
fn is_question<N: Copy, W: Copy>(turn: &Turn<N, W>) -> bool {
    matches!(turn, Turn::Ask { .. })
}

// The node for yes, where the one for no waits, or behind an end a node that waits.
#[inline]
fn next_node<N: Copy, W: Copy>(
    turn: Turn<N, W>,
    waiting: &mut Vec<N>,
) -> Result<Option<N>, NoMemory>
    ensures { IfOk result (λ r. WalkGoesOn turn waiting.old.items waiting.new.items r) }
{
    match turn {
        Turn::Ask { yes, no, .. } => {
            waiting.push(no)?;
            Ok(Some(yes))
        }
        _ => Ok(waiting.pop()),
    }
}

// Walks from a node on, yes before no, as far as so many turns lead. A turn is a question or an end.
fn walk_from<A: Asker>(
    asker: &mut A,
    alloc: Global,
    start: A::Node,
    turns: u32,
) -> Result<u64, NoMemory>
    requires { A.is_own asker.old start }
{
    let mut waiting: Vec<A::Node> = Vec::new(alloc);
    let mut questions = 0_u64;
    let mut node = start;
    for _turn in 0..turns {
        let turn = asker.turn(node)?;
        questions = questions.wrapping_add(u64::from(is_question(&turn)));
        match next_node(turn, &mut waiting)? {
            Some(next) => {
                node = same_node(next);
            }
            None => return Ok(questions),
        }
    }
    Ok(questions)
}

fn walk_goal<'a>(
    bump: &'a Bump,
    alloc: Global,
    rules: &'a Rules,
    ob: ObName,
    turns: u32,
) -> Result<u64, NoMemory>
    requires { IsTrue (is_obligation (function_of rules.now).head ob) }
{
    let mut asker = PathAsker::new(bump, rules, ob);
    let start = asker.start()?;
    walk_from(&mut asker, alloc, start, turns)
}

// The terms of an obligation are given back when it is done.
fn walk(alloc: Global, rules: &Rules, ob: ObName, turns: u32) -> Result<Met, NoMemory>
    requires { IsTrue (is_obligation (function_of rules.now).head ob) }
{
    let bump = Bump::new(alloc);
    let questions = walk_goal(&bump, alloc, rules, ob, turns)?;
    let taken = bump.allocated_bytes().saturating_sub(bump.chunk_capacity());
    Ok(Met {
        questions,
        bytes: taken as u64,
    })
}

// Whether the function has the obligation.
fn is_meant(head: &Head, ob: ObName) -> bool
    ensures { result ≡ is_obligation head.now ob }
{
    match ob {
        ObName::Pair(k, l) => head.declares(k) && head.declares(l),
        ObName::Triple(k, l, m) => head.declares(k) && head.declares(l) && head.declares(m),
    }
}

// Walks each obligation of the function as far as so many turns lead.
fn walk_all(alloc: Global, rules: &Rules, turns: u32) -> Result<Met, NoMemory> {
    let mut all = Met {
        questions: 0,
        bytes: 0,
    };
    let head = rules.head();
    for ob in obligations(alloc, &head, Level::Tp2)? {
        if !is_meant(&head, ob) {
            continue;
        }
        let met = walk(alloc, rules, ob, turns)?;
        all = Met {
            questions: all.questions.wrapping_add(met.questions),
            bytes: all.bytes.wrapping_add(met.bytes),
        };
    }
    Ok(all)
}

/// Walks each obligation of the function of a file as far as so many turns lead, and says how many questions were met
/// and how many bytes of arenas the terms took.
pub fn report(rt: &HostRuntime, name: &str, turns: u32) -> io::Result<()> {
    let bytes = file_named(rt, name)?;
    let Ok(rules) = read(rt.alloc(), &bytes) else {
        return Err(Error::from(ErrorKind::InvalidData));
    };
    let Met { questions, bytes } = walk_all(rt.alloc(), &rules, turns)?;
    println!(rt; "{questions} questions, {bytes} bytes")
}
