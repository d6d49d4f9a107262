//! The end of a plan to which integers lead that meet some literals.
ghost use Rattle.std.specs.Prelude.{◌≡◌, ◌+ℤ◌, int_le, pos, IsTrue, IfOk, IfSome, if◌then◌else◌};
ghost use Rattle.diff_graph.specs.Literals as literals;
ghost use Rattle.diff_tables.specs.Solutions.{valuation_of};
ghost use Rattle.diff_graph.specs.Limits.{AreNamed, AreSmall, IsNamed, IsSmall};
ghost use Rattle.ot_settle.specs.Endings.{IsFailingEnd};

use ask_core::{Asker, MAX_QUESTIONS, NoMemory, Turn, valuations_answer_questions};
use diff_graph::{Lit, MAX_LITERAL_OFFSET};
use diff_tables::{Solved, solve};
use ot_prove::Answer;
use std::alloc::Global;

/// Answers that lead from an asker's own plan to an end that fails, and the cause.
#[derive(Drop)]
pub struct FailingEnd<W> {
    pub answers: Vec<Answer>,
    pub why: W,
}

// The value of a name: 0 where there is none.
fn value_at(values: &[i32], name: u8) -> i32
    ensures { result ≡ valuation_of values.now name }
{
    match values.get(name as usize) {
        Some(value) => *value,
        None => 0,
    }
}

// A number and an offset.
fn shifted(y: i32, k: i32) -> i64
    ensures { result ≡ y +ℤ k }
{
    i64::from(y) + i64::from(k)
}

fn is_at_most(x: i64, y: i64) -> bool
    ensures { result ≡ int_le x y }
{
    x <= y
}

// Whether the values meet a literal.
fn is_met(values: &[i32], lit: Lit) -> bool
    ensures { result ≡ literals.is_met (valuation_of values.now) lit }
{
    let x = value_at(values, lit.x);
    let y = value_at(values, lit.y);
    is_at_most(i64::from(x), shifted(y, lit.k))
}

// The side of a question that an answer leads to.
fn side_of<N: Copy>(said: bool, yes: N, no: N) -> N
    ensures { result ≡ (if said then yes else no) }
{
    if said { yes } else { no }
}

// The end to which the values lead, if it fails.
fn end_at<A: Asker>(
    alloc: Global,
    asker: &mut A,
    values: &[i32],
) -> Result<Option<FailingEnd<A::Why>>, NoMemory>
    requires { valuation_of values.now 0 ≡ pos 0 }
    ensures { IfOk result (λ found. IfSome found (IsFailingEnd (A.root asker.old))) }
{
    valuations_answer_questions();
    let mut answers = Vec::new(alloc);
    let mut node = asker.start()?;
    for _question in 0..=MAX_QUESTIONS {
        match asker.turn(node)? {
            Turn::Ask { lit, yes, no } => {
                let said = is_met(values, lit);
                answers.push(Answer { lit, yes: said })?;
                node = side_of(said, yes, no);
            }
            Turn::Holds => return Ok(None),
            Turn::Fails(why) => return Ok(Some(FailingEnd { answers, why })),
        }
    }
    Ok(None)
}

// Whether a literal is over two of so many names, with an offset that a literal may have.
fn is_small_over(names: u8, lit: Lit) -> bool
    ensures named { IsTrue result → IsNamed names lit }
    ensures small { IsTrue result → IsSmall lit }
{
    lit.x < names
        && lit.y < names
        && -1 - MAX_LITERAL_OFFSET <= lit.k
        && lit.k <= MAX_LITERAL_OFFSET + 1
}

// Whether the solver takes the literals.
fn can_be_solved(names: u8, lits: &[Lit]) -> bool
    ensures named { IsTrue result → AreNamed names lits.now }
    ensures small { IsTrue result → AreSmall lits.now }
{
    for lit in lits {
        let fits = is_small_over(names, *lit);
        if !fits {
            return false;
        }
    }
    true
}

/// The end of the asker's own plan to which integers lead that meet the literals, if it fails: these integers give each
/// of its answers. None where no integers meet the literals, or where the end holds. The error is want of memory.
pub fn failing_end<A: Asker>(
    alloc: Global,
    asker: &mut A,
    lits: &[Lit],
) -> Result<Option<FailingEnd<A::Why>>, NoMemory>
    ensures { IfOk result (λ found. IfSome found (IsFailingEnd (A.root asker.old))) }
{
    let names = asker.names();
    if lits.len() > MAX_QUESTIONS as usize || !can_be_solved(names, lits) {
        return Ok(None);
    }
    match solve(alloc, lits, names)? {
        Solved::Values(values) => end_at(alloc, asker, values.as_slice()),
        Solved::Cycle(_) => Ok(None),
    }
}
