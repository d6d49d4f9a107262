//! The rules for a result: the next transformation, or the end of the obligation.
ghost use Rattle.std.specs.Prelude.{◌≡◌, ◌<◌, IfOk, Some};
ghost use Rattle.fn_rules.specs.Rules.{function_of};
ghost use Rattle.ot_terms.specs.Belonging as plans;
ghost use Rattle.ot_terms.specs.Goals as trees;
ghost use Rattle.ot_terms.specs.Standing.{results_of};
ghost use Rattle.ot_rewrite.specs.Ends as ends;
ghost use Rattle.ot_rewrite.specs.Steps.{front_tree};
ghost use Rattle.ot_rewrite.specs.Table as table;

use crate::ends::{end_of_pair, end_of_triple};
use crate::front::Front;
use ask_core::NoMemory;
use bumpalo::Bump;
use fn_rules::{ObName, Rules};
use ot_model::Mode;
use ot_terms::{GoalProgress, Operands, SymOp, placed};

#[inline]
fn next_of_pair(a: SymOp, b: SymOp, got: &[SymOp]) -> Option<(SymOp, SymOp)>
    ensures { result ≡ plans.next_of_pair a b got.now }
{
    match got {
        [] => Some((b, a)),
        [_] => Some((a, b)),
        _ => None,
    }
}

// One way of a triple: `c` behind `a` and then `b`.
#[inline]
fn next_of_way(a: SymOp, b: SymOp, c: SymOp, got: &[SymOp]) -> Option<(SymOp, SymOp)>
    ensures { result ≡ plans.next_of_way a b c got.now }
{
    match got {
        [] => Some((b, a)),
        [_] => Some((c, a)),
        [b_after_a, c_after_a] => Some((*c_after_a, *b_after_a)),
        _ => None,
    }
}

// One way, and then the other.
#[inline]
fn next_of_triple(a: SymOp, b: SymOp, c: SymOp, got: &[SymOp]) -> Option<(SymOp, SymOp)>
    ensures { result ≡ plans.next_of_triple a b c got.now }
{
    match got {
        [_, _, _, others @ ..] => next_of_way(b, a, c, others),
        _ => next_of_way(a, b, c, got),
    }
}

// The two operations of the next transformation, if there is one.
#[inline]
fn next_operands(ob: ObName, ops: &[SymOp], got: &[SymOp]) -> Option<(SymOp, SymOp)>
    ensures { result ≡ plans.next_operands ob ops.now got.now }
{
    match ob {
        ObName::Pair(_, _) => match ops {
            [a, b, ..] => next_of_pair(*a, *b, got),
            _ => None,
        },
        ObName::Triple(_, _, _) => match ops {
            [a, b, c, ..] => next_of_triple(*a, *b, *c, got),
            _ => None,
        },
    }
}

// What is left behind the last result.
fn end_goal<'a>(
    bump: &'a Bump,
    mode: Mode,
    ob: ObName,
    ops: &[SymOp],
    got: &[SymOp],
) -> Result<Front<'a>, NoMemory>
    ensures { IfOk result (λ r. front_tree r ≡ ends.end_goal mode ob ops.now got.now) }
{
    match ob {
        ObName::Pair(_, _) => end_of_pair(bump, mode, ops, got),
        ObName::Triple(_, _, _) => end_of_triple(bump, got),
    }
}

// The progress with one more result.
#[inline]
fn with_result(progress: &GoalProgress, op: SymOp) -> GoalProgress
    requires { progress.now.count < 6 }
    ensures { result ≡ table.with_result progress.now op }
{
    let mut next = *progress;
    next.got[progress.count as usize] = op;
    next.count = progress.count + 1;
    next
}

// The transformation begins with its first case.
fn first_choice<'a>(
    bump: &'a Bump,
    ops: Operands,
    progress: GoalProgress,
) -> Result<Front<'a>, NoMemory>
    ensures { IfOk result (λ r. front_tree r ≡ trees.Choose 0 ops.a ops.b progress) }
{
    Ok(Front::Choose {
        case: 0,
        ops: placed(bump, ops)?,
        progress: placed(bump, progress)?,
    })
}

/// The next transformation begins with its first case, or the obligation comes to its end.
#[inline]
pub(crate) fn deliver<'a>(
    bump: &'a Bump,
    rules: &Rules,
    op: SymOp,
    progress: &'a GoalProgress,
) -> Result<Front<'a>, NoMemory>
    requires { progress.now.count < 6 }
    ensures { IfOk result (λ r. front_tree r ≡ table.rewrite_deliver (function_of rules.now) op progress.now) }
{
    let next = with_result(progress, op);
    let got = &next.got[..next.count as usize];
    match next_operands(next.ob, &next.ops, got) {
        Some((a, b)) => first_choice(bump, Operands { a, b }, next),
        None => end_goal(bump, rules.head().mode, next.ob, &next.ops, got),
    }
}
