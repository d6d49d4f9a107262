//! What is left behind results, and of comparisons whose left cell is read.
ghost use Rattle.std.specs.Prelude.{◌≡◌, IsTrue, IfOk, IfSome};
ghost use Rattle.std.specs.List.{All};
ghost use Rattle.fn_rules.specs.Functions.{Function};
ghost use Rattle.ot_terms.specs.Cells.{CellTree, cell_tree};
ghost use Rattle.ot_terms.specs.Documents.{doc_tree};
ghost use Rattle.ot_terms.specs.Goals.{goal_tree, Deliver, Same};
ghost use Rattle.ot_paths.specs.Sharing.{StandsAlike, IsKeptGoal, IsKeptRead};

use crate::kept::{Behind, Compared};
use ask_core::NoMemory;
use bumpalo::Bump;
use ot_terms::{CellT, DocT, Goal, GoalProgress, SymOp};

fn are_same(left: &[SymOp], right: &[SymOp]) -> bool
    ensures { IsTrue result → left.now ≡ right.now }
{
    match left {
        [] => match right {
            [] => true,
            _ => false,
        },
        [first, others @ ..] => match right {
            [] => false,
            [other, rest @ ..] => {
                if *first != *other {
                    return false;
                }
                are_same(others, rest)
            }
        },
    }
}

/// Whether the transformations of two obligations have come equally far, by equal results.
pub fn is_same_progress(left: &GoalProgress, right: &GoalProgress) -> bool
    ensures { IsTrue result → left.now ≡ right.now }
{
    if left.count != right.count || left.ob != right.ob {
        return false;
    }
    if !are_same(&left.got, &right.got) {
        return false;
    }
    are_same(&left.ops, &right.ops)
}

fn is_for(known: &Behind<'_>, op: SymOp, progress: &GoalProgress) -> bool
    ensures op { IsTrue result → op ≡ known.now.op }
    ensures progress { IsTrue result → progress.now ≡ known.now.progress.now }
{
    if op != known.op {
        return false;
    }
    is_same_progress(progress, known.progress)
}

/// What is left behind the result, if it is known.
pub(crate) fn found<'a>(
    known: &[Behind<'a>],
    op: SymOp,
    progress: &GoalProgress,
) -> Option<&'a Goal<'a>>
    ensures { (f : Function) → All (IsKeptGoal f) known.now
        → IfSome result (λ g. StandsAlike f (Deliver op progress.now) (goal_tree g.now)) }
{
    for at in 0..known.len() {
        let one = &known[at];
        if is_for(one, op, progress) {
            return Some(one.goal);
        }
    }
    None
}

/// The goal, which is known from now on as what is left behind the result.
pub(crate) fn learnt<'a>(
    known: &mut Vec<Behind<'a>, &'a Bump>,
    op: SymOp,
    progress: &'a GoalProgress,
    goal: &'a Goal<'a>,
) -> Result<&'a Goal<'a>, NoMemory>
    ensures same { IfOk result (λ r. r.now ≡ goal.now) }
    ensures known { IfOk result (λ _. (f : Function) → All (IsKeptGoal f) known.old.items
        → StandsAlike f (Deliver op progress.now) (goal_tree goal.now) → All (IsKeptGoal f) known.new.items) }
{
    known.push(Behind { op, progress, goal })?;
    Ok(goal)
}

// Whether two cells that are read are one.
fn is_same_cell(left: CellT<'_>, right: CellT<'_>) -> bool
    ensures { IsTrue result → cell_tree left.entry ≡ cell_tree right.entry }
{
    match left {
        CellT::At { doc, at } => match right {
            CellT::At {
                doc: other,
                at: there,
            } => are_both_base(doc, other) && at == there,
            _ => false,
        },
        CellT::Char(ch) => match right {
            CellT::Char(other) => ch == other,
            _ => false,
        },
        CellT::Dead(cell) => match right {
            CellT::Dead(other) => is_same_cell(*cell, *other),
            _ => false,
        },
        CellT::Over { ch, cell } => match right {
            CellT::Over {
                ch: other,
                cell: there,
            } => ch == other && is_same_cell(*cell, *there),
            _ => false,
        },
        CellT::If { .. } => false,
    }
}

fn are_both_base(left: &DocT<'_>, right: &DocT<'_>) -> bool
    ensures { IsTrue result → doc_tree left.now ≡ doc_tree right.now }
{
    match left {
        DocT::Base => match right {
            DocT::Base => true,
            _ => false,
        },
        _ => false,
    }
}

/// What is left of a comparison with the right cell, if it is known for the left one.
pub(crate) fn found_read<'a>(known: &[Compared<'a>], left: CellT<'a>) -> Option<&'a Goal<'a>>
    ensures { (f : Function) (right : CellTree) → All (IsKeptRead f right) known.now
        → IfSome result (λ g. StandsAlike f (Same (cell_tree left.entry) right) (goal_tree g.now)) }
{
    for at in 0..known.len() {
        let one = &known[at];
        if is_same_cell(one.left, left) {
            return Some(one.goal);
        }
    }
    None
}

/// The goal, which is known from now on as what is left of the comparison where its left cell is read.
pub(crate) fn learnt_read<'a>(
    known: &mut Vec<Compared<'a>, &'a Bump>,
    left: CellT<'a>,
    goal: &'a Goal<'a>,
) -> Result<&'a Goal<'a>, NoMemory>
    ensures same { IfOk result (λ r. r.now ≡ goal.now) }
    ensures known { IfOk result (λ _. (f : Function) (right : CellTree) → All (IsKeptRead f right) known.old.items
        → StandsAlike f (Same (cell_tree left.entry) right) (goal_tree goal.now)
        → All (IsKeptRead f right) known.new.items) }
{
    known.push(Compared { left, goal })?;
    Ok(goal)
}
