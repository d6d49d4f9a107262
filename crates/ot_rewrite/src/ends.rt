//! The goals behind the last transformation of an obligation.
ghost use Rattle.std.specs.Prelude.{◌≡◌, ◌+ℤ◌, IfOk};
ghost use Rattle.ot_questions.specs.Places.{growth};
ghost use Rattle.ot_terms.specs.Changes as changes;
ghost use Rattle.ot_terms.specs.Documents.{doc_tree};
ghost use Rattle.ot_terms.specs.Goals as trees;
ghost use Rattle.ot_terms.specs.Goals.{goal_tree};
ghost use Rattle.ot_terms.specs.Cells as cells;
ghost use Rattle.ot_terms.specs.Starting.{enabled_form};
ghost use Rattle.ot_rewrite.specs.Ends as ends;
ghost use Rattle.ot_rewrite.specs.Steps.{front_tree};

use crate::front::Front;
use crate::known::{holds, lengths, operations, out_of_range};
use ask_core::NoMemory;
use bumpalo::Bump;
use ot_model::{Kind, Mode};
use ot_terms::{CellT, DocT, Form, Goal, Place, SymOp, Why, enabled_form};

// The document behind an operation.
fn changed<'a>(
    bump: &'a Bump,
    mode: Mode,
    op: SymOp,
    doc: &'a DocT<'a>,
) -> Result<&'a DocT<'a>, NoMemory>
    ensures { IfOk result (λ r. doc_tree r.now ≡ changes.changed mode op (doc_tree doc.now)) }
{
    match op {
        SymOp::Ins { at, ch, .. } => DocT::put(bump, doc, at, ch),
        SymOp::Del { at, .. } => match mode {
            Mode::Plain => DocT::cut(bump, doc, at),
            Mode::Tomb => DocT::mark(bump, doc, at),
        },
        SymOp::Upd { at, ch, .. } => DocT::over(bump, doc, at, ch),
        SymOp::Nop => Ok(doc),
    }
}

// The document that the operations make, the last one first.
fn doc_of<'a>(bump: &'a Bump, mode: Mode, ops: &[SymOp]) -> Result<&'a DocT<'a>, NoMemory>
    ensures { IfOk result (λ r. doc_tree r.now ≡ changes.doc_of mode ops.now) }
{
    match ops {
        [] => DocT::base(bump),
        [last, others @ ..] => {
            let doc = doc_of(bump, mode, others)?;
            changed(bump, mode, *last, doc)
        }
    }
}

// The two documents have the same cell at the place.
fn same_cells<'a>(
    bump: &'a Bump,
    left: &'a DocT<'a>,
    right: &'a DocT<'a>,
    at: Place,
) -> Result<&'a Goal<'a>, NoMemory>
    ensures { IfOk result (λ r. goal_tree r.now
        ≡ trees.Same (cells.At (doc_tree left.now) at) (cells.At (doc_tree right.now) at)) }
{
    let left = CellT::at(bump, left, at)?;
    let right = CellT::at(bump, right, at)?;
    Goal::same(bump, left, right)
}

// The two documents have the same cell at the index, where it is within them.
fn same_documents<'a>(
    bump: &'a Bump,
    left: &'a DocT<'a>,
    right: &'a DocT<'a>,
    off: i32,
) -> Result<&'a Goal<'a>, NoMemory>
    ensures { IfOk result (λ r. goal_tree r.now ≡ ends.same_documents (doc_tree left.now) (doc_tree right.now) off) }
{
    let index = Place::index_and(0);
    let same = same_cells(bump, left, right, index)?;
    let below = Form::Lt(index, Place::length_and(off));
    let within = Goal::either(bump, below, same, holds())?;
    Goal::either(bump, Form::Le(Place::zero(), index), within, holds())
}

// How many cells two operations add together.
fn total_growth(mode: Mode, first: SymOp, then: SymOp) -> i32
    ensures { result ≡ growth mode first +ℤ growth mode then }
{
    first.growth(mode) + then.growth(mode)
}

// Both ways have one length, and then the same cells.
fn same_lengths<'a>(
    bump: &'a Bump,
    mode: Mode,
    a: SymOp,
    b_after_a: SymOp,
    b: SymOp,
    a_after_b: SymOp,
) -> Result<&'a Goal<'a>, NoMemory>
    ensures { IfOk result (λ r. goal_tree r.now ≡ ends.same_lengths mode a b_after_a b a_after_b) }
{
    let grown = total_growth(mode, a, b_after_a);
    if grown != total_growth(mode, b, a_after_b) {
        return Ok(lengths());
    }
    let left = doc_of(bump, mode, &[b_after_a, a])?;
    let right = doc_of(bump, mode, &[a_after_b, b])?;
    same_documents(bump, left, right, grown)
}

// The goal, where the operation is enabled.
fn if_enabled<'a>(
    bump: &'a Bump,
    op: SymOp,
    off: i32,
    goal: &'a Goal<'a>,
) -> Result<&'a Goal<'a>, NoMemory>
    ensures { IfOk result (λ r. goal_tree r.now
        ≡ trees.If (enabled_form op off) (goal_tree goal.now) (trees.Fails Why.OutOfRange)) }
{
    let form = enabled_form(bump, op, off)?;
    Goal::either(bump, *form, goal, out_of_range())
}

fn front_if_enabled<'a>(
    bump: &'a Bump,
    op: SymOp,
    off: i32,
    goal: &'a Goal<'a>,
) -> Result<Front<'a>, NoMemory>
    ensures { IfOk result (λ r. front_tree r
        ≡ trees.If (enabled_form op off) (goal_tree goal.now) (trees.Fails Why.OutOfRange)) }
{
    Ok(Front::If {
        form: *enabled_form(bump, op, off)?,
        yes: goal,
        no: out_of_range(),
    })
}

// Both forms are enabled behind the other operation, and then both ways give one document.
fn both_ways<'a>(
    bump: &'a Bump,
    mode: Mode,
    a: SymOp,
    b_after_a: SymOp,
    b: SymOp,
    a_after_b: SymOp,
) -> Result<Front<'a>, NoMemory>
    ensures { IfOk result (λ r. front_tree r ≡ ends.both_ways mode a b_after_a b a_after_b) }
{
    let same = same_lengths(bump, mode, a, b_after_a, b, a_after_b)?;
    let second = if_enabled(bump, a_after_b, b.growth(mode), same)?;
    front_if_enabled(bump, b_after_a, a.growth(mode), second)
}

/// What is left of a pair behind its results.
pub(crate) fn end_of_pair<'a>(
    bump: &'a Bump,
    mode: Mode,
    ops: &[SymOp],
    got: &[SymOp],
) -> Result<Front<'a>, NoMemory>
    ensures { IfOk result (λ r. front_tree r ≡ ends.end_of_pair mode ops.now got.now) }
{
    match ops {
        [a, b, ..] => match got {
            [b_after_a, a_after_b, ..] => { both_ways(bump, mode, *a, *b_after_a, *b, *a_after_b) }
            _ => Ok(Front::Holds),
        },
        _ => Ok(Front::Holds),
    }
}

// By the kinds of two forms, which nop has not: both are nop, or both stand at one place.
fn one_place<'a>(
    bump: &'a Bump,
    first: Option<Kind>,
    second: Option<Kind>,
    at: Place,
    there: Place,
) -> Result<Front<'a>, NoMemory>
    ensures { IfOk result (λ r. front_tree r ≡ ends.one_place first second at there) }
{
    match first {
        None => match second {
            None => Ok(Front::Holds),
            Some(_) => Ok(Front::Fails(Why::Operations)),
        },
        Some(_) => match second {
            None => Ok(Front::Fails(Why::Operations)),
            Some(_) => Ok(Front::If {
                form: Form::Eq(at, there),
                yes: holds(),
                no: operations(),
            }),
        },
    }
}

/// What is left of a triple behind its results: two forms of one operation are equal.
pub(crate) fn end_of_triple<'a>(bump: &'a Bump, got: &[SymOp]) -> Result<Front<'a>, NoMemory>
    ensures { IfOk result (λ r. front_tree r ≡ ends.end_of_triple got.now) }
{
    match got {
        [_, _, left, _, _, right, ..] => {
            one_place(bump, left.kind(), right.kind(), left.at(), right.at())
        }
        _ => Ok(Front::Holds),
    }
}
