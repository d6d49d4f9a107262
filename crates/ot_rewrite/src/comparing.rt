//! The rules for the comparison of two cells.
ghost use Rattle.std.specs.Prelude.{◌≡◌, Some, IfOk, option_map};
ghost use Rattle.ot_terms.specs.Cells.{cell_tree};
ghost use Rattle.ot_terms.specs.Forms.{form_tree};
ghost use Rattle.ot_terms.specs.Goals as trees;
ghost use Rattle.ot_terms.specs.Goals.{goal_tree};
ghost use Rattle.cell_rules.specs.Cells as cells;
ghost use Rattle.cell_rules.specs.Cells.{IsReadable};
ghost use Rattle.ot_rewrite.specs.Steps.{front_tree};
ghost use Rattle.ot_rewrite.specs.Table as table;

use crate::front::{Front, fitting};
use crate::known::holds;
use ask_core::NoMemory;
use bumpalo::Bump;
use cell_rules::{finished, read_step};
use ot_questions::{Finished, Source};
use ot_terms::{CellT, Form, Goal, Place, Why, placed};

// Two names stand for one character.
fn same_names<'a>(bump: &'a Bump, c: u8, d: u8, why: Why) -> Result<Front<'a>, NoMemory>
    ensures { IfOk result (λ r. front_tree r ≡ table.same_source (Source.Named c) (Source.Named d) why) }
{
    Ok(Front::If {
        form: Form::Eq(Place::named(c), Place::named(d)),
        yes: holds(),
        no: Goal::fails(bump, why)?,
    })
}

// Two characters are the same: one base cell's, or those of two names.
fn same_source<'a>(
    bump: &'a Bump,
    left: Source,
    right: Source,
    why: Why,
) -> Result<Front<'a>, NoMemory>
    ensures { IfOk result (λ r. front_tree r ≡ table.same_source left right why) }
{
    match left {
        Source::Base(off) => match right {
            Source::Base(there) => {
                if off == there {
                    return Ok(Front::Holds);
                }
                Ok(Front::Fails(why))
            }
            Source::Named(_) => Ok(Front::Fails(why)),
        },
        Source::Named(c) => match right {
            Source::Base(_) => Ok(Front::Fails(why)),
            Source::Named(d) => same_names(bump, c, d, why),
        },
    }
}

/// Two finished cells are the same.
pub fn same_finished<'a>(
    bump: &'a Bump,
    left: Finished,
    right: Finished,
) -> Result<Front<'a>, NoMemory>
    ensures { IfOk result (λ r. front_tree r ≡ table.same_finished left right) }
{
    let why = left.cause_beside(right);
    if left.flag.is_same(right.flag) {
        return same_source(bump, left.source, right.source, why);
    }
    Ok(Front::Fails(why))
}

// Both cells are finished, or none.
fn both_finished<'a>(
    bump: &'a Bump,
    left: Option<Finished>,
    right: Option<Finished>,
) -> Result<Option<Front<'a>>, NoMemory>
    ensures { IfOk result (λ r. option_map front_tree r ≡ table.both_finished left right) }
{
    match left {
        None => Ok(None),
        Some(left) => match right {
            None => Ok(None),
            Some(right) => fitting(same_finished(bump, left, right)),
        },
    }
}

// One of two comparisons, by a form.
fn either<'a>(
    bump: &'a Bump,
    form: &'a Form<'a>,
    yes: Goal<'a>,
    no: Goal<'a>,
) -> Result<Option<Front<'a>>, NoMemory>
    ensures { IfOk result (λ r. option_map front_tree r
        ≡ Some (trees.If (form_tree form.now) (goal_tree yes.entry) (goal_tree no.entry))) }
{
    fitting(Front::either(bump, form, yes, no))
}

// The comparison where the left cell is finished and the right one needs no step.
fn compare_read<'a>(
    bump: &'a Bump,
    left: CellT<'a>,
    right: CellT<'a>,
) -> Result<Option<Front<'a>>, NoMemory>
    ensures { IfOk result (λ r. option_map front_tree r
        ≡ table.rewrite_right (cell_tree left.entry) (cell_tree right.entry) None) }
{
    let CellT::If { form, yes, no } = right else {
        return both_finished(bump, finished(left), finished(right));
    };
    let left = placed(bump, left)?;
    either(
        bump,
        form,
        Goal::Same { left, right: yes },
        Goal::Same { left, right: no },
    )
}

// The comparison where the left cell needs no step: the right one is read.
fn compare_right<'a>(
    bump: &'a Bump,
    left: CellT<'a>,
    right: CellT<'a>,
) -> Result<Option<Front<'a>>, NoMemory>
    requires { IsReadable (cell_tree right) }
    ensures { IfOk result (λ r. option_map front_tree r
        ≡ table.rewrite_right (cell_tree left.entry) (cell_tree right.entry)
        (cells.read_step (cell_tree right.entry))) }
{
    match read_step(bump, right)? {
        Some(read) => Ok(Some(Front::Same { left, right: read })),
        None => compare_read(bump, left, right),
    }
}

// The comparison where the left cell needs no step.
fn compare_left<'a>(
    bump: &'a Bump,
    left: CellT<'a>,
    right: CellT<'a>,
) -> Result<Option<Front<'a>>, NoMemory>
    requires { IsReadable (cell_tree right) }
    ensures { IfOk result (λ r. option_map front_tree r
        ≡ table.rewrite_left (cell_tree left.entry) (cell_tree right.entry) None) }
{
    let CellT::If { form, yes, no } = left else {
        return compare_right(bump, left, right);
    };
    let right = placed(bump, right)?;
    either(
        bump,
        form,
        Goal::Same { left: yes, right },
        Goal::Same { left: no, right },
    )
}

/// The comparison: the left cell is read first.
pub(crate) fn compare<'a>(
    bump: &'a Bump,
    left: CellT<'a>,
    right: CellT<'a>,
) -> Result<Option<Front<'a>>, NoMemory>
    requires left_readable { IsReadable (cell_tree left) }
    requires right_readable { IsReadable (cell_tree right) }
    ensures { IfOk result (λ r. option_map front_tree r
        ≡ table.rewrite_same (cell_tree left.entry) (cell_tree right.entry)) }
{
    match read_step(bump, left)? {
        Some(read) => Ok(Some(Front::Same { left: read, right })),
        None => compare_left(bump, left, right),
    }
}
