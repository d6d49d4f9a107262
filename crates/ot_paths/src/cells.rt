//! Comparisons of two cells with their questions laid out: the left cell is read first, and then the right one.
ghost use Rattle.std.specs.Prelude.{◌≡◌, false, IfOk, MatchOption};
ghost use Rattle.std.specs.List.{All};
ghost use Rattle.fn_rules.specs.declared.function.ObName.{ObName};
ghost use Rattle.fn_rules.specs.Rules.{function_of};
ghost use Rattle.ot_terms.specs.Belonging.{IsGoalOf};
ghost use Rattle.ot_terms.specs.Cells as trees;
ghost use Rattle.ot_terms.specs.Cells.{cell_tree};
ghost use Rattle.ot_terms.specs.Forms.{form_tree};
ghost use Rattle.ot_terms.specs.Goals.{goal_tree, If, Same};
ghost use Rattle.ot_paths.specs.Cells.{is_parted, IsRead};
ghost use Rattle.ot_paths.specs.Sharing.{StandsAlike, IsKeptRead};

use crate::behind::{found_read, learnt_read};
use crate::forms::by_form;
use crate::kept::Compared;
use ask_core::NoMemory;
use bumpalo::Bump;
use cell_rules::{finished, read_step};
use fn_rules::{Rules, rules_are_valid};
use ot_rewrite::{Front, same_finished};
use ot_terms::{CellT, Form, Goal};

// The form of a cell that is one of two, and the two.
#[inline(always)]
fn parts<'a>(cell: CellT<'a>) -> Option<(&'a Form<'a>, &'a CellT<'a>, &'a CellT<'a>)>
    ensures { MatchOption result (is_parted (cell_tree cell.entry) ≡ false)
        (λ p. cell_tree cell.entry ≡ trees.If (form_tree p.0.now) (cell_tree p.1.now) (cell_tree p.2.now)) }
{
    match cell {
        CellT::If { form, yes, no } => Some((form, yes, no)),
        _ => None,
    }
}

// The comparison where both cells are read.
fn by_ends<'a>(
    bump: &'a Bump,
    rules: &Rules,
    left: CellT<'a>,
    right: CellT<'a>,
) -> Result<&'a Goal<'a>, NoMemory>
    requires goal { (ob : ObName) × IsGoalOf (function_of rules.now) ob (Same (cell_tree left) (cell_tree right)) }
    requires left_read { IsRead (cell_tree left) }
    requires right_read { IsRead (cell_tree right) }
    ensures { IfOk result (λ r. StandsAlike (function_of rules.now)
        (Same (cell_tree left.entry) (cell_tree right.entry)) (goal_tree r.now)) }
{
    rules_are_valid(rules);
    let Some(first) = finished(left) else {
        return Front::Same { left, right }.placed(bump);
    };
    let Some(second) = finished(right) else {
        return Front::Same { left, right }.placed(bump);
    };
    match same_finished(bump, first, second)? {
        Front::If { form, yes, no } => by_form(bump, &form, yes, no),
        front => front.placed(bump),
    }
}

// Two comparisons by a form, where the left cell is read.
#[cycle(by_right)]
fn right_parted<'a>(
    bump: &'a Bump,
    rules: &Rules,
    left: CellT<'a>,
    form: &Form<'a>,
    yes: &CellT<'a>,
    no: &CellT<'a>,
) -> Result<&'a Goal<'a>, NoMemory>
    requires goal { (ob : ObName) × IsGoalOf (function_of rules.now) ob (If (form_tree form.now)
        (Same (cell_tree left) (cell_tree yes.now)) (Same (cell_tree left) (cell_tree no.now))) }
    requires read { IsRead (cell_tree left) }
    ensures { IfOk result (λ r. StandsAlike (function_of rules.now) (If (form_tree form.now)
        (Same (cell_tree left.entry) (cell_tree yes.now)) (Same (cell_tree left.entry) (cell_tree no.now)))
        (goal_tree r.now)) }
{
    let on_no = by_right(bump, rules, left, *no)?;
    let on_yes = by_right(bump, rules, left, *yes)?;
    by_form(bump, form, on_yes, on_no)
}

// The comparison where the left cell is read.
#[cycle(by_right)]
fn by_right<'a>(
    bump: &'a Bump,
    rules: &Rules,
    left: CellT<'a>,
    right: CellT<'a>,
) -> Result<&'a Goal<'a>, NoMemory>
    requires goal { (ob : ObName) × IsGoalOf (function_of rules.now) ob (Same (cell_tree left) (cell_tree right)) }
    requires read { IsRead (cell_tree left) }
    ensures { IfOk result (λ r. StandsAlike (function_of rules.now)
        (Same (cell_tree left.entry) (cell_tree right.entry)) (goal_tree r.now)) }
{
    rules_are_valid(rules);
    if let Some(read) = read_step(bump, right)? {
        return by_right(bump, rules, left, read);
    }
    let Some((form, yes, no)) = parts(right) else {
        return by_ends(bump, rules, left, right);
    };
    right_parted(bump, rules, left, form, yes, no)
}

// The comparison where the left cell is read, which is laid out once for each cell that comes of reading.
fn by_known<'a>(
    bump: &'a Bump,
    rules: &Rules,
    known: &mut Vec<Compared<'a>, &'a Bump>,
    left: CellT<'a>,
    right: CellT<'a>,
) -> Result<&'a Goal<'a>, NoMemory>
    requires goal { (ob : ObName) × IsGoalOf (function_of rules.now) ob (Same (cell_tree left) (cell_tree right)) }
    requires read { IsRead (cell_tree left) }
    requires known { All (IsKeptRead (function_of rules.now) (cell_tree right)) known.old.items }
    ensures alike { IfOk result (λ r. StandsAlike (function_of rules.now)
        (Same (cell_tree left.entry) (cell_tree right.entry)) (goal_tree r.now)) }
    ensures known { IfOk result (λ _. All (IsKeptRead (function_of rules.now) (cell_tree right.entry))
        known.new.items) }
{
    if let Some(built) = found_read(known, left) {
        return Ok(built);
    }
    let built = by_right(bump, rules, left, right)?;
    learnt_read(known, left, built)
}

// Two comparisons by a form, where `known` tells what is left of each where its left cell is read.
#[cycle(by_left)]
fn left_parted<'a>(
    bump: &'a Bump,
    rules: &Rules,
    known: &mut Vec<Compared<'a>, &'a Bump>,
    form: &Form<'a>,
    yes: &CellT<'a>,
    no: &CellT<'a>,
    right: CellT<'a>,
) -> Result<&'a Goal<'a>, NoMemory>
    requires goal { (ob : ObName) × IsGoalOf (function_of rules.now) ob (If (form_tree form.now)
        (Same (cell_tree yes.now) (cell_tree right)) (Same (cell_tree no.now) (cell_tree right))) }
    requires known { All (IsKeptRead (function_of rules.now) (cell_tree right)) known.old.items }
    ensures alike { IfOk result (λ r. StandsAlike (function_of rules.now) (If (form_tree form.now)
        (Same (cell_tree yes.now) (cell_tree right.entry)) (Same (cell_tree no.now) (cell_tree right.entry)))
        (goal_tree r.now)) }
    ensures known { IfOk result (λ _. All (IsKeptRead (function_of rules.now) (cell_tree right.entry))
        known.new.items) }
{
    let on_no = by_left(bump, rules, known, *no, right)?;
    let on_yes = by_left(bump, rules, known, *yes, right)?;
    by_form(bump, form, on_yes, on_no)
}

// The comparison, where `known` tells what is left of it where the left cell is read.
#[cycle(by_left)]
fn by_left<'a>(
    bump: &'a Bump,
    rules: &Rules,
    known: &mut Vec<Compared<'a>, &'a Bump>,
    left: CellT<'a>,
    right: CellT<'a>,
) -> Result<&'a Goal<'a>, NoMemory>
    requires goal { (ob : ObName) × IsGoalOf (function_of rules.now) ob (Same (cell_tree left) (cell_tree right)) }
    requires known { All (IsKeptRead (function_of rules.now) (cell_tree right)) known.old.items }
    ensures alike { IfOk result (λ r. StandsAlike (function_of rules.now)
        (Same (cell_tree left.entry) (cell_tree right.entry)) (goal_tree r.now)) }
    ensures known { IfOk result (λ _. All (IsKeptRead (function_of rules.now) (cell_tree right.entry))
        known.new.items) }
{
    rules_are_valid(rules);
    if let Some(read) = read_step(bump, left)? {
        return by_left(bump, rules, known, read, right);
    }
    let Some((form, yes, no)) = parts(left) else {
        return by_known(bump, rules, known, left, right);
    };
    left_parted(bump, rules, known, form, yes, no, right)
}

/// The comparison of two cells. What is left of it where the left cell is read is laid out once for each cell that
/// comes of reading.
pub(crate) fn by_cells<'a>(
    bump: &'a Bump,
    rules: &Rules,
    left: CellT<'a>,
    right: CellT<'a>,
) -> Result<&'a Goal<'a>, NoMemory>
    requires { (ob : ObName) × IsGoalOf (function_of rules.now) ob (Same (cell_tree left) (cell_tree right)) }
    ensures { IfOk result (λ r. StandsAlike (function_of rules.now)
        (Same (cell_tree left.entry) (cell_tree right.entry)) (goal_tree r.now)) }
{
    let mut known = Vec::new(bump);
    by_left(bump, rules, &mut known, left, right)
}
