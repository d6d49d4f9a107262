//! Goals whose questions are laid out, as far as to where transformations begin.
ghost use Rattle.std.specs.Prelude.{◌≡◌, Some, false, IfOk};
ghost use Rattle.std.specs.List.{All};
ghost use Rattle.fn_rules.specs.declared.function.ObName.{ObName};
ghost use Rattle.fn_rules.specs.Formulas.{formula_of};
ghost use Rattle.fn_rules.specs.Rules.{function_of};
ghost use Rattle.ot_questions.specs.Nears.{IsNearOp, HasNearAtoms};
ghost use Rattle.ot_terms.specs.Belonging.{IsGoalOf};
ghost use Rattle.ot_terms.specs.Forms.{form_tree};
ghost use Rattle.ot_terms.specs.Goals.{goal_tree, Choose, If};
ghost use Rattle.ot_rewrite.specs.Steps.{trial_tree};
ghost use Rattle.start_laws.specs.Settled as marks;
ghost use Rattle.start_laws.specs.Settled.{StandsMarked};
ghost use Rattle.ot_starts.specs.Kept.{IsKeptEnd};

use crate::fronts::is_begun;
use crate::kept::{Ends, found, learnt};
use crate::settling::next_of;
use crate::trying::trial;
use ask_core::NoMemory;
use bumpalo::Bump;
use fn_rules::Rules;
use ot_paths::{by_form, by_guard};
use ot_rewrite::{Front, Trial};
use ot_terms::{Form, Goal, GoalProgress, Operands, placed};
use start_laws::rules_keep_starts;

// The goal of the arena after one rule, laid out.
#[cycle(laid)]
#[inline]
fn behind_laid<'a>(
    rules: &Rules,
    ends: &mut Ends<'a>,
    goal: &'a Goal<'a>,
) -> Result<&'a Goal<'a>, NoMemory>
    requires goal { (ob : ObName) × IsGoalOf (function_of rules.now) ob (goal_tree goal.now) }
    requires open { marks.is_settled (goal_tree goal.now) ≡ false }
    requires kept { All (IsKeptEnd (function_of rules.now)) ends.old.kept.goals.items }
    ensures stands { IfOk result (λ r. StandsMarked (function_of rules.now) (goal_tree goal.now) (goal_tree r.now)) }
    ensures kept { All (IsKeptEnd (function_of rules.now)) ends.new.kept.goals.items }
{
    let next = next_of(ends.bump, rules, goal)?;
    laid(rules, ends, next)
}

// The goal after one rule, laid out.
#[cycle(laid)]
#[inline]
fn next_laid<'a>(
    rules: &Rules,
    ends: &mut Ends<'a>,
    goal: &Goal<'a>,
) -> Result<&'a Goal<'a>, NoMemory>
    requires goal { (ob : ObName) × IsGoalOf (function_of rules.now) ob (goal_tree goal.now) }
    requires open { marks.is_settled (goal_tree goal.now) ≡ false }
    requires kept { All (IsKeptEnd (function_of rules.now)) ends.old.kept.goals.items }
    ensures stands { IfOk result (λ r. StandsMarked (function_of rules.now) (goal_tree goal.now) (goal_tree r.now)) }
    ensures kept { All (IsKeptEnd (function_of rules.now)) ends.new.kept.goals.items }
{
    let at = placed(ends.bump, *goal)?;
    behind_laid(rules, ends, at)
}

// What follows the last transformation, laid out and kept.
#[cycle(laid)]
#[inline]
fn end_built<'a>(
    rules: &Rules,
    ends: &mut Ends<'a>,
    goal: &Goal<'a>,
) -> Result<&'a Goal<'a>, NoMemory>
    requires goal { (ob : ObName) × IsGoalOf (function_of rules.now) ob (goal_tree goal.now) }
    requires open { marks.is_settled (goal_tree goal.now) ≡ false }
    requires kept { All (IsKeptEnd (function_of rules.now)) ends.old.kept.goals.items }
    ensures stands { IfOk result (λ r. StandsMarked (function_of rules.now) (goal_tree goal.now) (goal_tree r.now)) }
    ensures kept { All (IsKeptEnd (function_of rules.now)) ends.new.kept.goals.items }
{
    let at = placed(ends.bump, *goal)?;
    let built = behind_laid(rules, ends, at)?;
    learnt(&mut ends.kept, at, built)
}

// What follows the last transformation, laid out once for each result.
#[cycle(laid)]
#[inline]
fn end_laid<'a>(
    rules: &Rules,
    ends: &mut Ends<'a>,
    goal: &Goal<'a>,
) -> Result<&'a Goal<'a>, NoMemory>
    requires goal { (ob : ObName) × IsGoalOf (function_of rules.now) ob (goal_tree goal.now) }
    requires open { marks.is_settled (goal_tree goal.now) ≡ false }
    requires kept { All (IsKeptEnd (function_of rules.now)) ends.old.kept.goals.items }
    ensures stands { IfOk result (λ r. StandsMarked (function_of rules.now) (goal_tree goal.now) (goal_tree r.now)) }
    ensures kept { All (IsKeptEnd (function_of rules.now)) ends.new.kept.goals.items }
{
    if let Some(known) = found(&ends.kept, goal) {
        return Ok(known);
    }
    end_built(rules, ends, goal)
}

// One of two goals by a form, laid out.
#[cycle(laid)]
#[inline]
fn form_laid<'a>(
    rules: &Rules,
    ends: &mut Ends<'a>,
    form: &Form<'a>,
    yes: &Goal<'a>,
    no: &Goal<'a>,
) -> Result<&'a Goal<'a>, NoMemory>
    requires goal { (ob : ObName) × IsGoalOf (function_of rules.now) ob (If (form_tree form.now) (goal_tree yes.now)
        (goal_tree no.now)) }
    requires kept { All (IsKeptEnd (function_of rules.now)) ends.old.kept.goals.items }
    ensures stands { IfOk result (λ r. StandsMarked (function_of rules.now) (If (form_tree form.now)
        (goal_tree yes.now) (goal_tree no.now)) (goal_tree r.now)) }
    ensures kept { All (IsKeptEnd (function_of rules.now)) ends.new.kept.goals.items }
{
    let on_no = laid(rules, ends, no)?;
    let on_yes = laid(rules, ends, yes)?;
    by_form(ends.bump, form, on_yes, on_no)
}

// The case that is tried, laid out.
#[cycle(laid)]
#[inline]
fn tried_laid<'a>(
    rules: &Rules,
    ends: &mut Ends<'a>,
    ops: &Operands,
    tried: &Trial<'_, 'a>,
) -> Result<&'a Goal<'a>, NoMemory>
    requires goal { (ob : ObName) × IsGoalOf (function_of rules.now) ob
        (trial_tree ops.now.a ops.now.b (Some tried.now)) }
    requires a_near { IsNearOp 200 ops.now.a }
    requires b_near { IsNearOp 200 ops.now.b }
    requires atoms_near { HasNearAtoms (formula_of tried.now.guard.now) }
    requires kept { All (IsKeptEnd (function_of rules.now)) ends.old.kept.goals.items }
    ensures stands { IfOk result (λ r. StandsMarked (function_of rules.now)
        (trial_tree ops.now.a ops.now.b (Some tried.now)) (goal_tree r.now)) }
    ensures kept { All (IsKeptEnd (function_of rules.now)) ends.new.kept.goals.items }
{
    let on_no = laid(rules, ends, &tried.no)?;
    let on_yes = laid(rules, ends, &tried.yes)?;
    by_guard(ends.bump, tried.guard, &ops.a, &ops.b, on_yes, on_no)
}

// What is left where cases are tried, laid out.
#[cycle(laid)]
#[inline]
fn cases_laid<'a>(
    rules: &Rules,
    ends: &mut Ends<'a>,
    case: u32,
    ops: &'a Operands,
    plan: &'a GoalProgress,
) -> Result<&'a Goal<'a>, NoMemory>
    requires goal { (ob : ObName) × IsGoalOf (function_of rules.now) ob (Choose case ops.now.a ops.now.b plan.now) }
    requires later { marks.is_begun (Choose case ops.now.a ops.now.b plan.now) ≡ false }
    requires kept { All (IsKeptEnd (function_of rules.now)) ends.old.kept.goals.items }
    ensures stands { IfOk result (λ r. StandsMarked (function_of rules.now) (Choose case ops.now.a ops.now.b plan.now)
        (goal_tree r.now)) }
    ensures kept { All (IsKeptEnd (function_of rules.now)) ends.new.kept.goals.items }
{
    match trial(rules, case, ops, plan) {
        Some(tried) => tried_laid(rules, ends, ops, &tried),
        None => next_laid(rules, ends, &Goal::Choose { case, ops, plan }),
    }
}

/// The goal with its questions laid out in the arena, up to its ends and to where transformations begin. It stands for
/// the same plan with the same starts. What follows the last transformation is laid out once for each result, and kept.
#[cycle(laid)]
pub(crate) fn laid<'a>(
    rules: &Rules,
    ends: &mut Ends<'a>,
    goal: &Goal<'a>,
) -> Result<&'a Goal<'a>, NoMemory>
    requires goal { (ob : ObName) × IsGoalOf (function_of rules.now) ob (goal_tree goal.now) }
    requires kept { All (IsKeptEnd (function_of rules.now)) ends.old.kept.goals.items }
    ensures stands { IfOk result (λ r. StandsMarked (function_of rules.now) (goal_tree goal.now) (goal_tree r.now)) }
    ensures kept { All (IsKeptEnd (function_of rules.now)) ends.new.kept.goals.items }
{
    if is_begun(goal) {
        return placed(ends.bump, *goal);
    }
    rules_keep_starts();
    match Front::of(goal) {
        Front::Holds | Front::Fails(_) => placed(ends.bump, *goal),
        Front::If { form, yes, no } => form_laid(rules, ends, &form, yes, no),
        Front::Deliver { .. } => end_laid(rules, ends, goal),
        Front::Choose {
            case,
            ops,
            progress,
        } => cases_laid(rules, ends, case, ops, progress),
        Front::Same { .. } => next_laid(rules, ends, goal),
    }
}
