//! Goals whose questions are laid out, as far as to the next results.
ghost use Rattle.std.specs.Prelude.{◌≡◌, ◌≤◌, false, IfOk, IfSome};
ghost use Rattle.std.specs.List.{All};
ghost use Rattle.fn_rules.specs.declared.function.ObName.{ObName};
ghost use Rattle.fn_rules.specs.Rules.{function_of};
ghost use Rattle.ot_terms.specs.Belonging.{IsGoalOf};
ghost use Rattle.ot_terms.specs.Forms.{form_tree};
ghost use Rattle.ot_terms.specs.Goals.{goal_tree, Choose, Deliver, If};
ghost use Rattle.ot_rewrite.specs.Fronts.{is_at_front};
ghost use Rattle.ot_rewrite.specs.Reaching.{IsStep};
ghost use Rattle.ot_rewrite.specs.Steps.{front_tree};
ghost use Rattle.ot_paths.specs.Sharing.{StandsAlike, IsKeptGoal};
ghost use Rattle.ot_paths.specs.Trials.{IsTrialOf};

use crate::behind::{found, learnt};
use crate::cells::by_cells;
use crate::forms::{by_form, by_guard};
use crate::kept::Behind;
use ask_core::NoMemory;
use bumpalo::Bump;
use fn_rules::{Rules, rules_are_valid};
use ot_rewrite::{Front, Trial, next_case, step_front};
use ot_terms::{Form, Goal, GoalProgress, Operands, SymOp, placed};

/// How many bytes an arena may have where more is laid out.
const ROOM: usize = 2_097_152;

/// The case that is tried next; none where none is left or an operation is nop.
#[inline]
pub fn trial<'r, 'a>(
    rules: &'r Rules,
    case: u32,
    ops: &'a Operands,
    progress: &'a GoalProgress,
) -> Option<Trial<'r, 'a>>
    requires { (ob : ObName) × IsGoalOf (function_of rules.now) ob (Choose case ops.now.a ops.now.b progress.now) }
    ensures { IfSome result (IsTrialOf (function_of rules.now) (Choose case ops.now.a ops.now.b progress.now)
        ops.now.a ops.now.b) }
{
    next_case(rules, case, ops, progress)
}

// The goal after one rule, of one at whose front something is left to be rewritten.
#[inline]
fn next_of<'a>(bump: &'a Bump, rules: &Rules, front: Front<'a>) -> Result<Goal<'a>, NoMemory>
    requires goal { (ob : ObName) × IsGoalOf (function_of rules.now) ob (front_tree front) }
    requires open { is_at_front (front_tree front) ≡ false }
    ensures { IfOk result (λ next. IsStep (function_of rules.now) (front_tree front.entry) (goal_tree next)) }
{
    match step_front(bump, rules, front)? {
        Some(next) => next.goal(bump),
        None => front.goal(bump),
    }
}

// Whether nothing is asked behind either goal, so that they are laid out.
#[inline]
fn are_ends(yes: &Goal<'_>, no: &Goal<'_>) -> bool {
    matches!(*yes, Goal::Holds | Goal::Fails(_)) && matches!(*no, Goal::Holds | Goal::Fails(_))
}

// One of two goals by a form, laid out.
#[cycle(laid)]
#[inline]
fn form_laid<'a>(
    bump: &'a Bump,
    rules: &Rules,
    known: &mut Vec<Behind<'a>, &'a Bump>,
    form: &Form<'a>,
    yes: &'a Goal<'a>,
    no: &'a Goal<'a>,
) -> Result<&'a Goal<'a>, NoMemory>
    requires goal { (ob : ObName) × IsGoalOf (function_of rules.now) ob (If (form_tree form.now) (goal_tree yes.now)
        (goal_tree no.now)) }
    requires known { All (IsKeptGoal (function_of rules.now)) known.old.items }
    ensures alike { IfOk result (λ r. StandsAlike (function_of rules.now) (If (form_tree form.now)
        (goal_tree yes.now) (goal_tree no.now)) (goal_tree r.now)) }
    ensures known { IfOk result (λ _. All (IsKeptGoal (function_of rules.now)) known.new.items) }
{
    if are_ends(yes, no) {
        return by_form(bump, form, yes, no);
    }
    let on_no = laid(bump, rules, known, no)?;
    let on_yes = laid(bump, rules, known, yes)?;
    by_form(bump, form, on_yes, on_no)
}

// What is left where cases are tried, laid out.
#[cycle(laid)]
#[inline]
fn cases_laid<'a>(
    bump: &'a Bump,
    rules: &Rules,
    known: &mut Vec<Behind<'a>, &'a Bump>,
    case: u32,
    ops: &'a Operands,
    progress: &'a GoalProgress,
) -> Result<&'a Goal<'a>, NoMemory>
    requires goal { (ob : ObName) × IsGoalOf (function_of rules.now) ob (Choose case ops.now.a ops.now.b progress.now) }
    requires known { All (IsKeptGoal (function_of rules.now)) known.old.items }
    ensures alike { IfOk result (λ r. StandsAlike (function_of rules.now)
        (Choose case ops.now.a ops.now.b progress.now) (goal_tree r.now)) }
    ensures known { IfOk result (λ _. All (IsKeptGoal (function_of rules.now)) known.new.items) }
{
    let Some(Trial { guard, yes, no }) = trial(rules, case, ops, progress) else {
        let front = Front::Choose {
            case,
            ops,
            progress,
        };
        return next_laid(bump, rules, known, front);
    };
    rules_are_valid(rules);
    let on_no = laid(bump, rules, known, &no)?;
    let on_yes = laid(bump, rules, known, &yes)?;
    by_guard(bump, guard, &ops.a, &ops.b, on_yes, on_no)
}

// The goal after one rule, laid out.
#[cycle(laid)]
#[inline]
fn next_laid<'a>(
    bump: &'a Bump,
    rules: &Rules,
    known: &mut Vec<Behind<'a>, &'a Bump>,
    front: Front<'a>,
) -> Result<&'a Goal<'a>, NoMemory>
    requires goal { (ob : ObName) × IsGoalOf (function_of rules.now) ob (front_tree front) }
    requires open { is_at_front (front_tree front) ≡ false }
    requires known { All (IsKeptGoal (function_of rules.now)) known.old.items }
    ensures alike { IfOk result (λ r. StandsAlike (function_of rules.now) (front_tree front.entry) (goal_tree r.now)) }
    ensures known { IfOk result (λ _. All (IsKeptGoal (function_of rules.now)) known.new.items) }
{
    let next = next_of(bump, rules, front)?;
    laid(bump, rules, known, &next)
}

// What is left behind a result, laid out. Nothing is known within it.
#[cycle(laid)]
#[inline]
fn behind_laid<'a>(
    bump: &'a Bump,
    rules: &Rules,
    op: SymOp,
    progress: &'a GoalProgress,
) -> Result<&'a Goal<'a>, NoMemory>
    requires { (ob : ObName) × IsGoalOf (function_of rules.now) ob (Deliver op progress.now) }
    ensures { IfOk result (λ r. StandsAlike (function_of rules.now) (Deliver op progress.now) (goal_tree r.now)) }
{
    let mut inner = Vec::new(bump);
    next_laid(bump, rules, &mut inner, Front::Deliver { op, progress })
}

// What is left behind a result, laid out; the result itself where the arena has no room for more.
#[cycle(laid)]
#[inline]
fn rest_laid<'a>(
    bump: &'a Bump,
    rules: &Rules,
    known: &mut Vec<Behind<'a>, &'a Bump>,
    op: SymOp,
    progress: &'a GoalProgress,
) -> Result<&'a Goal<'a>, NoMemory>
    requires goal { (ob : ObName) × IsGoalOf (function_of rules.now) ob (Deliver op progress.now) }
    requires known { All (IsKeptGoal (function_of rules.now)) known.old.items }
    ensures alike { IfOk result (λ r. StandsAlike (function_of rules.now) (Deliver op progress.now)
        (goal_tree r.now)) }
    ensures known { IfOk result (λ _. All (IsKeptGoal (function_of rules.now)) known.new.items) }
{
    if let Some(built) = found(known, op, progress) {
        return Ok(built);
    }
    if bump.allocated_bytes() > ROOM {
        let plan = progress;
        return placed(bump, Goal::Deliver { op, plan });
    }
    let built = behind_laid(bump, rules, op, progress)?;
    learnt(known, op, progress, built)
}

// The goal with its questions laid out.
#[cycle(laid)]
fn laid<'a>(
    bump: &'a Bump,
    rules: &Rules,
    known: &mut Vec<Behind<'a>, &'a Bump>,
    goal: &Goal<'a>,
) -> Result<&'a Goal<'a>, NoMemory>
    requires goal { (ob : ObName) × IsGoalOf (function_of rules.now) ob (goal_tree goal.now) }
    requires known { All (IsKeptGoal (function_of rules.now)) known.old.items }
    ensures alike { IfOk result (λ r. StandsAlike (function_of rules.now) (goal_tree goal.now) (goal_tree r.now)) }
    ensures known { IfOk result (λ _. All (IsKeptGoal (function_of rules.now)) known.new.items) }
{
    match *goal {
        Goal::Holds | Goal::Fails(_) => placed(bump, *goal),
        Goal::Ask { order, yes, no } => {
            let form = order.form();
            form_laid(bump, rules, known, &form, yes, no)
        }
        Goal::If { form, yes, no } => form_laid(bump, rules, known, form, yes, no),
        Goal::Choose { case, ops, plan } => cases_laid(bump, rules, known, case, ops, plan),
        Goal::Deliver { op, plan } => rest_laid(bump, rules, known, op, plan),
        Goal::Same { left, right } => by_cells(bump, rules, *left, *right),
    }
}

/// The goal with its questions laid out in the arena. What is left behind equal results is laid out once, where
/// `known` tells what is left behind the results of one transformation. Where there is no room for more, results are
/// left to be delivered.
///
/// # Errors
///
/// Want of memory.
#[inline]
pub fn laid_out<'a>(
    bump: &'a Bump,
    rules: &Rules,
    known: &mut Vec<Behind<'a>, &'a Bump>,
    goal: Goal<'a>,
) -> Result<&'a Goal<'a>, NoMemory>
    requires goal { (ob : ObName) × IsGoalOf (function_of rules.now) ob (goal_tree goal) }
    requires known { All (IsKeptGoal (function_of rules.now)) known.old.items }
    ensures alike { IfOk result (λ r. StandsAlike (function_of rules.now) (goal_tree goal.entry) (goal_tree r.now)) }
    ensures known { IfOk result (λ _. All (IsKeptGoal (function_of rules.now)) known.new.items) }
{
    laid(bump, rules, known, &goal)
}
