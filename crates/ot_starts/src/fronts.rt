//! What stands at the front of a goal.
ghost use Rattle.std.specs.Prelude.{◌≡◌, ℕ, Some, None, false, IsTrue, IfOk, IfSome, MatchOption, option_map, is_some};
ghost use Rattle.fn_rules.specs.declared.function.ObName.{ObName};
ghost use Rattle.fn_rules.specs.Functions.{Function};
ghost use Rattle.fn_rules.specs.Rules.{function_of};
ghost use Rattle.proof_trees.specs.Starts.{conditions_between};
ghost use Rattle.ot_terms.specs.Belonging.{IsGoalOf};
ghost use Rattle.ot_terms.specs.Forms.{form_tree, Le};
ghost use Rattle.ot_terms.specs.Goals.{goal_tree};
ghost use Rattle.ot_terms.specs.Weights.{transforms_of};
ghost use Rattle.ot_rewrite.specs.Fronts as fronts;
ghost use Rattle.start_laws.specs.Begun.{IsBegunProgress, start_after};
ghost use Rattle.start_laws.specs.Starts.{compare_starts};
ghost use Rattle.start_laws.specs.Settled as marks;

use ask_core::NoMemory;
use diff_graph::Lit;
use fn_rules::{ObName, Rules};
use ot_terms::{Form, Goal, Place};
use plain_list::List;
use start_laws::{StartAt, compare, results_stay_near};
use std::alloc::Global;

// How many transformations an obligation has.
#[inline]
fn transforms(ob: ObName) -> u32
    ensures { result ≡ transforms_of ob }
{
    match ob {
        ObName::Pair(..) => 2,
        ObName::Triple(..) => 6,
    }
}

/// The places that a form compares, if it is a question.
#[inline]
pub(crate) fn question(form: Form<'_>) -> Option<(Place, Place)>
    ensures { MatchOption result (fronts.is_question (form_tree form.entry) ≡ false)
        (λ places. (form_tree form.entry ≡ Le places.0 places.1) × IsTrue (fronts.is_question (form_tree form.entry))) }
{
    match form {
        Form::Le(x, y) => {
            if x.var == y.var {
                return None;
            }
            Some((x, y))
        }
        _ => None,
    }
}

/// Whether nothing is left to be rewritten at the front of the goal.
#[inline(always)]
pub(crate) fn is_at_front(goal: &Goal<'_>) -> bool
    ensures { result ≡ fronts.is_at_front (goal_tree goal.now) }
{
    match *goal {
        Goal::Holds => true,
        Goal::Fails(_) => true,
        Goal::Ask { order, .. } => question(order.form()).is_some(),
        Goal::If { form, .. } => question(*form).is_some(),
        _ => false,
    }
}

/// The start at the front of the goal, if a transformation begins there.
#[inline]
pub(crate) fn start_at<'a>(goal: &Goal<'a>) -> Option<StartAt<'a>>
    ensures start { option_map (λ s. start_after s.progress.now s.last) result
        ≡ marks.front_start (goal_tree goal.now) }
    ensures begun { (f : Function) (ob : ObName) → IsGoalOf f ob (goal_tree goal.now)
        → IfSome result (λ s. IsBegunProgress s.progress.now s.last) }
{
    results_stay_near();
    match *goal {
        Goal::Choose {
            case: 0,
            plan: progress,
            ..
        } => Some(StartAt {
            progress,
            last: None,
        }),
        Goal::Deliver { op, plan: progress } => {
            if u32::from(progress.count) + 1 < transforms(progress.ob) {
                return Some(StartAt {
                    progress,
                    last: Some(op),
                });
            }
            None
        }
        _ => None,
    }
}

/// Whether a transformation begins at the front of the goal.
#[inline]
pub(crate) fn is_begun(goal: &Goal<'_>) -> bool
    ensures { result ≡ is_some (marks.front_start (goal_tree goal.now)) }
{
    start_at(goal).is_some()
}

/// The conditions under which a lemma of the one goal's start serves at the other one, or none where the starts do not
/// compare or one is not there.
pub(crate) fn compared(
    alloc: Global,
    rules: &Rules,
    lemma: &Goal<'_>,
    here: &Goal<'_>,
) -> Result<Option<List<Lit>>, NoMemory>
    requires lemma { (ob : ObName) × IsGoalOf (function_of rules.now) ob (goal_tree lemma.now) }
    requires here { (ob : ObName) × IsGoalOf (function_of rules.now) ob (goal_tree here.now) }
    ensures { IfOk result (λ found. found
        ≡ conditions_between compare_starts (marks.front_start (goal_tree lemma.now))
        (marks.front_start (goal_tree here.now))) }
{
    let Some(shown) = start_at(lemma) else {
        return Ok(None);
    };
    let Some(wanted) = start_at(here) else {
        return Ok(None);
    };
    compare(alloc, &shown, &wanted)
}
