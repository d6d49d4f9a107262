//! Goals as far as to where something is asked or begins.
ghost use Rattle.std.specs.Prelude.{◌≡◌, ◌<◌, IsTrue, false, IfOk};
ghost use Rattle.fn_rules.specs.declared.function.ObName.{ObName};
ghost use Rattle.fn_rules.specs.Obligations.{is_obligation};
ghost use Rattle.fn_rules.specs.Rules.{function_of};
ghost use Rattle.ot_questions.specs.Obligation.{plan_of};
ghost use Rattle.ot_terms.specs.Belonging.{IsGoalOf};
ghost use Rattle.ot_terms.specs.Goals.{goal_tree};
ghost use Rattle.ot_terms.specs.Standing.{ask_goal};
ghost use Rattle.ot_terms.specs.Weights.{goal_weight};
ghost use Rattle.start_laws.specs.Marking.{marked_goal, marked_plan};
ghost use Rattle.start_laws.specs.Settled as marks;
ghost use Rattle.start_laws.specs.Settled.{StandsMarked};
ghost use Rattle.ot_starts.specs.Nodes.{IsStop};

use crate::fronts::{is_at_front, start_at};
use ask_core::NoMemory;
use bumpalo::Bump;
use first_goals::start_goal;
use fn_rules::{ObName, Rules, rules_are_valid};
use ot_questions::plans_keep_limits;
use ot_rewrite::step;
use ot_terms::{Goal, first_goals_stand_for_obligations};
use start_laws::rules_keep_starts;

// Whether the goal is one that an asker stops at.
fn is_settled(goal: &Goal<'_>) -> bool
    ensures { result ≡ marks.is_settled (goal_tree goal.now) }
{
    rules_keep_starts();
    start_at(goal).is_some() || is_at_front(goal)
}

// The goal after one rule, which is not one that an asker stops at.
pub(crate) fn next_of<'a>(
    bump: &'a Bump,
    rules: &Rules,
    goal: &'a Goal<'a>,
) -> Result<&'a Goal<'a>, NoMemory>
    requires goal { (ob : ObName) × IsGoalOf (function_of rules.now) ob (goal_tree goal.now) }
    requires open { marks.is_settled (goal_tree goal.now) ≡ false }
    ensures alike { IfOk result (λ r. StandsMarked (function_of rules.now) (goal_tree goal.now) (goal_tree r.now)) }
    ensures lighter { IfOk result (λ r. goal_weight (function_of rules.now) (goal_tree r.now) < goal_weight
        (function_of rules.now) (goal_tree goal.now)) }
{
    rules_keep_starts();
    rules_are_valid(rules);
    match step(bump, rules, goal)? {
        Some(next) => Ok(next),
        None => Ok(goal),
    }
}

// The goal by one rule after another, until an asker stops at it.
#[inline(never)]
fn stopped<'a>(bump: &'a Bump, rules: &Rules, goal: &'a Goal<'a>) -> Result<&'a Goal<'a>, NoMemory>
    requires { (ob : ObName) × IsGoalOf (function_of rules.now) ob (goal_tree goal.now) }
    ensures alike { IfOk result (λ r. StandsMarked (function_of rules.now) (goal_tree goal.now) (goal_tree r.now)) }
    ensures settled { IfOk result (λ r. IsTrue (marks.is_settled (goal_tree r.now))) }
{
    if is_settled(goal) {
        return Ok(goal);
    }
    let next = next_of(bump, rules, goal)?;
    stopped(bump, rules, next)
}

/// The goal as far as to its first question, to its end, or to where a transformation begins. It stands for the same
/// plan with the same starts. Most goals are there already.
#[inline(always)]
pub(crate) fn settled<'a>(
    bump: &'a Bump,
    rules: &Rules,
    goal: &'a Goal<'a>,
) -> Result<&'a Goal<'a>, NoMemory>
    requires { (ob : ObName) × IsGoalOf (function_of rules.now) ob (goal_tree goal.now) }
    ensures alike { IfOk result (λ r. StandsMarked (function_of rules.now) (goal_tree goal.now) (goal_tree r.now)) }
    ensures settled { IfOk result (λ r. IsTrue (marks.is_settled (goal_tree r.now))) }
{
    rules_keep_starts();
    if is_at_front(goal) {
        return Ok(goal);
    }
    stopped(bump, rules, goal)
}

/// What an obligation begins with, as far as to its first question.
pub(crate) fn first_stop<'a>(
    bump: &'a Bump,
    rules: &Rules,
    ob: ObName,
) -> Result<&'a Goal<'a>, NoMemory>
    requires { IsTrue (is_obligation (function_of rules.now).head ob) }
    ensures stop { IfOk result (λ g. IsStop (function_of rules.now) ob (goal_tree g.now)) }
    ensures plan { IfOk result (λ g. ask_goal (function_of rules.now) (goal_tree g.now)
        ≡ plan_of (function_of rules.now) ob) }
    ensures marked { IfOk result (λ g. marked_goal (function_of rules.now) (goal_tree g.now)
        ≡ marked_plan (function_of rules.now) ob) }
{
    let start = start_goal(bump, rules, ob)?;
    plans_keep_limits();
    first_goals_stand_for_obligations();
    rules_are_valid(rules);
    settled(bump, rules, start)
}
