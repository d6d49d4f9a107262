//! A goal after one rule.
ghost use Rattle.std.specs.Prelude.{IsTrue, None, ◌≡◌, Some, IfOk, MatchOption, option_map};
ghost use Rattle.fn_rules.specs.declared.function.ObName.{ObName};
ghost use Rattle.fn_rules.specs.Functions.{Function};
ghost use Rattle.fn_rules.specs.Rules.{function_of};
ghost use Rattle.ot_terms.specs.Belonging.{IsGoalOf};
ghost use Rattle.ot_terms.specs.Goals.{goal_tree};
ghost use Rattle.ot_rewrite.specs.Fronts.{is_at_front};
ghost use Rattle.ot_rewrite.specs.Reaching.{IsStep};
ghost use Rattle.ot_rewrite.specs.Steps.{front_tree};
ghost use Rattle.ot_rewrite.specs.Table.{rewritten};

use crate::{Front, rewrite};
use ask_core::NoMemory;
use bumpalo::Bump;
use fn_rules::{Rules, rules_are_valid};
use ot_terms::{Form, Goal};

// The part that is left where the form of a goal is decided.
#[tactic(auto, unfolding(crate::specs::Table::rewritten))]
fn part_of<'a>(goal: &'a Goal<'a>) -> Option<&'a Goal<'a>>
    ensures { (f : Function) → MatchOption result (Unit {0})
        (λ r. rewritten f (goal_tree goal.now) ≡ Some (goal_tree r.now)) }
{
    let Front::If { form, yes, no } = Front::of(goal) else {
        return None;
    };
    match form {
        Form::True => Some(yes),
        Form::Le(x, y) => {
            if x.is_at_most(y)? {
                return Some(yes);
            }
            Some(no)
        }
        _ => None,
    }
}

// The goal after one rule. Where the rule leaves a part of the goal, it is that part.
#[tactic(auto, using(crate::proofs::Ready::ready))]
fn stepped<'a>(
    bump: &'a Bump,
    rules: &Rules,
    goal: &'a Goal<'a>,
) -> Result<Option<&'a Goal<'a>>, NoMemory>
    requires { (ob : ObName) × IsGoalOf (function_of rules.now) ob (goal_tree goal.now) }
    ensures { IfOk result (λ r. option_map (λ g. goal_tree g.now) r
        ≡ rewritten (function_of rules.now) (goal_tree goal.now)) }
{
    if let Some(part) = part_of(goal) {
        return Ok(Some(part));
    }
    match rewrite(bump, rules, Front::of(goal))? {
        Some(front) => Ok(Some(front.placed(bump)?)),
        None => Ok(None),
    }
}

/// The goal after one rule, of one that is held at its front; none where it holds or fails or asks a question.
#[inline]
pub fn step_front<'a>(
    bump: &'a Bump,
    rules: &Rules,
    front: Front<'a>,
) -> Result<Option<Front<'a>>, NoMemory>
    requires { (ob : ObName) × IsGoalOf (function_of rules.now) ob (front_tree front) }
    ensures { IfOk result (λ r. MatchOption r (IsTrue (is_at_front (front_tree front.entry)))
        (λ next. IsStep (function_of rules.now) (front_tree front.entry) (front_tree next))) }
{
    rules_are_valid(rules);
    rewrite(bump, rules, front)
}

/// The goal after one rule; none where it holds or fails or asks a question. It asks the same, is true at the
/// same valuations, is of the same function and obligation, and weighs less. Where the rule leaves a part of the
/// goal, it is that part, and nothing is placed into the arena.
pub fn step<'a>(
    bump: &'a Bump,
    rules: &Rules,
    goal: &'a Goal<'a>,
) -> Result<Option<&'a Goal<'a>>, NoMemory>
    requires { (ob : ObName) × IsGoalOf (function_of rules.now) ob (goal_tree goal.now) }
    ensures rule { IfOk result (λ r. option_map (λ g. goal_tree g.now) r
        ≡ rewritten (function_of rules.now) (goal_tree goal.now)) }
    ensures kept { IfOk result (λ r. MatchOption r (IsTrue (is_at_front (goal_tree goal.now)))
        (λ g. IsStep (function_of rules.now) (goal_tree goal.now) (goal_tree g.now))) }
    ensures stops { IfOk result (λ r. IsTrue (is_at_front (goal_tree goal.now)) → r ≡ None) }
{
    rules_are_valid(rules);
    stepped(bump, rules, goal)
}
