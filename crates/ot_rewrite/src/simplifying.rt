//! A goal after rules until none fits.
ghost use Rattle.std.specs.Prelude.{◌≡◌, ◌↔◌, ◌≤◌, ℕ, ℤ, IsTrue, IfOk};
ghost use Rattle.fn_rules.specs.declared.function.ObName.{ObName};
ghost use Rattle.fn_rules.specs.Rules.{function_of};
ghost use Rattle.ot_terms.specs.Belonging.{IsGoalOf};
ghost use Rattle.ot_terms.specs.Goals.{goal_tree};
ghost use Rattle.ot_terms.specs.Standing.{ask_goal};
ghost use Rattle.ot_terms.specs.Truth.{goal_holds};
ghost use Rattle.ot_terms.specs.Weights.{goal_weight};
ghost use Rattle.ot_rewrite.specs.Fronts.{is_at_front};
ghost use Rattle.ot_rewrite.specs.Reaching.{Reaches};
ghost use Rattle.ot_rewrite.specs.Steps.{front_tree};

use crate::{Front, rewrite};
use ask_core::NoMemory;
use bumpalo::Bump;
use fn_rules::{Rules, rules_are_valid};
use ot_terms::Goal;

#[inline]
fn same_front<'a>(front: Front<'a>) -> Front<'a>
    ensures { result ≡ front.entry }
{
    front
}

/// The goal after rules until none fits, held at its front: it holds, or fails, or asks the literal that
/// compares two different names, with a part for each answer.
pub fn front_of<'a>(
    bump: &'a Bump,
    rules: &Rules,
    goal: &'a Goal<'a>,
) -> Result<Front<'a>, NoMemory>
    requires { (ob : ObName) × IsGoalOf (function_of rules.now) ob (goal_tree goal.now) }
    ensures reached { IfOk result (λ r. Reaches (function_of rules.now) (goal_tree goal.now) (front_tree r)) }
    ensures at_front { IfOk result (λ r. IsTrue (is_at_front (front_tree r))) }
    ensures asks { IfOk result (λ r. ask_goal (function_of rules.now) (front_tree r)
        ≡ ask_goal (function_of rules.now) (goal_tree goal.now)) }
    ensures truth { IfOk result (λ r. (v : ℕ → ℤ) → goal_holds (function_of rules.now) v (front_tree r)
        ↔ goal_holds (function_of rules.now) v (goal_tree goal.now)) }
    ensures belongs { IfOk result (λ r. (ob : ObName) → IsGoalOf (function_of rules.now) ob (goal_tree goal.now)
        → IsGoalOf (function_of rules.now) ob (front_tree r)) }
    ensures weighs { IfOk result (λ r. goal_weight (function_of rules.now) (front_tree r)
        ≤ goal_weight (function_of rules.now) (goal_tree goal.now)) }
{
    rules_are_valid(rules);
    let mut front = Front::of(goal);
    while let Some(next) = rewrite(bump, rules, front)? {
        front = same_front(next);
    }
    Ok(front)
}

/// The goal after rules until none fits.
pub fn simplify<'a>(
    bump: &'a Bump,
    rules: &Rules,
    goal: &'a Goal<'a>,
) -> Result<&'a Goal<'a>, NoMemory>
    requires { (ob : ObName) × IsGoalOf (function_of rules.now) ob (goal_tree goal.now) }
    ensures reached { IfOk result (λ r. Reaches (function_of rules.now) (goal_tree goal.now) (goal_tree r.now)) }
    ensures at_front { IfOk result (λ r. IsTrue (is_at_front (goal_tree r.now))) }
    ensures asks { IfOk result (λ r. ask_goal (function_of rules.now) (goal_tree r.now)
        ≡ ask_goal (function_of rules.now) (goal_tree goal.now)) }
    ensures truth { IfOk result (λ r. (v : ℕ → ℤ) → goal_holds (function_of rules.now) v (goal_tree r.now)
        ↔ goal_holds (function_of rules.now) v (goal_tree goal.now)) }
    ensures belongs { IfOk result (λ r. (ob : ObName) → IsGoalOf (function_of rules.now) ob (goal_tree goal.now)
        → IsGoalOf (function_of rules.now) ob (goal_tree r.now)) }
    ensures weighs { IfOk result (λ r. goal_weight (function_of rules.now) (goal_tree r.now)
        ≤ goal_weight (function_of rules.now) (goal_tree goal.now)) }
{
    front_of(bump, rules, goal)?.placed(bump)
}
