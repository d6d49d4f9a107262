//! What the starts of a goal's plan are. These functions do nothing: their contracts are the laws.
ghost use Rattle.std.specs.Prelude.{◌≡◌, IsTrue, is_some, Some, None, false};
ghost use Rattle.fn_rules.specs.declared.function.ObName.{ObName};
ghost use Rattle.fn_rules.specs.Functions.{Function};
ghost use Rattle.fn_rules.specs.Obligations.{is_obligation};
ghost use Rattle.fn_rules.specs.Validity.{is_valid};
ghost use Rattle.ot_rewrite.specs.Table.{rewritten};
ghost use Rattle.proof_trees.specs.Starts.{IsMarkedBy, start_of, unmarked};
ghost use Rattle.ot_questions.specs.Obligation.{plan_of};
ghost use Rattle.ot_terms.specs.Belonging.{IsGoalOf};
ghost use Rattle.ot_terms.specs.Goals.{GoalTree};
ghost use Rattle.ot_terms.specs.Standing.{ask_goal};
ghost use Rattle.start_laws.specs.Starts.{meaning};
ghost use Rattle.start_laws.specs.Marking.{marked_goal, marked_plan, with_start};
ghost use Rattle.start_laws.specs.Settled.{is_begun, front_start, is_settled};

use ot_rewrite::rules_keep_what_is_asked;

/// Without its starts the plan is that of the goal or of the obligation, and each start stands for the plan that is
/// there.
pub fn marked_plans_are_plans()
    ensures goals { (f : Function) (g : GoalTree) → unmarked (marked_goal f g) ≡ ask_goal f g }
    ensures obligations { (f : Function) (ob : ObName) → unmarked (marked_plan f ob) ≡ plan_of f ob }
    ensures starts { (f : Function) (ob : ObName) (g : GoalTree) → IsGoalOf f ob g
        → IsMarkedBy (meaning f) (marked_goal f g) }
    ensures whole { (f : Function) (ob : ObName) → IsTrue (is_obligation f.head ob)
        → IsMarkedBy (meaning f) (marked_plan f ob) }
{}

/// A rule keeps the starts of a goal, but for the one at its front, which is lost where the first case of a
/// transformation is tried. Where nothing is left to be rewritten at the front of a goal, or a transformation begins
/// there, the start at the front is that of the transformation, if one begins.
pub fn rules_keep_starts()
    ensures kept { (f : Function) (ob : ObName) (g h : GoalTree)
        → IsTrue (is_valid f) → IsGoalOf f ob g → rewritten f g ≡ Some h → is_begun g ≡ false
        → marked_goal f h ≡ marked_goal f g }
    ensures opened { (f : Function) (ob : ObName) (g h : GoalTree)
        → IsTrue (is_valid f) → IsGoalOf f ob g → rewritten f g ≡ Some h
        → with_start None (marked_goal f h) ≡ with_start None (marked_goal f g) }
    ensures front { (f : Function) (ob : ObName) (g : GoalTree)
        → IsGoalOf f ob g → IsTrue (is_settled g) → start_of (marked_goal f g) ≡ front_start g }
    ensures begun { (g : GoalTree) → is_begun g ≡ is_some (front_start g) }
{
    rules_keep_what_is_asked();
}
