//! What the rules keep.
ghost use Rattle.std.specs.Prelude.{◌≡◌, ◌↔◌, ◌<◌, ℕ, ℤ, IsTrue, Some, None};
ghost use Rattle.fn_rules.specs.declared.function.ObName.{ObName};
ghost use Rattle.fn_rules.specs.Functions.{Function};
ghost use Rattle.fn_rules.specs.Validity.{is_valid};
ghost use Rattle.ot_terms.specs.Forms.{FormTree};
ghost use Rattle.ot_terms.specs.Goals.{GoalTree, laid, laid_form};
ghost use Rattle.ot_terms.specs.Standing.{ask_goal};
ghost use Rattle.ot_terms.specs.Truth.{goal_holds};
ghost use Rattle.ot_terms.specs.Weights.{goal_weight};
ghost use Rattle.ot_terms.specs.Belonging.{IsGoalOf};
ghost use Rattle.ot_rewrite.specs.Table.{rewrite_if, rewritten};
ghost use Rattle.ot_rewrite.specs.Fronts.{is_at_front};

/// A rule makes of a goal one that asks the same, is true at the same valuations, is of the same function
/// and obligation, and weighs less; and there is a rule for each goal but those at whose front a question or an end
/// stands.
pub fn rules_keep_what_is_asked()
    ensures asked { (f : Function) (ob : ObName) (g h : GoalTree)
        → IsTrue (is_valid f) → IsGoalOf f ob g → rewritten f g ≡ Some h → ask_goal f h ≡ ask_goal f g }
    ensures truth { (f : Function) (ob : ObName) (g h : GoalTree) (v : ℕ → ℤ)
        → IsTrue (is_valid f) → IsGoalOf f ob g → rewritten f g ≡ Some h → goal_holds f v h ↔ goal_holds f v g }
    ensures belongs { (f : Function) (ob : ObName) (g h : GoalTree)
        → IsTrue (is_valid f) → IsGoalOf f ob g → rewritten f g ≡ Some h → IsGoalOf f ob h }
    ensures lighter { (f : Function) (ob : ObName) (g h : GoalTree)
        → IsTrue (is_valid f) → IsGoalOf f ob g → rewritten f g ≡ Some h → goal_weight f h < goal_weight f g }
    ensures stops { (f : Function) (g : GoalTree) → (rewritten f g ≡ None) ↔ IsTrue (is_at_front g) }
{}

/// A rule for forms leaves what the form leaves: behind it, the goal that comes of laying out all forms is the same.
pub fn rules_leave_what_forms_leave()
    ensures { (g : FormTree) (on_yes on_no next : GoalTree)
        → rewrite_if g on_yes on_no ≡ Some next → laid next ≡ laid_form g (laid on_yes) (laid on_no) }
{}
