//! What terms mean at a valuation, and that what is asked of them comes to it.
ghost use Rattle.std.specs.Prelude.{◌≡◌, ◌↔◌, ℕ, ℤ, if◌then◌else◌, IsTrue, None};
ghost use Rattle.fn_rules.specs.declared.function.ObName.{ObName};
ghost use Rattle.fn_rules.specs.Functions.{Function};
ghost use Rattle.fn_rules.specs.Obligations.{is_obligation};
ghost use Rattle.fn_rules.specs.Validity.{is_valid};
ghost use Rattle.ask_core.specs.Plans.{Plan, end_of, value};
ghost use Rattle.ot_questions.specs.declared.why.Why.{Why};
ghost use Rattle.ot_questions.specs.Obligation.{plan_of};
ghost use Rattle.ot_terms.specs.Forms.{FormTree, form_holds};
ghost use Rattle.ot_terms.specs.Cells.{CellTree};
ghost use Rattle.ot_terms.specs.Goals.{GoalTree, Same};
ghost use Rattle.ot_terms.specs.Meaning.{BaseDocument, cell_of};
ghost use Rattle.ot_terms.specs.Standing.{ask_form, ask_goal};
ghost use Rattle.ot_terms.specs.Belonging.{IsCellOf, IsGoalOf};
ghost use Rattle.ot_terms.specs.Starting.{start_goal_of};
ghost use Rattle.ot_terms.specs.Truth.{goal_holds, IsTrueEverywhere, IsTrueAtLength, HasInstance};

/// At a valuation what is asked of a form goes on as the form is true.
#[tactic(auto, using(crate::proofs::Forms::end_form))]
pub fn forms_are_asked_as_they_are_true()
    ensures { (t : FormTree) (v : ℕ → ℤ) (p q : Plan Why)
        → end_of (ask_form t p q) v ≡ (if form_holds v t then end_of p v else end_of q v) }
{}

/// At a valuation a comparison of two cells holds exactly where they are the same for every base document.
#[tactic(auto, using(crate::proofs::Comparisons::compared_over_all))]
pub fn cells_are_compared_over_all_documents()
    ensures { (f : Function) (count : ℕ) (left right : CellTree) (v : ℕ → ℤ)
        → IsCellOf f.head.mode count left → IsCellOf f.head.mode count right
        → (end_of (ask_goal f (Same left right)) v ≡ None)
        ↔ ((base : BaseDocument) → cell_of base v left ≡ cell_of base v right) }
{}

/// A goal of a function and an obligation is true at a valuation exactly where the plan that it stands for
/// ends in `Holds` there. So two goals that stand for one plan are true at the same valuations.
pub fn goals_are_true_as_their_plans()
    ensures end { (f : Function) (ob : ObName) (g : GoalTree) (v : ℕ → ℤ) → IsGoalOf f ob g
        → goal_holds f v g ↔ (end_of (ask_goal f g) v ≡ None) }
    ensures value { (f : Function) (ob : ObName) (g : GoalTree) (v : ℕ → ℤ) → IsGoalOf f ob g
        → goal_holds f v g ↔ IsTrue (value (ask_goal f g) v) }
    ensures alike { (f : Function) (ob : ObName) (g h : GoalTree) (v : ℕ → ℤ) → IsGoalOf f ob g → IsGoalOf f ob h
        → ask_goal f g ≡ ask_goal f h → goal_holds f v g ↔ goal_holds f v h }
{}

/// The goal that an obligation begins with is of the function and the obligation, and stands for the plan of the
/// obligation. It is true at all integers exactly where the property holds for all operations of the kinds on all
/// documents; and for each length by itself, at all integers with that length exactly where it holds on all documents
/// of the length.
#[tactic(auto, using(crate::proofs::Starts::ask_goal_start_of, crate::proofs::StartParts::start_of_belongs))]
pub fn first_goals_stand_for_obligations()
    ensures belongs { (f : Function) (ob : ObName) → IsTrue (is_obligation f.head ob)
        → IsGoalOf f ob (start_goal_of f.head ob) }
    ensures plan { (f : Function) (ob : ObName) → ask_goal f (start_goal_of f.head ob) ≡ plan_of f ob }
    ensures instance { (f : Function) (ob : ObName) (n : ℕ) → IsTrue (is_valid f) → IsTrue (is_obligation f.head ob)
        → IsTrueAtLength f (start_goal_of f.head ob) n ↔ HasInstance f ob n }
    ensures whole { (f : Function) (ob : ObName) → IsTrue (is_valid f) → IsTrue (is_obligation f.head ob)
        → IsTrueEverywhere f (start_goal_of f.head ob) ↔ ((n : ℕ) → HasInstance f ob n) }
{}
