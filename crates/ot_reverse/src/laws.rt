//! What the goals mean at one valuation, and what is answered by them. These functions do nothing: their contracts are
//! the laws.
ghost use Rattle.std.specs.Prelude.{◌≡◌, ℕ, ℤ, IsTrue, List, [], ◌∷◌, length, None, Some};
ghost use Rattle.ot_model.specs.declared.cell.Cell.{Cell};
ghost use Rattle.ot_model.specs.declared.op.Kind.{Kind};
ghost use Rattle.ot_model.specs.declared.op.Op.{Op};
ghost use Rattle.fn_rules.specs.Functions.{Function, is_declared_pair};
ghost use Rattle.fn_rules.specs.Obligations.{declared_pairs};
ghost use Rattle.fn_rules.specs.Properties.{AreConcurrent};
ghost use Rattle.fn_rules.specs.Validity.{is_valid};
ghost use Rattle.ask_core.specs.Plans.{end_of};
ghost use Rattle.ot_audit.specs.declared.found.Sought.TheVariants.{At};
ghost use Rattle.ot_audit.specs.Findings.{IsSoughtIn};
ghost use Rattle.ot_audit.specs.Searchable.{IsSearchable};
ghost use Rattle.ot_questions.specs.declared.why.Why.{Why};
ghost use Rattle.ot_questions.specs.Instances.{NamesPair};
ghost use Rattle.ot_terms.specs.Standing.{ask_goal};
ghost use Rattle.ot_values.specs.Values.{live_cells};
ghost use Rattle.ot_audit.specs.declared.back.Back.{Back};
ghost use Rattle.ot_reverse.specs.Answers.{AreSearched, TellsReversal};
ghost use Rattle.ot_reverse.specs.Goals.{reversal_goal};
ghost use Rattle.ot_reverse.specs.Reversal.{IsTakenBack};

use ask_core::answers_lead_to_ends;
use fn_rules::{cases_are_valid, tests_decide_their_facts, transform_keeps_all_but_the_position};
use ot_audit::findings_are_one;
use ot_model::every_kind_is_listed;
use ot_prove::question_lists_tell_where_plans_fail;
use ot_questions::{
    Why, any_operations_have_names, names_stand_for_operations, questions_keep_limits,
    questions_mean_the_interpreter,
};

/// At a valuation whose names stand for two operations and for the length of a document, the plan of a goal fails only
/// where the operations are concurrent on the document and the first one is not taken back; and where they are, it
/// holds only where the first one is.
pub fn goals_fail_where_nothing_comes_back()
    ensures sought { (f e : Function) (k l : Kind) (v : ℕ → ℤ) (d : List Cell) (a b : Op) (why : Why)
        → NamesPair f k l v (length d) a b → end_of (ask_goal f (reversal_goal f e k l)) v ≡ Some why
        → AreConcurrent f d (a ∷ b ∷ []) × (IsTakenBack f e a b → ⊥) }
    ensures held { (f e : Function) (k l : Kind) (v : ℕ → ℤ) (d : List Cell) (a b : Op)
        → NamesPair f k l v (length d) a b → end_of (ask_goal f (reversal_goal f e k l)) v ≡ None
        → AreConcurrent f d (a ∷ b ∷ []) → IsTakenBack f e a b }
{
    questions_mean_the_interpreter();
    tests_decide_their_facts();
    transform_keeps_all_but_the_position();
}

/// The goals of functions within the limits keep those of plans, ask like with like, and no position is negative that
/// answers to a failing end speak of.
pub fn goals_are_searchable()
    ensures { (f e : Function) (k l : Kind) → IsTrue (is_valid f) → IsTrue (is_valid e)
        → IsTrue (is_declared_pair f.head k l)
        → IsSearchable f k l (reversal_goal f e k l) }
{
    cases_are_valid();
    questions_keep_limits();
    questions_mean_the_interpreter();
    answers_lead_to_ends::<Why>();
}

/// What the searches come to tells of all documents: where they find nothing, the second function reverses the first;
/// and where one finds a length and two operations, these are concurrent on the document of so many live cells, and the
/// first one is not taken back.
pub fn answers_tell_of_all_documents()
    ensures instance { (f e : Function) (k l : Kind) (budget cells : ℕ) (a b : Op)
        → IsTrue (is_declared_pair f.head k l)
        → IsSoughtIn f k l (reversal_goal f e k l) budget (At cells a b)
        → AreConcurrent f (live_cells cells) (a ∷ b ∷ []) × (IsTakenBack f e a b → ⊥) }
    ensures whole { (f e : Function) (budget : ℕ) (answer : Back)
        → AreSearched f e budget (declared_pairs f.head) answer
        → TellsReversal f e answer }
{
    goals_fail_where_nothing_comes_back();
    question_lists_tell_where_plans_fail::<Why>();
    names_stand_for_operations();
    any_operations_have_names();
    every_kind_is_listed();
}

/// What is answered of two functions by a budget is one.
pub fn answers_are_one()
    ensures { (f e : Function) (budget : ℕ) (one other : Back) → AreSearched f e budget (declared_pairs f.head) one
        → AreSearched f e budget (declared_pairs f.head) other → one ≡ other }
{
    findings_are_one();
}
