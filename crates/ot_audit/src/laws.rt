//! What the goals mean at one valuation, and which operations are meant. These functions do nothing: their contracts
//! are the laws.
ghost use Rattle.std.specs.Prelude.{◌≡◌, ◌↔◌, ◌≤ℤ◌, ℕ, ℤ, pos, IsTrue, None, Some};
ghost use Rattle.ot_model.specs.declared.op.Kind.{Kind};
ghost use Rattle.ot_model.specs.declared.op.Op.{Op};
ghost use Rattle.ot_model.specs.Operations.{kind_of, at_of};
ghost use Rattle.fn_rules.specs.Functions.{Function, is_declared_pair};
ghost use Rattle.fn_rules.specs.Transformation.{IsAllowed};
ghost use Rattle.fn_rules.specs.Validity.{is_valid};
ghost use Rattle.ask_core.specs.Plans.{end_of};
ghost use Rattle.ot_questions.specs.declared.why.Why.{Why};
ghost use Rattle.ot_questions.specs.declared.why.Why.TheVariants.{Operations};
ghost use Rattle.ot_terms.specs.Goals.{GoalTree};
ghost use Rattle.ot_terms.specs.Standing.{ask_goal};
ghost use Rattle.ot_audit.specs.declared.audits.Audit.{Audit};
ghost use Rattle.ot_audit.specs.declared.audits.Same.{Same};
ghost use Rattle.ot_audit.specs.declared.audits.Same.TheVariants.{Everywhere};
ghost use Rattle.ot_audit.specs.declared.found.Agree.{Agree as AgreeAnswer};
ghost use Rattle.ot_audit.specs.declared.found.Found.{Found};
ghost use Rattle.ot_audit.specs.declared.found.Found.TheVariants.{Never, Pair};
ghost use Rattle.ot_audit.specs.declared.found.Sought.{Sought};
ghost use Rattle.ot_audit.specs.declared.target.Target.{Target};
ghost use Rattle.ot_audit.specs.Answers.{IsAgreedAs, IsReachedAs, TellsTarget};
ghost use Rattle.ot_audit.specs.Audits.{IsAuditedAs, IsComparedAs};
ghost use Rattle.ot_audit.specs.Findings.{IsFoundIn, IsSoughtIn};
ghost use Rattle.ot_audit.specs.Goals.{target_goal, difference_goal};
ghost use Rattle.ot_audit.specs.Reached.{Agree, AreMeant};
ghost use Rattle.ot_audit.specs.Searchable.{IsSearchable};
ghost use Rattle.ot_audit.specs.Searches.{Differs, NamesTwo, ReachesTarget};

use ask_core::answers_lead_to_ends;
use fn_rules::{cases_are_valid, tests_decide_their_facts, transform_keeps_all_but_the_position};
use ot_model::every_kind_is_listed;
use ot_prove::{plans_have_one_question_list, question_lists_tell_where_plans_fail};
use ot_questions::{
    Why, any_operations_have_names, names_stand_for_operations, questions_keep_limits,
    questions_mean_the_interpreter,
};

/// Operations are meant exactly where they are of the kinds, may be with each other, and no position is negative: then
/// a document with cells enough is there.
pub fn meant_operations_are_not_negative()
    ensures { (f : Function) (k l : Kind) (a b : Op) → IsTrue (is_declared_pair f.head k l)
        → AreMeant f k l a b
        ↔ ((kind_of a ≡ Some k) × (kind_of b ≡ Some l) × IsAllowed f a b × (pos 0 ≤ℤ at_of a) × (pos 0 ≤ℤ at_of b)) }
{}

/// At a valuation whose names stand for two operations, the plan of a goal fails exactly where the operations are
/// meant and what is sought is so: the target is reached there, or the two functions do not agree.
pub fn goals_fail_where_it_is_sought()
    ensures target_sought { (f : Function) (k l : Kind) (target : Target) (v : ℕ → ℤ) (a b : Op) (why : Why)
        → IsTrue (is_declared_pair f.head k l) → NamesTwo k l v a b
        → end_of (ask_goal f (target_goal f k l target)) v ≡ Some why → ReachesTarget f k l target a b }
    ensures target_fails { (f : Function) (k l : Kind) (target : Target) (v : ℕ → ℤ) (a b : Op)
        → IsTrue (is_declared_pair f.head k l) → NamesTwo k l v a b
        → ReachesTarget f k l target a b → end_of (ask_goal f (target_goal f k l target)) v ≡ Some Operations }
    ensures difference_sought { (f g : Function) (k l : Kind) (v : ℕ → ℤ) (a b : Op) (why : Why)
        → IsTrue (is_declared_pair f.head k l) → NamesTwo k l v a b
        → end_of (ask_goal f (difference_goal f g k l)) v ≡ Some why → Differs f g k l a b }
    ensures difference_held { (f g : Function) (k l : Kind) (v : ℕ → ℤ) (a b : Op)
        → IsTrue (is_declared_pair f.head k l) → NamesTwo k l v a b → AreMeant f k l a b
        → end_of (ask_goal f (difference_goal f g k l)) v ≡ None → Agree f g a b }
    ensures difference_fails { (f g : Function) (k l : Kind) (v : ℕ → ℤ) (a b : Op)
        → IsTrue (is_declared_pair f.head k l) → NamesTwo k l v a b
        → Differs f g k l a b → end_of (ask_goal f (difference_goal f g k l)) v ≡ Some Operations }
{
    meant_operations_are_not_negative();
    questions_mean_the_interpreter();
    tests_decide_their_facts();
    transform_keeps_all_but_the_position();
}

/// The goals of functions within the limits keep those of plans, ask like with like, and no position is negative that
/// answers to a failing end speak of.
pub fn goals_are_searchable()
    ensures target { (f : Function) (k l : Kind) (target : Target) → IsTrue (is_valid f)
        → IsTrue (is_declared_pair f.head k l)
        → IsSearchable f k l (target_goal f k l target) }
    ensures difference { (f g : Function) (k l : Kind) → IsTrue (is_valid f) → IsTrue (is_valid g)
        → IsTrue (is_declared_pair f.head k l) → IsSearchable f k l (difference_goal f g k l) }
{
    cases_are_valid();
    questions_keep_limits();
    questions_mean_the_interpreter();
    answers_lead_to_ends::<Why>();
}

/// What a search finds tells of all operations. Where it finds none, a target is reached at no operations that are
/// meant, and two functions agree at all of them; and where it finds two, these are such operations.
pub fn findings_tell_of_all_operations()
    ensures target { (f : Function) (k l : Kind) (target : Target) (budget : ℕ) (found : Found)
        → IsTrue (is_declared_pair f.head k l)
        → IsFoundIn f k l (target_goal f k l target) budget found → TellsTarget f k l target found }
    ensures same { (f g : Function) (k l : Kind) (budget : ℕ) → IsTrue (is_declared_pair f.head k l)
        → IsFoundIn f k l (difference_goal f g k l) budget Never → (a b : Op) → AreMeant f k l a b → Agree f g a b }
    ensures differ { (f g : Function) (k l : Kind) (budget : ℕ) (a b : Op) → IsTrue (is_declared_pair f.head k l)
        → IsFoundIn f k l (difference_goal f g k l) budget (Pair a b) → Differs f g k l a b }
{
    goals_fail_where_it_is_sought();
    question_lists_tell_where_plans_fail::<Why>();
    names_stand_for_operations();
    any_operations_have_names();
}

/// What is answered is one: of a goal, of a target of a block, of two functions on a block, of a whole function, and of
/// two.
pub fn findings_are_one()
    ensures sought { (f : Function) (k l : Kind) (g : GoalTree) (budget : ℕ) (one other : Sought)
        → IsSoughtIn f k l g budget one → IsSoughtIn f k l g budget other → one ≡ other }
    ensures reached { (f : Function) (k l : Kind) (target : Target) (budget : ℕ) (one other : Found)
        → IsReachedAs f k l target budget one → IsReachedAs f k l target budget other → one ≡ other }
    ensures agreed { (f g : Function) (k l : Kind) (budget : ℕ) (one other : AgreeAnswer)
        → IsAgreedAs f g k l budget one → IsAgreedAs f g k l budget other → one ≡ other }
    ensures audited { (f : Function) (budget : ℕ) (one other : Audit) → IsAuditedAs f budget one
        → IsAuditedAs f budget other → one ≡ other }
    ensures compared { (f g : Function) (budget : ℕ) (one other : Same) → IsComparedAs f g budget one
        → IsComparedAs f g budget other
        → one ≡ other }
{
    plans_have_one_question_list::<Why>();
}

/// Functions that are found to be the same have one head, and what they make of two operations is the same wherever
/// these are concurrent on a document.
pub fn functions_that_are_same_agree_everywhere()
    ensures head { (f g : Function) (budget : ℕ) → IsComparedAs f g budget Everywhere → f.head ≡ g.head }
    ensures agree { (f g : Function) (budget : ℕ) (k l : Kind) (a b : Op) → IsComparedAs f g budget Everywhere
        → IsTrue (is_declared_pair f.head k l) → AreMeant f k l a b → Agree f g a b }
{
    every_kind_is_listed();
}
