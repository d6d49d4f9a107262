//! What the plans of obligations mean. These functions do nothing: their contracts are the laws.
ghost use Rattle.std.specs.Prelude.{◌↔◌, ◌+◌, ◌*◌, ◌^◌, ◌<◌, ◌≤◌, ℕ, List, length, Some, IsTrue};
ghost use Rattle.diff_graph.specs.declared.lit.Lit.{Lit};
ghost use Rattle.ot_model.specs.declared.op.Kind.{Kind};
ghost use Rattle.fn_rules.specs.declared.function.Level.TheVariants.{Tp1, Tp2};
ghost use Rattle.fn_rules.specs.declared.function.ObName.{ObName};
ghost use Rattle.fn_rules.specs.declared.function.ObName.TheVariants.{Pair, Triple};
ghost use Rattle.fn_rules.specs.Functions.{Function};
ghost use Rattle.fn_rules.specs.Obligations.{declared_kinds, triples_of, obligations_of};
ghost use Rattle.fn_rules.specs.Properties.{HasTp1, HasTp2, HasTp1At, HasTp2At};
ghost use Rattle.fn_rules.specs.Validity.{is_valid};
ghost use Rattle.fn_rules.specs.Atoms.{function_atoms};
ghost use Rattle.ask_core.specs.Askers.{IsFine, longest_path};
ghost use Rattle.ask_core.specs.Questions.{Questions, QuestionList};
ghost use Rattle.ot_questions.specs.Names.{name_count};
ghost use Rattle.ot_questions.specs.Obligation.{plan_of, plan_below};
ghost use Rattle.ot_questions.specs.Meaning.{HasPair, HasTriple, HoldsAtLength, AlwaysHolds, AllHold, AllHoldAtLength};

use crate::why::Why;
use ask_core::paths_bound_question_lists;
use fn_rules::{allowed_is_symmetric, obligations_are_those_of_the_kinds};

/// The plan of a pair holds at every valuation at which the document has `n` cells exactly where the
/// first property holds for all operations of the two kinds on all documents of `n` cells. And the
/// plans of all pairs of a function hold at every valuation exactly where it has the first property, and
/// at those of length `n` exactly where it has it on the documents of `n` cells. That the plans show the
/// property is so of any function; the other way needs the limits.
pub fn pair_plans_mean_tp1()
    ensures pair_shown { (f : Function) (k l : Kind) (n : ℕ) → HoldsAtLength f (Pair k l) n → HasPair f k l n }
    ensures whole_shown_at { (f : Function) (n : ℕ) → AllHoldAtLength f (obligations_of f.head Tp1) n → HasTp1At f n }
    ensures whole_shown { (f : Function) → AllHold f (obligations_of f.head Tp1) → HasTp1 f }
    ensures pair { (f : Function) (k l : Kind) (n : ℕ) → IsTrue (is_valid f)
        → HoldsAtLength f (Pair k l) n ↔ HasPair f k l n }
    ensures whole_at { (f : Function) (n : ℕ) → IsTrue (is_valid f)
        → AllHoldAtLength f (obligations_of f.head Tp1) n ↔ HasTp1At f n }
    ensures whole { (f : Function) → IsTrue (is_valid f) → AllHold f (obligations_of f.head Tp1) ↔ HasTp1 f }
{
    allowed_is_symmetric();
    obligations_are_those_of_the_kinds();
}

/// The plan of a triple holds at every valuation at which the document has `n` cells exactly where the
/// second property holds for all operations of the three kinds on documents of `n` cells. The plans of
/// all triples of a function hold at every valuation exactly where it has the second property, and
/// those of all pairs and triples exactly where it has both; and so at each length by itself. That the
/// plans show the properties is so of any function; the other way needs the limits.
pub fn triple_plans_mean_tp2()
    ensures triple_shown { (f : Function) (k l m : Kind) (n : ℕ) → HoldsAtLength f (Triple k l m) n
        → HasTriple f k l m n }
    ensures alone_shown_at { (f : Function) (n : ℕ)
        → AllHoldAtLength f (triples_of (declared_kinds f.head)) n → HasTp2At f n }
    ensures alone_shown { (f : Function) → AllHold f (triples_of (declared_kinds f.head)) → HasTp2 f }
    ensures whole_shown_at { (f : Function) (n : ℕ)
        → AllHoldAtLength f (obligations_of f.head Tp2) n → HasTp1At f n × HasTp2At f n }
    ensures whole_shown { (f : Function) → AllHold f (obligations_of f.head Tp2) → HasTp1 f × HasTp2 f }
    ensures triple { (f : Function) (k l m : Kind) (n : ℕ) → IsTrue (is_valid f)
        → HoldsAtLength f (Triple k l m) n ↔ HasTriple f k l m n }
    ensures alone_at { (f : Function) (n : ℕ) → IsTrue (is_valid f)
        → AllHoldAtLength f (triples_of (declared_kinds f.head)) n ↔ HasTp2At f n }
    ensures alone { (f : Function) → IsTrue (is_valid f) → AllHold f (triples_of (declared_kinds f.head)) ↔ HasTp2 f }
    ensures whole_at { (f : Function) (n : ℕ) → IsTrue (is_valid f)
        → AllHoldAtLength f (obligations_of f.head Tp2) n ↔ (HasTp1At f n × HasTp2At f n) }
    ensures whole { (f : Function) → IsTrue (is_valid f)
        → AllHold f (obligations_of f.head Tp2) ↔ (HasTp1 f × HasTp2 f) }
{
    allowed_is_symmetric();
    obligations_are_those_of_the_kinds();
}

/// The plan that asks first whether the length is below a bound holds at every valuation exactly where the
/// obligation's plan holds at each length below it.
pub fn bounded_plans_mean_shorter_documents()
    ensures { (f : Function) (ob : ObName) (bound : ℕ)
        → AlwaysHolds (plan_below f (Some bound) ob) ↔ ((n : ℕ) → n < bound → HoldsAtLength f ob n) }
{}

/// Each question of a plan is about two different names of the obligation, with an offset of at most
/// 1,000 either way, and no path of a plan has more than 12,309 questions.
pub fn plans_keep_limits()
    ensures fine { (f : Function) (ob : ObName) → IsTrue (is_valid f) → IsFine (name_count ob) (plan_of f ob) }
    ensures short { (f : Function) (ob : ObName) → IsTrue (is_valid f) → longest_path (plan_of f ob) ≤ 12309 }
{}

/// No path of a plan has more than twelve questions for each atom of the function and 40 others: a triple
/// asks six transformations, and an atom at most two literals. So no question list of a plan has more than
/// 2 to that number.
pub fn atoms_bound_questions()
    ensures paths { (f : Function) (ob : ObName) → IsTrue (is_valid f)
        → longest_path (plan_of f ob) ≤ 12 * function_atoms f + 40 }
    ensures lists { (f : Function) (ob : ObName) (w : List Lit) (q : Questions Why) → IsTrue (is_valid f)
        → QuestionList (plan_of f ob) w q → length q.asked ≤ 2 ^ (12 * function_atoms f + 40) }
{
    paths_bound_question_lists::<Why>();
}
