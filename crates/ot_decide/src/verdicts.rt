//! What verdicts are. These functions work nothing out: their contracts are the laws.
ghost use Rattle.std.specs.Prelude.{◌≡◌, ◌≤◌, ℕ, IsTrue, List, Option, Some, Vec};
ghost use Rattle.std.specs.declared.alloc.Global.{Global};
ghost use Rattle.ot_model.specs.declared.op.Kind.{Kind};
ghost use Rattle.fn_rules.specs.declared.function.Level.{Level};
ghost use Rattle.fn_rules.specs.declared.function.Level.TheVariants.{Tp2};
ghost use Rattle.fn_rules.specs.declared.function.ObName.{ObName};
ghost use Rattle.fn_rules.specs.declared.function.ObName.TheVariants.{Triple};
ghost use Rattle.fn_rules.specs.Functions.{Function};
ghost use Rattle.fn_rules.specs.Obligations.{obligations_of};
ghost use Rattle.fn_rules.specs.Properties.{HasTp1};
ghost use Rattle.fn_rules.specs.Validity.{is_valid};
ghost use Rattle.ot_questions.specs.declared.why.Why.{Why};
ghost use Rattle.ot_questions.specs.Obligation.{plan_below, plan_of};
ghost use Rattle.ask_core.specs.Questions.{FailingEnd};
ghost use Rattle.ot_decide.specs.Below.{IsBound};
ghost use Rattle.ot_decide.specs.declared.verdict.Verdict.TheVariants.{Yes};
ghost use Rattle.ot_sections.specs.Certificates.{IsCertificate};
ghost use Rattle.ot_decide.specs.Sizes.{HaveFewLeaves};
ghost use Rattle.ot_decide.specs.Verdicts.{AreAsked, IsDecidedAs, ObQuestions, failing_in};

use crate::below::shorter_plans_keep_limits;
use ot_prove::{plans_have_one_question_list, question_lists_tell_where_plans_fail};
use ot_questions::{Why, pair_plans_mean_tp1};

/// Any obligations of a function have exactly one list of their question lists, and so has each level. So each verdict
/// comes exactly where its condition holds, since the conditions exclude one another. And so it is on the documents of
/// fewer cells than a bound.
pub fn obligations_have_one_question_list()
    ensures some { (f : Function) (obs : List ObName) → IsTrue (is_valid f)
        → (lists : List (ObQuestions Why)) × AreAsked (plan_of f) obs lists }
    ensures one { (f : Function) (obs : List ObName) (lists others : List (ObQuestions Why))
        → AreAsked (plan_of f) obs lists → AreAsked (plan_of f) obs others → lists ≡ others }
    ensures some_below { (f : Function) (below : Option ℕ) (obs : List ObName) → IsTrue (is_valid f) → IsBound below
        → (lists : List (ObQuestions Why)) × AreAsked (plan_below f below) obs lists }
    ensures one_below { (f : Function) (below : Option ℕ) (obs : List ObName) (lists others : List (ObQuestions Why))
        → AreAsked (plan_below f below) obs lists → AreAsked (plan_below f below) obs others → lists ≡ others }
{
    shorter_plans_keep_limits();
    plans_have_one_question_list::<Why>();
}

/// The bytes of a `Yes` are a certificate of the function at its level.
pub fn proofs_are_certificates()
    ensures { (f : Function) (level : Level) (budget asked : ℕ) (bytes : Vec ℕ Global)
        → IsDecidedAs f level budget (Yes bytes asked) → IsCertificate bytes.items f level }
{}

/// The trees of a `Yes` by at most 1,000,000 questions have at most 1,000,024 leaves together, each of at most 73
/// bytes: one leaf more than questions in each tree, and at most 24 trees.
pub fn certificates_have_few_leaves()
    ensures { (f : Function) (level : Level) (budget asked : ℕ) (bytes : Vec ℕ Global)
        (decided : IsDecidedAs f level budget (Yes bytes asked))
        → budget ≤ 1000000 → HaveFewLeaves 1000024 73 decided.2.2.trees }
{}

/// A function whose first failing end at level tp2 is one of a triple has the first property: the pairs are asked
/// before the triples, so the plans of all of them hold.
pub fn failing_triples_show_tp1()
    ensures { (f : Function) (lists : List (ObQuestions Why)) (k l m : Kind) (end : FailingEnd Why)
        → AreAsked (plan_of f) (obligations_of f.head Tp2) lists
        → failing_in lists ≡ Some (record { ob = Triple k l m; end = end }) → HasTp1 f }
{
    question_lists_tell_where_plans_fail::<Why>();
    pair_plans_mean_tp1();
}
