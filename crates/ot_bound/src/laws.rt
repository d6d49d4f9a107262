//! What low certificates show, and how they are judged. These functions work nothing out: their contracts are the laws.
ghost use Rattle.std.specs.Prelude.{◌≡◌, ◌<◌, ℕ, List, Ok, Result};
ghost use Rattle.fn_rules.specs.declared.function.Level.{Level};
ghost use Rattle.fn_rules.specs.Functions.{Function};
ghost use Rattle.refusals.specs.declared.refusal.JudgeError.{JudgeError};
ghost use Rattle.ot_bound.specs.Judgements.{IsJudgedLow, IsLowJudgement};
ghost use Rattle.ot_bound.specs.Lows.{HasAt, IsLow};

use ask_core::fitting_trees_hold;
use ot_questions::{
    Why, bounded_plans_mean_shorter_documents, pair_plans_mean_tp1, triple_plans_mean_tp2,
};
use ot_sections::{bytes_are_judged_once, sections_are_parts_that_fit};

/// A function that has a low certificate at a level has the level's property on every document of fewer cells than the
/// bound: at level tp1 the first one, and at level tp2 the second one, which says nothing of the first.
pub fn low_certificates_show_shorter_documents()
    ensures { (bytes : List ℕ) (f : Function) (level : Level) (bound n : ℕ) → IsLow bytes f level bound → n < bound
        → HasAt f level n }
{
    fitting_trees_hold::<Why>();
    bounded_plans_mean_shorter_documents();
    pair_plans_mean_tp1();
    triple_plans_mean_tp2();
}

/// Bytes are a low certificate of a function at a level and a bound exactly where they begin with the first line of
/// these, and what stands behind it is made of parts that fit up to the end.
pub fn low_certificates_are_sections()
    ensures parts { (f : Function) (level : Level) (bound : ℕ) (bytes : List ℕ) → IsLow bytes f level bound
        → IsJudgedLow f (Ok tt) bytes level bound }
    ensures certificate { (f : Function) (level : Level) (bound : ℕ) (bytes : List ℕ)
        → IsJudgedLow f (Ok tt) bytes level bound
        → IsLow bytes f level bound }
{
    sections_are_parts_that_fit::<Why>();
}

/// Bytes have at most one judgement: they are a low certificate of a function at one level and one bound, or are
/// refused at one offset for one cause, and never both.
pub fn bytes_have_one_low_judgement()
    ensures { (f : Function) (bytes : List ℕ) (one other : Result (Level × ℕ) JudgeError) → IsLowJudgement f bytes one
        → IsLowJudgement f bytes other → one ≡ other }
{
    low_certificates_are_sections();
    bytes_are_judged_once::<Why>();
}
