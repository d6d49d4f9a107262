//! What sections and their refusals are, over any plans. These functions work nothing out: their contracts are the
//! laws.
ghost use Rattle.std.specs.Prelude.{◌≡◌, ◌++◌, true, List, [], Ok, ℕ, Result};
ghost use Rattle.fn_rules.specs.declared.function.ObName.{ObName};
ghost use Rattle.ask_core.specs.Plans.{Plan};
ghost use Rattle.ask_core.specs.Trees.{AnswerTree, Branch};
ghost use Rattle.cert_text.specs.declared.item.Part.{Part};
ghost use Rattle.cert_text.specs.Certificates.{sections_text};
ghost use Rattle.cert_text.specs.Places.{Line};
ghost use Rattle.cert_text.specs.Spelling.{end_text};
ghost use Rattle.refusals.specs.declared.refusal.JudgeError.{JudgeError};
ghost use Rattle.ot_sections.specs.Certificates.{AreAnswers};
ghost use Rattle.ot_sections.specs.Feeding.{Has, Whole};
ghost use Rattle.ot_sections.specs.Parts.{FitThen, IsAnswer, IsJudged, Point};

use cert_check::tokens_are_taken_one_by_one;
use cert_text::{all_bytes_are_read, parts_are_told_apart};
use ot_outside::Feed;

/// Sections of trees that fit, one for each obligation, and the last line behind them are parts that fit one after
/// another up to the end; and bytes of which that holds are such sections.
pub fn sections_are_parts_that_fit<W: Copy>()
    ensures parts { (plan : ObName → Plan W) (obs : List ObName) (trees : List AnswerTree) (came offset : ℕ)
        → AreAnswers plan obs trees
        → IsJudged plan (Ok tt) (record { place = Line came obs; offset = offset; branches = [] })
        (sections_text obs trees ++ end_text) }
    ensures sections { (plan : ObName → Plan W) (obs : List ObName) (came offset : ℕ) (branches : List (Branch W))
        (bytes : List ℕ)
        → IsJudged plan (Ok tt) (record { place = Line came obs; offset = offset; branches = branches }) bytes
        → (trees : List AnswerTree) × AreAnswers plan obs trees × (bytes ≡ sections_text obs trees ++ end_text) }
{
    tokens_are_taken_one_by_one::<W>();
}

/// The bytes behind a point are made of one list of parts that fit, and stop in one way.
pub fn bytes_are_judged_once<W: Copy>()
    ensures { (plan : ObName → Plan W) (point : Point W) (bytes : List ℕ) (parts others : List Part)
        (one other : Result (Unit {0}) JudgeError)
        → FitThen plan one point bytes parts → FitThen plan other point bytes others → (one ≡ other)
        × (parts ≡ others) }
{
    parts_are_told_apart();
}

/// Any bytes behind a point are made of some parts that fit, and stop there, or are refused.
pub fn all_bytes_are_judged<W: Copy>()
    ensures { (plan : ObName → Plan W) (point : Point W) (bytes : List ℕ)
        → (end : Result (Unit {0}) JudgeError) × IsAnswer end × IsJudged plan end point bytes }
{
    all_bytes_are_read();
}

/// A feed may have some bytes that it may give.
pub fn feeds_have_bytes<F: Feed>()
    ensures { (feed : F) → (all : Whole) × (all.may ≡ true) × Has F.Feed feed all }
{}
