//! What certificates and refusals are. These functions work nothing out: their contracts are the laws.
ghost use Rattle.std.specs.Prelude.{◌≡◌, ◌↔◌, IsTrue, ℕ, List, Result};
ghost use Rattle.fn_rules.specs.declared.function.Level.{Level};
ghost use Rattle.fn_rules.specs.Functions.{Function};
ghost use Rattle.fn_rules.specs.Validity.{is_valid};
ghost use Rattle.refusals.specs.declared.refusal.JudgeError.{JudgeError};
ghost use Rattle.ot_sections.specs.Certificates.{IsCertificate};
ghost use Rattle.ot_judge.specs.Refusals.{IsWholeCertificate, IsJudgement};

use ot_questions::Why;
use ot_sections::{all_bytes_are_judged, bytes_are_judged_once, sections_are_parts_that_fit};

/// Bytes are a certificate of a function at a level exactly where they are made of parts that fit one after
/// another, the header of the level first and the last line last.
pub fn certificates_are_parts_that_fit()
    ensures parts { (f : Function) (level : Level) (bytes : List ℕ) → IsTrue (is_valid f) → IsCertificate bytes f level
        → IsWholeCertificate f level bytes }
    ensures certificate { (f : Function) (level : Level) (bytes : List ℕ) → IsWholeCertificate f level bytes
        → IsCertificate bytes f level }
{
    sections_are_parts_that_fit::<Why>();
}

/// Bytes have at most one judgement: they are a certificate of a function at one level, or are refused at one
/// offset for one cause, and never both.
pub fn bytes_have_one_judgement()
    ensures { (f : Function) (bytes : List ℕ) (one other : Result Level JudgeError) → IsTrue (is_valid f)
        → IsJudgement f bytes one → IsJudgement f bytes other → one ≡ other }
{
    certificates_are_parts_that_fit();
    bytes_are_judged_once::<Why>();
}

/// Any bytes have a judgement of any function: they are a certificate of it, or are refused at an offset for a cause.
/// So with the law before, bytes have exactly one judgement of a function within the limits.
pub fn all_bytes_have_a_judgement()
    ensures { (f : Function) (bytes : List ℕ) → (judgement : Result Level JudgeError) × IsJudgement f bytes judgement }
{
    certificates_are_parts_that_fit();
    all_bytes_are_judged::<Why>();
}
