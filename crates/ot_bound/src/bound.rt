//! Whether the bytes of a feed are a low certificate of a function.
ghost use Rattle.std.specs.Prelude.{◌≡◌, ◌⊎◌, ℕ, ◌+◌, ◌^◌, ◌<◌, ◌≤◌, true, List, Some, length, Result, IfErr, IfOk, OnOk};
ghost use Rattle.std.specs.List.{list_all};
ghost use Rattle.fn_rules.specs.declared.function.Head.{Head};
ghost use Rattle.fn_rules.specs.declared.function.Level.{Level};
ghost use Rattle.fn_rules.specs.Rules.{function_of};
ghost use Rattle.ot_outside.specs.Faults.{Rose};
ghost use Rattle.refusals.specs.declared.refusal.JudgeError.{JudgeError};
ghost use Rattle.ot_sections.specs.declared.premise.TheConstants.{MAX_BOUND};
ghost use Rattle.ot_sections.specs.Feeding.{Has, IsKeptFeed, IsSpent, IsTruncated, MayGive, MayGiveOf, MayHave, Whole};
ghost use Rattle.ot_sections.specs.Feeding.{Yields};
ghost use Rattle.ot_bound.specs.Judgements.{IsJudgedRest, IsLowJudgement, IsNoJudgement};
ghost use Rattle.ot_bound.specs.Lows.{low_header_text};

use crate::laws::{bytes_have_one_low_judgement, low_certificates_are_sections};
use crate::leading::read_low_header;
use crate::property::{parts, parts_are_obligations};
use cert_reader::Reader;
use fn_rules::{Head, Level, Rules};
use ot_outside::Feed;
use ot_sections::{JudgeError, feeds_have_bytes};
use section_lists::judge_sections;
use std::alloc::Global;

// Judges what stands behind the first line of a level and a bound, which has so many bytes.
fn judge_behind<F: Feed>(
    alloc: Global,
    rules: &Rules,
    head: &Head,
    level: Level,
    bound: u32,
    before: u64,
    feed: &mut F,
) -> Result<(), JudgeError>
    requires head { head.now ≡ (function_of rules.now).head }
    requires bounded { bound ≤ MAX_BOUND }
    requires counted { before ≡ length (low_header_text level bound) }
    requires room { before + F.bound feed.old < 2 ^ 63 }
    ensures judged { IsNoJudgement result ⊎ ((all : Whole) → Has F.Feed feed.new all →
        IsJudgedRest F.Feed (function_of rules.now) level bound feed.old all result) }
    ensures nothing_left { OnOk result (IsSpent F.left F.hand feed.new) }
    ensures truncated { IfErr result (λ e. IsTruncated e → IsSpent F.left F.hand feed.new) }
    ensures failed { IfErr result (λ e. e ≡ JudgeError.Failed → Rose (F.faults feed.old) (F.faults feed.new)) }
    ensures kept { IsKeptFeed F.faults F.bound F.held F.keeps feed.old feed.new }
{
    parts_are_obligations();
    let names = parts(alloc, head, level)?;
    let mut reader = Reader::behind_header(alloc, parts(alloc, head, level)?, before);
    judge_sections(alloc, rules, Some(bound), &names, &mut reader, feed)
}

// The judge, whose answer is about the bytes that the feed may have.
fn judge_low<F: Feed>(
    alloc: Global,
    rules: &Rules,
    head: &Head,
    feed: &mut F,
) -> Result<(Level, u32), JudgeError>
    requires head { head.now ≡ (function_of rules.now).head }
    requires room { F.bound feed.old < 2 ^ 63 }
    ensures judged { IsNoJudgement result ⊎ ((all : Whole) → Has F.Feed feed.new all →
        (bytes : List ℕ) × Yields F.Feed feed.old all bytes × IsLowJudgement (function_of rules.now) bytes result) }
    ensures nothing_left { IfOk result (λ _. IsSpent F.left F.hand feed.new) }
    ensures truncated { IfErr result (λ e. IsTruncated e → IsSpent F.left F.hand feed.new) }
    ensures failed { IfErr result (λ e. e ≡ JudgeError.Failed → Rose (F.faults feed.old) (F.faults feed.new)) }
    ensures kept { IsKeptFeed F.faults F.bound F.held F.keeps feed.old feed.new }
{
    let (level, bound, before) = read_low_header(alloc, feed)?;
    judge_behind(alloc, rules, head, level, bound, before, feed)?;
    low_certificates_are_sections();
    Ok((level, bound))
}

/// Whether the bytes of a feed are a low certificate of the function, and at which level and bound; or where they are
/// refused first, and why. Offsets count from the file's beginning.
///
/// The error is `Failed` only where the count of the feed's faults rose, and `NoMemory` where there was none. Nothing
/// is judged behind what is refused. A certificate is read to the end of the feed, and so is one that ends too early.
pub fn check_bound<F: Feed>(
    alloc: Global,
    rules: &Rules,
    feed: &mut F,
) -> Result<(Level, u32), JudgeError>
    requires { F.bound feed.old < 2 ^ 63 }

    // Where the feed tells its bytes, these are the bytes.
    ensures judged { IsNoJudgement result ⊎ ((bytes : List ℕ) × MayGive F.left F.bound feed.old bytes
        × IsLowJudgement (function_of rules.now) bytes result) }
    // Whether or not the feed tells its bytes: of all bytes that begin with those that it gave, and are no more where
    // nothing is left, those that it had not given before the call have this judgement.
    ensures given { IsNoJudgement result ⊎ ((all : Whole) → MayHave F.left F.bound F.gave F.hand feed.new all →
        (bytes : List ℕ) × MayGiveOf F.left F.bound F.gave feed.old all bytes
        × IsLowJudgement (function_of rules.now) bytes result) }
    ensures only { (bytes : List ℕ) (other : Result (Level × ℕ) JudgeError) → F.left feed.old ≡ Some bytes
        → IsLowJudgement (function_of rules.now) bytes other → IsNoJudgement result ⊎ (result ≡ other) }
    ensures nothing_left { IfOk result (λ _. IsSpent F.left F.hand feed.new) }
    ensures truncated { IfErr result (λ e. IsTruncated e → IsSpent F.left F.hand feed.new) }
    ensures failed { IfErr result (λ e. e ≡ JudgeError.Failed → Rose (F.faults feed.old) (F.faults feed.new)) }
    ensures kept { IsKeptFeed F.faults F.bound F.held F.keeps feed.old feed.new }
{
    bytes_have_one_low_judgement();
    feeds_have_bytes::<F>();
    let head = rules.head();
    judge_low(alloc, rules, &head, feed)
}
