//! Whether the bytes of a feed are a certificate of a function.
ghost use Rattle.std.specs.Prelude.{◌≡◌, ◌⊎◌, ℕ, ◌^◌, ◌<◌, List, Some, Result, IfErr, IfOk};
ghost use Rattle.fn_rules.specs.declared.function.Level.{Level};
ghost use Rattle.fn_rules.specs.Rules.{function_of};
ghost use Rattle.ot_outside.specs.Faults.{Rose};
ghost use Rattle.refusals.specs.declared.refusal.JudgeError.{JudgeError};
ghost use Rattle.ot_sections.specs.Feeding.{IsKeptFeed, IsSpent, IsTruncated, MayGive, MayGiveOf, MayHave, Whole};
ghost use Rattle.ot_judge.specs.Refusals.{IsJudgement, IsWant};

use crate::judge::judge_all;
use crate::laws::bytes_have_one_judgement;
use fn_rules::{Level, Rules};
use ot_outside::Feed;
use ot_sections::{JudgeError, feeds_have_bytes};
use std::alloc::Global;

/// Whether the bytes of a feed are a certificate of the function, and at which level; or where they are refused
/// first, and why.
///
/// The end is `Failed` only where the count of the feed's faults rose, and `NoMemory` where there was none. Nothing is
/// judged behind what is refused. A certificate is read to the end of the feed, and so is one that ends too early.
pub fn check_all<F: Feed>(alloc: Global, rules: &Rules, feed: &mut F) -> Result<Level, JudgeError>
    requires { F.bound feed.old < 2 ^ 63 }

    // Where the feed tells its bytes, these are the bytes.
    ensures judged { IsWant result ⊎ ((bytes : List ℕ) × MayGive F.left F.bound feed.old bytes
        × IsJudgement (function_of rules.now) bytes result) }
    // Whether or not the feed tells its bytes: of all bytes that begin with those that it gave, and are no more where
    // nothing is left, those that it had not given before the call have this judgement.
    ensures given { IsWant result ⊎ ((all : Whole) → MayHave F.left F.bound F.gave F.hand feed.new all →
        (bytes : List ℕ) × MayGiveOf F.left F.bound F.gave feed.old all bytes
        × IsJudgement (function_of rules.now) bytes result) }
    ensures only { (bytes : List ℕ) (other : Result Level JudgeError) → F.left feed.old ≡ Some bytes
        → IsJudgement (function_of rules.now) bytes other → IsWant result ⊎ (result ≡ other) }
    ensures nothing_left { IfOk result (λ _. IsSpent F.left F.hand feed.new) }
    ensures truncated { IfErr result (λ e. IsTruncated e → IsSpent F.left F.hand feed.new) }
    ensures failed { IfErr result (λ e. e ≡ JudgeError.Failed → Rose (F.faults feed.old) (F.faults feed.new)) }
    ensures kept { IsKeptFeed F.faults F.bound F.held F.keeps feed.old feed.new }
{
    bytes_have_one_judgement();
    feeds_have_bytes::<F>();
    let head = rules.head();
    judge_all(alloc, rules, &head, feed)
}
