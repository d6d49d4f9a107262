//! The first line of a low certificate, of a feed.
ghost use Rattle.std.specs.Prelude.{◌≡◌, ◌+◌, List, [], ◌∷◌, ◌++◌, ℕ, IfErr, IfNone, IfOk, IfSome, OnErr};
ghost use Rattle.std.specs.Prelude.{OnOk};
ghost use Rattle.ot_outside.specs.Faults.{Rose};
ghost use Rattle.refusals.specs.declared.refusal.JudgeError.{JudgeError};
ghost use Rattle.ot_sections.specs.Feeding.{Has, IsKeptFeed, IsSpent, IsTruncated, Whole, Yields};
ghost use Rattle.ot_bound.specs.Headers.{FitsLowHeader};
ghost use Rattle.ot_bound.specs.Judgements.{IsHeaderRead, IsNoHeaderBehind};

use crate::header::{HeaderFit, header_fit};
use ask_core::NoMemory;
use fn_rules::Level;
use ot_outside::{Failed, Feed};
use ot_sections::{JudgeError, Refusal};
use std::alloc::Global;

// The next byte, if one is left.
fn next_byte<F: Feed>(feed: &mut F) -> Result<Option<u8>, Failed>
    ensures byte { IfOk result (λ o. IfSome o (λ byte. (all : Whole) (rest : List ℕ) → Yields F.Feed feed.new all rest
        → Yields F.Feed feed.old all (byte ∷ rest))) }
    ensures fewer { IfOk result (λ o. IfSome o (λ _. F.bound feed.old ≡ F.bound feed.new + 1)) }
    ensures over { IfOk result (λ o. IfNone o ((all : Whole) → Has F.Feed feed.new all
        → Yields F.Feed feed.old all [])) }
    ensures nothing_left { IfOk result (λ o. IfNone o (IsSpent F.left F.hand feed.new)) }
    ensures failed { OnErr result (Rose (F.faults feed.old) (F.faults feed.new)) }
    ensures kept { IsKeptFeed F.faults F.bound F.held F.keeps feed.old feed.new }
{
    if !feed.more()? {
        return Ok(None);
    }
    let byte = feed.at_hand()[0];
    feed.consume(1);
    Ok(Some(byte))
}

// Puts the byte behind those that came, and tells how first lines begin with them then.
fn longer_fit(alloc: Global, line: &mut Vec<u8>, byte: u8) -> Result<HeaderFit, NoMemory>
    ensures came { OnOk result (line.new.items ≡ line.old.items ++ byte ∷ []) }
    ensures fits { IfOk result (FitsLowHeader line.new.items) }
{
    line.push(byte)?;
    header_fit(alloc, line)
}

/// Reads the first line of a low certificate: its level and its bound, and how many bytes it has.
pub(crate) fn read_low_header<F: Feed>(
    alloc: Global,
    feed: &mut F,
) -> Result<(Level, u32, u64), JudgeError>
    ensures header { IfOk result (λ h. IsHeaderRead F.Feed feed.old feed.new h.0 h.1 h.2) }
    ensures refused { IfErr result (IsNoHeaderBehind F.Feed feed.old feed.new) }
    ensures truncated { IfErr result (λ e. IsTruncated e → IsSpent F.left F.hand feed.new) }
    ensures failed { IfErr result (λ e. e ≡ JudgeError.Failed → Rose (F.faults feed.old) (F.faults feed.new)) }
    ensures kept { IsKeptFeed F.faults F.bound F.held F.keeps feed.old feed.new }
{
    let mut line = Vec::new(alloc);
    while let Some(byte) = next_byte(feed)? {
        match longer_fit(alloc, &mut line, byte)? {
            HeaderFit::Whole(level, bound) => return Ok((level, bound, line.len() as u64)),
            HeaderFit::Front => {}
            HeaderFit::Other => {
                return Err(JudgeError::Refused {
                    offset: 0,
                    why: Refusal::Token,
                });
            }
        }
    }
    Err(JudgeError::Refused {
        offset: line.len() as u64,
        why: Refusal::Truncated,
    })
}
