//! The judge of certificates.
ghost use Rattle.std.specs.Prelude.{◌≡◌, ◌⊎◌, ℕ, ◌+◌, ◌^◌, ◌<◌, List, [], Result, IfErr, IfOk};
ghost use Rattle.fn_rules.specs.declared.function.Level.{Level};
ghost use Rattle.fn_rules.specs.declared.function.Level.TheVariants.{Tp1, Tp2};
ghost use Rattle.fn_rules.specs.Obligations.{obligations_of};
ghost use Rattle.fn_rules.specs.Rules.{function_of};
ghost use Rattle.cert_text.specs.Places.{Start};
ghost use Rattle.cert_text.specs.Reading.{Reading, fed_to};
ghost use Rattle.ot_outside.specs.Faults.{Rose};
ghost use Rattle.refusals.specs.declared.refusal.JudgeError.{JudgeError};
ghost use Rattle.ot_sections.specs.Feeding.{Has, IsKeptFeed, IsSpent, IsTruncated, Leaves, Whole, Yields, fed};
ghost use Rattle.ot_sections.specs.Stands.{Came, IsBetween, IsMisspeltBehind, reader_offset_of, reader_place_of};
ghost use Rattle.ot_judge.specs.Refusals.{IsJudgement, IsStart, IsWant};

use crate::laws::certificates_are_parts_that_fit;
use ask_core::NoMemory;
use cert_reader::Reader;
use cert_text::{Item, Part};
use fn_rules::{Head, Level, Rules, obligations, obligations_are_those_of_the_kinds};
use ot_outside::Feed;
use ot_sections::{JudgeError, expect_part};
use section_lists::judge_sections;
use std::alloc::Global;

// Takes the first line: its level.
fn read_header<F: Feed>(reader: &mut Reader, feed: &mut F) -> Result<Level, JudgeError>
    requires between { IsBetween reader.old }
    requires start { IsStart (reader_place_of reader.old) }
    requires room { fed_to reader.old + F.bound feed.old < 2 ^ 63 }
    ensures header { IfOk result (λ level. Came F.Feed (fed reader.old feed.old) (fed reader.new feed.new)
        (record { offset = reader_offset_of reader.old; part = Part.Header level })) }
    ensures misspelt { IfErr result (IsMisspeltBehind F.Feed (fed reader.old feed.old) feed.new) }
    ensures leaves { Leaves F.Feed (fed reader.old feed.old) (fed reader.new feed.new) result }
{
    let Item { offset: _, part } = expect_part(reader, feed)?;
    match part {
        Part::Header(level) => Ok(level),
        _ => unreachable!(),
    }
}

// A reader of certificates, before the first line.
fn reader_of(alloc: Global, head: &Head) -> Result<Reader, NoMemory>
    ensures { IfOk result (λ r. r ≡ Reading (Start (obligations_of head.now Tp1) (obligations_of head.now Tp2)) 0 []) }
{
    let tp1 = obligations(alloc, head, Level::Tp1)?;
    let tp2 = obligations(alloc, head, Level::Tp2)?;
    Ok(Reader::new(alloc, tp1, tp2))
}

/// Whether the bytes of a feed are a certificate of the function, and at which level; or where they are refused
/// first, and why.
pub(crate) fn judge_all<F: Feed>(
    alloc: Global,
    rules: &Rules,
    head: &Head,
    feed: &mut F,
) -> Result<Level, JudgeError>
    requires head { head.now ≡ (function_of rules.now).head }
    requires room { F.bound feed.old < 2 ^ 63 }

    ensures judged { IsWant result ⊎ ((all : Whole) → Has F.Feed feed.new all →
        (bytes : List ℕ) × Yields F.Feed feed.old all bytes × IsJudgement (function_of rules.now) bytes result) }
    ensures nothing_left { IfOk result (λ _. IsSpent F.left F.hand feed.new) }
    ensures truncated { IfErr result (λ e. IsTruncated e → IsSpent F.left F.hand feed.new) }
    ensures failed { IfErr result (λ e. e ≡ JudgeError.Failed → Rose (F.faults feed.old) (F.faults feed.new)) }
    ensures kept { IsKeptFeed F.faults F.bound F.held F.keeps feed.old feed.new }
{
    let mut reader = reader_of(alloc, head)?;
    let level = read_header(&mut reader, feed)?;
    let names = obligations(alloc, head, level)?;
    obligations_are_those_of_the_kinds();
    judge_sections(alloc, rules, None, &names, &mut reader, feed)?;
    certificates_are_parts_that_fit();
    Ok(level)
}
