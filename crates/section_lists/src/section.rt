//! The judge of sections: what a certificate has for obligations of a function, and its last line.
ghost use Rattle.std.specs.Prelude.{◌≡◌, ◌+◌, ◌^◌, ◌<◌, ◌≤◌, true, List, [], ◌∷◌, Ok, IfErr, IfSome, OnOk};
ghost use Rattle.std.specs.Prelude.{IsTrue};
ghost use Rattle.std.specs.List.{list_all};
ghost use Rattle.fn_rules.specs.declared.function.ObName.{ObName};
ghost use Rattle.fn_rules.specs.Obligations.{is_obligation};
ghost use Rattle.fn_rules.specs.Rules.{function_of};
ghost use Rattle.ask_core.specs.Plans.{Plan};
ghost use Rattle.cert_text.specs.Reading.{fed_to};
ghost use Rattle.ot_questions.specs.declared.why.Why.{Why};
ghost use Rattle.ot_questions.specs.Obligation.{plan_below};
ghost use Rattle.ot_sections.specs.Feeding.{IsSpent, Leaves, fed};
ghost use Rattle.ot_sections.specs.Sections.{IsLineWith};
ghost use Rattle.ot_sections.specs.Stands.{IsBetween, IsJudgedBehind, IsRefusedAnyway, IsRefusedBehind, StandLeads};
ghost use Rattle.ot_sections.specs.Stands.{reader_place_of, stand};

use bumpalo::Bump;
use cert_reader::Reader;
use fn_rules::{ObName, Rules};
use ot_outside::Feed;
use ot_sections::{JudgeError, MAX_BOUND, expect_part, judge_in, next_part};
use std::alloc::Global;

// Judges what a certificate has for one obligation: its line, its tree and the newline behind it.
fn judge_section<F: Feed>(
    alloc: Global,
    rules: &Rules,
    below: Option<u32>,
    ob: ObName,
    reader: &mut Reader,
    feed: &mut F,
) -> Result<(), JudgeError>
    requires bounded { IfSome below (λ bound. bound ≤ MAX_BOUND) }
    requires listed { IsTrue (is_obligation (function_of rules.now).head ob) }
    requires between { IsBetween reader.old }
    requires line { (others : List ObName) × IsLineWith (ob ∷ others) (reader_place_of reader.old) }
    requires room { fed_to reader.old + F.bound feed.old < 2 ^ 63 }
    ensures behind { OnOk result (IsBetween reader.new
        × ((others : List ObName) → IsLineWith (ob ∷ others) (reader_place_of reader.old)
        → IsLineWith others (reader_place_of reader.new))) }
    ensures leads { OnOk result (StandLeads F.Feed (plan_below (function_of rules.now) below)
        (stand (fed reader.old feed.old) []) (stand (fed reader.new feed.new) [])) }
    ensures refused { IfErr result (IsRefusedBehind F.Feed (plan_below (function_of rules.now) below)
        (stand (fed reader.old feed.old) []) feed.new) }
    ensures leaves { Leaves F.Feed (fed reader.old feed.old) (fed reader.new feed.new) result }
{
    let _line = expect_part(reader, feed)?;
    let bump = Bump::new(alloc);
    judge_in(alloc, &bump, rules, below, ob, reader, feed)?;
    let _newline = expect_part(reader, feed)?;
    Ok(())
}

// Judges what it has for all obligations, in order.
fn judge_each<F: Feed>(
    alloc: Global,
    rules: &Rules,
    below: Option<u32>,
    names: &[ObName],
    reader: &mut Reader,
    feed: &mut F,
) -> Result<(), JudgeError>
    requires bounded { IfSome below (λ bound. bound ≤ MAX_BOUND) }
    requires listed { list_all (is_obligation (function_of rules.now).head) names.now ≡ true }
    requires between { IsBetween reader.old }
    requires lines { IsLineWith names.now (reader_place_of reader.old) }
    requires room { fed_to reader.old + F.bound feed.old < 2 ^ 63 }
    ensures behind { OnOk result (IsBetween reader.new × IsLineWith [] (reader_place_of reader.new)) }
    ensures leads { OnOk result (StandLeads F.Feed (plan_below (function_of rules.now) below)
        (stand (fed reader.old feed.old) []) (stand (fed reader.new feed.new) [])) }
    ensures refused { IfErr result (IsRefusedBehind F.Feed (plan_below (function_of rules.now) below)
        (stand (fed reader.old feed.old) []) feed.new) }
    ensures leaves { Leaves F.Feed (fed reader.old feed.old) (fed reader.new feed.new) result }
{
    for ob in names {
        judge_section(alloc, rules, below, *ob, reader, feed)?;
    }
    Ok(())
}

// Takes the last line, behind which nothing may stand.
fn read_end<F: Feed>(reader: &mut Reader, feed: &mut F) -> Result<(), JudgeError>
    requires between { IsBetween reader.old }
    requires line { IsLineWith [] (reader_place_of reader.old) }
    requires room { fed_to reader.old + F.bound feed.old < 2 ^ 63 }
    ensures whole { OnOk result ((plan : ObName → Plan Why)
        → IsJudgedBehind F.Feed plan (stand (fed reader.old feed.old) []) feed.new (Ok tt)) }
    ensures refused { IfErr result (IsRefusedAnyway {W = Why} F.Feed (stand (fed reader.old feed.old) []) feed.new) }
    ensures nothing_left { OnOk result (IsSpent F.left F.hand feed.new) }
    ensures leaves { Leaves F.Feed (fed reader.old feed.old) (fed reader.new feed.new) result }
{
    let _end = expect_part(reader, feed)?;
    match next_part(reader, feed)? {
        None => Ok(()),
        Some(_) => unreachable!(),
    }
}

/// Judges the sections of these obligations, in order, and the last line behind them: each tree answers the plan of its
/// obligation, for documents of fewer cells than the bound if there is one. Offsets are those that the reader counts.
///
/// The error is the first part that does not fit, or `Failed` where the count of the feed's faults rose, or `NoMemory`.
/// Nothing is judged behind what is refused.
pub fn judge_sections<F: Feed>(
    alloc: Global,
    rules: &Rules,
    below: Option<u32>,
    names: &[ObName],
    reader: &mut Reader,
    feed: &mut F,
) -> Result<(), JudgeError>
    requires bounded { IfSome below (λ bound. bound ≤ MAX_BOUND) }
    requires listed { list_all (is_obligation (function_of rules.now).head) names.now ≡ true }
    requires between { IsBetween reader.old }
    requires lines { IsLineWith names.now (reader_place_of reader.old) }
    requires room { fed_to reader.old + F.bound feed.old < 2 ^ 63 }

    // Bytes that the feed might give, and all of them, are sections that fit, or they are refused.
    ensures whole { OnOk result (IsJudgedBehind F.Feed (plan_below (function_of rules.now) below)
        (stand (fed reader.old feed.old) []) feed.new (Ok tt)) }
    ensures refused { IfErr result (IsRefusedBehind F.Feed (plan_below (function_of rules.now) below)
        (stand (fed reader.old feed.old) []) feed.new) }
    ensures nothing_left { OnOk result (IsSpent F.left F.hand feed.new) }
    ensures leaves { Leaves F.Feed (fed reader.old feed.old) (fed reader.new feed.new) result }
{
    judge_each(alloc, rules, below, names, reader, feed)?;
    read_end(reader, feed)
}
