//! The tree of one obligation of a function, on all documents or on those below a length.
ghost use Rattle.std.specs.Prelude.{◌≡◌, ◌+◌, ◌^◌, ◌<◌, ◌≤◌, [], Some, IfErr, IfSome, OnOk, IsTrue};
ghost use Rattle.fn_rules.specs.Obligations.{is_obligation};
ghost use Rattle.fn_rules.specs.Rules.{function_of};
ghost use Rattle.cert_text.specs.Reading.{fed_to};
ghost use Rattle.ot_questions.specs.Obligation.{plan_below};
ghost use Rattle.ot_sections.specs.Feeding.{Leaves, fed};
ghost use Rattle.ot_sections.specs.Stands.{IsBetween, IsRefusedAnyway, IsTreeOf, LeadsAnyway, opened, reader_place_of};
ghost use Rattle.ot_sections.specs.Stands.{stand};
ghost use Rattle.ot_sections.specs.Stands.{tree_with};

use crate::JudgeError;
use crate::premise::{MAX_BOUND, premise_below};
use crate::tree::judge_tree_behind;
use bumpalo::Bump;
use cert_reader::Reader;
use fn_rules::{ObName, Rules, rules_are_valid};
use ot_outside::Feed;
use ot_paths::PathAsker;
use ot_questions::plans_keep_limits;
use std::alloc::Global;

/// Judges the tree of an obligation, whose goals stand in the arena.
pub fn judge_in<'a, F: Feed>(
    alloc: Global,
    bump: &'a Bump,
    rules: &'a Rules,
    below: Option<u32>,
    ob: ObName,
    reader: &mut Reader,
    feed: &mut F,
) -> Result<(), JudgeError>
    requires bounded { IfSome below (λ bound. bound ≤ MAX_BOUND) }
    requires listed { IsTrue (is_obligation (function_of rules.now).head ob) }
    requires between { IsBetween reader.old }
    requires tree { IsTreeOf 1 (reader_place_of reader.old) }
    requires room { fed_to reader.old + F.bound feed.old < 2 ^ 63 }
    ensures closed { OnOk result (IsBetween reader.new
        × (reader_place_of reader.new ≡ tree_with 0 (reader_place_of reader.old))) }
    ensures leads { OnOk result (LeadsAnyway F.Feed
        (stand (fed reader.old feed.old) (opened (plan_below (function_of rules.now) below ob)))
        (stand (fed reader.new feed.new) [])) }
    ensures refused { IfErr result (IsRefusedAnyway F.Feed
        (stand (fed reader.old feed.old) (opened (plan_below (function_of rules.now) below ob))) feed.new) }
    ensures leaves { Leaves F.Feed (fed reader.old feed.old) (fed reader.new feed.new) result }
{
    plans_keep_limits();
    rules_are_valid(rules);
    let asker = PathAsker::new(bump, rules, ob);
    judge_tree_behind(alloc, premise_below(below), asker, reader, feed)
}
