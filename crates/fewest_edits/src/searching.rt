//! The search for the fewest edits.
ghost use Rattle.std.specs.Prelude.{◌≤◌, IfOk};
ghost use Rattle.fn_rules.specs.Rules.{function_of};
ghost use Rattle.fewest_edits.specs.Mendings.{ArePassed, IsAnswerAt, IsMendedBy};
ghost use Rattle.fewest_edits.specs.Scans.{Tells};

use crate::candidate::Candidate;
use crate::decision::Decider;
use crate::mending::Mending;
use crate::scanning::{Best, Scan, scan_after};
use fn_rules::{Level, NoMemory, Rules};
use std::alloc::Global;

// What the best member of a layer tells.
fn answer_of(best: Option<Best>) -> Option<Mending>
    ensures { Tells best result }
{
    match best {
        None => None,
        Some(best) => {
            if best.proved {
                let Candidate { rules, edits } = best.candidate;
                Some(Mending::Found { rules, edits })
            } else {
                Some(Mending::Spent)
            }
        }
    }
}

// What the members that just so many edits lead to come to; none where all of them are refused.
fn answer_at<D: Decider>(
    alloc: Global,
    decider: &mut D,
    rules: &Rules,
    level: Level,
    count: u32,
    budget: u64,
) -> Result<Option<Mending>, NoMemory>
    ensures { IfOk result (IsAnswerAt (D.decides level) (function_of rules.now) budget count) }
{
    let start = Candidate::new(alloc, rules)?;
    let mut scan = Scan {
        left: budget,
        best: None,
    };
    if scan_after(alloc, decider, level, count, 0, start, &mut scan)? {
        Ok(answer_of(scan.best))
    } else {
        Ok(Some(Mending::Spent))
    }
}

// What mending comes to where all members of fewer edits are refused.
fn mend_from<D: Decider>(
    alloc: Global,
    decider: &mut D,
    rules: &Rules,
    level: Level,
    count: u32,
    most: u32,
    budget: u64,
) -> Result<Mending, NoMemory>
    requires passed { ArePassed (D.decides level) (function_of rules.now) budget count }
    requires within { count ≤ most }
    ensures { IfOk result (IsMendedBy (D.decides level) (function_of rules.now) most budget) }
{
    match answer_at(alloc, decider, rules, level, count, budget)? {
        Some(mending) => Ok(mending),
        None => {
            if count < most {
                mend_from(alloc, decider, rules, level, count + 1, most, budget)
            } else {
                Ok(Mending::None)
            }
        }
    }
}

/// The function that comes first of those that have the level and to which at most so many edits lead.
pub fn mend_by<D: Decider>(
    alloc: Global,
    decider: &mut D,
    rules: &Rules,
    level: Level,
    most: u32,
    budget: u64,
) -> Result<Mending, NoMemory>
    ensures { IfOk result (IsMendedBy (D.decides level) (function_of rules.now) most budget) }
{
    mend_from(alloc, decider, rules, level, 0, most, budget)
}
