//! The scan of the members of a layer, which keeps the one that comes first.
ghost use Rattle.std.specs.Prelude.{◌≡◌, ◌∷◌, [], IfOk, OnOk, true};
ghost use Rattle.std.specs.List.{flat_map};
ghost use Rattle.fn_rules.specs.Rules.{function_of};
ghost use Rattle.ot_mend.specs.Members.{members_after, next_members};
ghost use Rattle.ot_mend.specs.Ranks.{rank_of};
ghost use Rattle.fewest_edits.specs.Candidates.{member_of};
ghost use Rattle.fewest_edits.specs.Scans.{Improves, IsScanOf, may_be_first};

use crate::candidate::{Candidate, stage_of};
use crate::decision::{Decider, Decision};
use fn_rules::{Level, NoMemory};
use ot_mend::{Edit, Rank, comes_before, edits};
use std::alloc::Global;

/// The member that comes first so far.
#[derive(Drop)]
pub(crate) struct Best {
    pub(crate) candidate: Candidate,
    pub(crate) rank: Rank,

    /// It has the level; else it has more questions than are allowed.
    pub(crate) proved: bool,
}

/// What a scan knows.
#[derive(Drop)]
pub(crate) struct Scan {
    /// How many members the budget still allows.
    pub(crate) left: u64,

    /// The one that comes first of those that are not refused.
    pub(crate) best: Option<Best>,
}

// Whether a member of this rank would come first.
fn may_be_first(best: &Option<Best>, rank: &Rank) -> bool
    ensures { result ≡ may_be_first best.now rank.now }
{
    match best {
        None => true,
        Some(best) => comes_before(rank, &best.rank),
    }
}

// Decides a member that would come first.
fn try_candidate<D: Decider>(
    alloc: Global,
    decider: &mut D,
    level: Level,
    candidate: Candidate,
    rank: Rank,
    best: &mut Option<Best>,
) -> Result<(), NoMemory>
    requires rank { rank ≡ rank_of candidate.edits.items (function_of candidate.rules) }
    requires first { may_be_first best.old rank ≡ true }
    ensures { OnOk result (Improves (D.decides level) (member_of candidate ∷ []) best.old best.new) }
{
    match decider.decide(alloc, &candidate.rules, level)? {
        Decision::Yes => {
            *best = Some(Best {
                candidate,
                rank,
                proved: true,
            });
            Ok(())
        }
        Decision::No => Ok(()),
        Decision::Spent => {
            *best = Some(Best {
                candidate,
                rank,
                proved: false,
            });
            Ok(())
        }
    }
}

// Decides a member, unless it comes behind the best one.
fn consider<D: Decider>(
    alloc: Global,
    decider: &mut D,
    level: Level,
    candidate: Candidate,
    best: &mut Option<Best>,
) -> Result<(), NoMemory>
    ensures { OnOk result (Improves (D.decides level) (member_of candidate ∷ []) best.old best.new) }
{
    let rank = candidate.rank();
    if may_be_first(best, &rank) {
        try_candidate(alloc, decider, level, candidate, rank, best)
    } else {
        Ok(())
    }
}

// Goes over one member.
fn visit<D: Decider>(
    alloc: Global,
    decider: &mut D,
    level: Level,
    candidate: Candidate,
    scan: &mut Scan,
) -> Result<bool, NoMemory>
    ensures { IfOk result (IsScanOf (D.decides level) (member_of candidate ∷ []) scan.old scan.new) }
{
    if scan.left == 0 {
        return Ok(false);
    }
    scan.left -= 1;
    consider(alloc, decider, level, candidate, &mut scan.best)?;
    Ok(true)
}

// Goes over the members that one edit, and so many after it, lead to.
#[cycle(scan)]
fn scan_next<D: Decider>(
    alloc: Global,
    decider: &mut D,
    level: Level,
    further: u32,
    stage: usize,
    candidate: &Candidate,
    edit: &Edit,
    scan: &mut Scan,
) -> Result<bool, NoMemory>
    ensures { IfOk result (IsScanOf (D.decides level)
        (next_members (members_after further) stage (member_of candidate.now) edit.now) scan.old scan.new) }
{
    match candidate.next(alloc, stage, edit)? {
        None => Ok(true),
        Some(next) => scan_after(alloc, decider, level, further, stage_of(edit), next, scan),
    }
}

// Goes over the members that each of these edits, and so many after it, lead to.
#[cycle(scan)]
fn scan_edits<D: Decider>(
    alloc: Global,
    decider: &mut D,
    level: Level,
    further: u32,
    stage: usize,
    candidate: &Candidate,
    edits: &[Edit],
    scan: &mut Scan,
) -> Result<bool, NoMemory>
    ensures { IfOk result (IsScanOf (D.decides level)
        (flat_map (next_members (members_after further) stage (member_of candidate.now)) edits.now)
        scan.old scan.new) }
{
    for edit in edits {
        if !scan_next(alloc, decider, level, further, stage, candidate, edit, scan)? {
            return Ok(false);
        }
    }
    Ok(true)
}

/// Goes over the members that so many further edits lead to, from a stage on; false where the budget ends before.
#[cycle(scan)]
pub(crate) fn scan_after<D: Decider>(
    alloc: Global,
    decider: &mut D,
    level: Level,
    further: u32,
    stage: usize,
    candidate: Candidate,
    scan: &mut Scan,
) -> Result<bool, NoMemory>
    ensures { IfOk result (IsScanOf (D.decides level)
        (members_after further stage (member_of candidate)) scan.old scan.new) }
{
    if further == 0 {
        return visit(alloc, decider, level, candidate, scan);
    }
    let edits = edits(alloc, &candidate.rules)?;
    scan_edits(
        alloc,
        decider,
        level,
        further - 1,
        stage,
        &candidate,
        &edits,
        scan,
    )
}
