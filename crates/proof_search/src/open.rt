//! How a search under way goes on: a level begins, a question is asked, and a part that waited has its answers.
ghost use Rattle.std.specs.Prelude.{◌≡◌, ◌+◌, ◌<◌, ◌^◌, OnOk};
ghost use Rattle.proof_search.specs.Owning.{BeginsLevel, HasAskedInSearch};

use crate::levels::assumed;
use crate::{Distances, LemmaLevel, NoMemory, Search, Sent, WaitingPart};
use diff_graph::{Lit, negate};
use std::alloc::Global;

/// Adds a literal to the facts that stand last.
#[inline(always)]
fn add_to_last(followed: &mut [Distances], lit: Lit) {
    if let Some(facts) = followed.last_mut() {
        facts.try_add(lit);
    }
}

/// Begins to show a lemma of the start at a node, if one begins there. It assumes nothing yet.
fn begin_level<N: Copy>(
    search: &mut Search<N>,
    alloc: Global,
    node: N,
    begins: bool,
) -> Result<(), NoMemory>
    ensures { OnOk result (BeginsLevel node search.old search.new) }
{
    if !begins {
        return Ok(());
    }
    search.levels.push(LemmaLevel {
        node,
        literals: Vec::new(alloc),
        outer: search.facts,
        waiting: search.waiting.len(),
        answers: search.answers.len(),
        scout: false,
        sent: search.sent,
    })?;
    search.facts = Distances::new();
    Ok(())
}

/// Asks a literal at the open place. A part that the facts exclude is left out.
#[inline(always)]
fn ask<N: Copy>(search: &mut Search<N>, lit: Lit, yes: N, no: N) -> Result<(), NoMemory>
    requires { search.old.asked + 1 < 2 ^ 64 }
    ensures { OnOk result (HasAskedInSearch yes no search.old search.new) }
{
    search.asked += 1;
    search.begun = false;
    search.sent = Sent::none();
    if search.facts.implies(lit) {
        search.at = Some(yes);
        return Ok(());
    }
    if search.facts.excludes(lit) {
        search.at = Some(no);
        return Ok(());
    }
    let answer = negate(lit);
    search.followed.push(search.facts)?;
    add_to_last(&mut search.followed, answer);
    search.waiting.push(WaitingPart {
        node: no,
        answers: search.answers.len(),
        answer,
    })?;
    search.answers.push(lit)?;
    search.facts.try_add(lit);
    search.at = Some(yes);
    Ok(())
}

/// Asks a literal at the node of the open place. Where a start is there, a level is begun first.
#[inline(always)]
pub(crate) fn ask_at<N: Copy>(
    search: &mut Search<N>,
    alloc: Global,
    node: N,
    begins: bool,
    lit: Lit,
    yes: N,
    no: N,
) -> Result<(), NoMemory>
    requires { search.old.asked + 1 < 2 ^ 64 }
    ensures { OnOk result ((begun : Search N) × BeginsLevel node search.old begun
        × HasAskedInSearch yes no begun search.new) }
{
    begin_level(search, alloc, node, begins)?;
    ask(search, lit, yes, no)
}

/// Takes the answers of the innermost part that waited, and what follows from them. What the innermost level
/// assumes by now is added to that, since it may be more than when the question was asked. False where no integers
/// meet all of them.
pub(crate) fn answer<N: Copy>(
    search: &mut Search<N>,
    shared: usize,
    lit: Lit,
) -> Result<bool, NoMemory>
    ensures { search.new ≡ record search.old
        { answers = search.new.answers; followed = search.new.followed; facts = search.new.facts } }
{
    search.answers.truncate(shared);
    search.answers.push(lit)?;
    if let Some(facts) = search.followed.last() {
        search.facts = *facts;
    }
    search
        .followed
        .truncate(search.followed.len().saturating_sub(1));
    Ok(
        search
            .facts
            .add_up_to_excluded(assumed(&search.levels))
            .is_none(),
    )
}
