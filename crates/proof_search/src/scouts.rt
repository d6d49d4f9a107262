//! Scouts: lemmas of a start, that are shown under literals which lead far from where results are told by other positions
//! than their own.
//!
//! Where a guard pins the positions of two operations to one another, a result may be told by the position of the other
//! operation, at each of the points by another offset. Far from there it is told by its own position, and what is shown
//! of it there without the far literal serves at each of the points, by the condition that pins them. So what is far is
//! shown first: the level of the start is begun anew under literals that lead there.
ghost use Rattle.std.specs.Prelude.{◌≡◌, ◌<◌, length, IfSome, OnOk};
ghost use Rattle.proof_search.specs.Owning.{KeepsNodes};
ghost use Rattle.proof_search.specs.Scouts.{BeginsAnew, MayRenewLevel, GoesBack};

use crate::blame::drop_from;
use crate::told::Told;
use crate::{Added, Distances, LemmaLevel, MAX_NAMES, NoMemory, Search, Sent};
use diff_graph::Lit;
use std::alloc::Global;

/// How far from one another two positions are where a scout goes, farther than guards and results tell apart.
const FAR: i32 = 250;

/// How many literals a scout begins with at most.
const MOST_KNOWN: usize = 23;

/// What a scout begins with: literals, and what follows from them.
#[derive(Drop)]
struct Outset {
    literals: Vec<Lit>,
    facts: Distances,
}

/// The literal that leads far below or above the other position.
fn far_literal(told: Told, below: bool) -> Lit {
    if below {
        return Lit {
            x: told.own,
            y: told.other,
            k: -FAR,
        };
    }
    Lit {
        x: told.other,
        y: told.own,
        k: -FAR,
    }
}

/// Marks that a scout is sent. False where one was before.
fn is_first(sent: &mut Sent, below: bool) -> bool {
    if below {
        let first = !sent.below;
        sent.below = true;
        return first;
    }
    let first = !sent.above;
    sent.above = true;
    first
}

/// What is known around the levels.
fn known_around<N: Copy>(levels: &[LemmaLevel<N>], level: &LemmaLevel<N>) -> Distances {
    let mut known = Distances::new();
    for around in levels {
        known.add_possible(&around.outer);
    }
    known.add_possible(&level.outer);
    known
}

/// Adds a literal that is not too far, if it says more.
fn take_up(outset: &mut Outset, lit: Lit) -> Result<(), NoMemory> {
    if outset.literals.len() < MOST_KNOWN
        && !outset.facts.implies(lit)
        && matches!(outset.facts.try_add(lit), Added::Yes)
    {
        outset.literals.push(lit)?;
    }
    Ok(())
}

/// The literals that a scout begins with: one that leads far away, and what is known around; none where no integers meet
/// these.
fn outset_of(alloc: Global, known: &Distances, far: Lit) -> Result<Option<Outset>, NoMemory> {
    if known.excludes(far) {
        return Ok(None);
    }
    let mut outset = Outset {
        literals: Vec::new(alloc),
        facts: Distances::new(),
    };
    take_up(&mut outset, far)?;
    for x in 0..MAX_NAMES as u8 {
        for y in 0..MAX_NAMES as u8 {
            if let Some(k) = known.least(x, y) {
                if x != y {
                    take_up(&mut outset, Lit { x, y, k })?;
                }
            }
        }
    }
    Ok(Some(outset))
}

/// What a scout from the start of a level begins with, which stands within others, if one is due: where a result is told
/// so, and what followed within the level has its own position and the other one equal up to a constant.
fn due<N: Copy>(
    alloc: Global,
    levels: &[LemmaLevel<N>],
    facts: &Distances,
    told: Told,
    level: &mut LemmaLevel<N>,
) -> Result<Option<Outset>, NoMemory>
    ensures { level.new ≡ record level.old { sent = level.new.sent } }
{
    if level.scout {
        return Ok(None);
    }
    let Some(apart) = facts.distance(told.own, told.other) else {
        return Ok(None);
    };
    let below = apart < 0;
    if !is_first(&mut level.sent, below) {
        return Ok(None);
    }
    let known = known_around(levels, level);
    outset_of(alloc, &known, far_literal(told, below))
}

/// Drops what waits and the answers, but for so many.
fn cut<N: Copy>(search: &mut Search<N>, waiting: usize, answers: usize)
    ensures same { search.new ≡ record search.old
        { waiting = search.new.waiting; followed = search.new.followed; answers = search.new.answers } }
    ensures waiting { KeepsNodes (λ w. w.node) search.old.waiting.items search.new.waiting.items }
{
    search.waiting.truncate(waiting);
    search.followed.truncate(waiting);
    search.answers.truncate(answers);
}

/// The innermost level, begun anew as a scout.
fn begin_anew<N: Copy>(
    search: &mut Search<N>,
    level: LemmaLevel<N>,
    outset: Outset,
) -> Result<(), NoMemory>
    ensures { OnOk result (BeginsAnew level search.old search.new) }
{
    cut(search, level.waiting, level.answers);
    search.at = Some(level.node);
    search.begun = true;
    search.facts = outset.facts;
    search.levels.push(LemmaLevel {
        node: level.node,
        literals: outset.literals,
        outer: level.outer,
        waiting: level.waiting,
        answers: level.answers,
        scout: true,
        sent: level.sent,
    })?;
    Ok(())
}

/// Sends a scout from the start of the innermost level, if one is due at the start where the open place is, whose last
/// result is told so. The level is begun anew then, and its start is open.
pub(crate) fn scout<N: Copy>(
    search: &mut Search<N>,
    alloc: Global,
    told: Told,
) -> Result<bool, NoMemory>
    ensures { OnOk result (MayRenewLevel search.old search.new) }
{
    let Some(mut level) = search.levels.pop() else {
        return Ok(false);
    };
    match due(alloc, &search.levels, &search.facts, told, &mut level)? {
        None => {
            search.levels.push(level)?;
            Ok(false)
        }
        Some(outset) => {
            begin_anew(search, level, outset)?;
            Ok(true)
        }
    }
}

/// The number of the outermost level that is a scout, if there is one.
fn outermost_scout<N: Copy>(levels: &[LemmaLevel<N>]) -> Option<usize>
    ensures { IfSome result (λ number. number < length levels.now) }
{
    for number in 0..levels.len() {
        if levels[number].scout {
            return Some(number);
        }
    }
    None
}

/// Drops a level, and goes back to its start.
fn go_back<N: Copy>(search: &mut Search<N>, number: usize)
    requires { number < length search.old.levels.items }
    ensures { GoesBack search.old search.new }
{
    let node = search.levels[number].node;
    let facts = search.levels[number].outer;
    let sent = search.levels[number].sent;
    drop_from(search, number);
    search.at = Some(node);
    search.facts = facts;
    search.sent = sent;
}

/// Gives the outermost scout up, if there is one, and goes back to its start.
pub(crate) fn give_up<N: Copy>(search: &mut Search<N>) -> bool
    ensures { GoesBack search.old search.new }
{
    match outermost_scout(&search.levels) {
        None => false,
        Some(number) => {
            go_back(search, number);
            true
        }
    }
}
