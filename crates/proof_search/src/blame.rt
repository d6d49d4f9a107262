//! What becomes of an end that fails within the lemmas that are being shown.
ghost use Rattle.std.specs.Prelude.{◌<◌, length, IfOk, IfSome, OnOk};
ghost use Rattle.proof_search.specs.Owning.{KeepsNodes, KeepsPlaces, IsMendedWithin};

use crate::levels::{add_around, assume_at, is_still_reached};
use crate::{Distances, LemmaLevel, MAX_NAMES, NoMemory, Search};
use diff_graph::Lit;

/// What became of an end that fails.
#[derive(Clone, Copy)]
pub(crate) enum Blamed {
    /// It was shut out of the levels, or what was being shown there was dropped.
    ShutOut,

    /// No level shuts it out: some integers lead there.
    Real,

    /// A level could not be mended.
    Unexplained,
}

/// What became of the levels from one on, whose end is shut out.
#[derive(Clone, Copy)]
enum Mended {
    /// Each assumes literals that shut it out.
    All,

    /// No integers lead to the level of this number any more.
    Unreachable(usize),

    /// A level around which nothing shuts it out.
    Unexplained,
}

/// The innermost level around which literals shut out the end that the answers lead to, if there is one. What followed
/// within each level up to that one is kept, the innermost one first.
fn innermost_shut<N: Copy>(
    levels: &[LemmaLevel<N>],
    answers: &[Lit],
    facts: &Distances,
    within: &mut Vec<Distances>,
) -> Result<Option<usize>, NoMemory>
    ensures { IfOk result (λ found. IfSome found (λ number. number < length levels.now)) }
{
    within.clear();
    let mut inner = *facts;
    for number in (0..levels.len()).rev() {
        within.push(inner)?;
        if inner.shut_out_by(&levels[number].outer).is_some() {
            return Ok(Some(number));
        }
        if add_around(&mut inner, levels, number, answers).is_some() {
            return Ok(Some(number));
        }
    }
    Ok(None)
}

/// Has a level assume literals from around it that shut out the end that the answers lead to, by what followed within
/// it: one, or, where no two names show that there is none, one more each time. False where they were too many.
fn shut_out<N: Copy>(
    levels: &mut [LemmaLevel<N>],
    number: usize,
    answers: &[Lit],
    within: &Distances,
) -> Result<bool, NoMemory>
    requires { number < length levels.old }
    ensures { KeepsNodes (λ l. l.node) levels.old levels.new }
{
    let mut inner = *within;
    for _turn in 0..MAX_NAMES {
        if let Some(lit) = inner.shut_out_by(&levels[number].outer) {
            assume_at(levels, number, lit)?;
            return Ok(true);
        }
        let mut more = inner;
        let Some(lit) = add_around(&mut more, levels, number, answers) else {
            return Ok(false);
        };
        assume_at(levels, number, lit)?;
        inner.try_add(lit);
    }
    Ok(false)
}

/// Shuts out the end that the answers lead to, from the level on for which this was found to be possible.
fn mend<N: Copy>(
    levels: &mut [LemmaLevel<N>],
    answers: &[Lit],
    within: &[Distances],
    first: usize,
) -> Result<Mended, NoMemory>
    ensures nodes { KeepsNodes (λ l. l.node) levels.old levels.new }
    ensures within { IfOk result (IsMendedWithin (length levels.old)) }
{
    for number in first..levels.len() {
        if !is_still_reached(levels, first, number) {
            return Ok(Mended::Unreachable(number));
        }
        let Some(inner) = within.get(levels.len() - 1 - number) else {
            return Ok(Mended::Unexplained);
        };
        if !shut_out(levels, number, answers, inner)? {
            return Ok(Mended::Unexplained);
        }
    }
    Ok(Mended::All)
}

/// Drops a level, those within it, what waits there, and the answers since it was begun.
pub(crate) fn drop_from<N: Copy>(search: &mut Search<N>, number: usize)
    requires { number < length search.old.levels.items }
    ensures { KeepsPlaces search.old search.new }
{
    let waiting = search.levels[number].waiting;
    let answers = search.levels[number].answers;
    search.levels.truncate(number);
    search.waiting.truncate(waiting);
    search.followed.truncate(waiting);
    search.answers.truncate(answers);
}

/// The same for the levels and answers of a search, whose levels within that one are kept.
fn mend_from<N: Copy>(search: &mut Search<N>, first: usize) -> Result<Mended, NoMemory>
    ensures places { KeepsPlaces search.old search.new }
    ensures within { IfOk result (IsMendedWithin (length search.new.levels.items)) }
{
    mend(&mut search.levels, &search.answers, &search.within, first)
}

/// Shuts the end that the answers lead to out of the levels, from the innermost one on around which literals do so.
pub(crate) fn blame<N: Copy>(search: &mut Search<N>) -> Result<Blamed, NoMemory>
    ensures { OnOk result (KeepsPlaces search.old search.new) }
{
    let first = innermost_shut(
        &search.levels,
        &search.answers,
        &search.facts,
        &mut search.within,
    )?;
    let Some(first) = first else {
        return Ok(Blamed::Real);
    };
    match mend_from(search, first)? {
        Mended::All => Ok(Blamed::ShutOut),
        Mended::Unreachable(number) => {
            drop_from(search, number);
            Ok(Blamed::ShutOut)
        }
        Mended::Unexplained => Ok(Blamed::Unexplained),
    }
}
