//! Lemmas that serve at a start by what is known around the lemmas which are being shown there.
ghost use Rattle.std.specs.Prelude.{◌≡◌, ◌<◌, length, IfOk, IfSome, OnOk};
ghost use Rattle.proof_trees.specs.Starters.{KeepsStarts};
ghost use Rattle.proof_search.specs.Owning.{AreOwnLemmas, KeepsNodes, KeepsPlaces};

use crate::blame::drop_from;
use crate::finder::Finder;
use crate::levels::{assume_at, is_still_reached};
use crate::service::{Any, Known, ServingLemma, serving};
use crate::{Added, Distances, LemmaLevel, Lemmas, NoMemory, Search};
use diff_graph::Lit;
use std::alloc::Global;

impl<N: Copy> Known for Search<N> {
    /// Whether a literal follows from the innermost of what is known around that says something of it.
    fn shows(&self, lit: Lit) -> bool {
        if self.facts.implies(lit) {
            return true;
        }
        if self.facts.excludes(lit) {
            return false;
        }
        for level in self.levels.iter().rev() {
            if level.outer.implies(lit) {
                return true;
            }
            if level.outer.excludes(lit) {
                return false;
            }
        }
        false
    }
}

/// The innermost level where the literal follows from what is known around it, if there is one.
fn innermost_shown<N: Copy>(levels: &[LemmaLevel<N>], lit: Lit) -> Option<usize>
    ensures { IfSome result (λ number. number < length levels.now) }
{
    for number in (0..levels.len()).rev() {
        if levels[number].outer.implies(lit) {
            return Some(number);
        }
    }
    None
}

/// Has the levels from one on assume a literal. The answer is the number of one that no integers lead to then, if there
/// is one.
fn assume_from<N: Copy>(
    levels: &mut [LemmaLevel<N>],
    first: usize,
    lit: Lit,
) -> Result<Option<usize>, NoMemory>
    ensures nodes { KeepsNodes (λ l. l.node) levels.old levels.new }
    ensures within { IfOk result (λ found. IfSome found (λ number. number < length levels.old)) }
{
    for number in first..levels.len() {
        if !is_still_reached(levels, first, number) {
            return Ok(Some(number));
        }
        assume_at(levels, number, lit)?;
    }
    Ok(None)
}

/// The same for the levels of a search.
fn assume_within<N: Copy>(
    search: &mut Search<N>,
    first: usize,
    lit: Lit,
) -> Result<Option<usize>, NoMemory>
    ensures places { KeepsPlaces search.old search.new }
    ensures within { IfOk result (λ found. IfSome found (λ number. number < length search.new.levels.items)) }
{
    assume_from(&mut search.levels, first, lit)
}

/// Adds a literal to what follows, if some integers meet it with this.
fn is_added(facts: &mut Distances, lit: Lit) -> bool {
    matches!(facts.try_add(lit), Added::Yes)
}

/// Has the levels assume a literal that follows from what is known around. False where no integers lead here then.
fn take<N: Copy>(search: &mut Search<N>, lit: Lit) -> Result<bool, NoMemory>
    ensures { OnOk result (KeepsPlaces search.old search.new) }
{
    if search.facts.implies(lit) {
        return Ok(true);
    }
    let Some(first) = innermost_shown(&search.levels, lit) else {
        return Ok(false);
    };
    if let Some(number) = assume_within(search, first, lit)? {
        drop_from(search, number);
        return Ok(false);
    }
    Ok(is_added(&mut search.facts, lit))
}

/// Has the levels assume literals that follow from what is known around, up to one with which no integers lead
/// here.
#[tactic(auto, using(crate::proofs::Owning::places_kept))]
fn take_all<N: Copy>(search: &mut Search<N>, literals: &[Lit]) -> Result<(), NoMemory>
    ensures { OnOk result (KeepsPlaces search.old search.new) }
{
    for lit in literals {
        if !take(search, *lit)? {
            return Ok(());
        }
    }
    Ok(())
}

/// What a lemma that serves wants to follow: its literals, and then the conditions.
fn wanted<N: Copy>(
    alloc: Global,
    lemmas: &Lemmas<N>,
    serving: &ServingLemma,
) -> Result<Vec<Lit>, NoMemory> {
    let mut wanted = Vec::new(alloc);
    if let Some(lemma) = lemmas.get(serving.place) {
        for lit in lemma.literals.as_slice() {
            wanted.push(*lit)?;
        }
    }
    for lit in serving.conditions.as_slice() {
        wanted.push(*lit)?;
    }
    Ok(wanted)
}

/// Has the levels assume what a lemma that serves wants.
fn take_wanted<N: Copy>(
    alloc: Global,
    search: &mut Search<N>,
    serving: ServingLemma,
) -> Result<(), NoMemory>
    ensures { OnOk result (KeepsPlaces search.old search.new) }
{
    let literals = wanted(alloc, &search.lemmas, &serving)?;
    take_all(search, literals.as_slice())
}

/// What follows at the open place, with each two names that are equal up to a constant somewhere around it.
fn fixed_around<N: Copy>(search: &Search<N>) -> Distances {
    let mut facts = search.facts;
    for level in search.levels.iter().rev() {
        facts.add_fixed(&level.outer);
    }
    facts
}

/// Whether a lemma of the start at a node, or of the start alike, serves by what is known around. The levels assume then
/// what it wants.
#[tactic(auto, using(crate::proofs::Owning::keeping))]
pub(crate) fn adopt<A: Finder>(
    alloc: Global,
    asker: &mut A,
    search: &mut Search<A::Node>,
    node: A::Node,
) -> Result<bool, NoMemory>
    requires lemmas { AreOwnLemmas (A.is_own asker.old) search.old.lemmas }
    requires node { A.is_own asker.old node }
    ensures places { OnOk result (KeepsPlaces search.old search.new) }
    ensures same { KeepsStarts (A.is_own asker.old) (A.is_own asker.new) (A.starts asker.old) (A.starts asker.new) }
    ensures told { A.told asker.new ≡ A.told asker.old }
{
    let facts = fixed_around(search);
    let found = serving(alloc, asker, &search.lemmas, node, &facts, &*search, &Any)?;
    let Some(found) = found else {
        return Ok(false);
    };
    take_wanted(alloc, search, found)?;
    Ok(true)
}
