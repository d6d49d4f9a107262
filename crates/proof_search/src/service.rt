//! Which lemmas serve at a start.
ghost use Rattle.std.specs.Prelude.{◌≡◌, Some, IfOk, IfSome, MatchOption};
ghost use Rattle.proof_trees.specs.Starts.{start_of, conditions_between};
ghost use Rattle.proof_trees.specs.Starters.{KeepsStarts};
ghost use Rattle.proof_search.specs.Owning.{AreOwnLemmas, ServesNode};

use crate::finder::Finder;
use crate::{Distances, Facts, Lemmas, NoMemory};
use diff_graph::Lit;
use plain_list::List;
use proof_trees::MAX_LITERALS;
use std::alloc::Global;

/// A choice among the lemmas that serve.
pub trait Choice {
    /// Whether the lemma at a place of the list of lemmas is one that is wanted.
    fn takes(&self, place: usize) -> bool;
}

/// Every lemma is wanted.
#[derive(Clone, Copy)]
pub struct Any;

impl Choice for Any {
    fn takes(&self, _place: usize) -> bool {
        true
    }
}

/// What is known where a start is reached.
pub trait Known {
    /// Whether a literal follows from it.
    fn shows(&self, lit: Lit) -> bool;
}

impl Known for Facts {
    #[inline(always)]
    fn shows(&self, lit: Lit) -> bool {
        self.implies(lit)
    }
}

impl Known for Distances {
    #[inline(always)]
    fn shows(&self, lit: Lit) -> bool {
        self.implies(lit)
    }
}

/// What pins names to one another.
pub trait Pins {
    /// The constant `k` for which `x = y + k` follows, if there is one.
    fn apart(&self, x: u8, y: u8) -> Option<i32>;
}

impl Pins for Facts {
    fn apart(&self, x: u8, y: u8) -> Option<i32> {
        self.distance(x, y)
    }
}

impl Pins for Distances {
    fn apart(&self, x: u8, y: u8) -> Option<i32> {
        self.distance(x, y)
    }
}

/// A lemma that serves at a start: its place in the list of lemmas, and the conditions under which the starts compare.
#[derive(Drop)]
pub struct ServingLemma {
    pub place: usize,
    pub conditions: List<Lit>,
}

/// Whether all literals follow.
fn are_shown<K: Known>(known: &K, literals: &[Lit]) -> bool {
    for lit in literals {
        if !known.shows(*lit) {
            return false;
        }
    }
    true
}

/// The lemma at a place, if it is wanted and serves at a node. Its literals are tested first, since to compare takes
/// memory.
fn serving_at<A: Finder, C: Choice, K: Known>(
    alloc: Global,
    asker: &mut A,
    lemmas: &Lemmas<A::Node>,
    here: A::Node,
    known: &K,
    choice: &C,
    place: usize,
) -> Result<Option<ServingLemma>, NoMemory>
    requires lemmas { AreOwnLemmas (A.is_own asker.old) lemmas.now }
    requires here { A.is_own asker.old here }
    ensures serves { IfOk result (λ found. IfSome found (λ s. ServesNode (A.starts asker.new) lemmas.now here s)) }
    ensures same { KeepsStarts (A.is_own asker.old) (A.is_own asker.new) (A.starts asker.old) (A.starts asker.new) }
    ensures told { A.told asker.new ≡ A.told asker.old }
{
    if !choice.takes(place) {
        return Ok(None);
    }
    let Some(lemma) = lemmas.get(place) else {
        return Ok(None);
    };
    if lemma.literals.len() > MAX_LITERALS || !are_shown(known, lemma.literals.as_slice()) {
        return Ok(None);
    }
    let Some(conditions) = asker.compare(alloc, lemma.node, here)? else {
        return Ok(None);
    };
    if !are_shown(known, conditions.as_slice()) {
        return Ok(None);
    }
    Ok(Some(ServingLemma { place, conditions }))
}

/// The newest lemma of the start with this number that is wanted and serves at a node, given what is known there.
/// With the number of the start itself, the conditions are none.
#[tactic(auto, using(crate::proofs::Owning::keeping))]
pub fn serving_of<A: Finder, C: Choice, K: Known>(
    alloc: Global,
    asker: &mut A,
    lemmas: &Lemmas<A::Node>,
    number: usize,
    here: A::Node,
    known: &K,
    choice: &C,
) -> Result<Option<ServingLemma>, NoMemory>
    requires lemmas { AreOwnLemmas (A.is_own asker.old) lemmas.now }
    requires here { A.is_own asker.old here }
    ensures serves { IfOk result (λ found. IfSome found (λ s. ServesNode (A.starts asker.new) lemmas.now here s)) }
    ensures same { KeepsStarts (A.is_own asker.old) (A.is_own asker.new) (A.starts asker.old) (A.starts asker.new) }
    ensures told { A.told asker.new ≡ A.told asker.old }
{
    let places = lemmas.newest(number);
    'places: for passed in 0..places.len() {
        let place = places[places.len() - 1 - passed];
        if let Some(found) = serving_at(alloc, asker, lemmas, here, known, choice, place)? {
            return Ok(Some(found));
        }
    }
    Ok(None)
}

/// The newest lemma of the start at a node that is wanted and serves there, or else the newest one of the start alike
/// by what pins names there.
#[tactic(auto, using(crate::proofs::Owning::keeping))]
pub fn serving<A: Finder, C: Choice, K: Known, P: Pins>(
    alloc: Global,
    asker: &mut A,
    lemmas: &Lemmas<A::Node>,
    here: A::Node,
    pinned: &P,
    known: &K,
    choice: &C,
) -> Result<Option<ServingLemma>, NoMemory>
    requires lemmas { AreOwnLemmas (A.is_own asker.old) lemmas.now }
    requires here { A.is_own asker.old here }
    ensures serves { IfOk result (λ found. IfSome found (λ s. ServesNode (A.starts asker.new) lemmas.now here s)) }
    ensures same { KeepsStarts (A.is_own asker.old) (A.is_own asker.new) (A.starts asker.old) (A.starts asker.new) }
    ensures told { A.told asker.new ≡ A.told asker.old }
{
    let number = asker.number(here)?;
    if let Some(found) = serving_of(alloc, asker, lemmas, number, here, known, choice)? {
        return Ok(Some(found));
    }
    let alike = asker.number_alike(here, pinned)?;
    if alike == number {
        return Ok(None);
    }
    serving_of(alloc, asker, lemmas, alike, here, known, choice)
}
