//! The lemmas that were shown.
ghost use Rattle.std.specs.Prelude.{◌≡◌, ◌≤◌, [], ◌∷◌, ◌++◌, Some, length, slice_get, IfSome, OnOk};

use crate::NoMemory;
use diff_graph::Lit;
use plain_list::List;
use std::alloc::Global;
use std::marker::Model;

/// How many lemmas of one start are looked at, the newest ones; and of those of scouts the first ones.
pub const NEWEST: usize = 64;

/// A lemma: what is left at the start of the node holds where the literals are met.
#[derive(Drop)]
pub struct Lemma<N: Copy> {
    pub node: N,
    pub literals: List<Lit>,
}

/// All lemmas that were shown of one plan, in the order in which they were. It is seen as their list; the place of a
/// lemma counts from 0. Beside it stand the places of the lemmas of each start, by its number, and those of scouts.
#[derive(Drop)]
pub struct Lemmas<N: Copy> {
    alloc: Global,
    shown: Vec<Lemma<N>>,
    of_starts: Vec<Vec<usize>>,
    scouts: Vec<Vec<usize>>,
}

impl<N: Copy> Model for Lemmas<N> {
    ghost use Rattle.std.specs.Prelude.{List};
    ghost use Rattle.proof_search.specs.declared.lemmas.Lemma.{Lemma};

    ghost Value = { List (Lemma N) };

    ghost view = { λ l. l.shown.items };
}

/// Puts a place at the end of those of a number. Numbers before it that are new have no places.
fn add_place(
    alloc: Global,
    of_starts: &mut Vec<Vec<usize>>,
    number: usize,
    place: usize,
) -> Result<(), NoMemory> {
    'numbers: while of_starts.len() <= number {
        of_starts.push(Vec::new(alloc))?;
    }
    of_starts[number].push(place)?;
    Ok(())
}

impl<N: Copy> Lemmas<N> {
    /// No lemmas. The allocator is not asked for memory.
    pub fn new(alloc: Global) -> Lemmas<N>
        ensures { result ≡ [] }
    {
        Lemmas {
            alloc,
            shown: Vec::new(alloc),
            of_starts: Vec::new(alloc),
            scouts: Vec::new(alloc),
        }
    }

    /// How many lemmas there are.
    pub fn len(&self) -> usize
        ensures { result ≡ length self.now }
    {
        self.shown.len()
    }

    /// The lemma at a place, if there is one.
    pub fn get(&self, place: usize) -> Option<&Lemma<N>>
        ensures { IfSome result (λ l. slice_get self.now place ≡ Some l.now) }
    {
        self.shown.get(place)
    }

    /// Adds a lemma, whose start has this number. It is the newest one.
    pub fn add(&mut self, number: usize, lemma: Lemma<N>) -> Result<(), NoMemory>
        ensures { OnOk result (self.new ≡ self.old ++ lemma ∷ []) }
    {
        let place = self.shown.len();
        add_place(self.alloc, &mut self.of_starts, number, place)?;
        self.shown.push(lemma)?;
        Ok(())
    }

    /// Adds the lemma of a scout, whose start has this number. It is none of the newest lemmas of the start.
    pub fn add_scout(&mut self, number: usize, lemma: Lemma<N>) -> Result<(), NoMemory>
        ensures { OnOk result (self.new ≡ self.old ++ lemma ∷ []) }
    {
        let place = self.shown.len();
        add_place(self.alloc, &mut self.scouts, number, place)?;
        self.shown.push(lemma)?;
        Ok(())
    }

    /// The places of the first lemmas of scouts of the start with this number, in the order in which they were shown.
    pub fn scouts(&self, number: usize) -> &[usize]
        ensures { length result.now ≤ NEWEST }
    {
        match self.scouts.get(number) {
            None => &[],
            Some(places) => {
                let most = places.len().min(NEWEST);
                &places[..most]
            }
        }
    }

    /// The places of the newest lemmas of the start with this number, the newest one last.
    pub fn newest(&self, number: usize) -> &[usize]
        ensures { length result.now ≤ NEWEST }
    {
        match self.of_starts.get(number) {
            None => &[],
            Some(places) => {
                let first = places.len().saturating_sub(NEWEST);
                &places[first..]
            }
        }
    }
}
