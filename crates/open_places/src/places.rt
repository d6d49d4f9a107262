//! The open places of a proof.
ghost use Rattle.std.specs.Prelude.{◌≡◌, ◌↔◌, IsTrue, ◌-◌, ◌<◌, ◌≤◌, [], ◌∷◌, ◌++◌, Some, length, slice_get, reverse};
ghost use Rattle.std.specs.Prelude.{drop, map, take, OnOk, OnErr, MatchOption};
ghost use Rattle.diff_graph.specs.declared.lit.Lit.{Lit};
ghost use Rattle.std.specs.Option.{option_map};
ghost use Rattle.proof_trees.specs.declared.limits.TheConstants.{MAX_LITERALS};
ghost use Rattle.open_places.specs.Places.{OpenProof, Tree, AreSettledPlaces, first_list, first_node, closed, asked};
ghost use Rattle.open_places.specs.Places.{begun, cited, literals_at};
ghost use Rattle.open_places.specs.Parts.{AreCycles, cycle_part, without_cycles};

use ask_core::NoMemory;
use diff_graph::{Lit, answered, negate};
use plain_list::List;
use proof_trees::Literals;
use std::alloc::Global;
use std::marker::Model;

/// What is wanted at a place: a tree for a node, or a cycle.
#[derive(Clone, Copy)]
enum At<N> {
    Tree(N),
    Cycle,
}

/// What waits: a place that shares its first `depth` literals with the open path and has one more after them; or
/// the place of a node at which a lemma of the next `count` literals is being shown, and whose own list begins at
/// `base`.
#[derive(Clone, Copy)]
enum WaitingPlace<N> {
    Place {
        at: At<N>,
        depth: usize,
        answer: Lit,
    },
    Lemma {
        node: N,
        base: usize,
        count: usize,
    },
}

/// A lemma that is known: that of the node's start, under the literals.
#[derive(Drop)]
struct Known<N: Copy> {
    node: N,
    literals: List<Lit>,
}

/// The open places of a proof: what is wanted, the first place first, and the lemmas that are known. All lists of
/// literals stand in one, in which the list of the first place begins at `base`.
#[derive(Drop)]
pub struct Places<N: Copy> {
    alloc: Global,
    current: Option<At<N>>,
    list: Vec<Lit>,
    base: usize,
    waiting: Vec<WaitingPlace<N>>,
    known: Vec<Known<N>>,
}

impl<N: Copy> Model for Places<N> {
    ghost use Rattle.open_places.specs.Places.{OpenProof, open_proof, IsOpenPath};

    ghost Value = { OpenProof N };

    ghost view = { λ p. open_proof p.known.items p.current p.base p.list.items p.waiting.items };

    ghost invariant = { λ p. IsOpenPath p.base p.list.items p.waiting.items };
}

impl<N: Copy> Places<N> {
    /// A proof of which a tree for the node is wanted. The allocator is not asked for memory.
    pub fn new(alloc: Global, first: N) -> Places<N>
        ensures { result ≡ record { known = []; wanted = Tree first [] ∷ [] } }
    {
        Places {
            alloc,
            current: Some(At::Tree(first)),
            list: Vec::new(alloc),
            base: 0,
            waiting: Vec::new(alloc),
            known: Vec::new(alloc),
        }
    }

    /// Whether a place is open.
    #[inline(always)]
    pub fn is_open(&self) -> bool
        ensures { IsTrue result ↔ (0 < length self.now.wanted) }
    {
        self.current.is_some()
    }

    /// The node at the first place, where a tree is wanted there.
    #[inline(always)]
    pub fn node(&self) -> Option<N>
        ensures value { result ≡ first_node self.now.wanted }
        ensures settled { AreSettledPlaces self.now.wanted }
    {
        match self.current {
            Some(At::Tree(node)) => Some(node),
            Some(At::Cycle) => None,
            None => None,
        }
    }

    /// The literals at the first place.
    #[inline(always)]
    pub fn list(&self) -> &[Lit]
        requires { 0 < length self.now.wanted }
        ensures value { result.now ≡ first_list self.now.wanted }
        ensures settled { AreSettledPlaces self.now.wanted }
    {
        &self.list[self.base..]
    }

    /// Closes the first place: the innermost part that waits is next. A lemma whose tree ends is known then. Places
    /// that were refused memory are as they were.
    #[inline(always)]
    pub fn close(&mut self) -> Result<(), NoMemory>
        requires { 0 < length self.old.wanted }
        ensures ok { OnOk result (self.new ≡ closed self.old) }
        ensures err { OnErr result (self.new ≡ self.old) }
    {
        match innermost(&self.waiting) {
            None => self.current = None,
            Some(WaitingPlace::Place { at, depth, answer }) => {
                self.list.reserve(1)?;
                self.list.truncate(depth);
                self.list.push_reserved(answer);
                self.waiting.pop();
                self.current = Some(at);
            }
            Some(WaitingPlace::Lemma { node, base, count }) => {
                let literals = Vec::from_slice(
                    self.alloc,
                    &self.list[self.base..self.base + count],
                )?;
                self.known.push(Known {
                    node,
                    literals: List::from_vec(literals),
                })?;
                self.list.truncate(self.base);
                self.waiting.pop();
                self.base = base;
                self.current = Some(At::Tree(node));
            }
        }
        Ok(())
    }

    /// Asks the literal at the first place: the part for yes is next, and the part for no waits. Places that were
    /// refused memory are as they were.
    pub fn ask(&mut self, lit: Lit, yes: N, no: N) -> Result<(), NoMemory>
        requires { 0 < length self.old.wanted }
        ensures ok { OnOk result (self.new ≡ asked lit yes no self.old) }
        ensures err { OnErr result (self.new ≡ self.old) }
    {
        let depth = self.list.len();
        self.waiting.reserve(1)?;
        self.list.push(answered(lit, true))?;
        self.waiting.push_reserved(WaitingPlace::Place {
            at: At::Tree(no),
            depth,
            answer: answered(lit, false),
        });
        self.current = Some(At::Tree(yes));
        Ok(())
    }

    /// Asks the literal at the first place, where the part for yes is closed at once: the part for no is next. Places
    /// that were refused memory are as they were.
    #[inline(always)]
    pub fn ask_no(&mut self, lit: Lit, no: N) -> Result<(), NoMemory>
        requires { 0 < length self.old.wanted }
        ensures ok { OnOk result ((yes : N) → self.new ≡ closed (asked lit yes no self.old)) }
        ensures err { OnErr result (self.new ≡ self.old) }
    {
        self.list.reserve(1)?;
        self.list.push_reserved(answered(lit, false));
        self.current = Some(At::Tree(no));
        Ok(())
    }

    /// Begins a lemma at the first place: its tree is next, under the literals alone, and the place waits. Places that
    /// were refused memory are as they were.
    pub fn begin(&mut self, node: N, literals: &Literals) -> Result<(), NoMemory>
        requires { 0 < length self.old.wanted }
        ensures ok { OnOk result (self.new ≡ begun node literals.now self.old) }
        ensures err { OnErr result (self.new ≡ self.old) }
        ensures few { length literals.now ≤ MAX_LITERALS }
    {
        let shown = literals.as_slice();
        let depth = self.list.len();
        self.waiting.reserve(1)?;
        append(&mut self.list, shown)?;
        self.waiting.push_reserved(WaitingPlace::Lemma {
            node,
            base: self.base,
            count: shown.len(),
        });
        self.base = depth;
        self.current = Some(At::Tree(node));
        Ok(())
    }

    /// The start's node of a lemma that is known, by its number.
    pub fn lemma(&self, number: u32) -> Option<N>
        ensures { result ≡ option_map (λ k. k.node) (slice_get self.now.known number) }
    {
        Some(self.known.get(number as usize)?.node)
    }

    /// How many lemmas are known.
    pub fn known(&self) -> usize
        ensures { result ≡ length self.now.known }
    {
        self.known.len()
    }

    /// Cites a lemma at the first place: a cycle is wanted for each of its literals and for each condition. Places that
    /// were refused memory are as they were.
    pub fn cite(&mut self, number: u32, conditions: &List<Lit>) -> Result<(), NoMemory>
        requires opened { 0 < length self.old.wanted }
        requires known { number < length self.old.known }
        ensures ok { OnOk result (self.new ≡ cited (literals_at self.old.known number ++ conditions.now) self.old) }
        ensures err { OnErr result (self.new ≡ self.old) }
    {
        let depth = self.list.len();
        let before = self.waiting.len();
        wait_for_all(
            &mut self.waiting,
            depth,
            self.known[number as usize].literals.as_slice(),
            conditions.as_slice(),
        )?;
        let cycles = self.waiting.len() - before;
        match self.close() {
            Ok(()) => Ok(()),
            Err(want) => {
                self.forget(cycles);
                Err(want)
            }
        }
    }

    // Forgets the innermost parts that wait, so many, each of them for a cycle.
    fn forget(&mut self, cycles: usize)
        requires { AreCycles cycles (drop 1 self.old.wanted) }
        ensures { self.new ≡ without_cycles cycles self.old }
    {
        self.waiting.truncate(self.waiting.len() - cycles);
    }
}

// The innermost part that waits, if one does.
fn innermost<N: Copy>(waiting: &[WaitingPlace<N>]) -> Option<WaitingPlace<N>>
    ensures { MatchOption result (waiting.now ≡ [])
        (λ part. waiting.now ≡ take (length waiting.now - 1) waiting.now ++ part ∷ []) }
{
    waiting.last().copied()
}

// Puts literals at the end. A list that was refused memory is as it was.
fn append(list: &mut Vec<Lit>, literals: &[Lit]) -> Result<(), NoMemory>
    ensures ok { OnOk result (list.new.items ≡ list.old.items ++ literals.now) }
    ensures err { OnErr result (list.new.items ≡ list.old.items) }
{
    list.extend_from_slice(literals)
}

// Lets a cycle wait for each literal, the first one innermost. What was refused memory is as it was.
fn wait_for_cycles<N: Copy>(
    waiting: &mut Vec<WaitingPlace<N>>,
    depth: usize,
    literals: &[Lit],
) -> Result<(), NoMemory>
    ensures ok { OnOk result (reverse waiting.new.items ≡ map (cycle_part depth) literals.now
        ++ reverse waiting.old.items) }
    ensures err { OnErr result (waiting.new.items ≡ waiting.old.items) }
{
    waiting.reserve(literals.len())?;
    let mut left = literals.len();
    while left > 0 {
        waiting.push_reserved(WaitingPlace::Place {
            at: At::Cycle,
            depth,
            answer: negate(literals[left - 1]),
        });
        left -= 1;
    }
    Ok(())
}

// Lets a cycle wait for each literal of a lemma and then for each condition. What was refused memory is as it was.
fn wait_for_all<N: Copy>(
    waiting: &mut Vec<WaitingPlace<N>>,
    depth: usize,
    literals: &[Lit],
    conditions: &[Lit],
) -> Result<(), NoMemory>
    ensures ok { OnOk result (reverse waiting.new.items ≡ map (cycle_part depth) (literals.now ++ conditions.now)
        ++ reverse waiting.old.items) }
    ensures err { OnErr result (waiting.new.items ≡ waiting.old.items) }
{
    let before = waiting.len();
    wait_for_cycles(waiting, depth, conditions)?;
    if let Err(want) = wait_for_cycles(waiting, depth, literals) {
        waiting.truncate(before);
        return Err(want);
    }
    Ok(())
}
