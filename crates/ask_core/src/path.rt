//! The open path through a plan, with the parts for no that still wait.
ghost use Rattle.std.specs.Prelude.{◌≡◌, ◌↔◌, IsTrue, false, ◌<◌, [], ◌∷◌, Some, drop, length, slice_get, OnOk, OnErr};
ghost use Rattle.std.specs.Option.{option_map};
ghost use Rattle.ask_core.specs.Paths.{OpenPlace, after_question, first_answers};

use crate::NoMemory;
use diff_graph::{Lit, answered};
use std::alloc::Global;
use std::marker::Model;

/// A part for no that waits: its node, how many answers it shares with the open path, and its own
/// answer after these.
#[derive(Clone, Copy)]
struct Waiting<N> {
    node: N,
    depth: usize,
    answer: Lit,
}

/// The open places of a plan that is being answered. It is seen as their list, each with its node and
/// the answers that lead there: first the one to answer next, then those that wait, the innermost one
/// first. The answers are kept once, for the open path alone.
#[derive(Drop)]
pub struct Path<N: Copy> {
    current: Option<N>,
    answers: Vec<Lit>,
    waiting: Vec<Waiting<N>>,
}

impl<N: Copy> Model for Path<N> {
    ghost use Rattle.std.specs.Prelude.{List, length, reverse};
    ghost use Rattle.ask_core.specs.Paths.{OpenPlace, places_of, IsNested};

    ghost Value = { List (OpenPlace N) };

    ghost view = { λ p. places_of p.current p.answers.items p.waiting.items };

    ghost invariant = { λ p. IsNested (length p.answers.items) (reverse p.waiting.items) };
}

impl<N: Copy> Path<N> {
    /// The path to a first node, which no answers lead to. The allocator is not asked for memory.
    pub fn new(alloc: Global, first: N) -> Path<N>
        ensures { result ≡ record { node = first; answers = [] } ∷ [] }
    {
        Path {
            current: Some(first),
            answers: Vec::new(alloc),
            waiting: Vec::new(alloc),
        }
    }

    /// Whether a place is open.
    #[inline(always)]
    pub fn is_open(&self) -> bool
        ensures { IsTrue result ↔ (0 < length self.now) }
    {
        self.current.is_some()
    }

    /// The node to answer next.
    #[inline(always)]
    pub fn node(&self) -> N
        requires { 0 < length self.now }
        ensures { option_map (λ p. p.node) (slice_get self.now 0) ≡ Some result }
    {
        self.current.unwrap()
    }

    /// The answers that lead to the node to answer next, the first one first.
    #[inline(always)]
    pub fn answers(&self) -> &[Lit]
        requires { 0 < length self.now }
        ensures { result.now ≡ first_answers self.now }
    {
        let _ = &self.current;
        self.answers.as_slice()
    }

    /// Asks the literal at the first place: the part for yes is next, and the part for no waits. Where
    /// memory is wanting the places stay as they were.
    #[inline(always)]
    pub fn ask(&mut self, lit: Lit, yes: N, no: N) -> Result<(), NoMemory>
        requires { 0 < length self.old }
        ensures ok { OnOk result (self.new ≡ after_question lit yes no self.old) }
        ensures err { OnErr result (self.new ≡ self.old) }
    {
        self.answers.reserve(1)?;
        self.waiting.reserve(1)?;
        let depth = self.answers.len();
        self.answers.push_reserved(answered(lit, true));
        self.waiting.push_reserved(Waiting {
            node: no,
            depth,
            answer: answered(lit, false),
        });
        self.current = Some(yes);
        Ok(())
    }

    /// Asks the literal at the first place, whose part for yes is closed at once: the part for no is next.
    /// Where memory is wanting the places stay as they were.
    #[inline(always)]
    pub fn ask_no(&mut self, lit: Lit, no: N) -> Result<(), NoMemory>
        requires { 0 < length self.old }
        ensures ok { OnOk result ((yes : N) → self.new ≡ drop 1 (after_question lit yes no self.old)) }
        ensures err { OnErr result (self.new ≡ self.old) }
    {
        self.answers.reserve(1)?;
        self.answers.push_reserved(answered(lit, false));
        self.current = Some(no);
        Ok(())
    }

    /// The same, where there is room for a further answer: then the result is true. Else it is false, and the places
    /// stay as they were. The allocator is not asked for memory.
    #[inline(always)]
    pub fn put_no(&mut self, lit: Lit, no: N) -> bool
        requires { 0 < length self.old }
        ensures put { IsTrue result → (yes : N) → self.new ≡ drop 1 (after_question lit yes no self.old) }
        ensures kept { result ≡ false → self.new ≡ self.old }
    {
        if self.answers.len() < self.answers.capacity() {
            self.answers.push_reserved(answered(lit, false));
            self.current = Some(no);
            return true;
        }
        false
    }

    /// Closes the first place: the innermost part that waits is next.
    #[inline(always)]
    pub fn close(&mut self)
        requires { 0 < length self.old }
        ensures { self.new ≡ drop 1 self.old }
    {
        match self.waiting.pop() {
            None => {
                self.current = None;
                self.answers.clear();
            }
            Some(next) => {
                self.answers[next.depth] = next.answer;
                self.answers.truncate(next.depth + 1);
                self.current = Some(next.node);
            }
        }
    }
}
