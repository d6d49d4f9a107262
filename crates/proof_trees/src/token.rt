//! Tokens of proof trees.
ghost use Rattle.std.specs.Prelude.{◌≡◌, ◌<◌, ◌≤◌, [], ◌∷◌, ◌++◌, length};

use crate::limits::MAX_LITERALS;
use ask_core::Picks;
use diff_graph::Lit;
use std::marker::Model;

/// The literals of a lemma: at most `MAX_LITERALS`. They stand in place, so that no call takes memory.
#[derive(Drop)]
pub struct Literals {
    slots: [Lit; MAX_LITERALS],
    count: usize,
}

impl Model for Literals {
    ghost use Rattle.std.specs.Prelude.{◌≤◌, List, take};
    ghost use Rattle.diff_graph.specs.declared.lit.Lit.{Lit};
    ghost use Rattle.proof_trees.specs.declared.limits.TheConstants.{MAX_LITERALS};

    ghost Value = { List Lit };

    ghost view = { λ l. take l.count l.slots };

    ghost invariant = { λ l. l.count ≤ MAX_LITERALS };
}

impl Literals {
    /// No literals.
    pub fn new() -> Literals
        ensures { result ≡ [] }
    {
        Literals {
            slots: [Lit { x: 0, y: 0, k: 0 }; MAX_LITERALS],
            count: 0,
        }
    }

    /// Adds a literal at the end.
    pub fn push(&mut self, literal: Lit)
        requires { length self.old < MAX_LITERALS }
        ensures { self.new ≡ self.old ++ literal ∷ [] }
    {
        self.slots[self.count] = literal;
        self.count += 1;
    }

    /// The literals, the first one first.
    pub fn as_slice(&self) -> &[Lit]
        ensures value { result.now ≡ self.now }
        ensures most { length result.now ≤ MAX_LITERALS }
    {
        &self.slots[..self.count]
    }
}

/// A token of a proof tree.
#[derive(Drop)]
pub enum ProofTok {
    /// `?`: a question, before the tree for yes and the tree for no.
    Ask,

    /// `.`: the plan holds here.
    Holds,

    /// `x`: no integers meet the list of literals, since those of these numbers are a negative cycle.
    Cycle(Picks),

    /// `l`: a lemma of the start here under these literals, before its tree and the tree that goes on here.
    Lemma(Literals),

    /// `c`: the lemma of this number shows what is left here, before a cycle for each of its literals and
    /// for each condition of the comparison.
    Cite(u32),
}
