//! The numbers of a cycle in a tree.
ghost use Rattle.std.specs.Prelude.{◌≡◌, ◌<◌, ◌≤◌, [], ◌∷◌, ◌++◌, length};

use smallvec::SmallVec;
use std::alloc::Global;
use std::marker::Model;

/// The most numbers of one cycle.
pub const MAX_PICKS: usize = 12;

/// The numbers of the answers that make a cycle, in the order of the cycle: at most `MAX_PICKS`. They
/// stand in place, so that no call takes memory.
#[derive(Debug, Drop)]
pub struct Picks {
    numbers: SmallVec<u32, MAX_PICKS>,
}

impl Model for Picks {
    ghost use Rattle.std.specs.Prelude.{◌≡◌, ◌≤◌, ℕ, List, length};
    ghost use Rattle.ask_core.specs.declared.picks.TheConstants.{MAX_PICKS};

    ghost Value = { List ℕ };

    ghost view = { λ p. p.numbers.items };

    ghost invariant = { λ p. (length p.numbers.items ≤ MAX_PICKS) × (p.numbers.capacity ≡ MAX_PICKS) };
}

impl Picks {
    /// No numbers. The allocator is not asked for memory.
    pub fn new(alloc: Global) -> Picks
        ensures { result ≡ [] }
    {
        Picks {
            numbers: SmallVec::new(alloc),
        }
    }

    /// Adds a number at the end.
    pub fn push(&mut self, number: u32)
        requires { length self.old < MAX_PICKS }
        ensures { self.new ≡ self.old ++ number ∷ [] }
    {
        self.numbers.push_reserved(number);
    }

    /// The numbers, the first one first.
    pub fn as_slice(&self) -> &[u32]
        ensures value { result.now ≡ self.now }
        ensures most { length result.now ≤ MAX_PICKS }
    {
        self.numbers.as_slice()
    }
}
