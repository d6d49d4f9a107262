//! Askers that number their starts.
ghost use Rattle.std.specs.Prelude.{◌≡◌};
ghost use Rattle.proof_trees.specs.Starters.{KeepsStarts};

use crate::service::Pins;
use crate::told::Told;
use ask_core::{Asker, NoMemory};
use proof_trees::{Starter, Startless};

/// An asker that numbers its starts, so that what was shown at one of them is found again. Nothing is promised of the
/// numbers: with bad ones a search finds too little, and spends more.
pub trait Finder: Starter {
    /// The number of the start at a node. Starts that are equal in all that is still read have one number, and the
    /// numbers count up from 0.
    fn number(&mut self, node: Self::Node) -> Result<usize, NoMemory>
        requires { Self.is_own self.old node }
        ensures same { KeepsStarts (Self.is_own self.old) (Self.is_own self.new) (Self.starts self.old)
            (Self.starts self.new) }
        ensures told { Self.told self.new ≡ Self.told self.old };

    /// The number of the start alike: of the one at the node, with each result that is read told by its own operation's
    /// position where the two are pinned to one another.
    fn number_alike<P: Pins>(&mut self, node: Self::Node, pinned: &P) -> Result<usize, NoMemory>
        requires { Self.is_own self.old node }
        ensures same { KeepsStarts (Self.is_own self.old) (Self.is_own self.new) (Self.starts self.old)
            (Self.starts self.new) }
        ensures told { Self.told self.new ≡ Self.told self.old };

    /// How the last result before the start at a node is told, if a start is there and it is told by another position
    /// than that of its own operation.
    fn told_otherwise(&self, node: Self::Node) -> Option<Told>
        requires { Self.is_own self.now node };
}

impl<A: Asker> Finder for Startless<A> {
    fn number(&mut self, _node: A::Node) -> Result<usize, NoMemory> {
        Ok(0)
    }

    fn number_alike<P: Pins>(&mut self, _node: A::Node, _pinned: &P) -> Result<usize, NoMemory> {
        Ok(0)
    }

    fn told_otherwise(&self, _node: A::Node) -> Option<Told> {
        None
    }
}
