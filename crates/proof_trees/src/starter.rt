//! Askers that say where their starts are, and which of them compare.
ghost use Rattle.std.specs.Prelude.{◌≡◌, ◌↔◌, ℕ, Some, IsTrue, IfOk, is_some};
ghost use Rattle.ask_core.specs.Plans.{Plan};
ghost use Rattle.proof_trees.specs.Starts.{MarkedPlan, unmarked, start_of, conditions_between};
ghost use Rattle.proof_trees.specs.Starters.{Starts, BeginsAt, HasCounted, KeepsStarts, IsWhole, questions_in};

use ask_core::{Asker, NoMemory, Turn};
use diff_graph::Lit;
use plain_list::List;
use std::alloc::Global;

/// An asker with starts: nodes at which a part of the plan begins that may stand elsewhere too. What a start
/// is and how two of them compare are facts of the starts alone, whatever their plans are.
///
/// `start` and `turn` of an asker say nothing of starts. `first` and `follow` answer as they do, and say where
/// the starts are. No call changes which nodes are the asker's, their plans, or their starts.
///
/// The asker counts the questions that `follow` tells, and no other call of these changes the count.
pub trait Starter: Asker {
    /// What a start is. Only contracts speak of its values.
    type Start;

    /// The plan of each node with its starts, and how the starts compare.
    ghost starts: { Self → Starts Self.Node Self.Start Self.Why };

    /// How many questions `follow` told.
    ghost told: { Self → ℕ };

    /// A node of the asker's own plan.
    fn first(&mut self) -> Result<Self::Node, NoMemory>
        ensures begins { IfOk result (λ n. Self.is_own self.new n
            × ((starts self.new).marked n ≡ (starts self.new).root)) }
        ensures same { KeepsStarts (Self.is_own self.old) (Self.is_own self.new) (starts self.old) (starts self.new) }
        ensures told { told self.new ≡ told self.old };

    /// How the plan of a node begins.
    fn follow(&mut self, node: Self::Node) -> Result<Turn<Self::Node, Self::Why>, NoMemory>
        requires { Self.is_own self.old node }
        ensures begins { IfOk result (λ t. BeginsAt (Self.is_own self.new) (starts self.new).marked t
            ((starts self.new).marked node)) }
        ensures same { KeepsStarts (Self.is_own self.old) (Self.is_own self.new) (starts self.old) (starts self.new) }
        ensures told { HasCounted (told self.old) (questions_in result) (told self.new) };

    /// Whether a start is at a node.
    fn begins(&self, node: Self::Node) -> bool
        requires { Self.is_own self.now node }
        ensures { result ≡ is_some (start_of ((starts self.now).marked node)) };

    /// The conditions under which a lemma of the one node's start serves at the other one, or none where the
    /// starts do not compare.
    fn compare(
        &mut self,
        alloc: Global,
        lemma: Self::Node,
        here: Self::Node,
    ) -> Result<Option<List<Lit>>, NoMemory>
        requires lemma { Self.is_own self.old lemma }
        requires here { Self.is_own self.old here }
        ensures conditions { IfOk result (λ found. found
            ≡ conditions_between (starts self.new).compare (start_of ((starts self.new).marked lemma))
            (start_of ((starts self.new).marked here))) }
        ensures same { KeepsStarts (Self.is_own self.old) (Self.is_own self.new) (starts self.old) (starts self.new) }
        ensures told { told self.new ≡ told self.old };

    /// The asker's own plan is the one with its starts; they stand for what is there; and a valuation that meets
    /// the conditions gives the plans of both starts one value.
    ghost whole: { (a : Self) → IsWhole (Self.root a) (starts a) };
}
