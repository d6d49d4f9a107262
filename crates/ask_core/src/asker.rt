//! Askers: what asks the questions of a plan.
ghost use Rattle.std.specs.Prelude.{◌≡◌, ℕ, ◌≤◌, IfOk, IfSome};
ghost use Rattle.ask_core.specs.Plans.{Plan};
ghost use Rattle.ask_core.specs.Askers.{AsksFirst, Begins, IsFine, SamePlans};

use crate::NoMemory;
use crate::turn::Turn;
use diff_graph::Lit;

/// The most names that the literals of a plan may speak of: numbers from 0 on.
pub const MAX_NAMES: usize = 12;

/// The most questions on one path of a plan.
pub const MAX_QUESTIONS: u32 = 99_999;

/// A source of questions. Each of its nodes stands for a finite plan, and `turn` says how that plan
/// begins. No call changes which nodes are the asker's, what they stand for, the asker's own plan or
/// its count of names, and neither does a call that answers want of memory.
pub trait Asker: Drop {
    /// A place in a plan.
    type Node: Copy;

    /// A cause for which a plan fails.
    type Why: Copy;

    /// The nodes of this asker.
    ghost is_own: { Self → Self.Node → Type 0 };

    /// The finite plan that a node stands for.
    ghost plan: { Self → Self.Node → Plan Self.Why };

    /// The asker's own plan.
    ghost root: { Self → Plan Self.Why };

    /// How many names its literals speak of.
    ghost name_count: { Self → ℕ };

    /// How many names the literals speak of: each name is below it.
    fn names(&self) -> u8
        ensures count { result ≡ name_count self.now }
        ensures some { 1 ≤ result };

    /// A node that stands for the asker's own plan.
    fn start(&mut self) -> Result<Self::Node, NoMemory>
        ensures begins { IfOk result (λ n. is_own self.new n × (plan self.new n ≡ root self.new)) }
        ensures same { SamePlans (is_own self.old) (is_own self.new) (plan self.old) (plan self.new) }
        ensures root_kept { root self.new ≡ root self.old }
        ensures count_kept { name_count self.new ≡ name_count self.old };

    /// How the plan of a node begins.
    fn turn(&mut self, node: Self::Node) -> Result<Turn<Self::Node, Self::Why>, NoMemory>
        requires { is_own self.old node }
        ensures begins { IfOk result (λ t. Begins (is_own self.new) (plan self.new) t (plan self.new node)) }
        ensures same { SamePlans (is_own self.old) (is_own self.new) (plan self.old) (plan self.new) }
        ensures root_kept { root self.new ≡ root self.old }
        ensures count_kept { name_count self.new ≡ name_count self.old };

    /// The literal with which the plan of a node begins, and the node for no, where the asker has both at hand. None
    /// tells nothing of the plan.
    fn look(&self, _node: Self::Node) -> Option<(Lit, Self::Node)>
        requires { is_own self.now _node }
        ensures { IfSome result (λ r. AsksFirst (is_own self.now) (plan self.now) r.0 r.1 (plan self.now _node)) }
    {
        None
    }

    /// The plan of each node keeps the limits.
    ghost fine: { (a : Self) (n : Self.Node) → is_own a n → IsFine (name_count a) (plan a n) };
}
