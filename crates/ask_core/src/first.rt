//! How the plan at the first open place begins.
ghost use Rattle.std.specs.Prelude.{◌≡◌, ◌<◌, length, IfOk, IfSome};
ghost use Rattle.ask_core.specs.Askers.{AsksFirst, Begins, IsFine, SamePlans};
ghost use Rattle.ask_core.specs.Paths.{AreOwn, branches_at, first_plan};

use crate::NoMemory;
use crate::asker::Asker;
use crate::path::Path;
use crate::turn::Turn;
use diff_graph::Lit;

/// The turn at the first open place of a path, whose nodes are the asker's own.
#[inline(always)]
pub fn turn_at<A: Asker>(
    asker: &mut A,
    path: &Path<A::Node>,
) -> Result<Turn<A::Node, A::Why>, NoMemory>
    requires opened { 0 < length path.now }
    requires own { AreOwn (A.is_own asker.old) path.now }
    ensures begins { IfOk result (λ t. Begins (A.is_own asker.new) (A.plan asker.new) t
        (first_plan (A.plan asker.new) path.now)) }
    ensures fine { IsFine (A.name_count asker.new) (first_plan (A.plan asker.new) path.now) }

    // No plan changes, so the places are own ones of the same branches.
    ensures own { AreOwn (A.is_own asker.new) path.now }
    ensures branches { branches_at (A.plan asker.new) path.now ≡ branches_at (A.plan asker.old) path.now }
    ensures same { SamePlans (A.is_own asker.old) (A.is_own asker.new) (A.plan asker.old) (A.plan asker.new) }
    ensures root_kept { A.root asker.new ≡ A.root asker.old }
    ensures count_kept { A.name_count asker.new ≡ A.name_count asker.old }
{
    asker.turn(path.node())
}

/// The literal with which the plan at the first open place begins, and the node for no, where the asker has both at
/// hand.
#[inline(always)]
pub fn look_at<A: Asker>(asker: &A, path: &Path<A::Node>) -> Option<(Lit, A::Node)>
    requires opened { 0 < length path.now }
    requires own { AreOwn (A.is_own asker.now) path.now }
    ensures asks { IfSome result (λ r. AsksFirst (A.is_own asker.now) (A.plan asker.now) r.0 r.1
        (first_plan (A.plan asker.now) path.now)) }
    ensures fine { IsFine (A.name_count asker.now) (first_plan (A.plan asker.now) path.now) }
{
    asker.look(path.node())
}
