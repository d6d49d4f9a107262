//! What is laid out where transformations begin, and after the last of them, kept so that each of these places is laid
//! out once, and found in a time that does not grow with what is kept.
ghost use Rattle.std.specs.Prelude.{◌≡◌, [], IsTrue, IfOk, IfSome};
ghost use Rattle.std.specs.List.{All};
ghost use Rattle.fn_rules.specs.Functions.{Function};
ghost use Rattle.ot_terms.specs.Goals.{goal_tree};
ghost use Rattle.start_laws.specs.Settled.{OpensStart, StandsMarked};
ghost use Rattle.ot_starts.specs.Kept.{IsKeptStart, IsKeptEnd};

use crate::slots::{Slots, mark_of};
use ask_core::NoMemory;
use bumpalo::Bump;
use ot_paths::is_same_progress;
use ot_terms::{Goal, SymOp};

/// The goal that is laid out where a transformation begins, or where the last result is delivered.
#[derive(Clone, Copy)]
pub struct Kept<'a> {
    pub at: &'a Goal<'a>,
    pub goal: &'a Goal<'a>,
}

/// Goals that are kept, in the order in which they came, and where they are found.
#[derive(Drop)]
pub struct Table<'a> {
    pub goals: Vec<Kept<'a>, &'a Bump>,
    pub slots: Slots<'a>,
}

/// An arena, and what is laid out in it where last results are delivered.
#[derive(Drop)]
pub struct Ends<'a> {
    pub bump: &'a Bump,
    pub kept: Table<'a>,
}

impl<'a> Table<'a> {
    /// Nothing is kept yet. It takes no memory.
    pub(crate) fn new(bump: &'a Bump) -> Table<'a>
        ensures { result.goals.items ≡ [] }
    {
        Table {
            goals: Vec::new(bump),
            slots: Slots::new(bump),
        }
    }
}

fn are_same_two(a: SymOp, b: SymOp, c: SymOp, d: SymOp) -> bool
    ensures first { IsTrue result → a ≡ c }
    ensures second { IsTrue result → b ≡ d }
{
    if a != c {
        return false;
    }
    b == d
}

// Whether the two goals are one, of goals where a transformation begins.
fn is_same_goal(left: &Goal<'_>, right: &Goal<'_>) -> bool
    ensures { IsTrue result → goal_tree left.now ≡ goal_tree right.now }
{
    match *left {
        Goal::Deliver { op, plan } => match *right {
            Goal::Deliver {
                op: other,
                plan: there,
            } => op == other && is_same_progress(plan, there),
            _ => false,
        },
        Goal::Choose { case, ops, plan } => match *right {
            Goal::Choose {
                case: other,
                ops: others,
                plan: there,
            } => {
                if case != other {
                    return false;
                }
                if !are_same_two(ops.a, ops.b, others.a, others.b) {
                    return false;
                }
                is_same_progress(plan, there)
            }
            _ => false,
        },
        _ => false,
    }
}

// What is laid out there, if the goal at a place is kept for it.
#[inline]
fn kept_at<'a>(goals: &[Kept<'a>], place: usize, at: &Goal<'_>) -> Option<&'a Goal<'a>>
    ensures start { (f : Function) → All (IsKeptStart f) goals.now
        → IfSome result (λ g. OpensStart f (goal_tree at.now) (goal_tree g.now)) }
    ensures end { (f : Function) → All (IsKeptEnd f) goals.now
        → IfSome result (λ g. StandsMarked f (goal_tree at.now) (goal_tree g.now)) }
{
    if place >= goals.len() {
        return None;
    }
    let one = &goals[place];
    if is_same_goal(at, one.at) {
        return Some(one.goal);
    }
    None
}

/// What is laid out there, if it is kept and found.
pub(crate) fn found<'a>(kept: &Table<'a>, at: &Goal<'_>) -> Option<&'a Goal<'a>>
    ensures start { (f : Function) → All (IsKeptStart f) kept.now.goals.items
        → IfSome result (λ g. OpensStart f (goal_tree at.now) (goal_tree g.now)) }
    ensures end { (f : Function) → All (IsKeptEnd f) kept.now.goals.items
        → IfSome result (λ g. StandsMarked f (goal_tree at.now) (goal_tree g.now)) }
{
    let place = kept.slots.place(mark_of(at))?;
    kept_at(&kept.goals, place, at)
}

/// The goal, which is kept from now on as what is laid out there.
#[inline]
pub(crate) fn learnt<'a>(
    kept: &mut Table<'a>,
    at: &'a Goal<'a>,
    goal: &'a Goal<'a>,
) -> Result<&'a Goal<'a>, NoMemory>
    ensures same { IfOk result (λ r. r.now ≡ goal.now) }
    ensures end { (f : Function) → All (IsKeptEnd f) kept.old.goals.items
        → StandsMarked f (goal_tree at.now) (goal_tree goal.now) → All (IsKeptEnd f) kept.new.goals.items }
    ensures start { (f : Function) → All (IsKeptStart f) kept.old.goals.items
        → OpensStart f (goal_tree at.now) (goal_tree goal.now) → All (IsKeptStart f) kept.new.goals.items }
{
    kept.slots.put(mark_of(at), kept.goals.len())?;
    kept.goals.push(Kept { at, goal })?;
    Ok(goal)
}
