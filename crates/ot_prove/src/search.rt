//! The steps of a search: a question, an end, or a cycle at the first open place.
ghost use Rattle.std.specs.Prelude.{◌≡◌, ◌<◌, ◌≤◌, true, length};
ghost use Rattle.std.specs.Prelude.{IfOk, OnOk};
ghost use Rattle.ask_core.specs.Askers.{Begins, IsFine};
ghost use Rattle.ask_core.specs.Paths.{branches_at, first_plan};
ghost use Rattle.ask_core.specs.declared.tree.Tok.TheVariants.{Holds};
ghost use Rattle.ask_core.specs.declared.asker.TheConstants.{MAX_NAMES};
ghost use Rattle.ot_prove.specs.Searching.{IsAsBefore, IsSearchUnderWay, IsUnderWayOr};
ghost use Rattle.ot_prove.specs.Searching.{WeighsLess, weight_of};

use crate::NoMemory;
use crate::passing::{Passing, passed};
use ask_core::{Asker, Path, Turn, look_at, turn_at};
use cert_text::Tree;
use diff_graph::negative_cycles_are_never_met;
use search_places::{MAX_NAMES, PlanSearch, Room, excludes_yes};
use std::mem;

/// Goes on at no as long as questions at hand have no room for yes.
// The first of them is looked at before the search is handed on: of some plans few questions have another such behind
// them.
#[inline(always)]
fn pass_on<A: Asker>(
    asker: &A,
    search: &mut PlanSearch<A::Node>,
    budget: u64,
) -> Result<(), NoMemory>
    requires names { A.name_count asker.now ≤ MAX_NAMES }
    requires opened { 0 < length search.old.path }
    requires possible { search.old.possible ≡ true }
    requires searching { IsSearchUnderWay (A.is_own asker.now) (A.plan asker.now) (A.root asker.now) budget search.old }
    ensures searching { OnOk result (IsSearchUnderWay (A.is_own asker.now) (A.plan asker.now) (A.root asker.now) budget
        search.new) }
    ensures falls { OnOk result (weight_of (branches_at (A.plan asker.now) search.new.path)
        ≤ weight_of (branches_at (A.plan asker.now) search.old.path)) }
    ensures front { OnOk result (search.new.tree.front ≡ search.old.tree.front) }
{
    let Some((lit, _)) = look_at(asker, &search.path) else {
        return Ok(());
    };
    let last = search.tables.len() - 1;
    if !excludes_yes(&search.tables[last], lit, 0) {
        return Ok(());
    }
    let alloc = *search.tables.allocator();
    let none = Path::new(alloc, search.path.node());
    let path = mem::replace(&mut search.path, none);
    let tree = mem::replace(&mut search.tree, Tree::new(alloc));
    let Passing { path, tree, asked } = passed(
        asker,
        &search.tables,
        path,
        tree,
        search.asked,
        budget,
    )?;
    search.path = path;
    search.tree = tree;
    search.asked = asked;
    Ok(())
}

/// What a step came to.
pub enum Stepped<W> {
    GoesOn,

    /// There are more questions than the budget allows.
    Spent,

    /// The plan fails at the first place, which some integers meet.
    Fails(W),
}

/// Goes on at a first place that some integers meet, by the turn of its node.
#[inline(always)]
fn take_turn<A: Asker>(
    asker: &A,
    search: &mut PlanSearch<A::Node>,
    budget: u64,
    turn: Turn<A::Node, A::Why>,
) -> Result<Stepped<A::Why>, NoMemory>
    requires names { A.name_count asker.now ≤ MAX_NAMES }
    requires opened { 0 < length search.old.path }
    requires possible { search.old.possible ≡ true }
    requires searching { IsSearchUnderWay (A.is_own asker.now) (A.plan asker.now) (A.root asker.now) budget search.old }
    requires begins { Begins (A.is_own asker.now) (A.plan asker.now) turn (first_plan (A.plan asker.now)
        search.old.path) }
    requires fine { IsFine (A.name_count asker.now) (first_plan (A.plan asker.now) search.old.path) }
    ensures step { IfOk result (λ r. IsUnderWayOr (A.is_own asker.now) (A.plan asker.now) (A.root asker.now) budget
        search.new r) }
    ensures falls { IfOk result (λ r. WeighsLess (branches_at (A.plan asker.now) search.old.path)
        (branches_at (A.plan asker.now) search.new.path) r) }
    ensures front { OnOk result (search.new.tree.front ≡ search.old.tree.front) }
{
    negative_cycles_are_never_met();
    match turn {
        Turn::Ask { lit, yes, no } => {
            if search.asked == budget {
                return Ok(Stepped::Spent);
            }
            if search.ask(lit, yes, no)? == Room::OnlyNo {
                pass_on(asker, search, budget)?;
                return Ok(Stepped::GoesOn);
            }
            Ok(Stepped::GoesOn)
        }
        Turn::Holds => {
            search.tables.pop();
            search.possible = false;
            search.close_holds()?;
            Ok(Stepped::GoesOn)
        }
        Turn::Fails(why) => Ok(Stepped::Fails(why)),
    }
}

/// Goes on at the first place: where no integers meet its answers it is closed with their cycle.
#[inline(always)]
pub fn step<A: Asker>(
    asker: &mut A,
    search: &mut PlanSearch<A::Node>,
    budget: u64,
) -> Result<Stepped<A::Why>, NoMemory>
    requires names { A.name_count asker.old ≤ MAX_NAMES }
    requires opened { 0 < length search.old.path }
    requires searching { IsSearchUnderWay (A.is_own asker.old) (A.plan asker.old) (A.root asker.old) budget search.old }
    ensures step { IfOk result (λ r. IsUnderWayOr (A.is_own asker.new) (A.plan asker.new) (A.root asker.new) budget
        search.new r) }
    ensures falls { IfOk result (λ r. WeighsLess (branches_at (A.plan asker.old) search.old.path)
        (branches_at (A.plan asker.new) search.new.path) r) }
    ensures front { OnOk result (search.new.tree.front ≡ search.old.tree.front) }
    ensures kept { IsAsBefore (A.is_own asker.old) (A.is_own asker.new) (A.plan asker.old) (A.plan asker.new)
        (A.root asker.old) (A.root asker.new) (A.name_count asker.old) (A.name_count asker.new) }
{
    negative_cycles_are_never_met();
    if search.close_impossible()? {
        return Ok(Stepped::GoesOn);
    }
    let turn = turn_at(asker, &search.path)?;
    take_turn(asker, search, budget, turn)
}
