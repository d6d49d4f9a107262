//! The two sides of a question at a place that some integers meet.
ghost use Rattle.std.specs.Prelude.{◌≡◌, ℕ, ◌<◌, ◌≤◌, true, false, IsTrue, List, ◌∷◌, Some, length, IfOk, OnOk};
ghost use Rattle.diff_graph.specs.Literals.{answered_of};
ghost use Rattle.diff_graph.specs.Limits.{IsNamed};
ghost use Rattle.diff_tables.specs.Tables.{kept_of};
ghost use Rattle.diff_bounds.specs.Kept.{has_room};
ghost use Rattle.search_places.specs.Sides.{AddsAnswer, ClosesCycle, HasRoomForSides, HasSides, HasSplit, IsAsked};
ghost use Rattle.ask_core.specs.declared.asker.TheConstants.{MAX_NAMES};
ghost use Rattle.ask_core.specs.declared.picks.TheConstants.{MAX_PICKS};
ghost use Rattle.ask_core.specs.declared.tree.Tok.TheVariants.{Ask, Cycle};
ghost use Rattle.cert_text.specs.TreeTexts.{with_token};
ghost use Rattle.search_places.specs.Sides.{StandsForSome, cycle_along, last_rows};

use crate::chain::Chain;
use crate::cycles::Cycles;
use ask_core::{MAX_NAMES, NoMemory};
use cert_text::Tree;
use diff_bounds::Bounds;
use diff_graph::{Lit, answered};
use diff_tables::{tables_stand_for_what_is_added, tables_tell_what_is_possible};

/// Which sides of a question there is room for.
#[derive(Clone, Copy, PartialEq, Eq)]
pub enum Room {
    /// Both sides.
    Both,

    /// Yes alone.
    OnlyYes,

    /// No alone.
    OnlyNo,
}

/// Whether a table has no room for yes, under the number of answers there. Then no follows already, so that the table
/// stands for it too, and the cycle along the table shows why yes is impossible.
#[inline(always)]
pub fn excludes_yes(table: &Bounds<MAX_NAMES>, lit: Lit, number: u32) -> bool
    requires named { IsNamed MAX_NAMES lit }
    requires asked { IsAsked lit }
    requires stands { StandsForSome MAX_NAMES table.now }
    ensures excluded { IsTrue result → HasRoomForSides table.now number lit Room.OnlyNo }
    ensures room { result ≡ false → has_room (kept_of table.now) (answered_of lit true) ≡ true }
{
    tables_tell_what_is_possible();
    tables_stand_for_what_is_added();
    if table.allows(answered(lit, true)) {
        return false;
    }
    true
}

/// Which sides of a literal a table has room for, under the number of answers there. Where it has none for one, the
/// other one follows already, so the table stands for it too.
// Most questions have no room for yes, which is asked first.
#[inline(always)]
fn room_of(table: &Bounds<MAX_NAMES>, lit: Lit, number: u32) -> Room
    requires named { IsNamed MAX_NAMES lit }
    requires asked { IsAsked lit }
    requires stands { StandsForSome MAX_NAMES table.now }
    ensures { HasRoomForSides table.now number lit result }
{
    tables_stand_for_what_is_added();
    if excludes_yes(table, lit, number) {
        return Room::OnlyNo;
    }
    if !table.allows(answered(lit, false)) {
        return Room::OnlyYes;
    }
    Room::Both
}

/// Adds an answer that a table has room for, under the number of answers there.
fn answer(table: &mut Bounds<MAX_NAMES>, lit: Lit, said: bool, number: u32)
    requires named { IsNamed MAX_NAMES lit }
    requires asked { IsAsked lit }
    requires room { has_room (kept_of table.old) (answered_of lit said) ≡ true }
    ensures { AddsAnswer number lit said table.old table.new }
{
    table.add(answered(lit, said), number);
}

/// Answers a literal by both sides: the last table is that for no now, and the one for yes stands behind it.
// A table is copied once: room is there before, so that it needs no place between.
#[inline(never)]
fn split(tables: &mut Vec<Bounds<MAX_NAMES>>, lit: Lit, number: u32) -> Result<(), NoMemory>
    requires some { 0 < length tables.old.items }
    requires named { IsNamed MAX_NAMES lit }
    requires asked { IsAsked lit }
    requires yes { has_room (kept_of (last_rows tables.old.items)) (answered_of lit true) ≡ true }
    requires no { has_room (kept_of (last_rows tables.old.items)) (answered_of lit false) ≡ true }
    ensures { OnOk result (HasSplit number lit tables.old.items tables.new.items) }
{
    let last = tables.len() - 1;
    tables.reserve(1)?;
    let table = tables[last];
    tables.push_reserved(table);
    answer(&mut tables[last], lit, false, number);
    answer(&mut tables[last + 1], lit, true, number);
    Ok(())
}

/// Which sides of a question there is room for at the place of the last table, which has so many answers. Where that
/// is both, each has a table then. Else the last table stands for the one that there is room for.
// In the loop of each asker: a question has so little to do that a call of it would show.
#[inline(always)]
pub fn judge_sides(
    tables: &mut Vec<Bounds<MAX_NAMES>>,
    lit: Lit,
    number: u32,
) -> Result<Room, NoMemory>
    requires some { 0 < length tables.old.items }
    requires named { IsNamed MAX_NAMES lit }
    requires asked { IsAsked lit }
    requires stands { StandsForSome MAX_NAMES (last_rows tables.old.items) }
    ensures { IfOk result (HasSides number lit tables.old.items tables.new.items) }
{
    let last = tables.len() - 1;
    match room_of(&tables[last], lit, number) {
        Room::Both => {
            split(tables, lit, number)?;
            Ok(Room::Both)
        }
        Room::OnlyYes => Ok(Room::OnlyYes),
        Room::OnlyNo => Ok(Room::OnlyNo),
    }
}

/// A further place waits, that of the side for no, with a cycle that it closes at the last table, which has no room for
/// it, under a number.
#[inline(always)]
pub fn wait_impossible(
    cycles: &mut Cycles,
    tables: &Vec<Bounds<MAX_NAMES>>,
    lit: Lit,
    number: u32,
) -> Result<(), NoMemory>
    requires some { 0 < length tables.now.items }
    requires named { IsNamed MAX_NAMES lit }
    requires asked { IsAsked lit }
    requires stands { StandsForSome MAX_NAMES (last_rows tables.now.items) }
    requires no_room { has_room (kept_of (last_rows tables.now.items)) (answered_of lit false) ≡ false }
    ensures { OnOk result ((numbers : List ℕ) × (cycles.new ≡ Some numbers ∷ cycles.old)
        × ClosesCycle (kept_of (last_rows tables.now.items)) number (answered_of lit false) numbers) }
{
    let table = &tables[tables.len() - 1];
    cycles.push_why_not(table, answered(lit, false), number)
}

/// Puts a question at the end of a tree, and the cycle that its literal closes at the last table, which has no room for
/// it, under a number. The cycle's numbers are read off the table while they are written.
#[inline(always)]
pub fn close_yes(
    tables: &Vec<Bounds<MAX_NAMES>>,
    lit: Lit,
    number: u32,
    tree: &mut Tree,
) -> Result<(), NoMemory>
    requires some { 0 < length tables.now.items }
    requires named { IsNamed MAX_NAMES lit }
    requires few { length (cycle_along (last_rows tables.now.items) number lit) ≤ MAX_PICKS }
    ensures { OnOk result (tree.new ≡ with_token (with_token tree.old Ask)
        (Cycle (cycle_along (last_rows tables.now.items) number lit))) }
{
    let table = &tables[tables.len() - 1];
    tree.push_asked(
        number,
        Chain::new(table.row(lit.x), lit.y, lit.x, MAX_NAMES),
    )
}

/// The same by a table, where the tree has room at hand: then the answer is true. Else it is false, and the tree is as
/// it was.
#[inline(always)]
pub fn put_yes(table: &Bounds<MAX_NAMES>, lit: Lit, number: u32, tree: &mut Tree) -> bool
    requires named { IsNamed MAX_NAMES lit }
    requires few { length (cycle_along table.now number lit) ≤ MAX_PICKS }
    ensures put { IsTrue result → tree.new ≡ with_token (with_token tree.old Ask)
        (Cycle (cycle_along table.now number lit)) }
    ensures kept { result ≡ false → tree.new ≡ tree.old }
{
    tree.put_asked(
        number,
        Chain::new(table.row(lit.x), lit.y, lit.x, MAX_NAMES),
    )
}
