//! The rows of a table in arrays. The row of a name keeps what is known from each name to it.
ghost use Rattle.std.specs.Prelude.{◌≡◌, ℕ, ◌<◌, ◌≤◌, true, false, List, [], ◌∷◌, ◌++◌, length, slice_index_or, Option};
ghost use Rattle.std.specs.Prelude.{Some, None, OnErr, OnOk};
ghost use Rattle.diff_graph.specs.Limits.{IsNamed, IsSmall};
ghost use Rattle.diff_tables.specs.Tables.{Numbered, kept_of, StandsFor, IsAtMost};
ghost use Rattle.diff_tables.specs.Steps.{added, keeps, numbers_along, IsModest, IsNewRow, AreNewRows, IsSquare};
ghost use Rattle.diff_tables.specs.Steps.{AreModest, IsLowered};
ghost use Rattle.diff_bounds.specs.Kept.{has_room, lower_way, IsLed, IsNoLower};

use diff_graph::{Lit, NoMemory};
use diff_tables::table::{begin_ways, keeps, leaves_room, lower_row, push_chain};
use diff_tables::{Hop, lowered_rows_keep_the_step, tables_stand_for_what_is_added};
use std::alloc::AllocError;

/// Keeps each name at 0 to itself, in rows that keep nothing.
// Out of line: where the compiler sees through it, a new table is spelled out cell by cell.
#[inline(never)]
pub fn begin_rows<const N: usize>(rows: &mut [[Option<Hop>; N]])
    requires few { length rows.old ≤ 255 }
    requires square { IsSquare rows.old }
    requires nothing { (x y : ℕ) → kept_of rows.old x y ≡ None }
    ensures { AreNewRows (length rows.old) (length rows.old) rows.new }
{
    for own in 0..rows.len() {
        keep_own(&mut rows[own][..], own as u8);
    }
}

/// Keeps the name at 0 to itself, in a row that keeps nothing.
fn keep_own(row: &mut [Option<Hop>], own: u8)
    requires below { own < length row.old }
    requires nothing { (x : ℕ) → slice_index_or row.old x None ≡ None }
    ensures { IsNewRow (length row.old) own row.new }
{
    row[own as usize] = Some(Hop {
        k: 0,
        number: 0,
        second: own,
    });
}

/// What is kept from each name to `y`.
#[inline(always)]
pub fn row_of<const N: usize>(rows: &[[Option<Hop>; N]], y: u8) -> &[Option<Hop>]
    requires { y < length rows.now }
    ensures { result.now ≡ slice_index_or rows.now y [] }
{
    &rows[y as usize][..]
}

/// What is kept from `x` to `y`.
#[inline(always)]
pub fn kept<const N: usize>(rows: &[[Option<Hop>; N]], x: u8, y: u8) -> Option<Hop>
    requires x_below { x < length rows.now }
    requires y_below { y < length rows.now }
    requires square { IsSquare rows.now }
    ensures { result ≡ kept_of rows.now x y }
{
    let row = &rows[y as usize][..];
    row[x as usize]
}

/// Whether the literal closes no negative cycle.
#[inline(always)]
pub fn allows<const N: usize>(rows: &[[Option<Hop>; N]], lit: Lit) -> bool
    requires square { IsSquare rows.now }
    requires modest { AreModest rows.now }
    requires named { IsNamed (length rows.now) lit }
    requires small { IsSmall lit }
    ensures { result ≡ has_room (kept_of rows.now) lit }
{
    leaves_room(kept(rows, lit.y, lit.x), lit.k)
}

/// Whether the literal already follows, so that adding it changes nothing.
#[inline(always)]
fn follows<const N: usize>(rows: &[[Option<Hop>; N]], lit: Lit) -> bool
    requires square { IsSquare rows.now }
    requires named { IsNamed (length rows.now) lit }
    ensures { result ≡ keeps (kept_of rows.now lit.x lit.y) lit.k }
{
    keeps(kept(rows, lit.x, lit.y), lit.k)
}

/// Adds a literal that closes no negative cycle. One that follows already changes nothing.
pub fn insert<const N: usize>(rows: &mut [[Option<Hop>; N]], lit: Lit, number: u32)
    requires few { length rows.old ≤ 255 }
    requires square { IsSquare rows.old }
    requires modest { AreModest rows.old }
    requires named { IsNamed (length rows.old) lit }
    requires small { IsSmall lit }
    requires allowed { has_room (kept_of rows.old) lit ≡ true }
    requires stands { (ps : List Numbered) × StandsFor (length rows.old) (kept_of rows.old) ps }
    ensures square { IsSquare rows.new }
    ensures stands { (ps : List Numbered) → StandsFor (length rows.old) (kept_of rows.old) ps
        → StandsFor (length rows.old) (kept_of rows.new) (ps ++ record { number = number; lit = lit } ∷ []) }
    ensures same { IsAtMost (kept_of rows.old lit.x lit.y) lit.k → rows.new ≡ rows.old }
{
    tables_stand_for_what_is_added();
    if follows(rows, lit) {
        return;
    }
    add(rows, lit, number);
}

/// Adds the literal.
fn add<const N: usize>(rows: &mut [[Option<Hop>; N]], lit: Lit, number: u32)
    requires few { length rows.old ≤ 255 }
    requires square { IsSquare rows.old }
    requires modest { AreModest rows.old }
    requires named { IsNamed (length rows.old) lit }
    requires small { IsSmall lit }
    requires stands { (ps : List Numbered) × StandsFor (length rows.old) (kept_of rows.old) ps }
    ensures square { IsSquare rows.new }
    ensures added { (x y : ℕ) → kept_of rows.new x y ≡ added (kept_of rows.old) number lit x y }
{
    let mut ways = rows[lit.x as usize];
    begin_ways(&mut ways, lit, number);
    let there = rows[lit.y as usize];
    drop_ways(&mut ways, &there);
    lower_rows(rows, &ways, lit.x, lit.y);
    lowered_rows_keep_the_step();
}

/// Drops the ways that are no lower than what the row of their end keeps: gone on, they are no lower either.
fn drop_ways(ways: &mut [Option<Hop>], row: &[Option<Hop>])
    requires same_length { length row.now ≡ length ways.old }
    ensures len { length ways.new ≡ length ways.old }
    ensures lower { (x : ℕ) → x < length ways.old → slice_index_or ways.new x None
        ≡ lower_way (slice_index_or row.now x None) (slice_index_or ways.old x None) }
{
    for x in 0..ways.len() {
        ways[x] = lower_way(row[x], ways[x]);
    }
}

/// The way, where it is lower than what is kept.
#[inline(always)]
fn lower_way(kept: Option<Hop>, way: Option<Hop>) -> Option<Hop>
    ensures { result ≡ lower_way kept way }
{
    let Some(new) = way else {
        return None;
    };
    match kept {
        None => Some(new),
        Some(kept) => { if new.k < kept.k { Some(new) } else { None } }
    }
}

/// Lowers each row by the ways to `from`, each gone on by what the row keeps from there. Where the way of `first` goes
/// on no lower, none does.
fn lower_rows<const N: usize>(
    rows: &mut [[Option<Hop>; N]],
    ways: &[Option<Hop>],
    first: u8,
    from: u8,
)
    requires first_below { first < length rows.old }
    requires from_below { from < length rows.old }
    requires square { IsSquare rows.old }
    requires same_length { length ways.now ≡ length rows.old }
    requires modest_ways { (x : ℕ) → x < length ways.now → IsModest 2000000 (slice_index_or ways.now x None) }
    requires modest { AreModest rows.old }
    requires led { (y : ℕ) → y < length rows.old → IsLed ways.now first from (slice_index_or rows.old y []) }
    ensures { (y : ℕ) → y < length rows.old
        → IsLowered ways.now from (slice_index_or rows.old y []) (slice_index_or rows.new y []) }
{
    lowered_rows_keep_the_step();
    for y in 0..rows.len() {
        lower_led(&mut rows[y][..], ways, first, from);
    }
}

/// Lowers the row of a name by the ways to `from`, each gone on by what the row keeps from there.
fn lower_led(row: &mut [Option<Hop>], ways: &[Option<Hop>], first: u8, from: u8)
    requires first_below { first < length row.old }
    requires from_below { from < length row.old }
    requires same_length { length ways.now ≡ length row.old }
    requires modest_ways { (x : ℕ) → x < length ways.now → IsModest 2000000 (slice_index_or ways.now x None) }
    requires modest_rest { IsModest 1000000 (slice_index_or row.old from None) }
    requires led { IsLed ways.now first from row.old }
    ensures { IsLowered ways.now from row.old row.new }
{
    if goes_lower(
        ways[first as usize],
        row[from as usize],
        row[first as usize],
    ) {
        lower_row(row, ways, from);
    }
}

/// Whether a way goes on lower than what is kept.
#[inline(always)]
fn goes_lower(way: Option<Hop>, rest: Option<Hop>, kept: Option<Hop>) -> bool
    requires modest_way { IsModest 2000000 way }
    requires modest_rest { IsModest 1000000 rest }
    ensures { result ≡ false → IsNoLower way rest kept }
{
    let Some(way) = way else {
        return false;
    };
    let Some(rest) = rest else {
        return false;
    };
    match kept {
        None => true,
        Some(kept) => way.k + rest.k < kept.k,
    }
}

/// Puts at the end of `picks` the numbers of the negative cycle that a literal closes which is not allowed.
/// Where memory is wanting, `picks` is as it was.
#[inline(always)]
pub fn append_cycle<const N: usize>(
    picks: &mut Vec<u32>,
    rows: &[[Option<Hop>; N]],
    lit: Lit,
    number: u32,
) -> Result<(), NoMemory>
    requires square { IsSquare rows.now }
    requires named { IsNamed (length rows.now) lit }
    ensures ok { OnOk result (picks.new.items ≡ picks.old.items
        ++ number ∷ numbers_along (λ x. kept_of rows.now x lit.x) (length rows.now) lit.y lit.x) }
    ensures err { OnErr result (picks.new.items ≡ picks.old.items) }
{
    picks.reserve(1)?;
    let before = picks.len();
    picks.push_reserved(number);
    match push_chain(picks, &rows[lit.x as usize][..], lit.y, lit.x) {
        Ok(()) => Ok(()),
        Err(_) => {
            picks.truncate(before);
            Err(AllocError)
        }
    }
}
