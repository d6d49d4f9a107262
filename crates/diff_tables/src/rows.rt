//! A closed table of distances over a number of names that is known when it is made.
ghost use Rattle.std.specs.Prelude.{◌≡◌, ℕ, ◌<◌, ◌≤◌, List, length, slice_index_or, Option, Some, None, IfOk, [], ◌∷◌};
ghost use Rattle.diff_graph.specs.Limits.{IsNamed, IsSmall};
ghost use Rattle.diff_tables.specs.Tables.{kept_of};
ghost use Rattle.diff_tables.specs.Steps.{way_of, joined, lower_of, added, leaves_room, keeps, numbers_along, own_only};
ghost use Rattle.diff_tables.specs.Steps.{IsModest, IsNewRow, AreNewRows, IsSquare, AreModest, IsLowered};

use crate::NoMemory;
use crate::hop::Hop;
use crate::table::{begin_ways, keeps, leaves_room, lower_row, push_chain};
use diff_graph::Lit;
use std::alloc::Global;
use std::marker::Model;

/// What is kept from each name to one name. Seen as that list.
#[derive(Drop)]
pub struct Row {
    cells: Vec<Option<Hop>>,
}

impl Model for Row {
    ghost use Rattle.std.specs.Prelude.{List, Option};
    ghost use Rattle.diff_tables.specs.declared.hop.Hop.{Hop};

    ghost Value = { List (Option Hop) };

    ghost view = { λ row. row.cells.items };
}

impl Row {
    /// The row of a name in a table of `n` names to which nothing was added.
    pub fn new(alloc: Global, n: usize, own: u8) -> Result<Row, NoMemory>
        requires few { n ≤ 256 }
        ensures { IfOk result (λ row. IsNewRow n own row) }
    {
        let mut cells = Vec::new(alloc);
        for x in 0..n {
            cells.push(own_hop(own, x as u8))?;
        }
        Ok(Row { cells })
    }

    /// What is kept from `x`.
    pub fn at(&self, x: u8) -> Option<Hop>
        requires { x < length self.now }
        ensures { result ≡ slice_index_or self.now x None }
    {
        self.cells[x as usize]
    }

    /// What is kept from each name.
    pub fn cells(&self) -> &[Option<Hop>]
        ensures { result.now ≡ self.now }
    {
        self.cells.as_slice()
    }

    /// Lowers the row by the ways to `from`, each gone on by what the row keeps from there.
    pub fn lower(&mut self, ways: &[Option<Hop>], from: u8)
        requires from_below { from < length self.old }
        requires same_length { length ways.now ≡ length self.old }
        requires modest_ways { (x : ℕ) → x < length ways.now → IsModest 2000000 (slice_index_or ways.now x None) }
        requires modest_rest { IsModest 1000000 (slice_index_or self.old from None) }
        ensures { IsLowered ways.now from self.old self.new }
    {
        lower_row(&mut self.cells, ways, from);
    }
}

/// A name is at 0 to itself, and nothing is kept for two different names.
fn own_hop(own: u8, x: u8) -> Option<Hop>
    ensures { result ≡ own_only own x }
{
    if x == own {
        Some(Hop {
            k: 0,
            number: 0,
            second: own,
        })
    } else {
        None
    }
}

/// The rows of a table of `n` names to which nothing was added.
pub fn new_rows(alloc: Global, n: usize) -> Result<Vec<Row>, NoMemory>
    requires few { n ≤ 256 }
    ensures { IfOk result (λ rows. AreNewRows n n rows.items) }
{
    let mut rows = Vec::new(alloc);
    for own in 0..n {
        rows.push(Row::new(alloc, n, own as u8)?)?;
    }
    Ok(rows)
}

/// Room for the ways of one literal in a table of `n` names.
pub fn new_ways(alloc: Global, n: usize) -> Result<Vec<Option<Hop>>, NoMemory>
    ensures { IfOk result (λ ways. length ways.items ≡ n) }
{
    let mut ways = Vec::new(alloc);
    for _x in 0..n {
        ways.push(None)?;
    }
    Ok(ways)
}

/// Whether the literal closes no negative cycle.
pub fn allows(rows: &[Row], lit: Lit) -> bool
    requires square { IsSquare rows.now }
    requires modest { AreModest rows.now }
    requires named { IsNamed (length rows.now) lit }
    requires small { IsSmall lit }
    ensures { result ≡ leaves_room (kept_of rows.now lit.y lit.x) lit.k }
{
    leaves_room(rows[lit.x as usize].at(lit.y), lit.k)
}

/// Whether the literal already follows, so that adding it changes nothing.
pub fn follows(rows: &[Row], lit: Lit) -> bool
    requires square { IsSquare rows.now }
    requires named { IsNamed (length rows.now) lit }
    ensures { result ≡ keeps (kept_of rows.now lit.x lit.y) lit.k }
{
    keeps(rows[lit.y as usize].at(lit.x), lit.k)
}

/// Adds the literal. `ways` is room for one row, which it overwrites.
pub fn add(rows: &mut [Row], ways: &mut [Option<Hop>], lit: Lit, number: u32)
    requires few { length rows.old ≤ 256 }
    requires square { IsSquare rows.old }
    requires modest { AreModest rows.old }
    requires room { length ways.old ≡ length rows.old }
    requires named { IsNamed (length rows.old) lit }
    requires small { IsSmall lit }
    ensures square { IsSquare rows.new }
    ensures added { (x y : ℕ) → kept_of rows.new x y ≡ added (kept_of rows.old) number lit x y }
{
    fill_ways(rows, ways, lit, number);
    lower_rows(rows, ways, lit.y);
}

/// The ways from each name along the literal.
fn fill_ways(rows: &[Row], ways: &mut [Option<Hop>], lit: Lit, number: u32)
    requires few { length rows.now ≤ 256 }
    requires square { IsSquare rows.now }
    requires modest { AreModest rows.now }
    requires room { length ways.old ≡ length rows.now }
    requires named { IsNamed (length rows.now) lit }
    requires small { IsSmall lit }
    ensures ways { (x : ℕ) → x < length rows.now
        → slice_index_or ways.new x None ≡ way_of number lit x (kept_of rows.now x lit.x) }
    ensures modest { (x : ℕ) → x < length ways.new → IsModest 2000000 (slice_index_or ways.new x None) }
{
    ways.copy_from_slice(rows[lit.x as usize].cells());
    begin_ways(ways, lit, number);
}

/// Lowers each row by the ways to `from`.
fn lower_rows(rows: &mut [Row], ways: &[Option<Hop>], from: u8)
    requires from_below { from < length rows.old }
    requires square { IsSquare rows.old }
    requires same_length { length ways.now ≡ length rows.old }
    requires modest_ways { (x : ℕ) → x < length ways.now → IsModest 2000000 (slice_index_or ways.now x None) }
    requires modest { AreModest rows.old }
    ensures { (y : ℕ) → y < length rows.old
        → IsLowered ways.now from (slice_index_or rows.old y []) (slice_index_or rows.new y []) }
{
    for y in 0..rows.len() {
        rows[y].lower(ways, from);
    }
}

/// The numbers of the negative cycle that a literal closes which is not allowed.
pub fn cycle_at(alloc: Global, rows: &[Row], lit: Lit, number: u32) -> Result<Vec<u32>, NoMemory>
    requires named { IsNamed (length rows.now) lit }
    requires square { IsSquare rows.now }
    ensures { IfOk result (λ picks. picks.items
        ≡ number ∷ numbers_along (λ x. kept_of rows.now x lit.x) (length rows.now) lit.y lit.x) }
{
    let mut picks = Vec::new(alloc);
    picks.push(number)?;
    push_chain(&mut picks, rows[lit.x as usize].cells(), lit.y, lit.x)?;
    Ok(picks)
}
