//! Least values above floors.
ghost use Rattle.std.specs.Prelude.{◌≡◌, ◌↔◌, ℕ, ◌<◌, ◌≤◌, ◌^◌, ℤ, pos, negsuc, ◌-ℤ◌, ◌≤ℤ◌, List, ◌++◌, length};
ghost use Rattle.std.specs.Prelude.{slice_index_or, Option, None, IfOk, IfSome, IsNone};
ghost use Rattle.diff_graph.specs.Literals.{IsPossible};
ghost use Rattle.diff_graph.specs.Limits.{IsNamed, AreNamed, AreSmall};
ghost use Rattle.diff_tables.specs.Tables.{kept_of};
ghost use Rattle.diff_tables.specs.Steps.{AreNewRows, IsSquare, AreModest, IsModest};
ghost use Rattle.diff_tables.specs.Solutions.{AreLeast, IsPossibleAbove, AreFloors, IsFloor, floors_from, least_of};
ghost use Rattle.diff_tables.specs.Solutions.{AreLeastMeeting, IsBoundedBelow};

use crate::NoMemory;
use crate::adding::add_all;
use crate::hop::Hop;
use crate::rows::{Row, new_rows, new_ways};
use diff_graph::Lit;
use std::alloc::Global;

/// The componentwise least integers that meet the literals and are at least the floors, with 0 at
/// name 0; None exactly where there are none. There are as many names as floors.
pub fn least(alloc: Global, lits: &[Lit], floors: &[i32]) -> Result<Option<Vec<i32>>, NoMemory>
    requires names { 0 < length floors.now }
    requires zero_first { slice_index_or floors.now 0 (pos 0) ≡ pos 0 }
    requires floors { AreFloors floors.now }
    requires named { AreNamed (length floors.now) lits.now }
    requires small { AreSmall lits.now }
    requires count { length lits.now < 2 ^ 32 }
    ensures least { IfOk result (λ found. IfSome found (λ values. AreLeast lits.now floors.now values.items)) }
    ensures none { IfOk result (λ found. IsNone found ↔ ¬ IsPossibleAbove floors.now lits.now) }
{
    // A name that no literal speaks of has its floor as its least value. So the table, which is
    // square, has rows only up to the greatest name that a literal speaks of, 256 at most.
    let (named, others) = floors.split_at(name_count(lits));
    let Some(mut values) = least_of_named(alloc, lits, named)? else {
        return Ok(None);
    };
    values.extend_from_slice(others)?;
    Ok(Some(values))
}

/// One more than the greatest name that the literals speak of, name 0 being spoken of always.
fn name_count(lits: &[Lit]) -> usize
    ensures some { 0 < result }
    ensures few { result ≤ 256 }
    ensures named { AreNamed result lits.now }
    ensures fewest { (n : ℕ) → 0 < n → AreNamed n lits.now → result ≤ n }
{
    let mut count = 1;
    for lit in lits {
        count = more_names(count, *lit);
    }
    count
}

/// The count of names, or as many as the literal needs.
fn more_names(count: usize, lit: Lit) -> usize
    requires few { count ≤ 256 }
    ensures kept { count ≤ result }
    ensures few { result ≤ 256 }
    ensures named { IsNamed result lit }
    ensures fewest { (n : ℕ) → count ≤ n → IsNamed n lit → result ≤ n }
{
    count.max(lit.x as usize + 1).max(lit.y as usize + 1)
}

/// The same by a table with a row for each floor.
fn least_of_named(alloc: Global, lits: &[Lit], floors: &[i32]) -> Result<Option<Vec<i32>>, NoMemory>
    requires names { 0 < length floors.now }
    requires few { length floors.now ≤ 256 }
    requires floors { AreFloors floors.now }
    requires named { AreNamed (length floors.now) lits.now }
    requires small { AreSmall lits.now }
    requires count { length lits.now < 2 ^ 32 }
    ensures least { IfOk result (λ found. IfSome found (λ values. AreLeast lits.now floors.now values.items)) }
    ensures none { IfOk result (λ found. IsNone found ↔ ¬ IsPossibleAbove floors.now lits.now) }
{
    let n = floors.len();
    let mut rows = new_rows(alloc, n)?;
    let mut ways = new_ways(alloc, n)?;
    let bounds = floor_literals(alloc, floors)?;
    least_in(alloc, &mut rows, &mut ways, lits, &bounds)
}

/// The floors as literals.
fn floor_literals(alloc: Global, floors: &[i32]) -> Result<Vec<Lit>, NoMemory>
    requires few { length floors.now ≤ 256 }
    requires floors { AreFloors floors.now }
    ensures { IfOk result (λ bounds. bounds.items ≡ floors_from 0 floors.now) }
{
    let mut bounds = Vec::new(alloc);
    for x in 0..floors.len() {
        bounds.push(floor_literal(floors, x))?;
    }
    Ok(bounds)
}

/// The floor of a name as a literal.
fn floor_literal(floors: &[i32], x: usize) -> Lit
    requires few { length floors.now ≤ 256 }
    requires below { x < length floors.now }
    requires floor { IsFloor (slice_index_or floors.now x (pos 0)) }
    ensures { result ≡ record { x = 0; y = x; k = pos 0 -ℤ slice_index_or floors.now x (pos 0) } }
{
    Lit {
        x: 0,
        y: x as u8,
        k: -floors[x],
    }
}

/// The least values that meet two lists of literals, of which the second bounds each name.
fn least_in(
    alloc: Global,
    rows: &mut [Row],
    ways: &mut [Option<Hop>],
    lits: &[Lit],
    bounds: &[Lit],
) -> Result<Option<Vec<i32>>, NoMemory>
    requires names { 0 < length rows.old }
    requires few { length rows.old ≤ 256 }
    requires new { AreNewRows (length rows.old) (length rows.old) rows.old }
    requires room { length ways.old ≡ length rows.old }
    requires named { AreNamed (length rows.old) lits.now }
    requires small { AreSmall lits.now }
    requires count { length lits.now < 2 ^ 32 }
    requires bounds_named { AreNamed (length rows.old) bounds.now }
    requires bounds_small { AreSmall bounds.now }
    requires bounds_count { length bounds.now < 2 ^ 32 }
    requires bounded { IsBoundedBelow (length rows.old) bounds.now }
    ensures least { IfOk result (λ found. IfSome found
        (λ values. AreLeastMeeting (length rows.old) (lits.now ++ bounds.now) values.items)) }
    ensures none { IfOk result (λ found. IsNone found ↔ ¬ IsPossible (lits.now ++ bounds.now)) }
{
    if let Some(_) = add_all(rows, ways, lits) {
        return Ok(None);
    }
    if let Some(_) = add_all(rows, ways, bounds) {
        return Ok(None);
    }
    let values = least_values(alloc, rows)?;
    Ok(Some(values))
}

/// The negation of what is kept from name 0 to each name.
fn least_values(alloc: Global, rows: &[Row]) -> Result<Vec<i32>, NoMemory>
    requires square { IsSquare rows.now }
    requires modest { AreModest rows.now }
    ensures len { IfOk result (λ values. length values.items ≡ length rows.now) }
    ensures value { IfOk result (λ values. (x : ℕ) → x < length rows.now
        → slice_index_or values.items x (pos 0) ≡ least_of (kept_of rows.now 0 x)) }
{
    let mut values = Vec::new(alloc);
    for x in 0..rows.len() {
        values.push(least_of(rows[x].at(0)))?;
    }
    Ok(values)
}

/// The negation of the offset, or 0.
fn least_of(hop: Option<Hop>) -> i32
    requires { IsModest 1000000 hop }
    ensures { result ≡ least_of hop }
{
    match hop {
        None => 0,
        Some(hop) => -hop.k,
    }
}
