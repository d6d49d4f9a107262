//! The solver.
ghost use Rattle.std.specs.Prelude.{◌≡◌, ◌↔◌, ℕ, ◌<◌, ◌≤◌, ◌^◌, ℤ, pos, neg_ℤ, ◌-ℤ◌, ◌≤ℤ◌, IsTrue, List, length};
ghost use Rattle.std.specs.Prelude.{slice_index_or, Option, None, IfOk};
ghost use Rattle.diff_graph.specs.Literals.{IsPossible};
ghost use Rattle.diff_graph.specs.Limits.{AreNamed, AreSmall};
ghost use Rattle.diff_tables.specs.Tables.{kept_of};
ghost use Rattle.diff_tables.specs.Steps.{AreNewRows, IsSquare, AreModest, lower_by, low_of, value_in, IsModest};
ghost use Rattle.diff_tables.specs.Solutions.{Solves, is_cycle};

use crate::NoMemory;
use crate::adding::add_all;
use crate::hop::Hop;
use crate::rows::{Row, cycle_at, new_rows, new_ways};
use crate::solved::Solved;
use diff_graph::Lit;
use plain_list::List;
use std::alloc::Global;

/// Values that meet all literals over `n` names, or a negative cycle of at most `n` picks. A cycle
/// comes exactly where no integers meet all literals.
pub fn solve(alloc: Global, lits: &[Lit], n: u8) -> Result<Solved, NoMemory>
    requires names { 0 < n }
    requires named { AreNamed n lits.now }
    requires small { AreSmall lits.now }
    requires count { length lits.now < 2 ^ 32 }
    ensures solved { IfOk result (λ solved. Solves n lits.now solved) }
    ensures cycle { IfOk result (λ solved. IsTrue (is_cycle solved) ↔ ¬ IsPossible lits.now) }
{
    let mut rows = new_rows(alloc, n as usize)?;
    let mut ways = new_ways(alloc, n as usize)?;
    solve_in(alloc, &mut rows, &mut ways, lits)
}

/// The same, over new rows and room for one row.
fn solve_in(
    alloc: Global,
    rows: &mut [Row],
    ways: &mut [Option<Hop>],
    lits: &[Lit],
) -> Result<Solved, NoMemory>
    requires names { 0 < length rows.old }
    requires few { length rows.old ≤ 256 }
    requires new { AreNewRows (length rows.old) (length rows.old) rows.old }
    requires room { length ways.old ≡ length rows.old }
    requires named { AreNamed (length rows.old) lits.now }
    requires small { AreSmall lits.now }
    requires count { length lits.now < 2 ^ 32 }
    ensures solved { IfOk result (λ solved. Solves (length rows.old) lits.now solved) }
    ensures cycle { IfOk result (λ solved. IsTrue (is_cycle solved) ↔ ¬ IsPossible lits.now) }
{
    match add_all(rows, ways, lits) {
        None => Ok(Solved::Values(List::from_vec(values_of(alloc, rows)?))),
        Some(place) => Ok(Solved::Cycle(List::from_vec(cycle_at(
            alloc,
            rows,
            lits[place],
            place as u32,
        )?))),
    }
}

/// Values that meet what the rows keep, with 0 at name 0.
fn values_of(alloc: Global, rows: &[Row]) -> Result<Vec<i32>, NoMemory>
    requires names { 0 < length rows.now }
    requires square { IsSquare rows.now }
    requires modest { AreModest rows.now }
    ensures len { IfOk result (λ values. length values.items ≡ length rows.now) }
    ensures value { IfOk result (λ values. (x : ℕ) → x < length rows.now → slice_index_or values.items x (pos 0)
        ≡ value_in (length rows.now) (kept_of rows.now) x -ℤ value_in (length rows.now) (kept_of rows.now) 0) }
{
    let base = low_at(rows, 0);
    let mut values = Vec::new(alloc);
    for x in 0..rows.len() {
        values.push(base - low_at(rows, x))?;
    }
    Ok(values)
}

/// The least of 0 and the offsets that the row of a name keeps.
fn low_at(rows: &[Row], x: usize) -> i32
    requires below { x < length rows.now }
    requires square { IsSquare rows.now }
    requires modest { AreModest rows.now }
    ensures low { result ≡ low_of (λ j. kept_of rows.now j x) (length rows.now) }
    ensures high_end { result ≤ℤ pos 0 }
    ensures low_end { neg_ℤ (pos 1000000) ≤ℤ result }
{
    low_of(rows[x].cells())
}

/// The least of 0 and the offsets that a row keeps.
fn low_of(cells: &[Option<Hop>]) -> i32
    requires { (x : ℕ) → IsModest 1000000 (slice_index_or cells.now x None) }
    ensures low { result ≡ low_of (λ x. slice_index_or cells.now x None) (length cells.now) }
    ensures high_end { result ≤ℤ pos 0 }
    ensures low_end { neg_ℤ (pos 1000000) ≤ℤ result }
{
    let mut low = 0;
    for cell in cells {
        low = lower_by(low, *cell);
    }
    low
}

/// The lower of the two.
fn lower_by(low: i32, cell: Option<Hop>) -> i32
    ensures { result ≡ lower_by low cell }
{
    match cell {
        None => low,
        Some(hop) => { if hop.k < low { hop.k } else { low } }
    }
}
