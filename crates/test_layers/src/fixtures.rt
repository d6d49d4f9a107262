//! Literals for the tests, and the conditions of the calls as tests.
ghost use Rattle.std.specs.Prelude.{◌≡◌, ◌<◌, ◌^◌, pos, true, length, slice_index_or};
ghost use Rattle.diff_graph.specs.Limits.{IsNamed, AreNamed, IsSmall, AreSmall};
ghost use Rattle.diff_tables.specs.Solutions.{AreFloors};

use diff_graph::{Lit, MAX_LITERAL_OFFSET, NoMemory};
use std::alloc::Global;

/// The literal `x <= y + k` for each row `(x, y, k)`.
pub fn literals(alloc: Global, rows: &[(u8, u8, i32)]) -> Result<Vec<Lit>, NoMemory> {
    let mut lits = Vec::new(alloc);
    for row in rows {
        lits.push(Lit {
            x: row.0,
            y: row.1,
            k: row.2,
        })?;
    }
    Ok(lits)
}

/// Whether the literals meet the conditions of the calls over `n` names.
pub fn are_within(lits: &[Lit], n: usize) -> bool
    ensures named { result ≡ true → AreNamed n lits.now }
    ensures small { result ≡ true → AreSmall lits.now }
    ensures count { result ≡ true → length lits.now < 2 ^ 32 }
{
    for lit in lits {
        if !is_within(*lit, n) {
            return false;
        }
    }
    lits.len() <= 1000
}

/// The same of one literal.
pub fn is_within(lit: Lit, n: usize) -> bool
    ensures named { result ≡ true → IsNamed n lit }
    ensures small { result ≡ true → IsSmall lit }
{
    (lit.x as usize) < n
        && (lit.y as usize) < n
        && -1 - MAX_LITERAL_OFFSET <= lit.k
        && lit.k <= MAX_LITERAL_OFFSET + 1
}

/// Whether the floors meet the conditions of `least`.
pub fn are_floors(floors: &[i32]) -> bool
    ensures names { result ≡ true → 0 < length floors.now }
    ensures zero_first { result ≡ true → slice_index_or floors.now 0 (pos 0) ≡ pos 0 }
    ensures floors { result ≡ true → AreFloors floors.now }
{
    for floor in floors {
        if *floor < -MAX_LITERAL_OFFSET || MAX_LITERAL_OFFSET < *floor {
            return false;
        }
    }
    !floors.is_empty() && floors[0] == 0
}
