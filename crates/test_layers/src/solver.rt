//! Values, or a negative cycle.
use crate::fixtures::{are_within, literals};
use diff_graph::{Lit, NoMemory, is_negative_cycle};
use diff_tables::{Solved, solve};
use std::alloc::Global;
use std::test::Fail;

/// Whether there is a value for each of `n` names, 0 for name 0, and all literals are met.
fn are_solution(values: &[i32], lits: &[Lit], n: u8) -> bool {
    for lit in lits {
        if !is_met(values, *lit) {
            return false;
        }
    }
    values.len() == n as usize && values.first() == Some(&0)
}

fn is_met(values: &[i32], lit: Lit) -> bool {
    match (values.get(lit.x as usize), values.get(lit.y as usize)) {
        (Some(x), Some(y)) => i64::from(*x) <= i64::from(*y) + i64::from(lit.k),
        _ => false,
    }
}

/// Whether the picks are of a negative cycle, at most `n` of them.
fn are_cycle(picks: &[u32], lits: &[Lit], n: u8) -> bool {
    picks.len() <= n as usize && is_negative_cycle(lits, picks).is_ok()
}

/// Whether values are found where some are possible, and a cycle where none are.
fn is_solved(
    alloc: Global,
    n: u8,
    possible: bool,
    rows: &[(u8, u8, i32)],
) -> Result<bool, NoMemory> {
    let lits = literals(alloc, rows)?;
    if n == 0 || !are_within(&lits, n as usize) {
        return Ok(false);
    }
    match solve(alloc, &lits, n)? {
        Solved::Values(values) => Ok(possible && are_solution(values.as_slice(), &lits, n)),
        Solved::Cycle(picks) => Ok(!possible && are_cycle(picks.as_slice(), &lits, n)),
    }
}

// How many names there are, whether values are possible, and literals.
const ROWS: &[(&str, u8, bool, &[(u8, u8, i32)])] = &[
    ("one name alone", 1, true, &[]),
    ("name 0 below itself", 1, false, &[(0, 0, -1)]),
    ("one literal", 3, true, &[(1, 2, -1)]),
    ("of sum 0", 3, true, &[(1, 2, -4), (2, 1, 4)]),
    ("of sum -1", 3, false, &[(1, 2, -1), (2, 1, 0)]),
    (
        "edges, least sum",
        3,
        false,
        &[(2, 1, -1001), (1, 0, -1001), (0, 2, -1001)],
    ),
    (
        "the longer cycle",
        5,
        false,
        &[(1, 2, 0), (2, 1, 1), (2, 3, -1), (3, 4, -1), (4, 1, 1)],
    ),
    (
        "names far apart",
        12,
        true,
        &[(10, 11, -1001), (0, 5, 1001)],
    ),
];

#[test]
fn values_come_exactly_where_no_cycle_is_negative(rt: HostRuntime) -> Result<(), Fail> {
    for (what, n, possible, rows) in ROWS {
        if !is_solved(rt.alloc(), *n, *possible, rows)? {
            return Err((*what).into());
        }
    }
    Ok(())
}
