//! Least values.
use crate::fixtures::{are_floors, are_within, literals};
use diff_graph::NoMemory;
use diff_tables::least;
use std::alloc::Global;
use std::test::Fail;

// Whether the literals and the floors have these least values, or none where there are none of them.
fn have_least(
    alloc: Global,
    rows: &[(u8, u8, i32)],
    floors: &[i32],
    want: &[i32],
) -> Result<bool, NoMemory> {
    let lits = literals(alloc, rows)?;
    if !are_within(&lits, floors.len()) || !are_floors(floors) {
        return Ok(false);
    }
    match least(alloc, &lits, floors)? {
        Some(values) => Ok(values.as_slice() == want),
        None => Ok(want.is_empty()),
    }
}

// Literals, floors and least values.
const ROWS: &[(&str, &[(u8, u8, i32)], &[i32], &[i32])] = &[
    ("one name alone", &[], &[0], &[0]),
    ("a chain", &[(0, 1, -1), (1, 2, -2)], &[0, 0, 0], &[0, 1, 3]),
    (
        "0 below, with no room",
        &[(1, 0, 1000)],
        &[0, 1000],
        &[0, 1000],
    ),
    (
        "low offsets",
        &[(0, 1, -1001), (1, 2, -1001), (2, 3, -1001)],
        &[0, -1000, -1000, 1000],
        &[0, 1001, 2002, 3003],
    ),
    (
        "the longer way",
        &[(0, 1, -3), (0, 2, -5), (1, 3, -10), (2, 3, -1), (3, 4, 0)],
        &[0, 0, 0, 0, 0],
        &[0, 3, 5, 13, 13],
    ),
    (
        "round, the second floor",
        &[(1, 2, -4), (2, 1, 4)],
        &[0, 1, 10],
        &[0, 6, 10],
    ),
    (
        "floors past the literals",
        &[(0, 2, -9)],
        &[0, 5, -7, 1000, -1000],
        &[0, 5, 9, 1000, -1000],
    ),
    (
        "a negative cycle",
        &[(1, 2, -1), (2, 1, 0)],
        &[0, 0, 0],
        &[],
    ),
    (
        "0 too low far above",
        &[(1, 2, 0), (2, 0, 3)],
        &[0, 4, 0],
        &[],
    ),
];

#[test]
fn least_values_stand_on_literals_and_floors(rt: HostRuntime) -> Result<(), Fail> {
    for (what, rows, floors, want) in ROWS {
        if !have_least(rt.alloc(), rows, floors, want)? {
            return Err((*what).into());
        }
    }
    Ok(())
}
