//! Tables of distances.
ghost use Rattle.std.specs.Prelude.{◌≤◌};
ghost use Rattle.diff_graph.specs.Limits.{IsNamed, IsSmall};

use crate::fixtures::is_within;
use diff_bounds::Bounds;
use diff_graph::{Lit, NoMemory, is_negative_cycle};
use diff_tables::Hop;
use std::alloc::Global;
use std::test::Fail;

/// Whether an excluded literal, the last one of a list, is told why by a negative cycle of these.
fn is_excluded<const N: usize>(
    alloc: Global,
    bounds: &Bounds<N>,
    lits: &[Lit],
    lit: Lit,
    place: u32,
) -> Result<bool, NoMemory>
    requires named { IsNamed N lit }
    requires small { IsSmall lit }
{
    if bounds.allows(lit) {
        return Ok(false);
    }
    let picks = bounds.why_not(alloc, lit, place)?;
    Ok(picks.len() <= N && is_negative_cycle(lits, &picks).is_ok())
}

/// Adds a literal under its place, and answers whether it was allowed.
fn is_added<const N: usize>(bounds: &mut Bounds<N>, lit: Lit, place: u32) -> bool
    requires named { IsNamed N lit }
    requires small { IsSmall lit }
{
    let allowed = bounds.allows(lit);
    if allowed {
        bounds.add(lit, place);
    }
    allowed
}

/// Whether the least offsets between each name and name 0 are those.
fn are_tightest<const N: usize>(
    bounds: &Bounds<N>,
    from_0: &[Option<i32>],
    to_0: &[Option<i32>],
) -> bool
    requires some { 1 ≤ N }
    requires few { N ≤ 16 }
{
    for x in 0..N as u8 {
        if from_0.get(x as usize) != Some(&bounds.tightest(0, x))
            || to_0.get(x as usize) != Some(&bounds.tightest(x, 0))
        {
            return false;
        }
    }
    true
}

/// Whether the literals, each under its place, are allowed or excluded as they are to be, and leave these least offsets.
fn is_table<const N: usize>(
    alloc: Global,
    steps: &[(u8, u8, i32, bool)],
    from_0: &[Option<i32>],
    to_0: &[Option<i32>],
) -> Result<bool, NoMemory>
    requires some { 1 ≤ N }
    requires few { N ≤ 16 }
{
    let mut bounds = Bounds::<N>::new();
    let mut lits = Vec::new(alloc);
    let mut place = 0u32;
    for (x, y, k, wanted) in steps {
        let lit = Lit {
            x: *x,
            y: *y,
            k: *k,
        };
        if !is_within(lit, N) {
            return Ok(false);
        }
        lits.push(lit)?;
        let as_wanted = if *wanted {
            is_added(&mut bounds, lit, place)
        } else {
            is_excluded(alloc, &bounds, &lits, lit, place)?
        };
        if !as_wanted {
            return Ok(false);
        }
        place = place.saturating_add(1);
    }
    Ok(are_tightest(&bounds, from_0, to_0))
}

/// Name 1 is below name 2.
const BELOW: Lit = Lit { x: 1, y: 2, k: -1 };

#[test]
fn a_copy_is_a_table_of_its_own(rt: HostRuntime) {
    let mut bounds = Bounds::<3>::new();
    let before = bounds;
    assert!(rt; is_added(&mut bounds, BELOW, 0));
    assert!(rt; bounds.tightest(1, 2) == Some(-1) && before.tightest(1, 2).is_none());
}

fn is_row_of_below(row: &[Option<Hop>]) -> bool {
    let kept = Hop {
        k: -1,
        number: 7,
        second: 2,
    };
    let own = Hop {
        k: 0,
        number: 0,
        second: 2,
    };
    row == [None, Some(kept), Some(own)].as_slice()
}

#[test]
fn a_row_has_where_chains_to_its_name_begin(rt: HostRuntime) {
    let mut bounds = Bounds::<3>::new();
    assert!(rt; is_added(&mut bounds, BELOW, 7));
    assert!(rt; is_row_of_below(bounds.row(2)));
}

const OF_ONE: &[(u8, u8, i32, bool)] = &[
    (0, 0, 0, true),
    (0, 0, 1001, true),
    (0, 0, -1, false),
    (0, 0, -1001, false),
];

const OF_TWO: &[(u8, u8, i32, bool)] = &[
    (1, 0, -1001, true),
    (0, 1, 1000, false),
    (0, 1, 1001, true),
    (1, 0, -1001, true),
];

#[test]
fn one_or_two_names_and_the_offsets_at_the_edges(rt: HostRuntime) -> Result<(), Fail> {
    let alloc = rt.alloc();
    assert!(rt; is_table::<1>(alloc, OF_ONE, &[Some(0)], &[Some(0)])?);
    assert!(rt;
        is_table::<2>(
            alloc,
            OF_TWO,
            &[Some(0), Some(1001)],
            &[Some(0), Some(-1001)]
        )?
    );
    Ok(())
}

// Some follow from those before them, and change nothing.
const OF_THREE: &[(u8, u8, i32, bool)] = &[
    (1, 0, 5, true),
    (1, 0, 5, true),
    (0, 1, -6, false),
    (1, 0, 7, true),
    (1, 0, 4, true),
    (0, 1, -5, false),
    (0, 1, -4, true),
    (1, 0, 4, true),
    (0, 1, -4, true),
    (1, 0, 3, false),
];

const CYCLE: &[(u8, u8, i32, bool)] = &[(1, 2, -1, true), (2, 1, 1, true), (2, 1, 0, false)];

#[test]
fn a_literal_that_follows_changes_nothing(rt: HostRuntime) -> Result<(), Fail> {
    let alloc = rt.alloc();
    let from_0 = [Some(0), Some(-4), None];
    let to_0 = [Some(0), Some(4), None];
    assert!(rt; is_table::<3>(alloc, OF_THREE, &from_0, &to_0)?);
    let alone = [Some(0), None, None];
    assert!(rt; is_table::<3>(alloc, CYCLE, &alone, &alone)?);
    Ok(())
}

#[test]
fn tables_are_those_of_all_shortest_paths(rt: HostRuntime) -> Result<(), Fail> {
    assert!(rt; is_table::<12>(rt.alloc(), TWELVE, TWELVE_FROM_0, TWELVE_TO_0)?);
    Ok(())
}

// Drawn by chance; the answers and offsets by Floyd and Warshall's algorithm, in another program.

// Literals, and whether some integers meet each with those that were allowed before it.
const TWELVE: &[(u8, u8, i32, bool)] = &[
    (5, 2, 0, true),
    (10, 0, -5, true),
    (8, 1, -1, true),
    (9, 0, 8, true),
    (8, 3, -6, true),
    (1, 6, 0, true),
    (1, 3, -5, true),
    (8, 6, -6, true),
    (9, 1, -3, true),
    (10, 10, 3, true),
    (0, 9, 3, true),
    (6, 0, -3, false),
    (0, 8, 7, true),
    (2, 4, 0, true),
    (2, 8, -5, true),
    (9, 4, 2, true),
    (10, 2, -5, true),
    (9, 9, 4, true),
    (3, 5, -5, false),
    (8, 11, -5, true),
    (9, 0, 3, true),
    (3, 7, 4, true),
    (8, 6, 6, true),
    (5, 7, 3, true),
    (7, 5, -2, false),
    (3, 2, 5, false),
    (3, 1, 3, false),
    (4, 8, 1, true),
    (5, 11, 1, true),
    (4, 9, -5, false),
    (1, 8, 0, false),
    (2, 5, -4, false),
    (7, 6, -6, true),
    (10, 1, 6, true),
    (8, 9, 6, true),
    (5, 5, 5, true),
    (5, 9, 1, true),
    (9, 7, -5, true),
    (1, 4, 1, true),
    (11, 10, -5, false),
];

const TWELVE_FROM_0: &[Option<i32>] = &[
    Some(0),
    Some(0),
    None,
    Some(-5),
    Some(1),
    None,
    Some(-8),
    Some(-2),
    Some(2),
    Some(3),
    None,
    Some(-3),
];

const TWELVE_TO_0: &[Option<i32>] = &[
    Some(0),
    Some(11),
    Some(4),
    None,
    Some(10),
    Some(4),
    None,
    None,
    Some(9),
    Some(3),
    Some(-5),
    None,
];
