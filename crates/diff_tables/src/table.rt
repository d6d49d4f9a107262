//! One step of a closed table of distances, row by row. The row of a name keeps what is known from
//! each name to it. A table of any kind of rows can be kept by these functions.
ghost use Rattle.std.specs.Prelude.{◌≡◌, ℕ, ◌<◌, ◌≤◌, ◌^◌, ℤ, pos, negsuc, ◌≤ℤ◌, ◌++◌, length, slice_index_or, Option};
ghost use Rattle.std.specs.Prelude.{Some, None, IfSome, IsNone, IfOk, OnOk, OnErr};
ghost use Rattle.diff_graph.specs.Limits.{IsNamed, IsSmall, IsSmallOffset};
ghost use Rattle.diff_tables.specs.Steps.{way_of, joined, lower_of, leaves_room, keeps, numbers_along, AppendsFirst};
ghost use Rattle.diff_tables.specs.Steps.{IsLowered, IsModest};

use crate::NoMemory;
use crate::hop::Hop;
use diff_graph::Lit;

/// Whether a literal of offset `k` leaves room for what is kept from its second name to its first.
pub fn leaves_room(back: Option<Hop>, k: i32) -> bool
    requires modest { IsModest 1000000 back }
    requires small { IsSmallOffset k }
    ensures { result ≡ leaves_room back k }
{
    match back {
        None => true,
        Some(back) => 0 <= back.k + k,
    }
}

/// Whether a literal of offset `k` follows from what is kept from its first name to its second.
pub fn keeps(hop: Option<Hop>, k: i32) -> bool
    ensures { result ≡ keeps hop k }
{
    match hop {
        None => false,
        Some(hop) => hop.k <= k,
    }
}

/// Turns the row of a literal's first name into the ways from each name along the literal.
pub fn begin_ways(ways: &mut [Option<Hop>], lit: Lit, number: u32)
    requires few { length ways.old ≤ 256 }
    requires small { IsSmall lit }
    requires modest { (x : ℕ) → x < length ways.old → IsModest 1000000 (slice_index_or ways.old x None) }
    ensures len { length ways.new ≡ length ways.old }
    ensures ways { (x : ℕ) → x < length ways.old
        → slice_index_or ways.new x None ≡ way_of number lit x (slice_index_or ways.old x None) }
    ensures modest { (x : ℕ) → x < length ways.old → IsModest 2000000 (slice_index_or ways.new x None) }
{
    for x in 0..ways.len() {
        ways[x] = way(ways[x], lit, number, x as u8);
    }
}

/// The way from `x` along a chain to the literal's first name, and along the literal.
fn way(front: Option<Hop>, lit: Lit, number: u32, x: u8) -> Option<Hop>
    requires small { IsSmall lit }
    requires modest { IsModest 1000000 front }
    ensures { result ≡ way_of number lit x front }
{
    match front {
        None => None,
        Some(front) => Some(if x == lit.x {
            Hop {
                k: front.k + lit.k,
                number,
                second: lit.y,
            }
        } else {
            Hop {
                k: front.k + lit.k,
                number: front.number,
                second: front.second,
            }
        }),
    }
}

/// Lowers the row of a name by the ways to `from`, each gone on by what the row keeps from there.
pub fn lower_row(row: &mut [Option<Hop>], ways: &[Option<Hop>], from: u8)
    requires from_below { from < length row.old }
    requires same_length { length ways.now ≡ length row.old }
    requires modest_ways { (x : ℕ) → x < length ways.now → IsModest 2000000 (slice_index_or ways.now x None) }
    requires modest_rest { IsModest 1000000 (slice_index_or row.old from None) }
    ensures { IsLowered ways.now from row.old row.new }
{
    if let Some(rest) = row[from as usize] {
        lower_by(row, ways, rest);
    }
}

/// Lowers the row by the ways, each gone on by `rest`.
fn lower_by(row: &mut [Option<Hop>], ways: &[Option<Hop>], rest: Hop)
    requires same_length { length ways.now ≡ length row.old }
    requires modest_ways { (x : ℕ) → x < length ways.now → IsModest 2000000 (slice_index_or ways.now x None) }
    requires modest_rest { IsModest 1000000 (Some rest) }
    ensures len { length row.new ≡ length row.old }
    ensures lowered { (x : ℕ) → x < length row.old
        → slice_index_or row.new x None
        ≡ lower_of (slice_index_or row.old x None) (joined (slice_index_or ways.now x None) (Some rest)) }
{
    for x in 0..row.len() {
        if let Some(lower) = lower(row[x], ways[x], rest) {
            row[x] = Some(lower);
        }
    }
}

/// The way gone on by `rest`, where it is lower than what is kept. None where both are equal.
fn lower(old: Option<Hop>, way: Option<Hop>, rest: Hop) -> Option<Hop>
    requires modest_way { IsModest 2000000 way }
    requires modest_rest { IsModest 1000000 (Some rest) }
    ensures lower { IfSome result (λ lower. lower_of old (joined way (Some rest)) ≡ Some lower) }
    ensures none { IsNone result → lower_of old (joined way (Some rest)) ≡ old }
{
    let Some(way) = way else {
        return None;
    };
    let new = Hop {
        k: way.k + rest.k,
        number: way.number,
        second: way.second,
    };
    match old {
        None => Some(new),
        Some(old) => { if new.k < old.k { Some(new) } else { None } }
    }
}

/// Puts at the end of `picks` the numbers of the literals on the chain from one name to another,
/// whose row it is given.
pub fn push_chain(
    picks: &mut Vec<u32>,
    row: &[Option<Hop>],
    from: u8,
    to: u8,
) -> Result<(), NoMemory>
    ensures ok { OnOk result (picks.new.items ≡ picks.old.items
        ++ numbers_along (λ x. slice_index_or row.now x None) (length row.now) from to) }

    // Where memory was wanting, those that were put stay.
    ensures err { OnErr result (AppendsFirst picks.old.items
        (numbers_along (λ x. slice_index_or row.now x None) (length row.now) from to) picks.new.items) }
{
    picks.reserve(row.len())?;
    let mut name = from;
    for _step in 0..row.len() {
        if name == to {
            return Ok(());
        }
        let Some(hop) = hop_at(row, name) else {
            return Ok(());
        };
        picks.push_reserved(hop.number);
        name = hop.second;
    }
    Ok(())
}

/// What the row keeps for a name, if it is that long.
fn hop_at(row: &[Option<Hop>], x: u8) -> Option<Hop>
    ensures { result ≡ slice_index_or row.now x None }
{
    if (x as usize) < row.len() {
        row[x as usize]
    } else {
        None
    }
}
