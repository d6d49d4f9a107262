//! What the solver and the table of distances do with many literals over 12 names.
ghost use Rattle.std.specs.Prelude.{◌≡◌, ℕ, ◌<◌, ◌≤◌, ◌^◌, List, length, IfOk};
ghost use Rattle.diff_graph.specs.Limits.{IsNamed, AreNamed, IsSmall, AreSmall};

use diff_bounds::Bounds;
use diff_graph::{Lit, NoMemory};
use diff_tables::{Solved, least, solve};
use std::alloc::Global;
use std::io;

/// Numbers by chance, the same in each run.
#[derive(Drop)]
struct Draws {
    state: u32,
}

impl Draws {
    fn next(&mut self, count: u32) -> u32
        requires { 0 < count }
        ensures { result < count }
    {
        self.state = self
            .state
            .wrapping_mul(1_664_525)
            .wrapping_add(1_013_904_223);
        (self.state >> 8) % count
    }

    /// A literal that the values `70 x` of the names `x` meet, or miss by at most `short`.
    fn literal(&mut self, short: u32) -> Lit
        requires { short ≤ 20 }
        ensures named { IsNamed 12 result }
        ensures small { IsSmall result }
    {
        let x = self.next(12) as u8;
        let y = self.next(12) as u8;
        let spare = self.next(201) as i32 - short as i32;
        Lit {
            x,
            y,
            k: 70 * i32::from(x) - 70 * i32::from(y) + spare,
        }
    }
}

/// Literals by chance over 12 names.
fn literals(alloc: Global, count: u32, short: u32) -> Result<Vec<Lit>, NoMemory>
    requires { short ≤ 20 }
    ensures len { IfOk result (λ lits. length lits.items ≡ count) }
    ensures named { IfOk result (λ lits. AreNamed 12 lits.items) }
    ensures small { IfOk result (λ lits. AreSmall lits.items) }
{
    let mut draws = Draws { state: 1 };
    let mut lits = Vec::new(alloc);
    for _place in 0..count {
        lits.push(draws.literal(short))?;
    }
    Ok(lits)
}

/// How many of the literals a table takes. Each round begins with a copy of an empty table.
// Out of line, as a search is: what is measured is compiled by itself.
#[inline(never)]
fn taken(lits: &[Lit], rounds: u32) -> u32
    requires named { AreNamed 12 lits.now }
    requires small { AreSmall lits.now }
    requires count { length lits.now < 2 ^ 32 }
{
    let empty = Bounds::<12>::new();
    let mut taken = 0_u32;
    for _round in 0..rounds {
        let mut bounds = empty;
        for place in 0..lits.len() {
            let lit = lits[place];
            if bounds.allows(lit) {
                bounds.add(lit, place as u32);
                taken = taken.wrapping_add(1);
            }
        }
    }
    taken
}

/// The sum of the values, or 0 where there are none.
fn sum_of(values: &[i32]) -> i32 {
    let mut sum = 0_i32;
    for value in values {
        sum = sum.wrapping_add(*value);
    }
    sum
}

fn solved(alloc: Global, lits: &[Lit], rounds: u32) -> Result<i32, NoMemory>
    requires named { AreNamed 12 lits.now }
    requires small { AreSmall lits.now }
    requires count { length lits.now < 2 ^ 32 }
{
    let mut sum = 0;
    for _round in 0..rounds {
        sum = match solve(alloc, lits, 12)? {
            Solved::Values(values) => sum_of(values.as_slice()),
            Solved::Cycle(_) => 0,
        };
    }
    Ok(sum)
}

fn least_sum(alloc: Global, lits: &[Lit], rounds: u32) -> Result<i32, NoMemory>
    requires named { AreNamed 12 lits.now }
    requires small { AreSmall lits.now }
    requires count { length lits.now < 2 ^ 32 }
{
    let floors = [0; 12];
    let mut sum = 0;
    for _round in 0..rounds {
        sum = match least(alloc, lits, &floors)? {
            Some(values) => sum_of(&values),
            None => 0,
        };
    }
    Ok(sum)
}

// What a mode does with so many literals, so many times.
fn answer(alloc: Global, mode: &str, count: u32, rounds: u32) -> Result<i64, NoMemory> {
    let short = if mode == "bounds" { 20 } else { 0 };
    let lits = literals(alloc, count, short)?;
    Ok(match mode {
        "solve" => i64::from(solved(alloc, &lits, rounds)?),
        "least" => i64::from(least_sum(alloc, &lits, rounds)?),
        _ => i64::from(taken(&lits, rounds)),
    })
}

/// Prints what a mode does with so many literals, so many times: the sum of the last values, or how many literals were
/// taken.
pub fn report(rt: &HostRuntime, mode: &str, count: u32, rounds: u32) -> io::Result<()> {
    let answer = answer(rt.alloc(), mode, count, rounds)?;
    println!(rt; "{answer}")
}
