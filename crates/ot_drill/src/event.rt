//! The events of a workload.
ghost use Rattle.std.specs.Prelude.{◌≡◌, ◌≤◌, ◌++◌, ◌*◌, IfOk, OnOk, reverse};
ghost use Rattle.std.specs.List.{flat_map, range_with_len};
ghost use Rattle.ot_drill.specs.Events.{drill_events, makes_in, round_operation, others_of, takes_of};

use crate::limits::{MOST_ROUNDS, SITES};
use case_json::Event;
use ot_model::{NoMemory, Op};
use std::alloc::Global;

// What a site makes in a round.
fn operation_in(round: u32, site: u32) -> Op
    ensures { result ≡ round_operation round site }
{
    if round % 3 == 2 {
        Op::Del { at: 0, site }
    } else {
        Op::Ins {
            at: 0,
            ch: 'a',
            site,
        }
    }
}

// The sites make their operations of a round.
fn push_round(round: u32, events: &mut Vec<Event>) -> Result<(), NoMemory>
    ensures { OnOk result (events.new.items ≡ events.old.items ++ makes_in round) }
{
    for site in 1..SITES + 1 {
        let op = operation_in(round, site);
        events.push(Event::Make { site, op })?;
    }
    Ok(())
}

// The operations that other sites make.
fn others_of(alloc: Global, rounds: u32, site: u32) -> Result<Vec<u32>, NoMemory>
    requires rounds { rounds ≤ MOST_ROUNDS }
    requires site { (1 ≤ site) × (site ≤ SITES) }
    ensures { IfOk result (λ numbers. numbers.items ≡ others_of rounds site) }
{
    (0..SITES * rounds)
        .filter(|number| number % SITES != site - 1)
        .collect(alloc)
}

// A site takes operations.
fn push_takes(site: u32, numbers: &[u32], events: &mut Vec<Event>) -> Result<(), NoMemory>
    ensures { OnOk result (events.new.items ≡ events.old.items ++ takes_of site numbers.now) }
{
    for number in numbers {
        events.push(Event::Take {
            site,
            number: *number,
        })?;
    }
    Ok(())
}

// All sites make their operations.
fn makes(alloc: Global, rounds: u32) -> Result<Vec<Event>, NoMemory>
    ensures { IfOk result (λ events. events.items ≡ flat_map makes_in (range_with_len 0 rounds)) }
{
    let mut events = Vec::new(alloc);
    for round in 0..rounds {
        push_round(round, &mut events)?;
    }
    Ok(events)
}

// A site takes operations in the opposite order.
fn push_turned(site: u32, numbers: Vec<u32>, events: &mut Vec<Event>) -> Result<(), NoMemory>
    ensures { OnOk result (events.new.items ≡ events.old.items ++ takes_of site (reverse numbers.items)) }
{
    let mut numbers = numbers;
    numbers.reverse();
    push_takes(site, &numbers, events)
}

// A site takes operations, and then all of them once more.
fn push_twice(site: u32, numbers: &[u32], events: &mut Vec<Event>) -> Result<(), NoMemory>
    ensures { OnOk result (events.new.items ≡ events.old.items ++ takes_of site numbers.now
        ++ takes_of site numbers.now) }
{
    push_takes(site, numbers, events)?;
    push_takes(site, numbers, events)
}

/// The events of the workload with this number: in so many rounds three sites make an operation each; then site 1 takes
/// the operations of the others as they were made, site 2 in the opposite order, and site 3 as they were made, twice.
pub fn events(alloc: Global, n: u32) -> Result<Vec<Event>, NoMemory>
    requires { n ≤ MOST_ROUNDS }
    ensures { IfOk result (λ events. events.items ≡ drill_events n) }
{
    let mut events = makes(alloc, n)?;
    push_takes(1, &others_of(alloc, n, 1)?, &mut events)?;
    push_turned(2, others_of(alloc, n, 2)?, &mut events)?;
    push_twice(3, &others_of(alloc, n, 3)?, &mut events)?;
    Ok(events)
}
