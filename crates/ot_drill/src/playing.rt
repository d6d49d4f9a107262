//! A session in which the events of a workload are done.
ghost use Rattle.std.specs.Prelude.{◌≡◌, ◌≤◌, ◌<◌, ◌+◌, ◌^◌, IfOk, length, true};
ghost use Rattle.case_json.specs.declared.script.Event.TheVariants as events;
ghost use Rattle.fn_rules.specs.Rules.{function_of};
ghost use Rattle.ot_session.specs.Views.{view_of, HasMade};
ghost use Rattle.ot_drill.specs.FineEvents.{CanBeDone, HasFewForms, IsDrillFunction, SessionStands, are_fine};
ghost use Rattle.ot_drill.specs.FineEvents.{none_made};
ghost use Rattle.ot_drill.specs.Playing.{ArePlayed, CountsFewForms, HasPlayed, IsPlayed};
ghost use Rattle.ot_drill.specs.Workload.{drill_function};

use crate::event::events;
use crate::laws::drill_functions_have_both_properties;
use crate::limits::{MOST_ROUNDS, SITES};
use crate::tally::Tally;
use case_json::Event;
use fn_rules::Rules;
use ot_model::{Doc, NoMemory, Op};
use ot_session::{Make, Session, Take};
use std::alloc::Global;

/// A session in which the events of a workload were done.
#[derive(Drop)]
pub struct Played {
    /// The session.
    pub session: Session,

    /// What was counted.
    pub tally: Tally,
}

// A site makes an operation that no test refuses.
fn make(session: &mut Session, site: u32, op: Op) -> Result<u32, NoMemory>
    requires is_open { (view_of session.old).is_open ≡ true }
    requires may { CanBeDone (view_of session.old) (events.Make site op) }
    ensures { IfOk result (λ number. HasMade (view_of session.old) (view_of session.new) site op number) }
{
    match session.make(site, op) {
        Ok(number) => Ok(number),
        Err(Make::NoMemory) => Err(NoMemory),
        Err(_) => unreachable!(),
    }
}

// A site takes an operation, which is not refused, and its answer is counted.
fn take(session: &mut Session, tally: Tally, site: u32, number: u32) -> Result<Tally, NoMemory>
    requires is_open { (view_of session.old).is_open ≡ true }
    requires function { IsDrillFunction (view_of session.old).function }
    requires may { CanBeDone (view_of session.old) (events.Take site number) }
    requires held { tally.held + 1 < 2 ^ 64 }
    requires repeated { tally.repeated + 1 < 2 ^ 64 }
    ensures { IfOk result (IsPlayed (view_of session.old) tally (events.Take site number) (view_of session.new)) }
{
    drill_functions_have_both_properties();
    match session.take(site, number) {
        Ok(took) => Ok(tally.with_answer(&took)),
        Err(Take::NoMemory) => Err(NoMemory),
        Err(_) => unreachable!(),
    }
}

// Does an event that is not refused, and counts it.
fn play_event(session: &mut Session, tally: Tally, event: Event) -> Result<Tally, NoMemory>
    requires is_open { (view_of session.old).is_open ≡ true }
    requires function { IsDrillFunction (view_of session.old).function }
    requires may { CanBeDone (view_of session.old) event }
    requires made { tally.made + 1 < 2 ^ 64 }
    requires held { tally.held + 1 < 2 ^ 64 }
    requires repeated { tally.repeated + 1 < 2 ^ 64 }
    ensures { IfOk result (IsPlayed (view_of session.old) tally event (view_of session.new)) }
{
    match event {
        Event::Make { site, op } => {
            make(session, site, op)?;
            Ok(tally.with_made())
        }
        Event::Take { site, number } => take(session, tally, site, number),
    }
}

// Does events of which none is refused, and counts them.
fn play_all(session: &mut Session, events: &[Event]) -> Result<Tally, NoMemory>
    requires stands { SessionStands (view_of session.old) none_made }
    requires function { IsDrillFunction (view_of session.old).function }
    requires fine { are_fine none_made events.now ≡ true }
    ensures played { IfOk result (λ tally. ArePlayed (view_of session.old) events.now (view_of session.new) tally) }
    ensures sites { IfOk result (λ _. length (view_of session.new).sites ≡ SITES) }
    ensures function { IfOk result (λ _. (view_of session.new).function ≡ (view_of session.old).function) }
    ensures few { IfOk result (λ _. HasFewForms (view_of session.new)) }
{
    let mut tally = Tally::new();
    for event in events {
        tally = play_event(session, tally, *event)?;
    }
    Ok(tally)
}

/// Does the events of a workload in a new session of its sites, without cells, under its function.
pub fn play(alloc: Global, rules: &Rules, n: u32) -> Result<Played, NoMemory>
    requires n { n ≤ MOST_ROUNDS }
    requires function { function_of rules.now ≡ drill_function n }
    ensures { IfOk result (HasPlayed n) }
{
    let mut session = Session::new(alloc, rules, &Doc::new(alloc), SITES)?;
    let events = events(alloc, n)?;
    let tally = play_all(&mut session, &events)?;
    session.sites_count_few_forms();
    Ok(Played { session, tally })
}
