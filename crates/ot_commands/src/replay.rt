//! `replay FUNCTION SESSION`: the events of a session, and whether sites that have integrated the same agree.
ghost use Rattle.std.specs.Prelude.{◌≡◌, ◌≢◌, ◌+◌, ◌-◌, ◌≤◌, ◌↔◌, length, Err, Some, None, IfOk};
ghost use Rattle.std.specs.Prelude.{IsErrOf, IsTrue, OnOk, Ok, true};
ghost use Rattle.std.specs.List.{list_all};
ghost use Rattle.case_json.specs.Scripts.{IsPlayable};
ghost use Rattle.case_json.specs.declared.limits.TheConstants.{MAX_EVENTS, MAX_SITES};
ghost use Rattle.case_json.specs.declared.script.Event.TheVariants as events;
ghost use Rattle.fn_rules.specs.Rules.{function_of};
ghost use Rattle.ot_causal.specs.Members.{has, have_one_set};
ghost use Rattle.ot_outside.specs.Faults.{Rose};
ghost use Rattle.ot_outside.specs.Unchanged.{Unchanged};
ghost use Rattle.ot_session.specs.Views.{view_of};
ghost use Rattle.ot_words.specs.Commands.{Replay};
ghost use Rattle.ot_commands.specs.Given.{IsReplyOfGiven};
ghost use Rattle.ot_commands.specs.Load.{GoesOnBehind};
ghost use Rattle.ot_commands.specs.Replay.{IsDone, IsFirstOther, IsFirstPair, IsRefusedEvent, IsReplyToScript};
ghost use Rattle.ot_commands.specs.Replay.{MakesSitesAgree, Runs};
ghost use Rattle.ot_commands.specs.Replay.{SiteEndsDiffer, TellsNotMade, TellsNotTaken, TellsSites};
ghost use Rattle.ot_commands.specs.Replies.{IsReplyTo};
ghost use Rattle.ot_commands.specs.Steady.{IsSteadyReply};
ghost use Rattle.ot_replies.specs.Texts.{status_of};
ghost use Rattle.ot_commands.specs.declared.halt.Halt.TheVariants as halts;

use crate::case_file::{ByCase, CaseCommand};
use crate::halt::Halt;
use crate::load::Stop;
use crate::two_files::reply_to_both;
use case_json::{CaseError, CaseFault, Event, Name, Script, script_read};
use fn_rules::Rules;
use ot_causal::closed_lists_are_told_by_their_counts;
use ot_model::{NoMemory, Op};
use ot_outside::Shelf;
use ot_replies::{EventFault, Reply, SiteEnd};
use ot_session::{Make, Session, Take};
use std::alloc::Global;

// What comes of an operation that is not made, in the event with this number.
fn not_made(number: u32, why: Make) -> Halt
    ensures { (r : Reply) → result ≡ halts.Refused r → TellsNotMade number why r }
{
    match why {
        Make::NoSite => Halt::Refused(Reply::EventRefused(number, EventFault::Site)),
        Make::WrongSite => Halt::Refused(Reply::EventRefused(number, EventFault::Owner)),
        Make::WrongKind => Halt::Refused(Reply::EventRefused(number, EventFault::Kind)),
        Make::NotEnabled => Halt::Refused(Reply::EventRefused(number, EventFault::Enabled)),
        Make::Full => Halt::Refused(Reply::CaseRefused(CaseFault::Limit(Name::Ops))),
        Make::NoMemory => Halt::NoMemory,
    }
}

// What comes of an operation that is not taken, in the event with this number.
fn not_taken(number: u32, why: Take) -> Halt
    ensures { (r : Reply) → result ≡ halts.Refused r → TellsNotTaken number why r }
{
    match why {
        Take::NoSite => Halt::Refused(Reply::EventRefused(number, EventFault::Site)),
        Take::NoOp => Halt::Refused(Reply::EventRefused(number, EventFault::Number)),
        Take::Stuck(_) => Halt::Refused(Reply::StuckAt(number)),
        Take::Spent => Halt::Refused(Reply::Spent),
        Take::NoMemory => Halt::NoMemory,
    }
}

// Makes an operation, in the event with this number.
fn make(session: &mut Session, number: u32, site: u32, op: Op) -> Result<(), Halt>
    requires { (view_of session.old).is_open ≡ true }
    ensures ok { OnOk result (IsDone (view_of session.old) (events.Make site op) (view_of session.new)) }
    ensures refused { (r : Reply) → result ≡ Err (halts.Refused r)
        → IsRefusedEvent (view_of session.old) number (events.Make site op) r }
    ensures steady { (r : Reply) → result ≡ Err (halts.Refused r) → status_of r ≢ 1 }
{
    match session.make(site, op) {
        Ok(_) => Ok(()),
        Err(why) => Err(not_made(number, why)),
    }
}

// Takes an operation, in the event with this number.
fn take(session: &mut Session, number: u32, site: u32, taken: u32) -> Result<(), Halt>
    requires { (view_of session.old).is_open ≡ true }
    ensures ok { OnOk result (IsDone (view_of session.old) (events.Take site taken) (view_of session.new)) }
    ensures refused { (r : Reply) → result ≡ Err (halts.Refused r)
        → IsRefusedEvent (view_of session.old) number (events.Take site taken) r }
    ensures steady { MakesSitesAgree (view_of session.old).function → (r : Reply) → result ≡ Err (halts.Refused r)
        → status_of r ≢ 1 }
{
    let Err(why) = session.take(site, taken) else {
        return Ok(());
    };
    Err(not_taken(number, why))
}

// Runs an event, of which this is the number.
fn run_event(session: &mut Session, number: u32, event: Event) -> Result<(), Halt>
    requires { (view_of session.old).is_open ≡ true }
    ensures ok { OnOk result (IsDone (view_of session.old) event (view_of session.new)) }
    ensures refused { (r : Reply) → result ≡ Err (halts.Refused r)
        → IsRefusedEvent (view_of session.old) number event r }
    ensures steady { MakesSitesAgree (view_of session.old).function → (r : Reply) → result ≡ Err (halts.Refused r)
        → status_of r ≢ 1 }
{
    match event {
        Event::Make { site, op } => make(session, number, site, op),
        Event::Take {
            site,
            number: taken,
        } => take(session, number, site, taken),
    }
}

// Runs events up to the first that is refused.
fn run_events(session: &mut Session, events: &[Event]) -> Result<(), Halt>
    requires is_open { (view_of session.old).is_open ≡ true }
    requires few { length events.now ≤ MAX_EVENTS }
    ensures ok { OnOk result ((r : Reply) → TellsSites (view_of session.new) r
        → Runs (view_of session.old) 0 events.now r) }
    ensures refused { (r : Reply) → result ≡ Err (halts.Refused r) → Runs (view_of session.old) 0 events.now r }
    ensures steady { MakesSitesAgree (view_of session.old).function → (r : Reply) → result ≡ Err (halts.Refused r)
        → status_of r ≢ 1 }
    ensures sites { OnOk result (length (view_of session.new).sites ≡ length (view_of session.old).sites) }
    ensures function { OnOk result ((view_of session.new).function ≡ (view_of session.old).function) }
{
    for (number, event) in events.iter().enumerate() {
        run_event(session, number as u32, *event)?;
    }
    Ok(())
}

fn has(list: &[u32], number: u32) -> bool
    ensures { result ≡ has list.now number }
{
    list.contains(&number)
}

fn are_among(some: &[u32], others: &[u32]) -> bool
    ensures { result ≡ list_all (has others.now) some.now }
{
    some.iter().all(|number| has(others, *number))
}

fn have_one_set(one: &[u32], other: &[u32]) -> bool
    ensures { result ≡ have_one_set one.now other.now }
{
    are_among(one, other) && are_among(other, one)
}

// Whether two sites have integrated the same operations and hold different documents.
fn differ(one: &SiteEnd, other: &SiteEnd) -> bool
    ensures { IsTrue result ↔ SiteEndsDiffer one.now other.now }
{
    closed_lists_are_told_by_their_counts();
    have_one_set(one.seen.as_slice(), other.seen.as_slice()) && !one.doc.same(&other.doc)
}

// Of the sites from this number on, the first that differs from one.
fn first_other(one: &SiteEnd, first: u32, others: &[SiteEnd]) -> Option<u32>
    requires { first + length others.now ≤ MAX_SITES + 1 }
    ensures { IsFirstOther one.now first others.now result }
{
    for (place, other) in others.iter().enumerate() {
        if differ(one, other) {
            return Some(first + place as u32);
        }
    }
    None
}

/// The first two sites that differ.
pub(crate) fn first_pair(ends: &[SiteEnd]) -> Option<(u32, u32)>
    requires { length ends.now ≤ MAX_SITES }
    ensures { IsFirstPair 1 ends.now result }
{
    for (place, one) in ends.iter().enumerate() {
        let site = place as u32 + 1;
        if let Some(other) = first_other(one, site + 1, &ends[place + 1..]) {
            return Some((site, other));
        }
    }
    None
}

// The reply to a session whose events were all done.
fn ended(session: Session) -> Result<Reply, NoMemory>
    requires { length (view_of session).sites ≤ MAX_SITES }
    ensures tells { IfOk result (TellsSites (view_of session)) }
    ensures steady { MakesSitesAgree (view_of session).function → IfOk result (λ r. status_of r ≢ 1) }
{
    session.sites_agree();
    let ends = session.into_ends()?;
    let differ = first_pair(ends.as_slice());
    Ok(Reply::Replayed(ends, differ))
}

/// The reply to a session.
pub(crate) fn run_script(alloc: Global, rules: &Rules, script: &Script) -> Result<Reply, NoMemory>
    requires { IsPlayable script.now }
    ensures reply { IfOk result (IsReplyToScript (function_of rules.now) (Ok script.now)) }
    ensures steady { MakesSitesAgree (function_of rules.now) → IfOk result (λ r. status_of r ≢ 1) }
{
    let mut session = Session::new(alloc, rules, &script.doc, script.sites)?;
    match run_events(&mut session, script.events.as_slice()) {
        Ok(()) => ended(session),
        Err(Halt::Refused(reply)) => Ok(reply),
        Err(Halt::NoMemory) => Err(NoMemory),
    }
}

// The events of a session are run.
struct Replaying;

impl CaseCommand for Replaying {
    ghost use Rattle.ot_commands.specs.Replay.{IsReplyToSession};

    ghost gets = { IsReplyToSession };

    ghost agrees = { MakesSitesAgree };

    #[tactic(auto, unfolding(crate::specs::Replay::IsReplyToSession))]
    fn reply(alloc: Global, rules: &Rules, bytes: &[u8]) -> Result<Reply, NoMemory> {
        match script_read(alloc, bytes) {
            Ok(script) => run_script(alloc, rules, &script),
            Err(CaseError::Fault(fault)) => Ok(Reply::CaseRefused(fault)),
            Err(CaseError::NoMemory) => Err(NoMemory),
        }
    }
}

/// The reply to the command.
pub fn replay<H: Shelf>(
    alloc: Global,
    shelf: &mut H,
    function: &str,
    session: &str,
) -> Result<Reply, Stop>
    requires function { H.offered shelf.old function.now }
    requires session { GoesOnBehind (H.holds shelf.old function.now) → H.offered shelf.old session.now }

    ensures ok { IfOk result (λ reply. IsReplyTo (H.holds shelf.old) (Replay function.now session.now) reply) }
    ensures steady { IfOk result (λ reply. IsSteadyReply (H.holds shelf.old) (Replay function.now session.now) reply) }
    ensures given { IfOk result (IsReplyOfGiven (H.reads shelf.old) (H.reads shelf.new)
        (Replay function.now session.now)) }
    ensures shelf { IsErrOf result Stop.Shelf → Rose (H.faults shelf.old) (H.faults shelf.new) }
    ensures unchanged { Unchanged H.holds H.offered H.faults shelf.old shelf.new }
{
    reply_to_both::<ByCase<Replaying>, H>(alloc, shelf, function, session)
}
