//! `hub FUNCTION HUB`: the events of a hub, and whether its clients hold the server's document.
ghost use Rattle.std.specs.Prelude.{◌≡◌, ◌≢◌, ◌+◌, ◌≤◌, ◌↔◌, List, length, map, Err, Some, IfOk, IsErrOf, IsTrue};
ghost use Rattle.std.specs.Prelude.{OnOk, Ok, true};
ghost use Rattle.case_json.specs.Hubs.{IsHubPlayable};
ghost use Rattle.case_json.specs.declared.limits.TheConstants.{MAX_EVENTS, MAX_SITES};
ghost use Rattle.case_json.specs.declared.hub.HubEvent.TheVariants as events;
ghost use Rattle.fn_rules.specs.Rules.{function_of};
ghost use Rattle.ot_hub.specs.Views.{IsClient, client_of, hub_view_of};
ghost use Rattle.ot_outside.specs.Faults.{Rose};
ghost use Rattle.ot_outside.specs.Unchanged.{Unchanged};
ghost use Rattle.ot_words.specs.Commands as commands;
ghost use Rattle.ot_replies.specs.Texts.{status_of};
ghost use Rattle.ot_commands.specs.Given.{IsReplyOfGiven};
ghost use Rattle.ot_commands.specs.Hub.{IsApartFromServer, IsDone, IsFirstApart, IsRefusedHubEvent};
ghost use Rattle.ot_commands.specs.Hub.{IsReplyToHubScript, MakesClientsAgree, Runs, TellsHub};
ghost use Rattle.ot_commands.specs.Hub.{TellsNotEdited, TellsNotMoved, client_end};
ghost use Rattle.ot_commands.specs.Load.{GoesOnBehind};
ghost use Rattle.ot_commands.specs.Replies.{IsReplyTo};
ghost use Rattle.ot_commands.specs.Steady.{IsSteadyReply};
ghost use Rattle.ot_commands.specs.declared.halt.Halt.TheVariants as halts;

use crate::case_file::{ByCase, CaseCommand};
use crate::halt::Halt;
use crate::load::Stop;
use crate::two_files::reply_to_both;
use case_json::{CaseError, CaseFault, HubEvent, HubScript, Name, hub_read};
use fn_rules::Rules;
use ot_hub::{Edit, Hub, Move};
use ot_model::{Doc, NoMemory, Op};
use ot_outside::Shelf;
use ot_replies::{ClientEnd, EventFault, HubEnd, Reply};
use plain_list::List;
use std::alloc::Global;

// What comes of an operation that a client does not make, in the event with this number.
fn not_edited(number: u32, why: Edit) -> Halt
    ensures { (r : Reply) → result ≡ halts.Refused r → TellsNotEdited number why r }
{
    match why {
        Edit::NoSite => Halt::Refused(Reply::EventRefused(number, EventFault::Site)),
        Edit::WrongSite => Halt::Refused(Reply::EventRefused(number, EventFault::Owner)),
        Edit::WrongKind => Halt::Refused(Reply::EventRefused(number, EventFault::Kind)),
        Edit::NotEnabled => Halt::Refused(Reply::EventRefused(number, EventFault::Enabled)),
        Edit::Full => Halt::Refused(Reply::CaseRefused(CaseFault::Limit(Name::Ops))),
        Edit::NoMemory => Halt::NoMemory,
    }
}

// What comes of an operation that is not moved.
fn not_moved(number: u32, why: Move) -> Halt
    ensures { (r : Reply) → result ≡ halts.Refused r → TellsNotMoved number why r }
{
    match why {
        Move::NoSite => Halt::Refused(Reply::EventRefused(number, EventFault::Site)),
        Move::Stuck => Halt::Refused(Reply::StuckAt(number)),
        Move::NoMemory => Halt::NoMemory,
    }
}

// A client makes an operation, in the event with this number.
fn edit(hub: &mut Hub, number: u32, client: u32, op: Op) -> Result<(), Halt>
    requires { (hub_view_of hub.old).is_open ≡ true }
    ensures ok { OnOk result (IsDone (hub_view_of hub.old) (events.Edit client op) (hub_view_of hub.new)) }
    ensures refused { (r : Reply) → result ≡ Err (halts.Refused r)
        → IsRefusedHubEvent (hub_view_of hub.old) number (events.Edit client op) r }
    ensures steady { (r : Reply) → result ≡ Err (halts.Refused r) → status_of r ≢ 1 }
{
    match hub.edit(client, op) {
        Ok(()) => Ok(()),
        Err(why) => Err(not_edited(number, why)),
    }
}

// The server takes a message of a client.
fn up(hub: &mut Hub, number: u32, client: u32) -> Result<(), Halt>
    requires { (hub_view_of hub.old).is_open ≡ true }
    ensures ok { OnOk result (IsDone (hub_view_of hub.old) (events.Up client) (hub_view_of hub.new)) }
    ensures refused { (r : Reply) → result ≡ Err (halts.Refused r)
        → IsRefusedHubEvent (hub_view_of hub.old) number (events.Up client) r }
    ensures steady { MakesClientsAgree (hub_view_of hub.old).function → (r : Reply) → result ≡ Err (halts.Refused r)
        → status_of r ≢ 1 }
{
    match hub.up(client) {
        Ok(_) => Ok(()),
        Err(why) => Err(not_moved(number, why)),
    }
}

// A client takes an entry of the log.
fn down(hub: &mut Hub, number: u32, client: u32) -> Result<(), Halt>
    requires { (hub_view_of hub.old).is_open ≡ true }
    ensures ok { OnOk result (IsDone (hub_view_of hub.old) (events.Down client) (hub_view_of hub.new)) }
    ensures refused { (r : Reply) → result ≡ Err (halts.Refused r)
        → IsRefusedHubEvent (hub_view_of hub.old) number (events.Down client) r }
    ensures steady { MakesClientsAgree (hub_view_of hub.old).function → (r : Reply) → result ≡ Err (halts.Refused r)
        → status_of r ≢ 1 }
{
    match hub.down(client) {
        Ok(_) => Ok(()),
        Err(why) => Err(not_moved(number, why)),
    }
}

// Runs an event, of which this is the number.
fn run_event(hub: &mut Hub, number: u32, event: HubEvent) -> Result<(), Halt>
    requires { (hub_view_of hub.old).is_open ≡ true }
    ensures ok { OnOk result (IsDone (hub_view_of hub.old) event (hub_view_of hub.new)) }
    ensures refused { (r : Reply) → result ≡ Err (halts.Refused r)
        → IsRefusedHubEvent (hub_view_of hub.old) number event r }
    ensures steady { MakesClientsAgree (hub_view_of hub.old).function → (r : Reply) → result ≡ Err (halts.Refused r)
        → status_of r ≢ 1 }
{
    match event {
        HubEvent::Edit { client, op } => edit(hub, number, client, op),
        HubEvent::Up { client } => up(hub, number, client),
        HubEvent::Down { client } => down(hub, number, client),
    }
}

// Runs events up to the first that is refused.
fn run_events(hub: &mut Hub, events: &[HubEvent]) -> Result<(), Halt>
    requires is_open { (hub_view_of hub.old).is_open ≡ true }
    requires few { length events.now ≤ MAX_EVENTS }
    ensures ok { OnOk result ((r : Reply) → TellsHub (hub_view_of hub.new) r
        → Runs (hub_view_of hub.old) 0 events.now r) }
    ensures refused { (r : Reply) → result ≡ Err (halts.Refused r) → Runs (hub_view_of hub.old) 0 events.now r }
    ensures steady { MakesClientsAgree (hub_view_of hub.old).function → (r : Reply) → result ≡ Err (halts.Refused r)
        → status_of r ≢ 1 }
    ensures clients { OnOk result (length (hub_view_of hub.new).clients ≡ length (hub_view_of hub.old).clients) }
    ensures function { OnOk result ((hub_view_of hub.new).function ≡ (hub_view_of hub.old).function) }
{
    for (number, event) in events.iter().enumerate() {
        run_event(hub, number as u32, *event)?;
    }
    Ok(())
}

// How much a client has received, how much of it is pending, and its document.
fn end_at(hub: &Hub, client: u32) -> Result<ClientEnd, NoMemory>
    requires { IsClient (length (hub_view_of hub.now).clients) client }
    ensures { IfOk result (λ end. end ≡ client_end (client_of (hub_view_of hub.now) client)) }
{
    Ok(ClientEnd {
        received: hub.received(client),
        pending: hub.pending(client),
        doc: hub.client(client).try_clone()?,
    })
}

// The same of each client, of which there are so many.
fn ends_of(alloc: Global, hub: &Hub, clients: u32) -> Result<List<ClientEnd>, NoMemory>
    requires { length (hub_view_of hub.now).clients ≡ clients }
    ensures { IfOk result (λ ends. ends ≡ map client_end (hub_view_of hub.now).clients) }
{
    let mut ends = List::new(alloc);
    for place in 0..clients {
        ends.push(end_at(hub, place + 1)?)?;
    }
    Ok(ends)
}

// Whether a client has received a whole log of so many entries, has nothing pending, and holds another document.
fn is_apart(logged: u32, doc: &Doc, end: &ClientEnd) -> bool
    ensures { IsTrue result ↔ IsApartFromServer logged doc.now end.now }
{
    end.received == logged && end.pending == 0 && !end.doc.same(doc)
}

// The first client that is apart from the server.
fn first_apart(logged: u32, doc: &Doc, ends: &[ClientEnd]) -> Option<u32>
    requires { length ends.now ≤ MAX_SITES }
    ensures { IsFirstApart logged doc.now 1 ends.now result }
{
    for (place, end) in ends.iter().enumerate() {
        if is_apart(logged, doc, end) {
            return Some(place as u32 + 1);
        }
    }
    None
}

// The reply to a hub whose events were all done.
fn ended(alloc: Global, hub: &Hub, clients: u32) -> Result<Reply, NoMemory>
    requires clients { length (hub_view_of hub.now).clients ≡ clients }
    requires few { clients ≤ MAX_SITES }
    ensures tells { IfOk result (TellsHub (hub_view_of hub.now)) }
    ensures steady { MakesClientsAgree (hub_view_of hub.now).function → IfOk result (λ r. status_of r ≢ 1) }
{
    let logged = hub.logged();
    let doc = hub.server().try_clone()?;
    let ends = ends_of(alloc, hub, clients)?;
    hub.clients_follow_the_log();
    let differ = first_apart(logged, &doc, ends.as_slice());
    Ok(Reply::Served(HubEnd {
        logged,
        doc,
        clients: ends,
        differ,
    }))
}

/// The reply to a hub.
pub(crate) fn run_script(
    alloc: Global,
    rules: &Rules,
    script: &HubScript,
) -> Result<Reply, NoMemory>
    requires { IsHubPlayable script.now }
    ensures reply { IfOk result (IsReplyToHubScript (function_of rules.now) (Ok script.now)) }
    ensures steady { MakesClientsAgree (function_of rules.now) → IfOk result (λ r. status_of r ≢ 1) }
{
    let mut hub = Hub::new(alloc, rules, &script.doc, script.clients)?;
    match run_events(&mut hub, script.events.as_slice()) {
        Ok(()) => ended(alloc, &hub, script.clients),
        Err(Halt::Refused(reply)) => Ok(reply),
        Err(Halt::NoMemory) => Err(NoMemory),
    }
}

// The events of a hub are run.
struct Serving;

impl CaseCommand for Serving {
    ghost use Rattle.ot_commands.specs.Hub.{IsReplyToHub};

    ghost gets = { IsReplyToHub };

    ghost agrees = { MakesClientsAgree };

    #[tactic(auto, unfolding(crate::specs::Hub::IsReplyToHub))]
    fn reply(alloc: Global, rules: &Rules, bytes: &[u8]) -> Result<Reply, NoMemory> {
        match hub_read(alloc, bytes) {
            Ok(script) => run_script(alloc, rules, &script),
            Err(CaseError::Fault(fault)) => Ok(Reply::CaseRefused(fault)),
            Err(CaseError::NoMemory) => Err(NoMemory),
        }
    }
}

/// The reply to the command.
pub fn hub<H: Shelf>(alloc: Global, shelf: &mut H, function: &str, hub: &str) -> Result<Reply, Stop>
    requires function { H.offered shelf.old function.now }
    requires hub { GoesOnBehind (H.holds shelf.old function.now) → H.offered shelf.old hub.now }

    ensures ok { IfOk result (λ reply. IsReplyTo (H.holds shelf.old) (commands.Hub function.now hub.now) reply) }
    ensures steady { IfOk result (λ reply. IsSteadyReply (H.holds shelf.old) (commands.Hub function.now hub.now)
        reply) }
    ensures given { IfOk result (IsReplyOfGiven (H.reads shelf.old) (H.reads shelf.new)
        (commands.Hub function.now hub.now)) }
    ensures shelf { IsErrOf result Stop.Shelf → Rose (H.faults shelf.old) (H.faults shelf.new) }
    ensures unchanged { Unchanged H.holds H.offered H.faults shelf.old shelf.new }
{
    reply_to_both::<ByCase<Serving>, H>(alloc, shelf, function, hub)
}
