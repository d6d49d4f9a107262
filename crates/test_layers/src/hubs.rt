//! A hub whose clients made an operation each that no other one knew of. The rows of `checks/tables/hub.rows` are on the
//! built program.
ghost use Rattle.case_json.specs.Hubs.{IsHubPlayable};

use crate::whole_functions::sites;
use case_json::{HubEvent, HubScript, hub_read};
use fn_rules::Rules;
use ot_hub::{Hub, Moved, NoMemory};
use ot_model::Doc;
use std::alloc::Global;

const SCRIPT: &str = r#"{"doc":"y","sites":3,"events":[
    ["edit",1,["ins",1,"a",1]],["edit",2,["del",0,2]],["edit",3,["ins",0,"c",3]],["up",1],["up",2],["up",3],
    ["down",1],["down",1],["down",1],["down",2],["down",2],["down",2],["down",3],["down",3],["down",3]]}"#;

// Whether the hub is open, and the event happens in it.
fn is_done(hub: &mut Hub, event: HubEvent) -> bool {
    if !hub.is_open() {
        return false;
    }
    match event {
        HubEvent::Edit { client, op } => hub.edit(client, op).is_ok(),
        HubEvent::Up { client } => matches!(hub.up(client), Ok(Moved::Done)),
        HubEvent::Down { client } => matches!(hub.down(client), Ok(Moved::Done)),
    }
}

fn are_done(hub: &mut Hub, events: &[HubEvent]) -> bool {
    for event in events {
        if !is_done(hub, *event) {
            return false;
        }
    }
    true
}

// Whether the client received three entries, has nothing pending, and holds the server's document.
fn is_client_at_end(hub: &Hub, client: u32) -> bool {
    hub.has_client(client)
        && hub.received(client) == 3
        && hub.pending(client) == 0
        && hub.client(client).same(hub.server())
}

// Whether the two cells are live and of these characters.
fn is_ca(doc: &Doc) -> bool {
    match doc.cells() {
        [first, second] => first.live && first.ch == 'c' && second.live && second.ch == 'a',
        _ => false,
    }
}

fn are_at_end(hub: &Hub) -> bool {
    hub.logged() == 3
        && is_ca(hub.server())
        && is_client_at_end(hub, 1)
        && is_client_at_end(hub, 2)
        && is_client_at_end(hub, 3)
        && !hub.has_client(4)
}

fn ends_as_told(hub: &mut Hub, events: &[HubEvent]) -> bool {
    are_done(hub, events) && are_at_end(hub)
}

fn is_run(alloc: Global, rules: &Rules, script: &HubScript) -> Result<bool, NoMemory>
    requires { IsHubPlayable script.now }
{
    let mut hub = Hub::new(alloc, rules, &script.doc, script.clients)?;
    Ok(ends_as_told(&mut hub, script.events.as_slice()))
}

fn is_read_and_run(alloc: Global, rules: &Rules, text: &str) -> Result<bool, NoMemory> {
    match hub_read(alloc, text.as_bytes()) {
        Ok(script) => is_run(alloc, rules, &script),
        Err(_) => Ok(false),
    }
}

fn is_served(alloc: Global) -> Result<bool, NoMemory> {
    match sites(alloc) {
        Some(rules) => is_read_and_run(alloc, &rules, SCRIPT),
        None => Ok(false),
    }
}

#[test]
fn clients_of_a_hub_end_with_its_document(rt: HostRuntime) {
    assert!(rt; is_served(rt.alloc()) == Ok(true));
}
