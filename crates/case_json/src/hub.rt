//! Scripts of hubs: a document, a number of clients, and what happens at them; and their reading.
ghost use Rattle.std.specs.Prelude.{◌≡◌, IfOk, map};
ghost use Rattle.serde_json.specs.View.{view};
ghost use Rattle.case_json.specs.Faults.{CaseReads};
ghost use Rattle.case_json.specs.Json.{is_word};
ghost use Rattle.case_json.specs.Hubs.{hub_event_in, hub_event_from, edit_from, move_from, hub_script_in};
ghost use Rattle.case_json.specs.Hubs.{IsHubPlayable};

use crate::json::{Element, elements, number};
use crate::limits::MAX_NUMBER;
use crate::operation::operation;
use crate::parts::parts_read;
use crate::stop::CaseError;
use ot_model::{Doc, Op};
use plain_list::List;
use serde_json::Value;
use std::alloc::{AllocError, Global};

/// What happens at a client of a hub.
#[derive(Clone, Copy, PartialEq, Eq)]
pub enum HubEvent {
    /// The client makes the operation.
    Edit { client: u32, op: Op },

    /// The server takes the oldest message of the client.
    Up { client: u32 },

    /// The client takes the next entry of the log.
    Down { client: u32 },
}

/// A document, a number of clients, and what happens at them.
#[derive(Drop)]
pub struct HubScript {
    /// The document with which the server and each client begin.
    pub doc: Doc,

    /// How many clients there are, which are numbered from 1.
    pub clients: u32,

    /// What happens, in order.
    pub events: List<HubEvent>,
}

/// Reads the script of a hub, and answers the first fault in the order of the tests.
pub fn hub_read(alloc: Global, bytes: &[u8]) -> Result<HubScript, CaseError>
    ensures reading { CaseReads result (hub_script_in bytes.now) }
    ensures limits { IfOk result IsHubPlayable }
{
    let parts = parts_read(alloc, bytes)?;
    Ok(HubScript {
        doc: parts.doc,
        clients: parts.sites,
        events: parts.events,
    })
}

impl Element for HubEvent {
    ghost meant = { hub_event_in };

    fn read(_alloc: Global, json: &Value) -> Result<Option<HubEvent>, AllocError> {
        Ok(event(json))
    }
}

/// The event that a value is.
fn event(json: &Value) -> Option<HubEvent>
    ensures { result ≡ hub_event_in (view json.now) }
{
    of_elements(elements(json)?)
}

/// An event, of the elements of its array.
fn of_elements(elements: &[Value]) -> Option<HubEvent>
    ensures { result ≡ hub_event_from (map view elements.now) }
{
    match elements {
        [word, client] => moved(word, client),
        [word, client, op] => edit(word, client, op),
        _ => None,
    }
}

fn edit(word: &Value, client: &Value, op: &Value) -> Option<HubEvent>
    ensures { result ≡ edit_from (view word.now) (view client.now) (view op.now) }
{
    match word.as_str()? {
        "edit" => Some(HubEvent::Edit {
            client: number(MAX_NUMBER, client)?,
            op: operation(op)?,
        }),
        _ => None,
    }
}

/// A message that goes up or an entry that comes down.
fn moved(word: &Value, client: &Value) -> Option<HubEvent>
    ensures { result ≡ move_from (view word.now) (view client.now) }
{
    match word.as_str()? {
        "up" => Some(HubEvent::Up {
            client: number(MAX_NUMBER, client)?,
        }),
        "down" => Some(HubEvent::Down {
            client: number(MAX_NUMBER, client)?,
        }),
        _ => None,
    }
}
