//! The reading of the script of a session.
ghost use Rattle.std.specs.Prelude.{◌≡◌, IfOk, map};
ghost use Rattle.serde_json.specs.View.{view};
ghost use Rattle.case_json.specs.Faults.{CaseReads};
ghost use Rattle.case_json.specs.Json.{is_word};
ghost use Rattle.case_json.specs.Scripts.{event_in, event_from, make_from, take_from, script_in, IsPlayable};

use crate::json::{Element, elements, number};
use crate::limits::MAX_NUMBER;
use crate::operation::operation;
use crate::parts::parts_read;
use crate::script::{Event, Script};
use crate::stop::CaseError;
use serde_json::Value;
use std::alloc::{AllocError, Global};

/// Reads the script of a session, and answers the first fault in the order of the tests.
pub fn script_read(alloc: Global, bytes: &[u8]) -> Result<Script, CaseError>
    ensures reading { CaseReads result (script_in bytes.now) }
    ensures limits { IfOk result IsPlayable }
{
    let parts = parts_read(alloc, bytes)?;
    Ok(Script {
        doc: parts.doc,
        sites: parts.sites,
        events: parts.events,
    })
}

impl Element for Event {
    ghost meant = { event_in };

    fn read(_alloc: Global, json: &Value) -> Result<Option<Event>, AllocError> {
        Ok(event(json))
    }
}

/// The event that a value is.
fn event(json: &Value) -> Option<Event>
    ensures { result ≡ event_in (view json.now) }
{
    of_elements(elements(json)?)
}

/// An event, of the elements of its array.
fn of_elements(elements: &[Value]) -> Option<Event>
    ensures { result ≡ event_from (map view elements.now) }
{
    match elements {
        [word, site, what] => match word.as_str()? {
            "make" => make(site, what),
            "take" => take(site, what),
            _ => None,
        },
        _ => None,
    }
}

fn make(site: &Value, op: &Value) -> Option<Event>
    ensures { result ≡ make_from (view site.now) (view op.now) }
{
    Some(Event::Make {
        site: number(MAX_NUMBER, site)?,
        op: operation(op)?,
    })
}

fn take(site: &Value, taken: &Value) -> Option<Event>
    ensures { result ≡ take_from (view site.now) (view taken.now) }
{
    Some(Event::Take {
        site: number(MAX_NUMBER, site)?,
        number: number(MAX_NUMBER, taken)?,
    })
}
