//! The parts that each script has.
ghost use Rattle.std.specs.Prelude.{◌≡◌, IfOk};
ghost use Rattle.serde_json.specs.View.{view};
ghost use Rattle.case_json.specs.Faults.{CaseReads};
ghost use Rattle.case_json.specs.Parts.{sites_in, parts_from, parts_in, AreWithinLimits};

use crate::case::{document, json_read};
use crate::fault::{CaseFault, Name};
use crate::json::{Element, list_at};
use crate::limits::{MAX_EVENTS, MAX_SITES};
use crate::stop::CaseError;
use ot_model::Doc;
use plain_list::List;
use serde_json::Value;
use std::alloc::Global;

/// A document, a number of sites, and events.
#[derive(Drop)]
pub(crate) struct Parts<E> {
    pub doc: Doc,
    pub sites: u32,
    pub events: List<E>,
}

/// Reads the parts of a script, and answers the first fault in the order of the tests.
pub(crate) fn parts_read<E: Element>(alloc: Global, bytes: &[u8]) -> Result<Parts<E>, CaseError>
    ensures reading { CaseReads result (parts_in E.Element.meant bytes.now) }
    ensures limits { IfOk result (λ parts. AreWithinLimits parts.doc parts.sites parts.events) }
{
    let json = json_read(alloc, bytes)?;
    parts_of(alloc, &json)
}

fn parts_of<E: Element>(alloc: Global, json: &Value) -> Result<Parts<E>, CaseError>
    ensures reading { CaseReads result (parts_from E.Element.meant (view json.now)) }
    ensures limits { IfOk result (λ parts. AreWithinLimits parts.doc parts.sites parts.events) }
{
    let doc = document(alloc, json)?;
    let sites = sites(json)?;
    let events = list_at(alloc, json, "events", Name::Events, MAX_EVENTS)?;
    Ok(Parts { doc, sites, events })
}

/// The number of sites.
fn sites(json: &Value) -> Result<u32, CaseFault>
    ensures { result ≡ sites_in (view json.now) }
{
    match json.get("sites").and_then(Value::as_u64) {
        None | Some(0) => Err(CaseFault::Field(Name::Sites)),
        Some(sites) if sites <= u64::from(MAX_SITES) => Ok(sites as u32),
        Some(_) => Err(CaseFault::Limit(Name::Sites)),
    }
}
