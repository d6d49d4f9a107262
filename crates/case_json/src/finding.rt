//! The path of a fault.
ghost use Rattle.std.specs.Prelude.{◌≡◌, Some, IfOk};
ghost use Rattle.std.specs.Option.{option_map};
ghost use Rattle.serde_json.specs.View.{view};
ghost use Rattle.case_json.specs.Json.{json_in};
ghost use Rattle.case_json.specs.Paths.{cause_places, event_path_of, key_of, limited_part, line_column_of, part_misfit};
ghost use Rattle.case_json.specs.Paths.{path_of, places_in};

use crate::misfits::{HubEvent, Operation, Order, SessionEvent, array_misfit, here, inside};
use crate::path::{EventCause, FaultPath, Layout};
use crate::{CaseFault, Name, NoMemory};
use json_places::{LineColumn, Places, line_column, value_offset};
use serde_json::Value;
use std::alloc::Global;

/// The key of a part.
pub(crate) fn key_of(part: Name) -> &'static str
    ensures { result.now ≡ key_of part }
{
    match part {
        Name::Doc | Name::Cells => "doc",
        Name::Ops => "ops",
        Name::Orders => "orders",
        Name::Sites => "sites",
        Name::Events => "events",
    }
}

// Where a part of a file does not fit.
fn part_misfit(layout: Layout, part: Name, json: &Value) -> Option<Places>
    ensures { result ≡ part_misfit layout part (view json.now) }
{
    match part {
        Name::Ops => array_misfit::<Operation>(json),
        Name::Orders => array_misfit::<Order>(json),
        Name::Events => match layout {
            Layout::Hub => array_misfit::<HubEvent>(json),
            Layout::Case | Layout::Session => array_misfit::<SessionEvent>(json),
        },
        Name::Doc | Name::Sites | Name::Cells => None,
    }
}

// The places under a key of a file that was read as JSON.
fn places_of(layout: Layout, part: Name, json: &Value) -> Places
    ensures { result ≡ places_in layout part (Some (view json.now)) }
{
    match json.get(key_of(part)) {
        Some(value) => part_misfit(layout, part, value).unwrap_or(here()),
        None => here(),
    }
}

// The bytes as JSON, if they are.
fn json(alloc: Global, bytes: &[u8]) -> Result<Option<Value>, NoMemory>
    ensures { IfOk result (λ found. option_map view found ≡ json_in bytes.now) }
{
    match Value::from_slice(alloc, bytes) {
        Ok(json) => Ok(Some(json)),
        Err(error) => {
            if error.is_memory() {
                Err(NoMemory)
            } else {
                Ok(None)
            }
        }
    }
}

fn places_in(alloc: Global, layout: Layout, part: Name, bytes: &[u8]) -> Result<Places, NoMemory>
    ensures { IfOk result (λ places. places ≡ places_in layout part (json_in bytes.now)) }
{
    match json(alloc, bytes)? {
        Some(json) => Ok(places_of(layout, part, &json)),
        None => Ok(here()),
    }
}

// The part of a file of which there is too much.
fn limited_part(layout: Layout, part: Name) -> Name
    ensures { result ≡ limited_part layout part }
{
    match layout {
        Layout::Case => part,
        Layout::Session | Layout::Hub => match part {
            Name::Ops => Name::Events,
            _ => part,
        },
    }
}

fn path(part: Name, places: Places) -> Option<FaultPath>
    ensures { result ≡ Some (record { part = part; places = places }) }
{
    Some(FaultPath { part, places })
}

/// The path of the fault that a file has: of a part that does not fit, that of the first value in it which is not what
/// it should be. None where the file is no JSON.
pub fn fault_path(
    alloc: Global,
    layout: Layout,
    bytes: &[u8],
    fault: &CaseFault,
) -> Result<Option<FaultPath>, NoMemory>
    ensures { IfOk result (λ path. path ≡ path_of layout (json_in bytes.now) fault.now) }
{
    match *fault {
        CaseFault::Json => Ok(None),
        CaseFault::Field(part) => Ok(path(part, places_in(alloc, layout, part, bytes)?)),
        CaseFault::Kind(i) => Ok(path(Name::Ops, inside(i as usize, inside(0, here())))),
        CaseFault::Enabled(i) => Ok(path(Name::Ops, inside(i as usize, inside(1, here())))),
        CaseFault::Pair(_, j) => Ok(path(Name::Ops, inside(j as usize, here()))),
        CaseFault::Order(i) => Ok(path(Name::Orders, inside(i as usize, here()))),
        CaseFault::Limit(part) => Ok(path(limited_part(layout, part), here())),
    }
}

fn cause_places(cause: EventCause) -> Places
    ensures { result ≡ cause_places cause }
{
    match cause {
        EventCause::Site => inside(1, here()),
        EventCause::Owner | EventCause::Number => inside(2, here()),
        EventCause::Kind => inside(2, inside(0, here())),
        EventCause::Enabled => inside(2, inside(1, here())),
    }
}

/// The path of what is wrong with the event with this number.
pub fn event_path(number: u32, cause: EventCause) -> FaultPath
    ensures { result ≡ event_path_of number cause }
{
    FaultPath {
        part: Name::Events,
        places: inside(number as usize, cause_places(cause)),
    }
}

/// The line and the column at which the value at a path begins, if there is one.
pub fn line_column_of(bytes: &[u8], path: &FaultPath) -> Option<LineColumn>
    ensures { result ≡ line_column_of bytes.now path.now }
{
    let offset = value_offset(bytes, key_of(path.part), path.places)?;
    Some(line_column(bytes, offset))
}
