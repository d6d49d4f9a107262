//! The lines that say where a fault is.
ghost use Rattle.std.specs.Prelude.{◌≡◌, ◌++◌, ◌∷◌, [], OnOk};
ghost use Rattle.case_json.specs.PathTexts as texts;

use crate::finding::key_of;
use crate::path::{EventCause, FaultPath};
use crate::{CaseFault, Name, NoMemory};
use json_places::{LineColumn, Places};
use std::alloc::Global;

fn append(bytes: &[u8], out: &mut Vec<u8>) -> Result<(), NoMemory>
    ensures { OnOk result (out.new.items ≡ out.old.items ++ bytes.now) }
{
    out.extend_from_slice(bytes)
}

fn write_place(alloc: Global, place: usize, out: &mut Vec<u8>) -> Result<(), NoMemory>
    ensures { OnOk result (out.new.items ≡ out.old.items ++ texts.place_text place) }
{
    append(format!(in alloc; "[{place}]")?.as_bytes(), out)
}

fn write_some_place(alloc: Global, place: Option<usize>, out: &mut Vec<u8>) -> Result<(), NoMemory>
    ensures { OnOk result (out.new.items ≡ out.old.items ++ texts.some_place_text place) }
{
    match place {
        None => Ok(()),
        Some(place) => write_place(alloc, place, out),
    }
}

fn write_places(alloc: Global, places: Places, out: &mut Vec<u8>) -> Result<(), NoMemory>
    ensures { OnOk result (out.new.items ≡ out.old.items ++ texts.places_text places) }
{
    write_some_place(alloc, places.first, out)?;
    write_some_place(alloc, places.second, out)?;
    write_some_place(alloc, places.third, out)
}

fn write_path(alloc: Global, path: FaultPath, out: &mut Vec<u8>) -> Result<(), NoMemory>
    ensures { OnOk result (out.new.items ≡ out.old.items ++ texts.path_text path) }
{
    append(key_of(path.part).as_bytes(), out)?;
    write_places(alloc, path.places, out)
}

fn write_line_column(alloc: Global, at: LineColumn, out: &mut Vec<u8>) -> Result<(), NoMemory>
    ensures { OnOk result (out.new.items ≡ out.old.items ++ texts.line_column_text at) }
{
    let line = at.line;
    let column = at.column;
    append(
        format!(in alloc; "line {line}, column {column}")?.as_bytes(),
        out,
    )
}

// Where a fault is.
fn write_at(
    alloc: Global,
    path: FaultPath,
    at: Option<LineColumn>,
    out: &mut Vec<u8>,
) -> Result<(), NoMemory>
    ensures { OnOk result (out.new.items ≡ out.old.items ++ texts.at_line path at) }
{
    append(b"at ", out)?;
    write_path(alloc, path, out)?;
    if let Some(at) = at {
        append(b", ", out)?;
        write_line_column(alloc, at, out)?;
    }
    append(b"\n", out)
}

fn wanted(part: Name) -> &'static str
    ensures { result.now ≡ texts.wanted_text part }
{
    match part {
        Name::Doc =>
            "`doc` is a string: each `~` stands before a cell, each backslash before a backslash, `~`, `n` or `r`.",
        Name::Ops =>
            "`ops` is an array of operations: [\"ins\", AT, CH, SITE], [\"del\", AT, SITE] or [\"upd\", AT, CH, SITE].",
        Name::Orders => "`orders` is an array of orders, each an array of whole numbers.",
        Name::Sites => "`sites` is a whole number of at least 1.",
        Name::Events => "`events` is an array of events.",
        Name::Cells => "`doc` is a string.",
    }
}

fn limit(part: Name) -> &'static str
    ensures { result.now ≡ texts.limit_text part }
{
    match part {
        Name::Doc => "The document has too many cells.",
        Name::Ops => "There are too many operations.",
        Name::Orders => "There are more than 16 orders.",
        Name::Sites => "There are more than 16 sites.",
        Name::Events => "There are more than 65536 events.",
        Name::Cells => "The document has more than 1000000 cells.",
    }
}

fn write_pair(alloc: Global, place: u32, out: &mut Vec<u8>) -> Result<(), NoMemory>
    ensures { OnOk result (out.new.items ≡ out.old.items ++ texts.pair_sentence place) }
{
    append(b"This operation may not be with ops", out)?;
    write_place(alloc, place as usize, out)?;
    append(b": they agree in what the function assumes to differ.", out)
}

fn write_sentence(alloc: Global, fault: &CaseFault, out: &mut Vec<u8>) -> Result<(), NoMemory>
    ensures { OnOk result (out.new.items ≡ out.old.items ++ texts.sentence fault.now) }
{
    match *fault {
        CaseFault::Json => append(b"The file is not UTF-8, or no JSON.", out),
        CaseFault::Field(part) => append(wanted(part).as_bytes(), out),
        CaseFault::Kind(_) => append(b"The function declares no operations of this kind.", out),
        CaseFault::Enabled(_) => append(
            b"The document has no such position for this operation.",
            out,
        ),
        CaseFault::Pair(i, _) => write_pair(alloc, i, out),
        CaseFault::Order(_) => append(b"The order does not name each operation exactly once.", out),
        CaseFault::Limit(part) => append(limit(part).as_bytes(), out),
    }
}

/// Writes where a fault is, if it has a path, and its cause.
pub fn write_fault(
    alloc: Global,
    path: Option<FaultPath>,
    at: Option<LineColumn>,
    fault: &CaseFault,
    out: &mut Vec<u8>,
) -> Result<(), NoMemory>
    ensures { OnOk result (out.new.items ≡ out.old.items ++ texts.fault_lines path at fault.now) }
{
    if let Some(path) = path {
        write_at(alloc, path, at, out)?;
    }
    write_sentence(alloc, fault, out)?;
    append(b"\n", out)
}

fn cause_sentence(cause: EventCause) -> &'static str
    ensures { result.now ≡ texts.cause_sentence cause }
{
    match cause {
        EventCause::Site => "There is no site, or no client, with this number.",
        EventCause::Owner => "The operation names another site than the event.",
        EventCause::Kind => "The function declares no operations of this kind.",
        EventCause::Enabled => "The document has no such position for this operation.",
        EventCause::Number => "No operation with this number was made yet.",
    }
}

/// Writes where what is wrong with an event is, and its cause.
pub fn write_cause(
    alloc: Global,
    path: FaultPath,
    at: Option<LineColumn>,
    cause: EventCause,
    out: &mut Vec<u8>,
) -> Result<(), NoMemory>
    ensures { OnOk result (out.new.items ≡ out.old.items ++ texts.cause_lines path at cause) }
{
    write_at(alloc, path, at, out)?;
    append(cause_sentence(cause).as_bytes(), out)?;
    append(b"\n", out)
}
