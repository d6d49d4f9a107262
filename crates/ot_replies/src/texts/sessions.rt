//! The lines of sessions.
ghost use Rattle.std.specs.Prelude.{◌≡◌, ◌++◌, [], OnOk};
ghost use Rattle.ot_replies.specs.SessionTexts.{event_fault_text, event_fault_word, last_line, site_line, site_lines};
ghost use Rattle.ot_replies.specs.SessionTexts.{sites_text, stuck_text};

use super::appending::{append_bytes, append_text};
use super::documents::write_document_line;
use super::lines::{write_cause_line, write_number_line};
use crate::reply::EventFault;
use ot_model::NoMemory;
use ot_session::SiteEnd;
use std::alloc::Global;

fn event_fault_word(fault: EventFault) -> &'static str
    ensures { result.now ≡ event_fault_word fault }
{
    match fault {
        EventFault::Site => "site",
        EventFault::Owner => "owner",
        EventFault::Kind => "kind",
        EventFault::Enabled => "enabled",
        EventFault::Number => "number",
    }
}

/// Writes the line of an event that is refused.
pub(crate) fn write_event_fault(
    alloc: Global,
    number: u32,
    fault: EventFault,
    out: &mut Vec<u8>,
) -> Result<(), NoMemory>
    requires { out.old.items ≡ [] }
    ensures { OnOk result (out.new.items ≡ event_fault_text number fault) }
{
    write_cause_line(
        alloc,
        "case event",
        number as u64,
        event_fault_word(fault),
        out,
    )
}

/// Writes the line of an event at which a site is stuck.
pub(crate) fn write_stuck(alloc: Global, number: u32, out: &mut Vec<u8>) -> Result<(), NoMemory>
    requires { out.old.items ≡ [] }
    ensures { OnOk result (out.new.items ≡ stuck_text number) }
{
    write_number_line(alloc, "stuck event", number as u64, out)
}

fn write_site(
    alloc: Global,
    number: usize,
    end: &SiteEnd,
    out: &mut Vec<u8>,
) -> Result<(), NoMemory>
    ensures { OnOk result (out.new.items ≡ out.old.items ++ site_line number end.now) }
{
    let count = end.seen.len();
    write_document_line(format!(in alloc; "site {number} {count} ")?, &end.doc, out)
}

fn write_ends(alloc: Global, ends: &[SiteEnd], out: &mut Vec<u8>) -> Result<(), NoMemory>
    requires { out.old.items ≡ [] }
    ensures { OnOk result (out.new.items ≡ site_lines 1 ends.now) }
{
    for (place, end) in ends.iter().enumerate() {
        write_site(alloc, place + 1, end, out)?;
    }
    Ok(())
}

/// Writes whether two sites differ.
pub(crate) fn write_last(
    alloc: Global,
    differ: Option<(u32, u32)>,
    out: &mut Vec<u8>,
) -> Result<(), NoMemory>
    ensures { OnOk result (out.new.items ≡ out.old.items ++ last_line differ) }
{
    match differ {
        None => append_bytes(b"same\n", out),
        Some((one, other)) => append_text(format!(in alloc; "differ {one} {other}\n")?, out),
    }
}

/// Writes a line for each site, and whether two that have integrated the same differ.
pub(crate) fn write_sites(
    alloc: Global,
    ends: &[SiteEnd],
    differ: Option<(u32, u32)>,
    out: &mut Vec<u8>,
) -> Result<(), NoMemory>
    requires { out.old.items ≡ [] }
    ensures { OnOk result (out.new.items ≡ sites_text ends.now differ) }
{
    write_ends(alloc, ends, out)?;
    write_last(alloc, differ, out)
}
