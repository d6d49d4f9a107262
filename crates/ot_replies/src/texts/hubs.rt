//! The lines of hubs.
ghost use Rattle.std.specs.Prelude.{◌≡◌, ◌++◌, [], OnOk};
ghost use Rattle.ot_replies.specs.HubTexts.{client_line, client_lines, hub_text, server_line, verdict_line};

use super::appending::{append_bytes, append_text};
use super::documents::write_document_line;
use crate::reply::{ClientEnd, HubEnd};
use ot_model::NoMemory;
use std::alloc::Global;

fn write_server(alloc: Global, end: &HubEnd, out: &mut Vec<u8>) -> Result<(), NoMemory>
    requires { out.old.items ≡ [] }
    ensures { OnOk result (out.new.items ≡ server_line end.now) }
{
    let logged = end.logged;
    write_document_line(format!(in alloc; "server {logged} ")?, &end.doc, out)
}

fn write_client(
    alloc: Global,
    number: usize,
    end: &ClientEnd,
    out: &mut Vec<u8>,
) -> Result<(), NoMemory>
    ensures { OnOk result (out.new.items ≡ out.old.items ++ client_line number end.now) }
{
    let received = end.received;
    let pending = end.pending;
    write_document_line(
        format!(in alloc; "client {number} {received} {pending} ")?,
        &end.doc,
        out,
    )
}

fn write_clients(alloc: Global, ends: &[ClientEnd], out: &mut Vec<u8>) -> Result<(), NoMemory>
    ensures { OnOk result (out.new.items ≡ out.old.items ++ client_lines 1 ends.now) }
{
    for (place, end) in ends.iter().enumerate() {
        write_client(alloc, place + 1, end, out)?;
    }
    Ok(())
}

fn write_verdict(alloc: Global, differ: Option<u32>, out: &mut Vec<u8>) -> Result<(), NoMemory>
    ensures { OnOk result (out.new.items ≡ out.old.items ++ verdict_line differ) }
{
    match differ {
        None => append_bytes(b"same\n", out),
        Some(client) => append_text(format!(in alloc; "differ {client}\n")?, out),
    }
}

/// Writes a line for the server, a line for each client, and whether a client differs from the server.
pub(crate) fn write_hub(alloc: Global, end: &HubEnd, out: &mut Vec<u8>) -> Result<(), NoMemory>
    requires { out.old.items ≡ [] }
    ensures { OnOk result (out.new.items ≡ hub_text end.now) }
{
    write_server(alloc, end, out)?;
    write_clients(alloc, end.clients.as_slice(), out)?;
    write_verdict(alloc, end.differ, out)
}
