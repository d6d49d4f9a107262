//! A hub, event by event.
ghost use Rattle.std.specs.Prelude.{◌≡◌, ◌≢◌, ◌≤◌, ◌++◌, true, nat_eq, if◌then◌else◌, codes, length, IfOk, OnOk};
ghost use Rattle.std.specs.List.{All, flat_map};
ghost use Rattle.fn_rules.specs.Rules.{function_of};
ghost use Rattle.case_json.specs.Hubs.{IsHubPlayable};
ghost use Rattle.case_json.specs.declared.hub.HubEvent.TheVariants as events;
ghost use Rattle.case_json.specs.declared.limits.TheConstants.{MAX_EVENTS};
ghost use Rattle.ot_hub.specs.Crossings.{CanBothMove};
ghost use Rattle.ot_hub.specs.declared.answer.Edit.TheVariants as edits;
ghost use Rattle.ot_hub.specs.Views.{hub_view_of};
ghost use Rattle.fn_rules.specs.Transformation.{transform_of};
ghost use Rattle.ot_trace.specs.Columns.{columns, two_columns};
ghost use Rattle.ot_steps.specs.StepTexts.{short_op};
ghost use Rattle.ot_trace.specs.HubTexts.{client_event, server_event};
ghost use Rattle.ot_trace.specs.HubTexts.{back_line, crossing_lines, done_text, edit_text, entry_line, entry_op};
ghost use Rattle.ot_trace.specs.HubTexts.{form_after, from_client, message_line, message_op, IsHubEventTold};
ghost use Rattle.ot_trace.specs.HubTexts.{TracesHub, TracesHubScript};

use crate::columns::{write_columns, write_two_columns};
use crate::lines::{choice_bytes, form_bytes, op_bytes, write_done, write_step};
use case_json::{HubEvent, HubScript};
use fn_rules::Rules;
use ot_hub::{Crossing, Edit, Entry, Hub, Move, PlacedOp};
use ot_model::{Doc, NoMemory, Op};
use ot_ways::{Step, step};
use std::alloc::Global;

fn write_back(alloc: Global, rules: &Rules, step: &Step, out: &mut Vec<u8>) -> Result<(), NoMemory>
    ensures { OnOk result (out.new.items ≡ out.old.items ++ back_line (function_of rules.now) step.now) }
{
    let form = form_bytes(alloc, &step.result)?;
    let case = choice_bytes(alloc, rules, step)?;
    write_columns(b"    which becomes", &form, &case, out)
}

// Two operations that cross. Answers what the one that is carried becomes.
fn write_crossing(
    alloc: Global,
    rules: &Rules,
    crossing: &Crossing,
    out: &mut Vec<u8>,
) -> Result<Option<Op>, NoMemory>
    requires { CanBothMove (function_of rules.now) crossing.now }
    ensures text { IfOk result (λ form.
        out.new.items ≡ out.old.items ++ crossing_lines (function_of rules.now) crossing.now) }
    ensures form { IfOk result (λ form.
        form ≡ transform_of (function_of rules.now) crossing.now.own crossing.now.other) }
{
    let there = step(rules, &crossing.own, &crossing.other);
    let back = step(rules, &crossing.other, &crossing.own);
    write_step(alloc, rules, &there, out)?;
    write_back(alloc, rules, &back, out)?;
    Ok(there.result)
}

// Operations that cross, one after the other. Answers what the one that is carried has become.
fn write_crossings(
    alloc: Global,
    rules: &Rules,
    op: Option<Op>,
    crossings: &[Crossing],
    out: &mut Vec<u8>,
) -> Result<Option<Op>, NoMemory>
    requires { All (CanBothMove (function_of rules.now)) crossings.now }
    ensures text { IfOk result (λ form.
        out.new.items ≡ out.old.items ++ flat_map (crossing_lines (function_of rules.now)) crossings.now) }
    ensures form { IfOk result (λ form. form ≡ form_after (function_of rules.now) op crossings.now) }
{
    let mut form = op;
    for crossing in crossings {
        form = write_crossing(alloc, rules, crossing, out)?;
    }
    Ok(form)
}

fn write_executed(
    alloc: Global,
    form: Option<Op>,
    doc: &Doc,
    out: &mut Vec<u8>,
) -> Result<(), NoMemory>
    ensures { OnOk result (out.new.items ≡ out.old.items ++ done_text form doc.now) }
{
    match form {
        None => Ok(()),
        Some(op) => write_done(alloc, &op, doc, out),
    }
}

// The line of an operation that a client makes.
fn write_made(
    alloc: Global,
    number: u32,
    client: u32,
    op: &Op,
    out: &mut Vec<u8>,
) -> Result<(), NoMemory>
    ensures { OnOk result (out.new.items
        ≡ out.old.items ++ two_columns (client_event number client) (short_op op.now)) }
{
    let name = format!(in alloc; "event {number} client {client}")?;
    let text = op_bytes(alloc, "", op)?;
    write_two_columns(name.as_bytes(), &text, out)
}

fn write_edit(
    alloc: Global,
    number: u32,
    client: u32,
    op: &Op,
    doc: &Doc,
    out: &mut Vec<u8>,
) -> Result<(), NoMemory>
    ensures { OnOk result (out.new.items ≡ out.old.items ++ edit_text number client op.now doc.now) }
{
    write_made(alloc, number, client, op, out)?;
    write_done(alloc, op, doc, out)
}

// The line of what the server is to take of a client.
fn write_server_line(
    alloc: Global,
    number: u32,
    client: u32,
    text: &[u8],
    out: &mut Vec<u8>,
) -> Result<(), NoMemory>
    ensures { OnOk result (out.new.items
        ≡ out.old.items ++ columns (server_event number) text.now (from_client client)) }
{
    let name = format!(in alloc; "event {number} server")?;
    let whose = format!(in alloc; "from client {client}")?;
    write_columns(name.as_bytes(), text, whose.as_bytes(), out)
}

// The line of what a client is to take.
fn write_client_line(
    alloc: Global,
    number: u32,
    client: u32,
    text: &[u8],
    last: &[u8],
    out: &mut Vec<u8>,
) -> Result<(), NoMemory>
    ensures { OnOk result (out.new.items
        ≡ out.old.items ++ columns (client_event number client) text.now last.now) }
{
    let name = format!(in alloc; "event {number} client {client}")?;
    write_columns(name.as_bytes(), text, last, out)
}

fn write_message(
    alloc: Global,
    number: u32,
    client: u32,
    message: &Option<PlacedOp>,
    out: &mut Vec<u8>,
) -> Result<(), NoMemory>
    ensures { OnOk result (out.new.items ≡ out.old.items ++ message_line number client message.now) }
{
    match message {
        None => write_server_line(alloc, number, client, b"nothing", out),
        Some(message) => {
            let text = op_bytes(alloc, "", &message.op)?;
            write_server_line(alloc, number, client, &text, out)
        }
    }
}

// Whose entry it is.
fn whose(alloc: Global, client: u32, entry: &Entry) -> Result<Vec<u8>, NoMemory>
    ensures { IfOk result (λ text. text.items
        ≡ (if nat_eq entry.now.client client then codes "own" else from_client entry.now.client)) }
{
    if entry.client == client {
        return Ok(Vec::from_slice(alloc, b"own")?);
    }
    let other = entry.client;
    Ok(format!(in alloc; "from client {other}")?.into_bytes())
}

// There is nothing that a client is to take.
fn write_nothing(alloc: Global, number: u32, client: u32, out: &mut Vec<u8>) -> Result<(), NoMemory>
    ensures { OnOk result (out.new.items
        ≡ out.old.items ++ two_columns (client_event number client) (codes "nothing")) }
{
    let name = format!(in alloc; "event {number} client {client}")?;
    write_two_columns(name.as_bytes(), b"nothing", out)
}

fn write_entry(
    alloc: Global,
    number: u32,
    client: u32,
    entry: &Option<Entry>,
    out: &mut Vec<u8>,
) -> Result<(), NoMemory>
    ensures { OnOk result (out.new.items ≡ out.old.items ++ entry_line number client entry.now) }
{
    match entry {
        None => write_nothing(alloc, number, client, out),
        Some(entry) => {
            let text = op_bytes(alloc, "", &entry.op)?;
            let whose = whose(alloc, client, entry)?;
            write_client_line(alloc, number, client, &text, &whose, out)
        }
    }
}

// The operation of an entry that is another client's.
fn entry_op(client: u32, entry: &Option<Entry>) -> Option<Op>
    ensures { result ≡ entry_op client entry.now }
{
    match entry {
        Some(entry) if entry.client != client => Some(entry.op),
        _ => None,
    }
}

// The operation of a message.
fn message_op(message: &Option<PlacedOp>) -> Option<Op>
    ensures { result ≡ message_op message.now }
{
    match message {
        Some(message) => Some(message.op),
        None => None,
    }
}

// An operation is not made; want of memory is passed on.
fn not_edited(why: Edit) -> Result<(), NoMemory>
    ensures { OnOk result (why ≢ edits.NoMemory) }
{
    match why {
        Edit::NoMemory => Err(NoMemory),
        Edit::NoSite | Edit::WrongSite | Edit::WrongKind | Edit::NotEnabled | Edit::Full => Ok(()),
    }
}

// A client makes an operation.
fn edit(
    alloc: Global,
    hub: &mut Hub,
    number: u32,
    client: u32,
    op: Op,
    out: &mut Vec<u8>,
) -> Result<bool, NoMemory>
    requires { (hub_view_of hub.old).is_open ≡ true }
    ensures { IfOk result (λ went. IsHubEventTold (hub_view_of hub.old) number (events.Edit client op)
        (hub_view_of hub.new) went out.old.items out.new.items) }
{
    match hub.edit(client, op) {
        Ok(()) => {
            write_edit(alloc, number, client, &op, hub.client(client), out)?;
            Ok(true)
        }
        Err(why) => {
            not_edited(why)?;
            Ok(false)
        }
    }
}

// The server takes the oldest message of a client.
fn up(
    alloc: Global,
    rules: &Rules,
    hub: &mut Hub,
    number: u32,
    client: u32,
    out: &mut Vec<u8>,
) -> Result<bool, NoMemory>
    requires is_open { (hub_view_of hub.old).is_open ≡ true }
    requires function { (hub_view_of hub.old).function ≡ function_of rules.now }
    ensures { IfOk result (λ went. IsHubEventTold (hub_view_of hub.old) number (events.Up client)
        (hub_view_of hub.new) went out.old.items out.new.items) }
{
    if !hub.has_client(client) {
        return Ok(false);
    }
    let message = hub.message(client);
    let crossings = hub.up_crossings(client)?;
    write_message(alloc, number, client, &message, out)?;
    let form = write_crossings(
        alloc,
        rules,
        message_op(&message),
        crossings.as_slice(),
        out,
    )?;
    match hub.up(client) {
        Ok(_) => {
            write_executed(alloc, form, hub.server(), out)?;
            Ok(true)
        }
        Err(Move::Stuck) => Ok(false),
        Err(Move::NoSite) => unreachable!(),
        Err(Move::NoMemory) => Err(NoMemory),
    }
}

// A client takes the next entry of the log.
fn down(
    alloc: Global,
    rules: &Rules,
    hub: &mut Hub,
    number: u32,
    client: u32,
    out: &mut Vec<u8>,
) -> Result<bool, NoMemory>
    requires is_open { (hub_view_of hub.old).is_open ≡ true }
    requires function { (hub_view_of hub.old).function ≡ function_of rules.now }
    ensures { IfOk result (λ went. IsHubEventTold (hub_view_of hub.old) number (events.Down client)
        (hub_view_of hub.new) went out.old.items out.new.items) }
{
    if !hub.has_client(client) {
        return Ok(false);
    }
    let entry = hub.next_entry(client);
    let crossings = hub.down_crossings(client)?;
    write_entry(alloc, number, client, &entry, out)?;
    let form = write_crossings(
        alloc,
        rules,
        entry_op(client, &entry),
        crossings.as_slice(),
        out,
    )?;
    match hub.down(client) {
        Ok(_) => {
            write_executed(alloc, form, hub.client(client), out)?;
            Ok(true)
        }
        Err(Move::Stuck) => Ok(false),
        Err(Move::NoSite) => unreachable!(),
        Err(Move::NoMemory) => Err(NoMemory),
    }
}

// Runs an event, of which this is the number, and tells of it. Answers whether it was done.
fn run_event(
    alloc: Global,
    rules: &Rules,
    hub: &mut Hub,
    number: u32,
    event: HubEvent,
    out: &mut Vec<u8>,
) -> Result<bool, NoMemory>
    requires is_open { (hub_view_of hub.old).is_open ≡ true }
    requires function { (hub_view_of hub.old).function ≡ function_of rules.now }
    ensures { IfOk result (λ went. IsHubEventTold (hub_view_of hub.old) number event (hub_view_of hub.new) went
        out.old.items out.new.items) }
{
    match event {
        HubEvent::Edit { client, op } => edit(alloc, hub, number, client, op, out),
        HubEvent::Up { client } => up(alloc, rules, hub, number, client, out),
        HubEvent::Down { client } => down(alloc, rules, hub, number, client, out),
    }
}

// Runs events up to the first that is refused, and tells of them.
fn run_events(
    alloc: Global,
    rules: &Rules,
    hub: &mut Hub,
    events: &[HubEvent],
    out: &mut Vec<u8>,
) -> Result<(), NoMemory>
    requires is_open { (hub_view_of hub.old).is_open ≡ true }
    requires function { (hub_view_of hub.old).function ≡ function_of rules.now }
    requires few { length events.now ≤ MAX_EVENTS }
    ensures { OnOk result (TracesHub (hub_view_of hub.old) 0 events.now out.old.items out.new.items) }
{
    for (number, event) in events.iter().enumerate() {
        if !run_event(alloc, rules, hub, number as u32, *event, out)? {
            return Ok(());
        }
    }
    Ok(())
}

/// Writes what happens in a hub, event by event: what is made, sent and received, what it is carried over, with the case
/// that is taken of each transformation, and the document after it.
pub fn trace_hub(
    alloc: Global,
    rules: &Rules,
    script: &HubScript,
    out: &mut Vec<u8>,
) -> Result<(), NoMemory>
    requires { IsHubPlayable script.now }
    ensures { OnOk result (TracesHubScript (function_of rules.now) script.now out.old.items out.new.items) }
{
    let mut hub = Hub::new(alloc, rules, &script.doc, script.clients)?;
    run_events(alloc, rules, &mut hub, script.events.as_slice(), out)
}
