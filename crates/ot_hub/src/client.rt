//! The clients of a hub.
ghost use Rattle.std.specs.Prelude.{◌≡◌, ◌<◌, ◌+◌, drop, length, OnOk, OnErr, slice_set, replicate, [], IfOk};
ghost use Rattle.ot_model.specs.Effect.{IsEnabled};
ghost use Rattle.fn_rules.specs.Rules.{function_of};
ghost use Rattle.ot_hub.specs.Usable.{CanBeCarried};
ghost use Rattle.ot_hub.specs.declared.limits.TheConstants.{MAX_EDITS};
ghost use Rattle.ot_hub.specs.Clients.{client_at, CanEdit, CanTakeEntry, sent};
ghost use Rattle.ot_hub.specs.Steps.{edited, client_step, step_map, HasStepped};
ghost use Rattle.ot_hub.specs.declared.limits.TheConstants.{MAX_CLIENTS};

use crate::answer::Move;
use crate::carry::{carried, carry_list};
use crate::placed::{Entry, PlacedOp, execute, pushed};
use fn_rules::Rules;
use ot_model::{Doc, NoMemory, Op, enabled};
use plain_list::List;
use std::alloc::Global;

/// A client: its document, how many operations it made and how many entries of the log it received, what
/// it made that did not come back yet, and what is on its way to the server.
#[derive(Drop)]
pub(crate) struct Client {
    pub edits: u32,
    pub received: u32,
    pub pending: List<PlacedOp>,
    pub messages: List<PlacedOp>,
    pub doc: Doc,
}

/// Drops the first of a list, where there is one.
pub(crate) fn drop_first(list: &mut List<PlacedOp>)
    ensures { list.new ≡ drop 1 list.old }
{
    if !list.is_empty() {
        list.remove(0);
    }
}

impl Client {
    /// Makes an operation. A client that was refused memory is as it was.
    pub fn edit(&mut self, rules: &Rules, op: Op) -> Result<(), NoMemory>
        requires enabled { IsEnabled op (length self.old.doc) }
        requires few { self.old.edits < MAX_EDITS }
        ensures ok { OnOk result (self.new ≡ edited (function_of rules.now).head.mode op self.old) }
        ensures err { OnErr result (self.new ≡ self.old) }
    {
        let made = PlacedOp {
            place: self.received,
            op,
        };
        let pending = pushed(&self.pending, made)?;
        let messages = pushed(&self.messages, made)?;
        execute(rules, op, &mut self.doc)?;
        self.pending = pending;
        self.messages = messages;
        self.edits += 1;
        Ok(())
    }

    /// Takes an entry of the log; this client has the number. A client that takes none is as it was.
    pub fn take(
        &mut self,
        alloc: Global,
        rules: &Rules,
        number: u32,
        entry: &Entry,
    ) -> Result<(), Move>
        requires usable { CanBeCarried (function_of rules.now) entry.now.op self.old.pending }
        requires few { self.old.received < MAX_EDITS }
        ensures { HasStepped self.old self.new (client_step (function_of rules.now) number entry.now self.old) result }
    {
        if entry.client == number {
            drop_first(&mut self.pending);
            self.received += 1;
            return Ok(());
        }
        let Some(form) = carried(rules, entry.op, self.pending.as_slice(), 0) else {
            return Err(Move::Stuck);
        };
        if !enabled(&form, self.doc.len()) {
            return Err(Move::Stuck);
        }
        let pending = carry_list(alloc, rules, entry.op, self.pending.as_slice(), 0)?;
        execute(rules, form, &mut self.doc)?;
        self.pending = pending;
        self.received += 1;
        Ok(())
    }
}

/// The client at a place makes an operation.
pub(crate) fn edit_at(
    rules: &Rules,
    clients: &mut [Client],
    place: usize,
    op: Op,
) -> Result<(), NoMemory>
    requires place { place < length clients.old }
    requires client { CanEdit op (client_at clients.old place) }
    ensures ok { OnOk result (clients.new ≡ slice_set clients.old place
        (edited (function_of rules.now).head.mode op (client_at clients.old place))) }
    ensures err { OnErr result (clients.new ≡ clients.old) }
{
    let client = &mut clients[place];
    client.edit(rules, op)
}

/// The client at a place takes an entry of the log. Clients that take none are as they were.
pub(crate) fn take_at(
    alloc: Global,
    rules: &Rules,
    clients: &mut [Client],
    place: usize,
    entry: &Entry,
) -> Result<(), Move>
    requires place { place < length clients.old }
    requires client { CanTakeEntry (function_of rules.now) entry.now.op (client_at clients.old place) }
    requires numbered { place < MAX_CLIENTS }
    ensures { HasStepped clients.old clients.new (step_map (slice_set clients.old place)
        (client_step (function_of rules.now) (place + 1) entry.now (client_at clients.old place))) result }
{
    let client = &mut clients[place];
    client.take(alloc, rules, place as u32 + 1, entry)
}

/// The oldest message of the client at a place was sent.
pub(crate) fn sent_at(clients: &mut [Client], place: usize)
    requires { place < length clients.old }
    ensures { clients.new ≡ slice_set clients.old place (sent (client_at clients.old place)) }
{
    let client = &mut clients[place];
    drop_first(&mut client.messages);
}

// A client that holds the document, and made nothing.
fn fresh_client(alloc: Global, doc: &Doc) -> Result<Client, NoMemory>
    ensures { IfOk result (λ client.
        client ≡ record { edits = 0; received = 0; pending = []; messages = []; doc = doc.now }) }
{
    Ok(Client {
        edits: 0,
        received: 0,
        pending: List::new(alloc),
        messages: List::new(alloc),
        doc: doc.try_clone()?,
    })
}

/// So many clients that hold the document, and made nothing.
pub(crate) fn fresh_clients(alloc: Global, doc: &Doc, count: u32) -> Result<Vec<Client>, NoMemory>
    ensures { IfOk result (λ clients. clients.items ≡ replicate count
        (record { edits = 0; received = 0; pending = []; messages = []; doc = doc.now })) }
{
    let mut clients = Vec::new(alloc);
    while clients.len() < count as usize {
        clients.push(fresh_client(alloc, doc)?)?;
    }
    Ok(clients)
}
