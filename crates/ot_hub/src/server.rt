//! The server of a hub.
ghost use Rattle.std.specs.Prelude.{◌≡◌, ◌<◌, ◌≤◌, ◌∷◌, [], ◌++◌, length, map, replicate, IfOk};
ghost use Rattle.fn_rules.specs.Rules.{function_of};
ghost use Rattle.ot_hub.specs.Usable.{IsUsable, most_hub_cells};
ghost use Rattle.ot_hub.specs.declared.limits.TheConstants.{MAX_EDITS};

use crate::answer::Move;
use crate::carry::{carried, carry_list};
use crate::placed::{Entry, PlacedOp, execute, pushed};
use fn_rules::{Rules, enabled_operations_are_near};
use ot_model::{Doc, NoMemory, Op, enabled};
use plain_list::List;
use std::alloc::Global;

/// The server: its document, the log of what it executed, and for each client the entries by which it
/// transforms what the client sends.
#[derive(Drop)]
pub(crate) struct Server {
    pub log: List<Entry>,
    pub doc: Doc,
    pub ahead: List<List<PlacedOp>>,
}

/// The lists, each with an item more at its end.
fn told(
    alloc: Global,
    lists: &[List<PlacedOp>],
    item: PlacedOp,
) -> Result<List<List<PlacedOp>>, NoMemory>
    ensures { IfOk result (λ longer. longer ≡ map (λ list. list ++ item ∷ []) lists.now) }
{
    let mut longer = List::new(alloc);
    for list in lists {
        longer.push(pushed(list, item)?)?;
    }
    Ok(longer)
}

/// A server that holds the document, with nothing in its log.
pub(crate) fn fresh_server(alloc: Global, doc: &Doc, clients: u32) -> Result<Server, NoMemory>
    ensures { IfOk result (λ server. server ≡ record { log = []; doc = doc.now; ahead = replicate clients [] }) }
{
    let mut ahead = List::new(alloc);
    while ahead.len() < clients as usize {
        ahead.push(List::new(alloc))?;
    }
    Ok(Server {
        log: List::new(alloc),
        doc: doc.try_clone()?,
        ahead,
    })
}

impl Server {
    ghost use Rattle.ot_model.specs.Effect.{IsEnabled};
    ghost use Rattle.ot_hub.specs.Steps.{To, server_step, server_after, HasStepped};
    ghost use Rattle.ot_hub.specs.Kept.{IsServerKept};

    /// Takes a message of a client. A server that takes none is as it was.
    pub fn take(
        &mut self,
        alloc: Global,
        rules: &Rules,
        client: u32,
        message: &PlacedOp,
    ) -> Result<(), Move>
        requires kept { IsServerKept (function_of rules.now) self.old }
        requires few { length self.old.log < MAX_EDITS }
        requires low { 1 ≤ client }
        requires high { client ≤ length self.old.ahead }
        requires usable { IsUsable (function_of rules.now) most_hub_cells message.now.op }
        ensures { HasStepped self.old self.new (server_step (function_of rules.now) client message.now self.old)
            result }
    {
        enabled_operations_are_near();
        let ahead = self.ahead[client as usize - 1].as_slice();
        let Some(form) = carried(rules, message.op, ahead, message.place) else {
            return Err(Move::Stuck);
        };
        if !enabled(&form, self.doc.len()) {
            return Err(Move::Stuck);
        }
        let own = carry_list(alloc, rules, message.op, ahead, message.place)?;
        self.take_carried(alloc, rules, client, form, own)
    }

    /// Takes what a client's message became: executes it, puts it at the end of the log, and tells it to the other
    /// clients. What it was carried over becomes `own`. A server without memory is as it was.
    fn take_carried(
        &mut self,
        alloc: Global,
        rules: &Rules,
        client: u32,
        form: Op,
        own: List<PlacedOp>,
    ) -> Result<(), Move>
        requires few { length self.old.log < MAX_EDITS }
        requires low { 1 ≤ client }
        requires high { client ≤ length self.old.ahead }
        requires enabled { IsEnabled form (length self.old.doc) }
        ensures { HasStepped self.old self.new (To (server_after (function_of rules.now).head.mode client
            (record { op = form; list = own }) self.old)) result }
    {
        let place = self.log.len() as u32;
        let mut lists = told(alloc, self.ahead.as_slice(), PlacedOp { place, op: form })?;
        lists.set(client as usize - 1, own);
        let log = pushed(&self.log, Entry { client, op: form })?;
        execute(rules, form, &mut self.doc)?;
        self.log = log;
        self.ahead = lists;
        Ok(())
    }
}
