//! The hub.
ghost use Rattle.std.specs.Prelude.{◌≡◌, ◌≢◌, ◌≤◌, length, IfOk, IsTrue, ◌↔◌, true, false, Err};
ghost use Rattle.std.specs.Prelude.{slice_get};
ghost use Rattle.std.specs.List.{All};
ghost use Rattle.ot_model.specs.declared.limits.TheConstants.{MAX_CELLS};
ghost use Rattle.fn_rules.specs.Rules.{function_of};
ghost use Rattle.fn_rules.specs.Properties.{HasTp1};
ghost use Rattle.ot_hub.specs.Chains.{document_after_all};
ghost use Rattle.ot_hub.specs.InStep.{AreInStep, AreCountedEdits, operations};
ghost use Rattle.ot_hub.specs.Kept.{IsHubKept};
ghost use Rattle.ot_hub.specs.declared.limits.TheConstants.{MAX_CLIENTS};

use crate::answer::{Edit, Move, Moved};
use crate::client::{Client, edit_at, fresh_clients, sent_at, take_at};
use crate::crossing::{Crossing, crossings};
use crate::limits::MAX_EDITS;
use crate::placed::{Entry, PlacedOp, entry_at, first_of, has_declared_kind, is_made_at};
use crate::server::{Server, fresh_server};
use fn_rules::{
    Rules, enabled_operations_are_near, functions_keep_forms, rules_are_valid, tp1_holds_of_forms,
    transform_keeps_all_but_the_position, transform_stays_near,
};
use ot_model::{Doc, NoMemory, Op, documents_grow_by_one_cell_at_most, enabled};
use plain_list::List;
use std::alloc::Global;

/// A server and its clients.
#[derive(Drop)]
pub struct Hub {
    rules: Rules,
    first: Doc,
    server: Server,
    clients: Vec<Client>,
    made: u32,
    is_open: bool,
    ghost small: { length first ≤ MAX_CELLS },
    ghost kept: { IsHubKept (function_of rules) made server clients.items },
    ghost followed: { server.doc ≡ document_after_all (function_of rules).head.mode (operations server.log) first },
    ghost counted: { AreCountedEdits server.log clients.items },
    ghost in_step: { HasTp1 (function_of rules) → (function_of rules).head.chars_differ ≡ false
        → ∥ AreInStep (function_of rules) first server clients.items ∥₁ },
}

impl Hub {
    ghost use Rattle.ot_hub.specs.declared.answer.Move.TheVariants as moves;
    ghost use Rattle.ot_hub.specs.Crossings.{CanBothMove, down_crossings, up_crossings};
    ghost use Rattle.ot_hub.specs.Theorem.{FollowsLog, ServerFollowsLog};
    ghost use Rattle.ot_hub.specs.Views.{hub_view_of, IsClient, begun_hub, client_of, HasEdited, up_step, down_step};
    ghost use Rattle.ot_hub.specs.Views.{HasMoved};

    /// A new hub with this function, in which the server and so many clients hold the document. Clients are
    /// numbered from 1.
    pub fn new(alloc: Global, rules: &Rules, doc: &Doc, clients: u32) -> Result<Hub, NoMemory>
        requires clients { (1 ≤ clients) × (clients ≤ MAX_CLIENTS) }
        requires cells { length doc.now ≤ MAX_CELLS }
        ensures { IfOk result (λ hub. hub_view_of hub ≡ begun_hub (function_of rules.now) doc.now clients) }
    {
        Ok(Hub {
            rules: rules.try_clone()?,
            first: doc.try_clone()?,
            server: fresh_server(alloc, doc, clients)?,
            clients: fresh_clients(alloc, doc, clients)?,
            made: 0,
            is_open: true,
        })
    }

    /// Whether operations can be made and moved: no call was stuck, or wanted memory.
    pub fn is_open(&self) -> bool
        ensures { result ≡ (hub_view_of self.now).is_open }
    {
        self.is_open
    }

    /// The server's document.
    pub fn server(&self) -> &Doc
        ensures { result.now ≡ (hub_view_of self.now).server.doc }
    {
        &self.server.doc
    }

    /// How many entries the log has.
    pub fn logged(&self) -> u32
        ensures { result ≡ length (hub_view_of self.now).server.log }
    {
        self.server.log.len() as u32
    }

    // A client.
    fn at(&self, client: u32) -> &Client
        requires { IsClient (length (hub_view_of self.now).clients) client }
        ensures { result.now ≡ client_of (hub_view_of self.now) client }
    {
        &self.clients[client as usize - 1]
    }

    /// A client's document.
    pub fn client(&self, client: u32) -> &Doc
        requires { IsClient (length (hub_view_of self.now).clients) client }
        ensures { result.now ≡ (client_of (hub_view_of self.now) client).doc }
    {
        &self.at(client).doc
    }

    /// How many entries of the log a client received.
    pub fn received(&self, client: u32) -> u32
        requires { IsClient (length (hub_view_of self.now).clients) client }
        ensures { result ≡ (client_of (hub_view_of self.now) client).received }
    {
        self.at(client).received
    }

    /// How many operations of a client did not come back to it yet.
    pub fn pending(&self, client: u32) -> u32
        requires { IsClient (length (hub_view_of self.now).clients) client }
        ensures { result ≡ length (client_of (hub_view_of self.now) client).pending }
    {
        self.at(client).pending.len() as u32
    }

    /// The oldest message of a client, if there is one.
    pub fn message(&self, client: u32) -> Option<PlacedOp>
        requires { IsClient (length (hub_view_of self.now).clients) client }
        ensures { result ≡ slice_get (client_of (hub_view_of self.now) client).messages 0 }
    {
        first_of(&self.at(client).messages)
    }

    /// The next entry of the log for a client, if there is one.
    pub fn next_entry(&self, client: u32) -> Option<Entry>
        requires { IsClient (length (hub_view_of self.now).clients) client }
        ensures { result ≡ slice_get (hub_view_of self.now).server.log
            (client_of (hub_view_of self.now) client).received }
    {
        entry_at(&self.server.log, self.at(client).received)
    }

    /// The pairs that cross where the server takes the oldest message of a client.
    pub fn up_crossings(&self, client: u32) -> Result<List<Crossing>, NoMemory>
        requires { IsClient (length (hub_view_of self.now).clients) client }
        ensures crossings { IfOk result (λ found. found ≡ up_crossings (hub_view_of self.now) client) }
        ensures usable { IfOk result (All (CanBothMove (hub_view_of self.now).function)) }
    {
        let alloc = *self.clients.allocator();
        let Some(message) = self.message(client) else {
            return Ok(List::new(alloc));
        };
        enabled_operations_are_near();
        let ahead = self.server.ahead[client as usize - 1].as_slice();
        Ok(crossings(alloc, &self.rules, message.op, ahead, message.place)?)
    }

    /// The pairs that cross where a client takes the next entry of the log.
    pub fn down_crossings(&self, client: u32) -> Result<List<Crossing>, NoMemory>
        requires { IsClient (length (hub_view_of self.now).clients) client }
        ensures crossings { IfOk result (λ found. found ≡ down_crossings (hub_view_of self.now) client) }
        ensures usable { IfOk result (All (CanBothMove (hub_view_of self.now).function)) }
    {
        let alloc = *self.clients.allocator();
        let Some(entry) = self.next_entry(client) else {
            return Ok(List::new(alloc));
        };
        if entry.client == client {
            return Ok(List::new(alloc));
        }
        enabled_operations_are_near();
        let pending = self.at(client).pending.as_slice();
        Ok(crossings(alloc, &self.rules, entry.op, pending, 0)?)
    }

    /// A client makes an operation, which it executes at once; it is pending and on its way to the server.
    pub fn edit(&mut self, client: u32, op: Op) -> Result<(), Edit>
        requires { (hub_view_of self.old).is_open ≡ true }
        ensures edited { HasEdited (hub_view_of self.old) (hub_view_of self.new) client op result }
        ensures server { (hub_view_of self.new).server ≡ (hub_view_of self.old).server }
    {
        if !self.has_client(client) {
            return Err(Edit::NoSite);
        }
        if !is_made_at(client, &op) {
            return Err(Edit::WrongSite);
        }
        if !has_declared_kind(&self.rules, &op) {
            return Err(Edit::WrongKind);
        }
        if !enabled(&op, self.client(client).len()) {
            return Err(Edit::NotEnabled);
        }
        if self.made as usize == MAX_EDITS {
            return Err(Edit::Full);
        }
        enabled_operations_are_near();
        functions_keep_forms();
        tp1_holds_of_forms();
        transform_keeps_all_but_the_position();
        documents_grow_by_one_cell_at_most();
        let place = client as usize - 1;
        match edit_at(&self.rules, &mut self.clients, place, op) {
            Ok(()) => {
                self.made += 1;
                Ok(())
            }
            Err(NoMemory) => {
                self.is_open = false;
                Err(Edit::NoMemory)
            }
        }
    }

    /// The server takes the oldest message of a client: it carries the operation over the entries that the
    /// client had not received when it made it, and puts what it becomes at the end of its log.
    pub fn up(&mut self, client: u32) -> Result<Moved, Move>
        requires { (hub_view_of self.old).is_open ≡ true }
        ensures moved { HasMoved (hub_view_of self.old) (hub_view_of self.new) client
            (up_step (hub_view_of self.old) client) result }

        // Where the function has the first property and characters need not differ, no operation is stuck.
        ensures never_stuck { HasTp1 (hub_view_of self.old).function
            → (hub_view_of self.old).function.head.chars_differ ≡ false → result ≢ Err moves.Stuck }
    {
        if !self.has_client(client) {
            return Err(Move::NoSite);
        }
        let place = client as usize - 1;
        let alloc = *self.clients.allocator();
        let Some(message) = first_of(&self.clients[place].messages) else {
            return Ok(Moved::Nothing);
        };
        rules_are_valid(&self.rules);
        tp1_holds_of_forms();
        transform_keeps_all_but_the_position();
        transform_stays_near();
        functions_keep_forms();
        enabled_operations_are_near();
        documents_grow_by_one_cell_at_most();
        match self.server.take(alloc, &self.rules, client, &message) {
            Ok(()) => {
                sent_at(&mut self.clients, place);
                Ok(Moved::Done)
            }
            Err(refusal) => {
                self.is_open = false;
                Err(refusal)
            }
        }
    }

    /// A client takes the next entry of the log. Its own one is its oldest pending operation; another
    /// client's is carried over what is pending, and executed.
    pub fn down(&mut self, client: u32) -> Result<Moved, Move>
        requires { (hub_view_of self.old).is_open ≡ true }
        ensures moved { HasMoved (hub_view_of self.old) (hub_view_of self.new) client
            (down_step (hub_view_of self.old) client) result }
        ensures server { (hub_view_of self.new).server ≡ (hub_view_of self.old).server }

        // Where the function has the first property and characters need not differ, no operation is stuck.
        ensures never_stuck { HasTp1 (hub_view_of self.old).function
            → (hub_view_of self.old).function.head.chars_differ ≡ false → result ≢ Err moves.Stuck }
    {
        if !self.has_client(client) {
            return Err(Move::NoSite);
        }
        let place = client as usize - 1;
        let alloc = *self.clients.allocator();
        let Some(entry) = entry_at(&self.server.log, self.clients[place].received) else {
            return Ok(Moved::Nothing);
        };
        rules_are_valid(&self.rules);
        tp1_holds_of_forms();
        transform_keeps_all_but_the_position();
        transform_stays_near();
        functions_keep_forms();
        enabled_operations_are_near();
        documents_grow_by_one_cell_at_most();
        match take_at(alloc, &self.rules, &mut self.clients, place, &entry) {
            Ok(()) => Ok(Moved::Done),
            Err(refusal) => {
                self.is_open = false;
                Err(refusal)
            }
        }
    }

    /// A law: whatever the function, the server's document is the first one after the log.
    pub fn server_follows_the_log(&self)
        ensures { ServerFollowsLog (hub_view_of self.now) }
    {}

    /// A law: where the function has the first property and characters need not differ, a client's document is the
    /// first one after the entries that it received and then what is pending there, and one that received the whole log
    /// and has nothing pending holds the server's.
    pub fn clients_follow_the_log(&self)
        ensures { HasTp1 (hub_view_of self.now).function → (hub_view_of self.now).function.head.chars_differ ≡ false
            → FollowsLog (hub_view_of self.now) }
    {}

    /// A law: the entries of a client in the log and its messages on their way are together as many as its edits.
    pub fn edits_are_logged_or_on_their_way(&self)
        ensures { AreCountedEdits (hub_view_of self.now).server.log (hub_view_of self.now).clients }
    {}

    /// Whether there is such a client.
    pub fn has_client(&self, client: u32) -> bool
        ensures { IsTrue result ↔ IsClient (length (hub_view_of self.now).clients) client }
    {
        1 <= client && client as usize <= self.clients.len()
    }
}
