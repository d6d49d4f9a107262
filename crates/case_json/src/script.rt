//! Scripts of sessions: a document, a number of sites, and what happens at them.
use ot_model::{Doc, Op};
use plain_list::List;

/// What happens at a site of a session.
#[derive(Clone, Copy, PartialEq, Eq)]
pub enum Event {
    /// The site makes the operation.
    Make { site: u32, op: Op },

    /// The site takes the operation that has the number, counted from 0 in the order in which they are made.
    Take { site: u32, number: u32 },
}

/// A document, a number of sites, and what happens at them.
#[derive(Drop)]
pub struct Script {
    /// The document with which each site begins.
    pub doc: Doc,

    /// How many sites there are, which are numbered from 1.
    pub sites: u32,

    /// What happens, in order.
    pub events: List<Event>,
}
