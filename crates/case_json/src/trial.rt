//! Cases: a document, operations that were made on it, and orders in which to integrate them.
use ot_model::{Doc, Op};
use plain_list::List;

/// A document, operations that were made on it, and orders in which to integrate them.
#[derive(Drop)]
pub struct Trial {
    /// The document on which all operations were made.
    pub doc: Doc,

    /// The operations, which the orders name by their places, counted from 0.
    pub ops: List<Op>,

    /// The orders.
    pub orders: List<List<u32>>,
}
