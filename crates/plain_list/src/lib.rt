//! Lists that grow, which contracts see as plain lists.
//!
//! A `Vec` is seen as a record of its items and of its memory, so a clause over one speaks of `v.items`, and
//! two vectors of the same items are two values. A `List` is a `Vec` that is seen as its items alone.
#![tactic(auto)]

mod list;

pub use list::List;
