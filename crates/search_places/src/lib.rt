//! The open places of a search: for each the answers that lead to it, a table or a negative cycle of them, and the tree
//! so far.
//!
//! The search above relies on exact clauses: what a question, an end and a cycle make of the places, and that a side
//! which no integers meet is closed with a cycle that shows it.
#![tactic(auto)]

mod chain;
mod cycles;
mod search;
mod split;

pub use ask_core::MAX_NAMES;
pub use cycles::Cycles;
pub use search::PlanSearch;
pub use split::{Room, excludes_yes, put_yes};
