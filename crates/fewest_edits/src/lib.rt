//! The search for the fewest edits that make a function right.
#![tactic(auto)]

mod candidate;
mod decision;
mod mending;
mod scanning;
mod searching;

pub use decision::{Decider, Decision};
pub use fn_rules::NoMemory;
pub use mending::Mending;
pub use searching::mend_by;
