//! Counterexamples: operations and a document at which a function breaks one of the two properties.
//!
//! Where the plan of an obligation fails after answers that some integers meet, the least such integers name
//! operations. On the document beside them, whose cells tell apart what the two ways read, the property
//! fails by the cause of that end.
//!
//! The layers above rely on two clauses of `build`: what it gives is read off the least values, and the
//! property fails there.
#![tactic(auto)]

mod building;
mod counter;
mod document;
mod laws;
mod ways;

pub use building::build;
pub use counter::{Counter, WayResult};
pub use laws::failing_ends_have_counterexamples;
pub use std::alloc::AllocError as NoMemory;
