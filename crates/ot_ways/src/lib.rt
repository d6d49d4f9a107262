//! What becomes of operations, transformation by transformation: which case each transformation takes, both ways of a
//! counterexample, and where two documents differ.
//!
//! The layers above rely on these clauses: `taken` gives the first case whose guard is true, by which the interpreter
//! gets its result; `both_ways` gives both ways of a counterexample as the interpreter goes them; `difference` gives the
//! first place at which two documents differ.
#![tactic(auto)]

mod differences;
mod laws;
mod one_step;
mod stepping;
mod taken_case;
mod taking;
mod ways;

pub use differences::{difference, is_same_cell};
pub use laws::{cases_are_taken, documents_without_difference_are_one};
pub use one_step::Step;
pub use std::alloc::AllocError as NoMemory;
pub use stepping::step;
pub use taken_case::Taken;
pub use taking::taken;
pub use ways::{BothWays, DocumentWay, OperationWay, both_ways};
