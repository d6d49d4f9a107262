//! Why a function does what it does, as text: the lines of both ways of a counterexample with the case that each
//! transformation takes, where they differ, and the same as a case.
//!
//! The layers above rely on one clause: `write_explained` writes exactly the text of the ways that `ot_ways` gives.
#![tactic(auto)]

mod case_line;
mod columns;
mod explained;
mod lines;
mod runs;
mod short_document;
mod texts;

pub use case_line::write_case_line;
pub use columns::{DOCUMENT, LABEL, OPERATION, append_padded};
pub use explained::write_explained;
pub use lines::{Label, write_ways};
pub use runs::{AROUND, LONG};
pub use short_document::write_short_document;
pub use std::alloc::AllocError as NoMemory;
pub use texts::{write_choice, write_form, write_short_op, write_taken};
