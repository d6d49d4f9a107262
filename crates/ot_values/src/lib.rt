//! Values of answers: the operations and the document that the names of a plan stand for.
//!
//! Answers that lead to an end of a plan are literals over names. The least values above the floors that meet
//! them name operations of small parts. The floors tell the operations apart where the answers leave it open.
//!
//! The layers above rely on two promises. Where the answers compare like with like and some integers meet
//! them that are not negative at the positions they speak of, there are such least values, whose characters
//! are at most `e`; and they are no higher at these positions than any integers that meet the answers.
#![tactic(auto)]

mod instance;
mod laws;
mod lengths;
mod values;

pub use instance::{live_document, op_at};
pub use laws::answers_have_least_values;
pub use lengths::first_documents_have_at_most_1000_cells;
pub use std::alloc::AllocError as NoMemory;
pub use values::least_values;
