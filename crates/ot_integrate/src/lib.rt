//! Integration of operations that were made on one document, in an order.
//!
//! Each operation is transformed, in turn, by the operations that were executed before it, as they were
//! executed, and the result is executed.
//!
//! The layers above rely on two clauses: `integrate` ends as `integrated` says, with a document, or stuck
//! at the first place of the order that can't be executed; where the function has both properties, each
//! order of concurrent operations ends with one document.
#![tactic(auto)]

mod end;
mod one_outcome;
mod order;

pub use end::End;
pub use one_outcome::both_properties_give_one_outcome;
pub use order::{are_integrable, integrate};
