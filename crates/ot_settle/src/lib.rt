//! Deciding a function by a search for a proof with lemmas.
//!
//! The obligations of a level are searched in order with one budget of questions, and the walks that write what was
//! shown have one of as many; both are kept. What is found is not trusted: a proof's text is judged as a whole before
//! it is handed over, and answers to a failing end are walked once more. Where nothing is said, the cause is.
#![tactic(auto)]

mod ended;
mod ending;
mod judging;
mod searching;
mod settled;
mod settling;
mod text;

pub use ask_core::NoMemory;
pub use ending::{FailingEnd, failing_end};
pub use plan_proofs::{MAX_BYTES, Questions, SpentCause};
pub use settled::{Settled, Settlement};
pub use settling::settle_all;
