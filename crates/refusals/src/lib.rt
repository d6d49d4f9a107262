//! Why bytes are no certificate, and what else ends a judgement of them.
#![tactic(auto)]

mod refusal;

pub use refusal::{JudgeError, Refusal};
