//! Certificates: whether bytes are one of a function, and where and why not.
#![tactic(auto)]

mod check;
mod judge;
mod laws;
mod soundness;

pub use ask_core::NoMemory;
pub use check::check_all;
pub use laws::{
    all_bytes_have_a_judgement, bytes_have_one_judgement, certificates_are_parts_that_fit,
};
pub use ot_sections::{JudgeError, Refusal};
pub use soundness::certificates_show_the_properties;
