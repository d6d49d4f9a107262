//! Proofs with lemmas: whether bytes are one of a function, and where and why not.
//!
//! The layers above rely on three promises: `judge_proof` answers the judgement of the bytes, which `judgement_of`
//! computes; by `proofs_show_the_properties` a function that has a proof has the properties of its level; and by
//! `refusals_stand` bytes that are refused, and not because they end too early, are refused whatever follows them.
#![tactic(auto)]

mod confirm;
mod laws;
mod section;
mod soundness;
mod spelled;

pub use ask_core::NoMemory;
pub use confirm::judge_proof;
pub use laws::refusals_stand;
pub use proof_sections::{ConfirmError, ProofRefusal};
pub use soundness::proofs_show_the_properties;
pub use spelled::{certificates_are_accepted_as_proofs, proofs_are_made_of_trees};
