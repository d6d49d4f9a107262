//! The search of obligations: a certificate of a function, or the first of its obligations that fails.
//!
//! Obligations are searched in order with one budget of questions for all of them together, on documents of any length
//! or on those of fewer cells than a bound. What is written of those that hold is judged anew by whoever is handed it.
#![tactic(auto)]

mod below;
mod bound;
mod proving;
mod searching;
mod verdict;
mod verdicts;

pub use ask_core::NoMemory;
pub use bound::atoms_bound_the_budget;
pub use proving::prove_all;
pub use searching::search_all;
pub use verdict::{SearchVerdict, Verdict};
pub use verdicts::{
    certificates_have_few_leaves, failing_triples_show_tp1, obligations_have_one_question_list,
    proofs_are_certificates,
};
