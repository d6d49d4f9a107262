//! The prover: it searches any asker's plan, and says whether every end that some integers meet holds.
//!
//! The search answers each question by yes and then by no, and goes on where some integers meet the
//! answers. Where none do it names a negative cycle among them. A tree that it finds is judged anew by
//! whoever is handed it: nothing here need be trusted.
//!
//! The layers above rely on the clause `decides` of `prove`, which says each outcome by the question list
//! of the asker's own plan, and on the laws that there is exactly one such list and that it tells where the
//! plan fails.
#![tactic(auto)]

mod answers;
mod laws;
mod outcome;
mod passing;
mod proving;
mod search;

pub use answers::literals_of;
pub use ask_core::NoMemory;
pub use laws::{
    impossible_places_have_short_cycles, plans_have_one_question_list, question_lists_are_possible,
    question_lists_tell_where_plans_fail,
};
pub use outcome::{Answer, Outcome};
pub use proving::{prove, prove_behind};
pub use search_places::MAX_NAMES;
