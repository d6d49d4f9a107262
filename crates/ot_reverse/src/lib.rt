//! Whether one function takes back what another one makes of operations: whether it reverses it, said of every document
//! and of all operations.
//!
//! A pair of kinds is asked as a goal: of both operations whether they are enabled, of what the first function assumes
//! to differ, of its guards, of the guards of the second one for the form, and of the position of what comes back. The
//! goal is searched as an audit's is, and the least values of its first failing end name a document and two operations.
//!
//! The layer above relies on `reverses`, whose answer says of all documents what is so, and on the law that two
//! functions and a budget have one answer.
#![tactic(auto)]

mod goals;
mod laws;
mod reversing;

pub use ask_core::NoMemory;
pub use goals::reversal_goal;
pub use laws::{
    answers_are_one, answers_tell_of_all_documents, goals_are_searchable,
    goals_fail_where_nothing_comes_back,
};
pub use ot_audit::Back;
pub use reversing::{are_alike, reverses};
