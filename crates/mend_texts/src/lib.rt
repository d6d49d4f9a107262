//! The text of a mended function: a comment line for each edit, and then its canonical text.
//!
//! The layers above rely on two clauses: `mended_text` gives the text that `specs/Texts` defines, and
//! `members_are_made` says that edits which the layers of a function list lead to their function one after another.
#![tactic(auto)]

mod change;
mod edit;
mod laws;
mod mended;
mod writing;

pub use fn_rules::NoMemory;
pub use laws::members_are_made;
pub use mended::mended_text;
