//! The open places of a proof with lemmas, and the lemmas that are known: what is wanted of the tokens, in memory.
//!
//! All lists of literals stand in one vector, and each change is one step. The judge above relies on the exact clauses
//! of the changes: a question, a close, a lemma that is begun, and a citation.
#![tactic(auto)]

mod places;

pub use places::Places;
