//! The writer of proofs with lemmas, over any asker that numbers its starts: a second walk through a plan that was
//! searched, which writes a tree by the lemmas that the search showed.
//!
//! At a start it cites a lemma that is written already and serves there, or else begins one of that start, once; at all
//! other places it asks, and closes a part that no integers lead to by a cycle. It keeps no trees.
//!
//! Nothing of what is written is trusted: the text is judged before it is handed over. The layer above relies on these
//! clauses of `write_tree`: the text is appended to what stood there, no more is asked than was allowed, each end other
//! than that of the tree has its cause, and the asker is as it was, but for its count.
#![tactic(auto)]

mod place;
mod token;
mod walk;
mod writing;
mod written;

pub use ask_core::NoMemory;
pub use place::{TreeEnd, TreeWritten};
pub use writing::write_tree;
