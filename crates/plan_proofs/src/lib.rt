//! The search of one plan for a proof with lemmas, and the asker of an obligation whose starts are numbered.
//!
//! What is found is not trusted: a tree is judged above, with the whole proof, and answers are walked once more by
//! integers that meet them. The layer above relies on this: no more is asked than may be, nothing is said only for a
//! cause that is so, and the asker is as it was, but for its count.
#![tactic(auto)]

mod ended;
mod finding;
mod numbers;
mod planning;

pub use ask_core::NoMemory;
pub use ended::{Ended, Questions, Searched, SpentCause};
pub use finding::FindingStarts;
pub use planning::{MAX_BYTES, search_plan};
