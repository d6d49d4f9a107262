//! The search for a proof with lemmas, over any asker that numbers its starts.
//!
//! The search goes through the plan depth first. Where a transformation begins, it tries to show what follows under
//! no literals at all, as a lemma; an end that fails there, and that cannot be reached from around the lemma, adds a
//! literal to it that shuts the end out. What was shown at a start is found again by the start's number, and where it
//! serves by what is known around the lemmas that are being shown, these assume that.
//!
//! Nothing of what is found is trusted: who writes a proof by the lemmas has it judged, and who tells of an end that
//! fails walks there again. The layers above rely on these clauses of `search`: no more is asked than the budget, and
//! the asker told no more but one question where that is spent; the lemmas are of the asker's own nodes; and the asker
//! is as it was, but for its count.
#![tactic(auto)]

mod adopt;
mod blame;
mod distances;
mod facts;
mod finder;
mod lemmas;
mod levels;
mod open;
mod scouts;
mod seeking;
mod service;
mod told;
mod turns;
mod under_way;

pub use ask_core::{MAX_NAMES, NoMemory};
pub use distances::Distances;
pub use facts::{Added, Facts};
pub use finder::Finder;
pub use lemmas::{Lemma, Lemmas, NEWEST};
pub use seeking::{SearchOutcome, SearchResult, search};
pub use service::{Any, Choice, Known, Pins, ServingLemma, serving, serving_of};
pub use told::Told;
pub use under_way::{LemmaLevel, Search, Sent, WaitingPart};
