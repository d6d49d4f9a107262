//! Edits of a function: which there are, what each makes of it, and which of two edited functions comes first.
//!
//! An edit changes one atom, one result, the cases of one block, or what is assumed.
//!
//! The layers above rely on three clauses: `edits` lists the edits of a function in their order, `edited` makes the
//! function that an edit leaves where it keeps the limits, and `rank_after` and `comes_before` put functions in order.
#![tactic(auto)]

mod atoms;
mod change;
mod edit;
mod editing;
mod offer;
mod rank;

pub use change::{Change, NewGuard};
pub use edit::Edit;
pub use editing::edited;
pub use fn_rules::NoMemory;
pub use offer::edits;
pub use rank::{Rank, comes_before, rank_after};
