//! The judge of trees: fed with tokens one by one, it says whether they are a tree that fits an asker's
//! plan. Whoever is handed a certificate trusts this crate and nothing of how the tree was found.
//!
//! A checker keeps the open places of the plan, each with its answers, and gives up what it has closed.
//! A token is taken where it may stand at the first open place, and is else refused; a checker that has
//! refused answers the same refusal from then on.
//!
//! The layers above rely on three clauses of `Checker::feed`: what a token that is taken leaves is
//! completed by exactly the tokens that complete what was open behind it; a refused token begins
//! nothing that does; and Done shows that the plan holds at every valuation.
#![tactic(auto)]

mod checker;
mod cycle;
mod laws;
mod question;
mod token;
mod verdict;

pub use ask_core::MAX_NAMES;
pub use checker::Checker;
pub use cycle::Walk;
pub use laws::tokens_are_taken_one_by_one;
pub use question::Question;
pub use verdict::{CheckError, Progress};
