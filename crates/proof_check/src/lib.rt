//! The judge of proofs with lemmas: fed with tokens one by one, it says whether they are a proof tree that shows an
//! asker's plan. Whoever is handed a proof trusts this crate and nothing of how the tree was found.
//!
//! A judge keeps the open places of the plan, each with its list of literals, and the lemmas that are known. A token is
//! taken where it may stand at the first open place, and is else refused; a judge that has refused answers the same
//! refusal from then on.
//!
//! The layers above rely on three clauses of `ProofChecker::judge`: what a token that is taken leaves is completed by
//! exactly the tokens that complete what was wanted after it; a refused token begins nothing that does; and Done shows
//! that the plan holds at every valuation.
#![tactic(auto)]

mod checker;
mod laws;
mod standing;
mod token;
mod verdict;

pub use cert_check::{CheckError, Progress};
pub use checker::ProofChecker;
pub use laws::{completed_plans_hold, proof_tokens_are_taken_one_by_one};
pub use standing::{first_places_take_tokens, places_change_as_tokens_say};
pub use verdict::ProofError;
