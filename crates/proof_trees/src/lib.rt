//! Proof trees: trees that answer a plan of questions, and may cite what they have shown already.
//!
//! A plan has starts: places where a part begins that stands at other places too. There a tree may show a
//! lemma, which is the plan of that start under literals of its own, and later trees may cite it at starts
//! that compare with it.
//!
//! The layers above rely on `shown_plans_hold`: a proof tree that shows a plan shows that the plan holds at
//! every valuation; and on `certificates_are_proofs`: a tree of a certificate is one without lemmas.
#![tactic(auto)]

mod certificates;
mod limits;
mod showing;
mod starter;
mod startless;
mod token;

pub use certificates::certificates_are_proofs;
pub use limits::{MAX_LEMMAS, MAX_LITERALS};
pub use showing::shown_plans_hold;
pub use starter::Starter;
pub use startless::Startless;
pub use token::{Literals, ProofTok};
