//! The asker of an obligation that says where its transformations begin.
//!
//! A node of a `StartAsker` is a goal in an arena, as of a `PathAsker`. Where a transformation begins there is a start,
//! told by the obligation's operations and the results so far. So a proof with lemmas may show there what is left, and
//! cite it at starts that compare.
#![tactic(auto)]

mod asker;
mod begun;
mod fronts;
mod kept;
mod laid;
mod laying;
mod settling;
mod slots;
mod table;
mod trying;
mod walking;

pub use ask_core::NoMemory;
pub use asker::StartAsker;
pub use begun::Begun;
