//! Difference constraints: literals `x <= y + k` over integers with names, and cycles of them.
//!
//! A name is a number below the count of names; name 0 stands for zero. A list of literals is seen
//! as a graph with an edge from `x` to `y` of weight `k` for each literal. A closed walk along the
//! edges whose weights sum to less than 0 shows that no integers meet its literals.
//!
//! The layers above rely on these clauses: `is_negative_cycle` answers by `pick_verdict`, which says
//! what a list of picks names, and `negate` gives the literal that is true exactly where another one is false.
#![tactic(auto)]

mod answer;
mod cycle;
mod laws;
mod lit;

pub use answer::{answered, negate};
pub use cycle::is_negative_cycle;
pub use laws::negative_cycles_are_never_met;
pub use lit::{Lit, MAX_LITERAL_OFFSET, PickError};
pub use std::alloc::AllocError as NoMemory;
