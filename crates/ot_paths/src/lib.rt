//! The askers of obligations, and of goals.
//!
//! A node of a `PathAsker` is a goal in an arena, and stands for the plan that the goal stands for. The
//! asker's own plan is that of its obligation, or of the goal that it is over. So whatever is checked or proved over an
//! asker is checked or proved of the obligation, or of the goal. The questions of an obligation are laid out when the
//! asker starts, so that a turn has nothing to work out.
#![tactic(auto)]

mod asker;
mod behind;
mod cells;
mod forms;
mod kept;
mod laws;
mod laying;

pub use ask_core::NoMemory;
pub use asker::PathAsker;
pub use behind::is_same_progress;
pub use forms::{by_form, by_guard};
pub use kept::Behind;
pub use laws::conditions_are_nodes;
pub use laying::{laid_out, trial};
