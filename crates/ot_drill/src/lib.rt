//! The generated workload: from a number, a function that has both properties, and the events of a session under it.
//!
//! The layers above rely on these clauses: `rules` gives `drill_function`, which has both properties
//! (`drill_functions_have_both_properties`), `events` gives `drill_events`, and `play` does all of them: no event is
//! refused, and the answers to what is taken are counted.
#![tactic(auto)]

mod count;
mod event;
mod function;
mod laws;
mod limits;
mod playing;
mod tally;

pub use count::count_cases;
pub use event::events;
pub use function::rules;
pub use laws::drill_functions_have_both_properties;
pub use limits::{MOST_ROUNDS, SITES};
pub use playing::{Played, play};
pub use tally::Tally;
