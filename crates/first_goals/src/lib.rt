//! The goal that an obligation begins with.
//!
//! The layers above rely on `start_goal`, which makes the goal of terms in an arena, exactly as it is defined. By the
//! law `first_goals_stand_for_obligations` of `ot_terms` it stands for the plan of the obligation, and is true at all
//! integers exactly where the property holds.
#![tactic(auto)]

mod starting;

pub use starting::start_goal;
