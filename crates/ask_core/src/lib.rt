//! Plans of questions, and the trees that answer them.
//!
//! A plan is a finite tree: it asks a literal and goes on by the answer, or it holds, or it fails with
//! a cause. Its value at a valuation follows the valuation through the plan. Nothing here knows what
//! is asked about.
//!
//! The layers above rely on `Asker`, whose nodes stand for plans that never change, on `Path`, the open
//! places of a plan that is being answered, on `turn_at`, how the plan at the first of them begins, and on
//! `fitting_trees_hold`: a tree that fits a plan shows that the plan holds at every valuation.
#![tactic(auto)]

mod answering;
mod asker;
mod first;
mod fitting;
mod leading;
mod lengths;
mod path;
mod picks;
mod premised;
mod tree;
mod turn;

pub use answering::valuations_answer_questions;
pub use asker::{Asker, MAX_NAMES, MAX_QUESTIONS};
pub use first::{look_at, turn_at};
pub use fitting::{fitting_trees_hold, trees_are_judged_token_by_token};
pub use leading::answers_lead_to_ends;
pub use lengths::paths_bound_question_lists;
pub use path::Path;
pub use picks::{MAX_PICKS, Picks};
pub use premised::{Premised, PremisedNode, premised_plans_hold_where_the_premise_is_met};
pub use std::alloc::AllocError as NoMemory;
pub use tree::Tok;
pub use turn::Turn;
