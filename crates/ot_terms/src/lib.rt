//! What an obligation still asks, as terms in an arena.
//!
//! A goal is what is left to be shown of an obligation at some place of its plan. Its parts are forms, which are what
//! is asked, and cells, which are read from documents. A goal that asks for the order of two places has them within it;
//! the other parts are shared references into an arena that stands outside, and nothing writes to a term.
//!
//! Contracts see a term as a plain tree, which has the same variants and holds its parts as values. What a
//! term means, how much it weighs and the plan that it stands for are said of plain trees alone.
#![tactic(auto)]

mod arena;
mod cell;
mod document;
mod enabled;
mod form;
mod goal;
mod laws;
mod placing;

pub use arena::placed;
pub use ask_core::NoMemory;
pub use cell::CellT;
pub use document::DocT;
pub use enabled::enabled_form;
pub use form::Form;
pub use goal::{Goal, GoalProgress, Operands, Order};
pub use laws::{
    cells_are_compared_over_all_documents, first_goals_stand_for_obligations,
    forms_are_asked_as_they_are_true, goals_are_true_as_their_plans,
};
pub use ot_questions::{Place, SymOp, Why};
pub use placing::{place_form, places_of};
