//! Tables of distances between names, by which lists of difference constraints are solved.
//!
//! The layers above rely on these clauses: `solve` gives values or a negative cycle; `least` gives least values; and the
//! laws say what a table tells of the list that it stands for. `table` has the steps of a closed table of distances, for
//! tables of other crates. Nothing that judges stands on this crate.
#![tactic(auto)]

mod adding;
mod floors;
mod hop;
mod laws;
mod rows;
mod solved;
mod solver;
pub mod table;

pub use diff_graph::NoMemory;
pub use floors::least;
pub use hop::Hop;
pub use laws::{
    lowered_rows_keep_the_step, new_rows_stand_for_nothing, tables_stand_for_what_is_added,
    tables_tell_what_is_possible, unsatisfiable_exactly_at_negative_cycles,
};
pub use solved::Solved;
pub use solver::solve;
