//! What an obligation asks, and why that decides it.
//!
//! An obligation is two or three kinds of operations. Its plan asks literals over the positions, sites
//! and characters of such operations, the length of the document and one index into the final
//! documents, and ends in `Holds` or in a cause. The definition is `plan_of`.
//!
//! The layers above rely on two promises. The plan of a pair has the value true at every valuation exactly
//! where the first property holds for all operations of the pair's kinds, and the plan of a triple where the
//! second does. And every plan keeps the limits of plans.
#![tactic(auto)]

mod asked;
mod cell;
mod meaning;
mod name;
mod next;
mod place;
mod staying;
mod valuation;
mod why;

pub use asked::{names_stand_for_operations, plans_compare_like_with_like, questions_keep_limits};
pub use cell::{Finished, Flag, Source};
pub use meaning::{
    atoms_bound_questions, bounded_plans_mean_shorter_documents, pair_plans_mean_tp1,
    plans_keep_limits, triple_plans_mean_tp2,
};
pub use name::{INDEX, LENGTH, Who, ZERO, char_name, position_name, site_name};
pub use next::Next;
pub use place::{Place, SymOp};
pub use staying::offsets_stay_near;
pub use valuation::{
    any_operations_have_names, pair_ends_at_valuations, questions_mean_the_interpreter,
    triple_ends_at_valuations,
};
pub use why::Why;
