//! The shortest documents on which a function breaks a property, with a low certificate that none is shorter.
//!
//! What a low certificate is, what it shows and who judges it stands below, in `ot_bound`, which knows no search.
#![tactic(auto)]

mod descent;
mod ending;
mod laws;
mod short;

pub use ask_core::NoMemory;
pub use descent::shortest;
pub use laws::{
    failing_ends_below_a_bound_are_shorter, failing_ends_break_at_their_length,
    first_documents_are_never_too_long, functions_have_one_shortest_document,
};
pub use short::Short;
