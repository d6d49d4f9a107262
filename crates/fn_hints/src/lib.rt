//! Help for a function file that is refused: where its first wrong token stands, why it is wrong, which tokens may
//! stand in its place, and what was probably meant.
//!
//! `find_hint` gives what is told of a file, `hint_in`; `write_hint` appends its lines, `hint_text`.
#![tactic(auto)]

mod finding;
mod hint;
mod laws;
mod shown;
mod slip;
mod standing;
mod text;

pub use finding::find_hint;
pub use fn_text::NoMemory;
pub use hint::Hint;
pub use laws::{refused_files_have_hints, wrong_tokens_are_told};
pub use slip::Slip;
pub use standing::{Numbers, TOKENS};
pub use text::write_hint;
