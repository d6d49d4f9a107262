//! The grammar of function files: the phrases of a file, the tokens by which they are written, and the function that
//! they mean; and the canonical text of a function.
//!
//! Which bytes are a text of a function is told in one place, `IsTextOf` (`specs/Grammar.antt`), which knows no reader.
//! `printed` (`specs/Print.antt`) is the canonical text. The layers above rely on these two, and that the canonical
//! text is a text of its function.
#![tactic(auto)]

mod printer;
mod theorems;

pub use printer::{canonical_text, case_text};
pub use std::alloc::AllocError as NoMemory;
pub use theorems::{
    canonical_guards_have_the_fewest_parentheses, canonical_text_lexes_back,
    canonical_texts_are_texts, texts_are_valid,
};
