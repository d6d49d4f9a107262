//! The text of transformation functions.
//!
//! What a file is, `IsTextOf` tells (`fn_grammar`): phrases, the tokens by which they are written, and the function
//! that they mean. What is read of any bytes, `function_in` tells (`specs/Reading.antt`): the function, or the fault of
//! the first token that cannot go on, whose cause `specs/Causes.antt` tells row by row. What is printed is the
//! canonical text of `fn_grammar`, which is read as the function again.
#![tactic(auto)]

mod behind;
mod grammar;
mod reader;
mod reading;
mod round_trip;
mod stop;
mod theorems;
mod wrong;

pub use fn_grammar::{canonical_guards_have_the_fewest_parentheses, canonical_text_lexes_back};
pub use fn_tokens::{FaultKind, Placed, Sign, TextFault, Token, Word, lex};
pub use grammar::{taken_tokens_can_go_on, what_is_read_is_in_the_grammar};
pub use reading::read;
pub use round_trip::{print, read_back};
pub use std::alloc::AllocError as NoMemory;
pub use stop::TextError;
pub use theorems::{
    canonical_texts_are_read_back, files_have_one_answer, refusals_are_final,
    texts_of_functions_are_read,
};
pub use wrong::{WrongToken, first_wrong};
