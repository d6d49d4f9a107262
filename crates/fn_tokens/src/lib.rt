//! The tokens of function files: the longest ones, each with its place, and the bytes by which they are spelled.
//!
//! The layers above rely on the definitions `tokens_in`, the tokens of given bytes, and `spelled`, the bytes of
//! tokens in lines.
#![tactic(auto)]

mod cause;
mod comparison;
mod control;
mod fault;
mod language;
mod lexer;
mod moves;
mod spelling;
mod token;

pub use comparison::{FrontComparison, FrontOffset};
pub use control::{AfterLine, Control, Pairs, Region, Seconds, TokenMove, Want, Written};
pub use fault::{FaultKind, TextFault};
pub use language::Language;
pub use lexer::{Lexer, lex, tokens_end_files};
pub use spelling::{lines_lex_back, spell};
pub use std::alloc::AllocError as NoMemory;
pub use token::{Placed, Sign, Token, Word};
