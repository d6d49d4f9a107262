//! From the words behind the program's name to a command: the first word says which command it is, and clap reads
//! the others.
#![tactic(auto)]

mod command;
mod words;

pub use command::{Command, TraceKind};
pub use words::{MOST_QUESTIONS, SETTLING_QUESTIONS, read_words};
