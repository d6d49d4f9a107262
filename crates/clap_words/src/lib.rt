//! What clap finds in the words of a simple command: its refusals are one answer, and want of memory is another one.
#![tactic(auto)]

mod matching;

pub use matching::matches_in;
pub use std::alloc::AllocError as NoMemory;
