//! The reader of certificates: the parts that bytes give, byte by byte or piece by piece, with the offset of each.
//!
//! The layers above rely on two clauses: what a `Reader` gives for a byte or for the bytes of a piece, and which parts
//! the bytes that are still to come give it.
#![tactic(auto)]

mod reader;

pub use reader::Reader;
