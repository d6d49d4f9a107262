//! The rules that read a cell of a document, a step at a time, from the last change to the first.
//!
//! The layers above rely on `read_step`, which gives the row of the table for a cell, and on `finished`, which tells
//! what a cell is made of where no step is left.
#![tactic(auto)]

mod reading;

pub use reading::{finished, read_step};
