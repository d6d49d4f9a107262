//! Calls of all crates, beside rows that were found by hand, and whole commands over shelves and sinks in memory: tests
//! alone. `samples` has the texts of files.
//!
//! `settled`, `least`, `reversals`, `hubs`, `steps` and `traces` call what decides a function, and a hub, once with
//! memory enough: a body that answers nothing but want of memory would be proved too.
#![tactic(auto)]

#[cfg(test)]
mod askers;
#[cfg(test)]
mod audits;
#[cfg(test)]
mod blocks;
#[cfg(test)]
mod checks;
#[cfg(test)]
mod cycles;
#[cfg(test)]
mod documents;
#[cfg(test)]
mod faults;
#[cfg(test)]
mod fixtures;
#[cfg(test)]
mod floors;
#[cfg(test)]
mod functions;
#[cfg(test)]
mod hints;
#[cfg(test)]
mod hubs;
#[cfg(test)]
mod least;
#[cfg(test)]
mod lists;
#[cfg(test)]
mod mendings;
#[cfg(test)]
mod operations;
#[cfg(test)]
mod outside;
#[cfg(test)]
mod paths;
#[cfg(test)]
mod printing;
#[cfg(test)]
mod proofs_with_lemmas;
#[cfg(test)]
mod questions;
#[cfg(test)]
mod reader;
#[cfg(test)]
mod reversals;
#[cfg(test)]
mod rules;
#[cfg(test)]
mod samples;
#[cfg(test)]
mod searches;
#[cfg(test)]
mod sessions;
#[cfg(test)]
mod setting;
#[cfg(test)]
mod settled;
#[cfg(test)]
mod solver;
#[cfg(test)]
mod splits;
#[cfg(test)]
mod starts;
#[cfg(test)]
mod steps;
#[cfg(test)]
mod tables;
#[cfg(test)]
mod tokens;
#[cfg(test)]
mod traces;
#[cfg(test)]
mod trees;
#[cfg(test)]
mod two_names;
#[cfg(test)]
mod whole_functions;
#[cfg(test)]
mod words;
#[cfg(test)]
mod writer;
#[cfg(test)]
mod written;
