//! The commands: each loads its files from a shelf, judges them in their order, and gives a reply (docs/STATUS.md).
//!
//! A command has one file, as `prove.rt`, and one module, as `specs/Prove`. What opens files in their order stands
//! once: `one_file.rt`, `two_files.rt` and `case_file.rt` (a function and a case, a session or a hub),
//! `two_functions.rt`, `certificate.rt` (which is read as it is judged). `load.rt` reads files within their limits,
//! `halt.rt` runs events up to the first that halts them. A module says which reply comes, and ends with its facts
//! (`specs/Facts`): the files that the command opens, the reply that it gets then, and where its status is never 1.
//! `Replies` has the table of all facts, `Given` says them of the bytes that the shelf's calls gave.
//!
//! The crate above relies on one call a command. Its clauses are `ok` (which reply comes, of what the shelf tells),
//! `given` (of what its calls gave), `steady` (where the status is not 1), `shelf` and `unchanged` (faults, what the
//! shelf keeps).
#![tactic(auto)]

pub mod audit;
pub mod bound;
mod case_file;
mod certificate;
pub mod check;
pub mod confirm;
pub mod drill;
pub mod explain;
mod found;
mod halt;
pub mod hub;
pub mod integrate;
pub mod least;
pub mod load;
pub mod mend;
mod one_file;
pub mod prove;
pub mod replay;
pub mod reverse;
pub mod same;
pub mod settle;
pub mod template;
pub mod trace;
mod two_files;
mod two_functions;
