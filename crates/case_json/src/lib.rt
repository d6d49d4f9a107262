//! Cases, which are a document, operations that were made on it, and orders in which to integrate them;
//! scripts of sessions and of hubs, which are a document, a number of sites or clients, and events; and the
//! text of documents.
//!
//! A *reading* says what bytes or a text are read as: a value, or the first fault in the order of the
//! tests. The layers above rely on these clauses: `trial_read` answers the reading of a case for a function,
//! `trial_in`, unless memory is wanting, and what was read can be integrated; `script_read` and `hub_read`
//! answer the readings of scripts, `script_in` and `hub_script_in`, and what was read is within the limits. Of a
//! refused file `fault_path` gives the path of its fault (`path_of`) and `line_column_of` where the value there begins;
//! `write_fault` appends the path, the line and the column, and a sentence of the cause.
#![tactic(auto)]

mod case;
mod doc_text;
mod fault;
mod finding;
mod first_fault;
mod hub;
mod json;
mod laws;
mod limits;
mod misfits;
mod operation;
mod parts;
mod path;
mod script;
mod session;
mod stop;
mod texts;
mod trial;

pub use case::trial_read;
pub use doc_text::{char_write, doc_read, doc_write};
pub use fault::{CaseFault, Name};
pub use finding::{event_path, fault_path, line_column_of};
pub use hub::{HubEvent, HubScript, hub_read};
pub use json_places::{LineColumn, Places};
pub use laws::read_trials_are_ready;
pub use limits::{MAX_EVENTS, MAX_NUMBER, MAX_ORDERS, MAX_POSITION, MAX_SITES};
pub use path::{EventCause, FaultPath, Layout};
pub use script::{Event, Script};
pub use session::script_read;
pub use std::alloc::AllocError as NoMemory;
pub use stop::CaseError;
pub use texts::{write_cause, write_fault};
pub use trial::Trial;
