//! Sessions with a central server, which fixes one order of what its clients made.
#![tactic(auto)]

mod answer;
mod carry;
mod client;
mod crossing;
mod hub;
mod laws;
mod limits;
mod placed;
mod server;

pub use answer::{Edit, Move, Moved};
pub use crossing::Crossing;
pub use hub::Hub;
pub use laws::{hubs_follow_their_logs, tp1_carries_across};
pub use limits::{MAX_CLIENTS, MAX_EDITS};
pub use ot_model::NoMemory;
pub use placed::{Entry, PlacedOp};
