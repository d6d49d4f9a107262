//! The outside: what a program reads from and writes to, told by meanings that proofs can name.
//!
//! A shelf holds files under names, a sink takes bytes, a feed gives them one at a time. Each has a
//! count of faults, and answers `Failed` only where that count rose. A name in a clause is the list of
//! its bytes.
//!
//! The layers above rely on two clauses: `read_all` gives the file that the shelf holds, and
//! `write_all` appends the bytes. An answer other than Ok says why.
#![tactic(auto)]

mod counts;
mod feed;
mod machine;
mod mem_shelf;
mod mem_sink;
mod record;
mod shelf;
mod shelf_feed;
mod sink;
mod slice_feed;
mod whole;

pub use feed::Feed;
pub use machine::{FileShelf, StdSink};
pub use mem_shelf::MemShelf;
pub use mem_sink::MemSink;
pub use shelf::{Failed, Shelf};
pub use shelf_feed::ShelfFeed;
pub use sink::Sink;
pub use slice_feed::SliceFeed;
pub use std::alloc::AllocError as NoMemory;
pub use whole::{ReadError, read_all, write_all};
