//! Documents of cells, the operations on them, and what an operation does to a document.
//!
//! A document is a list of cells; a cell is a character and a flag that says whether it is live.
//! Positions count every cell, dead ones too, from 0.
//!
//! The layers above rely on one clause: `apply` makes of a document what `document_after` says, or
//! refuses it and leaves it as it was. Which operations it takes says `IsEnabled`, and `enabled`
//! tests that.
#![tactic(auto)]

mod cell;
mod doc;
mod effect;
mod laws;
mod limits;
mod op;

pub use cell::Cell;
pub use doc::Doc;
pub use effect::{apply, enabled};
pub use laws::{
    documents_grow_by_one_cell_at_most, every_kind_is_listed, kinds_are_told_apart,
    operations_have_the_parts_of_their_kind, placing_changes_the_position_alone,
};
pub use limits::{MAX_CELLS, MAX_OPERATIONS};
pub use op::{Apply, KINDS, Kind, Mode, Op};
pub use std::alloc::AllocError as NoMemory;
