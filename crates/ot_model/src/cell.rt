//! Cells, of which documents are made.

/// One character of a document, live or deleted.
#[derive(Clone, Copy, PartialEq, Eq)]
pub struct Cell {
    /// The character. A deleted cell keeps its own.
    pub ch: char,

    /// Whether the character is shown. A dead cell is a tombstone.
    pub live: bool,
}
