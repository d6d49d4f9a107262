//! Why nothing is read.

/// Why nothing is read at a place of some bytes.
#[derive(Clone, Copy, PartialEq, Eq)]
pub enum Unread {
    /// Nothing that is looked for has a spelling that begins so.
    Misspelt,

    /// The bytes end within the beginning of a spelling.
    Cut,
}
