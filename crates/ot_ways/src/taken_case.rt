//! A case that a transformation takes.
use ot_model::Kind;

/// A case of a function: the kinds of its block, and its number there.
#[derive(Clone, Copy, PartialEq, Eq)]
pub struct Taken {
    /// The kind of the operation that is transformed.
    pub first: Kind,

    /// The kind of the operation that was executed before it.
    pub second: Kind,

    /// The place of the case in its block, counted from 0.
    pub number: usize,
}
