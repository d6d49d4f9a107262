//! Edits of a function.
use crate::change::Change;
use ot_model::Kind;

/// One edit of a function.
#[derive(Clone, Copy)]
pub enum Edit {
    /// The cases of a pair of kinds are changed.
    InBlock {
        first: Kind,
        second: Kind,
        change: Change,
    },

    /// `assume sites differ` is put in.
    AssumeSites,

    /// `assume chars differ` is put in.
    AssumeChars,
}
