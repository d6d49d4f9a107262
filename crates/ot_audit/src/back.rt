//! What is answered of a function and of one that is to reverse it.
use ot_model::{Doc, Op};

/// Whether a function is reversed by another one.
#[derive(Drop)]
pub enum Back {
    /// It is: on every document, of all operations.
    Yes,

    /// It is not, at these operations on this document.
    No {
        doc: Doc,
        a: Op,
        b: Op,

        /// What the first function makes of `a` against `b`, if anything.
        there: Option<Op>,

        /// What the second function makes of that against `b`, if anything.
        back: Option<Op>,
    },

    /// A pair of kinds has more questions than the budget allows, and nothing was found in those before it.
    Spent,
}
