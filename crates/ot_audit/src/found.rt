//! What is found of two operations that are sought.
use ot_model::Op;

/// What the search of a goal of two operations comes to.
#[derive(Clone, Copy, PartialEq, Eq)]
pub enum Sought {
    /// No end of the goal's plan fails.
    Nowhere,

    /// The length of a document, and the two operations: the least values of the first end that fails name them.
    At {
        /// How many cells the document has.
        cells: u32,
        a: Op,
        b: Op,
    },

    /// There are more questions than the budget allows.
    Spent,
}

/// What a search for two operations comes to.
#[derive(Clone, Copy, PartialEq, Eq)]
pub enum Found {
    /// There are no such operations.
    Never,

    /// The two operations.
    Pair(Op, Op),

    /// There are more questions than the budget allows.
    Spent,
}

/// Whether two functions agree on a block.
#[derive(Clone, Copy, PartialEq, Eq)]
pub enum Agree {
    /// They do: at all operations that are meant both give the same operation, or neither gives one.
    Same,

    /// They do not, at these operations.
    Pair {
        a: Op,
        b: Op,

        /// What the first function makes of `a`, if anything.
        left: Option<Op>,

        /// What the second one does.
        right: Option<Op>,
    },

    /// There are more questions than the budget allows.
    Spent,
}
