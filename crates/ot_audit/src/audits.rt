//! What is found of whole functions.
use ot_model::{Kind, Op};
use plain_list::List;

/// What the guards of a block reach.
#[derive(Drop)]
pub struct BlockAudit {
    /// The kind of the operation that is transformed.
    pub first: Kind,

    /// The kind of the other one.
    pub second: Kind,

    /// For each case, in order, two operations at which it is taken, or none where it never is.
    pub cases: List<Option<(Op, Op)>>,

    /// Two operations at which the block is open, or none where it is total.
    pub gap: Option<(Op, Op)>,
}

/// What the guards of a function reach.
#[derive(Drop)]
pub enum Audit {
    /// What those of each block reach, in canonical order.
    Blocks(List<BlockAudit>),

    /// Some case or some block has more questions than the budget allows.
    Spent,
}

/// Whether two functions are the same.
#[derive(Clone, Copy, PartialEq, Eq)]
pub enum Same {
    /// Their heads differ.
    Heads,

    /// They agree on every block.
    Everywhere,

    /// They do not agree on this block, at these operations, and agree on those in front of it.
    Differ {
        first: Kind,
        second: Kind,
        a: Op,
        b: Op,

        /// What the first function makes of `a`, if anything.
        left: Option<Op>,

        /// What the second one does.
        right: Option<Op>,
    },

    /// A block has more questions than the budget allows, and they agree on those in front of it.
    Spent,
}
