//! Why an obligation fails at some integers.

/// The cause.
#[derive(Clone, Copy, PartialEq, Eq)]
pub enum Why {
    /// No case's guard is true at two of the operations.
    Undefined,

    /// A transformed operation is not enabled where it would be executed.
    OutOfRange,

    /// The two final documents have different lengths.
    Lengths,

    /// The two final documents differ at the index. The offsets, from the index, say which cells of the
    /// document that both come from are to be told from the others so that this is seen.
    Cells {
        /// The cell that gives the left final document's cell its character or its flag, if one does.
        left: Option<i32>,

        /// The cell that is to be dead, if one is. One of the two final documents has its flag there,
        /// under a character that was put; the other has a live character that was put, or the flag of
        /// another cell.
        dead: Option<i32>,
    },

    /// The third operation has two different forms.
    Operations,
}
