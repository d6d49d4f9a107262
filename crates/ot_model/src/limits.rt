//! The limits of what is integrated together.

/// The greatest number of cells of a document that operations are made on.
pub const MAX_CELLS: usize = 1_000_000;

/// The greatest number of operations that are made on one document and integrated in an order.
pub const MAX_OPERATIONS: usize = 1_000;
