//! Literals.

/// The greatest offset of a literal that is asked, either way. That of its negation may be one further
/// from 0.
pub const MAX_LITERAL_OFFSET: i32 = 1_000;

/// The difference constraint `x <= y + k` over integers that are named by `x` and `y`.
#[derive(Clone, Copy, PartialEq, Eq)]
pub struct Lit {
    pub x: u8,
    pub y: u8,
    pub k: i32,
}

/// Why picks name no negative cycle, in the order of the tests.
#[derive(Clone, Copy, PartialEq, Eq)]
pub enum PickError {
    /// A pick is not below the number of literals.
    BadPick,

    /// The literals do not chain into a closed walk, or there is none.
    NotACycle,

    /// The offsets sum to 0 or more.
    NotNegative,
}
