//! What a table of distances keeps for two names.

/// What is kept for an ordered pair of names `x`, `y`: that `x <= y + k` follows from the literals
/// added so far, and where a chain of them that shows it begins.
#[derive(Clone, Copy, PartialEq, Eq)]
pub struct Hop {
    /// The offset.
    pub k: i32,

    /// The number of the first literal of the chain. Of no meaning where `x` is `y`.
    pub number: u32,

    /// The second name of that literal, from which the chain goes on.
    pub second: u8,
}
