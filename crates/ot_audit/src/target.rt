//! What is sought in a block.

/// What the guards of a block may reach.
#[derive(Clone, Copy, PartialEq, Eq)]
pub enum Target {
    /// The case of this number, counted from 0: its guard is true, and all earlier ones are false.
    Case(u32),

    /// The end of the block: all its guards are false.
    Open,
}
