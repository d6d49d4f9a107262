//! Places in arrays.

/// Places in arrays, each within the one before it, counted from 0.
#[derive(Clone, Copy, PartialEq, Eq)]
pub struct Places {
    pub first: Option<usize>,
    pub second: Option<usize>,
    pub third: Option<usize>,
}
