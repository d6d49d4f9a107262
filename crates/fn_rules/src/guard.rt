//! Guards: what a case asks of two operations.

/// One of the two operations that a case speaks of.
#[derive(Clone, Copy, PartialEq, Eq)]
pub enum Side {
    /// The operation that is transformed.
    First,

    /// The operation that was executed before it.
    Second,
}

/// What an atom compares.
#[derive(Clone, Copy, PartialEq, Eq)]
pub enum Sort {
    /// Positions, with an offset.
    Pos,

    /// Sites.
    Site,

    /// Characters.
    Char,
}

/// How an atom compares.
#[derive(Clone, Copy, PartialEq, Eq)]
pub enum Cmp {
    Lt,
    Le,
    Eq,
}

/// A comparison of the thing of the `left` operation with the thing of the other operation plus `k`.
#[derive(Clone, Copy, PartialEq, Eq)]
pub struct Atom {
    pub sort: Sort,
    pub left: Side,
    pub cmp: Cmp,

    /// The offset, which is 0 for sites and characters.
    pub k: i32,
}

/// A condition on two operations.
#[derive(Drop)]
pub enum Guard {
    True,
    Atom(Atom),
    And(Box<Guard>, Box<Guard>),
    Or(Box<Guard>, Box<Guard>),
    Not(Box<Guard>),
}

/// Where a guard stands in its canonical print: how tightly its neighbours bind.
///
/// `or` binds loosest, then `and`, then `not`, and both `or` and `and` group from the left. So an `or`
/// stands without parentheses only where the place is `Loose`, and an `and` wherever it is not `Tight`.
#[derive(Clone, Copy, PartialEq, Eq)]
pub enum Tightness {
    /// A whole guard, a guard in parentheses, or the left operand of an `or`.
    Loose,

    /// The right operand of an `or`, or the left operand of an `and`.
    Joined,

    /// The right operand of an `and`, or the operand of a `not`.
    Tight,
}
