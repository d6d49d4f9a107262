//! The places of a tree that is being written.
/// A place of a plan at which a tree is to be written: its node, how many literals its list has, and whether a lemma
/// was just begun here.
#[derive(Clone, Copy)]
pub struct TreePlace<N> {
    pub node: N,
    pub length: u32,
    pub begun: bool,
}

/// What waits behind the present place.
#[derive(Clone, Copy)]
pub enum WriterTask<N> {
    /// A place. Its facts stand with those of the other places that wait.
    Part(TreePlace<N>),

    /// The cycle of a part that no integers lead to, of so many numbers. They stand with those of the other cycles that
    /// wait.
    Cycle(usize),

    /// No token: the tree of the lemma at this place of the list has ended.
    Learn(usize),
}

/// What a step of the writer came to.
#[derive(Clone, Copy, PartialEq, Eq)]
pub enum WriterStep {
    /// More is to be written.
    More,

    /// The tree came to its end.
    Done,

    /// A question was met that is one more than may be asked.
    Spent,

    /// An end that fails, or a literal that does not follow.
    Stuck,
}

/// How the writing of a tree ended.
#[derive(Clone, Copy, PartialEq, Eq)]
pub enum TreeEnd {
    /// The tree came to its end.
    Whole,

    /// A question was met that is one more than may be asked.
    Spent,

    /// The text has more bytes than it may have.
    TooLong,

    /// The walk found no way on: an end fails, or a literal does not follow.
    Stuck,
}

/// How the writing of a tree ended, and how many questions were asked.
#[derive(Clone, Copy)]
pub struct TreeWritten {
    pub ending: TreeEnd,
    pub asked: u64,
}
