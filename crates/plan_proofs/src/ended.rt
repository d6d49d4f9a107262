//! What a search comes to.

/// Why a search says nothing.
#[derive(Clone, Copy, PartialEq, Eq, Debug)]
pub enum SpentCause {
    /// The budget is spent: the search, or the walk that writes what it showed, met a question that is one more than it
    /// may ask.
    Budget,

    /// The text of the proof passes `MAX_BYTES`.
    Bytes,

    /// There is no way on: neither a proof nor a refutation came of what the search found.
    NoWay,
}

/// What a search comes to, where failing is told by an `E`.
#[derive(Drop)]
pub enum Ended<E> {
    /// Trees that show what was searched were written.
    Shown,

    /// It fails there.
    Fails(E),

    /// Nothing is said, for this cause.
    Spent(SpentCause),
}

/// Numbers of questions: of those that searches ask, and of those that the walks that write what they showed ask again.
#[derive(Clone, Copy)]
pub struct Questions {
    pub asked: u64,
    pub again: u64,
}

/// What a search came to, how many questions were asked, and whether one was met that is more than may be asked.
#[derive(Drop)]
pub struct Searched<E> {
    pub ended: Ended<E>,
    pub asked: Questions,
    pub over: bool,
}
