//! What a proof answers.
use cert_text::Tree;
use diff_graph::Lit;

/// An answer to a question.
#[derive(Clone, Copy, PartialEq, Eq)]
pub struct Answer {
    /// The literal that was asked.
    pub lit: Lit,

    /// Whether it is answered by yes.
    pub yes: bool,
}

/// What the search of a plan came to.
#[derive(Drop)]
pub enum Outcome<W> {
    /// The plan holds at every valuation: a tree that fits it, and how many questions the tree has.
    Yes { tree: Tree, asked: u64 },

    /// Some integers meet these answers, and the plan fails after them, with this cause.
    No { answers: Vec<Answer>, why: W },

    /// There are more questions than the budget allows.
    Spent,
}
