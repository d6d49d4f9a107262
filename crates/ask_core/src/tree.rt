//! Tokens of trees that answer a plan.
use crate::picks::Picks;

/// A token of a tree. The tokens of a tree stand in preorder: a question, then its tree for yes, then its tree for no.
#[derive(Debug, Drop)]
pub enum Tok {
    /// `?`: a question, before the tree for yes and the tree for no.
    Ask,

    /// `.`: the plan holds here.
    Holds,

    /// `x`: no integers meet the answers so far, since those of these numbers are a negative cycle.
    Cycle(Picks),
}
