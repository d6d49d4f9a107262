//! How a plan begins.

/// What an asker answers at a node: the literal that it asks with the nodes for yes and for no, or
/// that the plan ends here.
#[derive(Clone, Copy, PartialEq, Eq)]
pub enum Turn<N, W> {
    /// The literal is asked; `yes` and `no` are the nodes after the two answers.
    Ask { lit: diff_graph::Lit, yes: N, no: N },

    /// The plan ends, and what it decides holds here.
    Holds,

    /// The plan ends, and what it decides fails here, with the cause.
    Fails(W),
}
