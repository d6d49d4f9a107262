//! How the plan of an obligation goes on.
use crate::why::Why;
use diff_graph::Lit;

/// What comes next after given answers.
#[derive(Clone, Copy, PartialEq, Eq)]
pub enum Next {
    /// The literal is asked.
    Asked(Lit),

    /// The obligation holds here.
    Holds,

    /// The obligation fails here, with the cause.
    Fails(Why),
}
