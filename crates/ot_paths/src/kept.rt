//! What is kept of goals that were laid out.
use ot_terms::{CellT, Goal, GoalProgress, SymOp};

/// What is left where a result is delivered.
#[derive(Clone, Copy)]
pub struct Behind<'a> {
    pub op: SymOp,
    pub progress: &'a GoalProgress,
    pub goal: &'a Goal<'a>,
}

/// What is left of a comparison where its left cell is read.
#[derive(Clone, Copy)]
pub struct Compared<'a> {
    pub left: CellT<'a>,
    pub goal: &'a Goal<'a>,
}
