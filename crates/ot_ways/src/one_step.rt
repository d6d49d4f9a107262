//! One transformation.
use crate::taken_case::Taken;
use ot_model::Op;

/// A transformation, and what it came to.
#[derive(Clone, Copy)]
pub struct Step {
    /// The operation that was transformed.
    pub op: Op,

    /// The operation against which it was transformed.
    pub against: Op,

    /// What it became; none where no case has a true guard.
    pub result: Option<Op>,

    /// The case that was taken; none where no case has a true guard, and where one of the two operations is nop.
    pub taken: Option<Taken>,
}
