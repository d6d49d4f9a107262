//! An obligation that fails.
use crate::FailingEnd;
use fn_rules::ObName;
use ot_questions::Why;

/// An obligation, and an end at which its plan fails.
#[derive(Drop)]
pub(crate) struct FailingOb {
    pub ob: ObName,
    pub end: FailingEnd<Why>,
}
