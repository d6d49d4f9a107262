//! What a counterexample says.
use fn_rules::Level;
use ot_model::Doc;
use ot_questions::Why;
use plain_list::List;

/// What the interpreter gives on one of the two ways: the first thing that goes wrong there, or what is
/// compared at the end.
#[derive(Drop)]
pub enum WayResult {
    /// The final document, of two operations.
    Doc(Doc),

    /// The form of the third operation, of three.
    Op(ot_model::Op),

    /// A transformation has no result.
    Undefined,

    /// A form is not enabled where it would be executed.
    OutOfRange,
}

/// Operations that break a property on a document.
#[derive(Drop)]
pub struct Counter {
    /// The property: TP1, or TP2 where there are three operations.
    pub level: Level,

    /// The document on which all of them were made.
    pub doc: Doc,

    /// The two operations, or the three.
    pub ops: List<ot_model::Op>,

    /// How the property fails.
    pub why: Why,

    /// What the first operation and then the second give; of three, the form of the third behind them.
    pub left: WayResult,

    /// The same with the first two exchanged.
    pub right: WayResult,
}
