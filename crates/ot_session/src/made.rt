//! The operations that were made.
ghost use Rattle.std.specs.Prelude.{◌≡◌, ◌↔◌, IsTrue};
ghost use Rattle.ot_causal.specs.Past.{maker};
ghost use Rattle.ot_session.specs.Past.{is_marked, made_operation, known_in, past_of, AreMarkedToo};

use ot_model::Op;
use plain_list::List;

/// An operation that was made, and what its site had integrated when it was made there.
#[derive(Drop)]
pub(crate) struct Made {
    /// The operation.
    pub op: Op,

    /// For each number of an operation, whether the site had integrated it; false for those that were made later.
    pub known: List<bool>,
}

/// Whether a number is marked.
pub(crate) fn is_marked(marks: &[bool], number: usize) -> bool
    ensures { result ≡ is_marked marks.now number }
{
    if number < marks.len() {
        marks[number]
    } else {
        false
    }
}

/// The operation with a number; nop where none was made.
pub(crate) fn operation(made: &[Made], number: u32) -> Op
    ensures { result ≡ (past_of made.now).operation number }
{
    match made.get(number as usize) {
        Some(one) => one.op,
        None => Op::Nop,
    }
}

/// The site that made an operation; 0 where none was made.
pub(crate) fn maker(made: &[Made], number: u32) -> u32
    ensures { result ≡ maker (past_of made.now) number }
{
    operation(made, number).site().unwrap_or(0)
}

/// Whether the first operation is before the second.
pub(crate) fn is_before(made: &[Made], first: u32, second: u32) -> bool
    ensures { result ≡ (past_of made.now).before first second }
{
    match made.get(second as usize) {
        Some(one) => is_marked(one.known.as_slice(), first as usize),
        None => false,
    }
}

/// Whether all that the first marks mark, the second ones mark too.
fn are_marked_too(first: &[bool], second: &[bool]) -> bool
    ensures { IsTrue result ↔ AreMarkedToo (is_marked first.now) (is_marked second.now) }
{
    for (number, mark) in first.iter().enumerate() {
        if *mark && !is_marked(second, number) {
            return false;
        }
    }
    true
}

/// Whether all that are before the operation are marked.
pub(crate) fn knows_all(made: &[Made], marks: &[bool], number: u32) -> bool
    ensures { IsTrue result ↔ AreMarkedToo (λ x. (past_of made.now).before x number) (is_marked marks.now) }
{
    match made.get(number as usize) {
        Some(one) => are_marked_too(one.known.as_slice(), marks),
        None => true,
    }
}
