//! What an operation does to a document.
ghost use Rattle.std.specs.Prelude.{◌≡◌, ◌↔◌, ◌≤ℤ◌, ◌<ℤ◌, ◌&&◌, pos, int_le, int_lt, length, IsTrue, OnOk, OnErr};
ghost use Rattle.ot_model.specs.Operations.{IsInsert};
ghost use Rattle.ot_model.specs.Effect.{IsEnabled, is_enabled, document_after};

use crate::cell::Cell;
use crate::doc::Doc;
use crate::op::{Apply, Mode, Op};

// Whether a document of `len` cells has one at this position.
fn has_cell_at(at: i64, len: usize) -> bool
    ensures fact { IsTrue result ↔ ((pos 0 ≤ℤ at) × (at <ℤ pos len)) }
    ensures test { result ≡ (int_le (pos 0) at && int_lt at (pos len)) }
{
    0 <= at && (at as u64) < len as u64
}

/// Whether the operation may be applied to a document of `len` cells: an insertion also at the end,
/// a deletion and an update only where a cell is, dead or live, and nop always.
pub fn enabled(op: &Op, len: usize) -> bool
    ensures fact { IsTrue result ↔ IsEnabled op.now len }
    ensures test { result ≡ is_enabled op.now len }
{
    match *op {
        Op::Ins { at, .. } => 0 <= at && at as u64 <= len as u64,
        Op::Del { at, .. } => has_cell_at(at, len),
        Op::Upd { at, .. } => has_cell_at(at, len),
        Op::Nop => true,
    }
}

/// Applies an operation. A document that was refused is as it was.
pub fn apply(mode: Mode, op: &Op, doc: &mut Doc) -> Result<(), Apply>
    ensures ok { OnOk result (doc.new ≡ document_after mode op.now doc.old) }
    ensures was_enabled { OnOk result (IsEnabled op.now (length doc.old)) }
    ensures err { OnErr result (doc.new ≡ doc.old) }

    // Each error has its cause, and want of memory never hides a refusal.
    ensures not_enabled { (result ≡ Err Apply.NotEnabled) ↔ ¬ (IsEnabled op.now (length doc.old)) }
    ensures no_memory { result ≡ Err Apply.NoMemory → IsInsert op.now }
{
    if !enabled(op, doc.len()) {
        return Err(Apply::NotEnabled);
    }
    match *op {
        Op::Ins { at, ch, .. } => doc.insert(at as usize, Cell { ch, live: true })?,
        Op::Del { at, .. } => match mode {
            Mode::Plain => doc.remove(at as usize),
            Mode::Tomb => doc.bury(at as usize),
        },
        Op::Upd { at, ch, .. } => doc.rewrite(at as usize, ch),
        Op::Nop => (),
    }
    Ok(())
}
