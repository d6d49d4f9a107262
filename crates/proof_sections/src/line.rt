//! The lines of a proof.
ghost use Rattle.std.specs.Prelude.{◌≡◌, ◌≤◌, length, drop, IfOk, IfErr};
ghost use Rattle.proof_text.specs.Fronts.{Found, Missing};
ghost use Rattle.proof_text.specs.Lines.{end_front, header_front, line_end_front, ob_front};
ghost use Rattle.proof_text.specs.declared.unread.Unread.{Unread};
ghost use Rattle.proof_sections.specs.Judgement.{Judges, line_judged, unread_at};

use crate::refusal::ConfirmError;
use crate::tree::unread_part;
use fn_rules::{Level, ObName};
use proof_text::{read_end, read_header, read_line_end, read_ob};
use std::alloc::Global;

/// Reads the first line: the level, and how many bytes it has.
pub fn judge_header(bytes: &[u8]) -> Result<(Level, usize), ConfirmError>
    ensures place { IfOk result (λ r. r.1 ≤ length bytes.now) }
    ensures found { IfOk result (λ r. header_front bytes.now ≡ Found r.0 (drop r.1 bytes.now)) }
    ensures missing { IfErr result (λ e. (unread : Unread) × (header_front bytes.now ≡ Missing unread)
        × (e ≡ unread_at (length bytes.now) 0 unread)) }
{
    match read_header(bytes) {
        Ok(header) => Ok(header),
        Err(unread) => Err(unread_part(bytes.len(), 0, unread)),
    }
}

/// Reads the line before the tree of an obligation: how many bytes stand before what comes after it.
pub fn judge_ob(alloc: Global, bytes: &[u8], at: usize, name: ObName) -> Result<usize, ConfirmError>
    requires { at ≤ length bytes.now }
    ensures { Judges bytes.now (line_judged (length bytes.now) (ob_front name) (drop at bytes.now)) result }
{
    match read_ob(alloc, bytes, at, name) {
        Ok(next) => Ok(next),
        Err(unread) => Err(unread_part(bytes.len(), at, unread)),
    }
}

/// Reads the newline after a tree.
pub fn judge_line_end(bytes: &[u8], at: usize) -> Result<usize, ConfirmError>
    requires { at ≤ length bytes.now }
    ensures { Judges bytes.now (line_judged (length bytes.now) line_end_front (drop at bytes.now)) result }
{
    match read_line_end(bytes, at) {
        Ok(next) => Ok(next),
        Err(unread) => Err(unread_part(bytes.len(), at, unread)),
    }
}

/// Reads the last line.
pub fn judge_end(bytes: &[u8], at: usize) -> Result<usize, ConfirmError>
    requires { at ≤ length bytes.now }
    ensures { Judges bytes.now (line_judged (length bytes.now) end_front (drop at bytes.now)) result }
{
    match read_end(bytes, at) {
        Ok(next) => Ok(next),
        Err(unread) => Err(unread_part(bytes.len(), at, unread)),
    }
}
