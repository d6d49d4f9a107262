//! The lines of a proof, each by its one spelling.
ghost use Rattle.std.specs.Prelude.{◌≡◌, ◌<◌, ◌≤◌, drop, length, IfOk, IfErr};
ghost use Rattle.proof_text.specs.Answers.{Answers};
ghost use Rattle.proof_text.specs.Fronts.{Found, Missing, fixed_front};
ghost use Rattle.proof_text.specs.Lines.{end_front, header_front, line_end_front, ob_front};
ghost use Rattle.proof_text.specs.Spelling.{proof_header_text};

use crate::Unread;
use cert_text::ob_line;
use fn_rules::{Level, ObName};
use std::alloc::Global;

/// The first line of a proof of a level.
pub(crate) fn header_line(level: Level) -> &'static [u8]
    ensures { result.now ≡ proof_header_text level }
{
    match level {
        Level::Tp1 => b"otproof 1 tp1\n",
        Level::Tp2 => b"otproof 1 tp2\n",
    }
}

// Exactly this text at the front of the bytes: the bytes after it.
fn fixed<'a>(text: &[u8], bytes: &'a [u8]) -> Result<&'a [u8], Unread>
    ensures found { IfOk result (λ rest. fixed_front text.now bytes.now ≡ Found tt rest.now) }
    ensures missing { IfErr result (λ why. fixed_front text.now bytes.now ≡ Missing why) }
{
    let Some((wanted, more)) = text.split_first() else {
        return Ok(bytes);
    };
    let Some((byte, rest)) = bytes.split_first() else {
        return Err(Unread::Cut);
    };
    if *wanted != *byte {
        return Err(Unread::Misspelt);
    }
    fixed(more, rest)
}

fn read_fixed(text: &[u8], bytes: &[u8], at: usize) -> Result<usize, Unread>
    requires some { 0 < length text.now }
    requires within { at ≤ length bytes.now }
    ensures { Answers (fixed_front text.now) bytes.now at tt result }
{
    let rest = fixed(text, &bytes[at..])?;
    Ok(bytes.len() - rest.len())
}

fn header<'a>(bytes: &'a [u8]) -> Result<(Level, &'a [u8]), Unread>
    ensures found { IfOk result (λ x. header_front bytes.now ≡ Found x.0 x.1.now) }
    ensures missing { IfErr result (λ why. header_front bytes.now ≡ Missing why) }
{
    match fixed(header_line(Level::Tp1), bytes) {
        Ok(rest) => return Ok((Level::Tp1, rest)),
        Err(Unread::Cut) => return Err(Unread::Cut),
        Err(Unread::Misspelt) => (),
    }
    match fixed(header_line(Level::Tp2), bytes) {
        Ok(rest) => Ok((Level::Tp2, rest)),
        Err(why) => Err(why),
    }
}

/// Reads the first line of a proof: its level, and how many bytes it has.
pub fn read_header(bytes: &[u8]) -> Result<(Level, usize), Unread>
    ensures found { IfOk result (λ x. (0 < x.1) × (x.1 ≤ length bytes.now)
        × (header_front bytes.now ≡ Found x.0 (drop x.1 bytes.now))) }
    ensures missing { IfErr result (λ why. header_front bytes.now ≡ Missing why) }
{
    match header(bytes) {
        Ok((level, rest)) => Ok((level, bytes.len() - rest.len())),
        Err(why) => Err(why),
    }
}

/// Reads the line before the tree of an obligation at a place of the bytes: how many bytes stand before what comes
/// after it. The allocator is not asked for memory.
pub fn read_ob(alloc: Global, bytes: &[u8], at: usize, name: ObName) -> Result<usize, Unread>
    requires { at ≤ length bytes.now }
    ensures { Answers (ob_front name) bytes.now at tt result }
{
    let line = ob_line(alloc, name);
    read_fixed(line.as_slice(), bytes, at)
}

/// Reads the newline after a tree at a place of the bytes: how many bytes stand before what comes after it.
pub fn read_line_end(bytes: &[u8], at: usize) -> Result<usize, Unread>
    requires { at ≤ length bytes.now }
    ensures { Answers line_end_front bytes.now at tt result }
{
    read_fixed(b"\n", bytes, at)
}

/// Reads the last line at a place of the bytes: how many bytes stand before what comes after it.
pub fn read_end(bytes: &[u8], at: usize) -> Result<usize, Unread>
    requires { at ≤ length bytes.now }
    ensures { Answers end_front bytes.now at tt result }
{
    read_fixed(b"end\n", bytes, at)
}
