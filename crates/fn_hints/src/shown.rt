//! The line of a file as it is shown.

ghost use Rattle.std.specs.Prelude.{◌≡◌, ◌≤◌, ◌++◌, length, drop, take, map, IfOk, OnOk};
ghost use Rattle.std.specs.List.{prefix_len};
ghost use Rattle.fn_hints.specs.Shown.{behind_line_ends, is_inside, line_in, left_out, shown_byte, dots};
ghost use Rattle.fn_hints.specs.Shown.{shown_line, mark_at};

use fn_text::NoMemory;
use std::alloc::Global;

/// How many bytes of a line are shown.
const WIDTH: usize = 72;

/// What stands behind so many line ends.
fn behind_line_ends(bytes: &[u8], count: u32) -> &[u8]
    ensures { result.now ≡ behind_line_ends count bytes.now }
{
    let mut left = count;
    for (i, byte) in bytes.iter().enumerate() {
        if left == 0 {
            return &bytes[i..];
        }
        if *byte == b'\n' {
            left -= 1;
        }
    }
    &[]
}

/// How many bytes stand before the first line end.
fn line_len(bytes: &[u8]) -> usize
    ensures count { result ≡ prefix_len is_inside bytes.now }
    ensures within { result ≤ length bytes.now }
{
    for (i, byte) in bytes.iter().enumerate() {
        if *byte == b'\n' {
            return i;
        }
    }
    bytes.len()
}

/// The bytes of a line, counted from 1, without its end.
pub(crate) fn line_in(bytes: &[u8], line: u32) -> &[u8]
    ensures { result.now ≡ line_in line bytes.now }
{
    let rest = behind_line_ends(bytes, line.saturating_sub(1));
    &rest[..line_len(rest)]
}

/// How many bytes of a line are left out at its front.
fn left_out(column: u32) -> usize
    ensures { result ≡ left_out column }
{
    if column <= 60 {
        0
    } else {
        column as usize - 41
    }
}

/// What a line has from a byte on.
fn behind(line: &[u8], left: usize) -> &[u8]
    ensures { result.now ≡ drop left line.now }
{
    if left < line.len() {
        &line[left..]
    } else {
        &[]
    }
}

/// Its first bytes.
fn front(line: &[u8]) -> &[u8]
    ensures { result.now ≡ take 72 line.now }
{
    if line.len() <= WIDTH {
        line
    } else {
        &line[..WIDTH]
    }
}

fn shown_byte(byte: u8) -> u8
    ensures { result ≡ shown_byte byte }
{
    if byte == b' ' || byte == b'\t' || byte == b'\r' {
        b' '
    } else if b' ' <= byte && byte <= b'~' {
        byte
    } else {
        b'?'
    }
}

fn write_shown(bytes: &[u8], out: &mut Vec<u8>) -> Result<(), NoMemory>
    ensures { OnOk result (out.new.items ≡ out.old.items ++ map shown_byte bytes.now) }
{
    for byte in bytes {
        out.push(shown_byte(*byte))?;
    }
    Ok(())
}

/// Dots in place of what is left out.
fn write_dots(some: bool, out: &mut Vec<u8>) -> Result<(), NoMemory>
    ensures { OnOk result (out.new.items ≡ out.old.items ++ dots some) }
{
    if some {
        out.extend_from_slice(b"...")?;
    }
    Ok(())
}

/// A line as it is shown, with a mark at the column.
pub(crate) fn shown_line(alloc: Global, line: &[u8], column: u32) -> Result<Vec<u8>, NoMemory>
    ensures { IfOk result (λ shown. shown.items ≡ shown_line column line.now) }
{
    let mut out = Vec::new(alloc);
    let left = left_out(column);
    write_dots(0 < left, &mut out)?;
    write_shown(front(behind(line, left)), &mut out)?;
    write_dots(left + WIDTH < line.len(), &mut out)?;
    Ok(out)
}

/// How many bytes stand before the mark.
pub(crate) fn mark_at(column: u32) -> usize
    ensures { result ≡ mark_at column }
{
    if column <= 60 {
        column.saturating_sub(1) as usize
    } else {
        43
    }
}
