//! Bytes, texts and columns behind what is written.
ghost use Rattle.std.specs.Prelude.{◌≡◌, ◌++◌, replicate, string_bytes, OnOk};
ghost use Rattle.ot_steps.specs.Columns.{padded};

use crate::NoMemory;

/// The width of the column that says what is executed or transformed.
pub const LABEL: usize = 20;

/// The width of the column of operations.
pub const OPERATION: usize = 14;

/// The width of the column of documents.
pub const DOCUMENT: usize = 8;

/// Appends bytes.
pub(crate) fn append_bytes(bytes: &[u8], out: &mut Vec<u8>) -> Result<(), NoMemory>
    ensures { OnOk result (out.new.items ≡ out.old.items ++ bytes.now) }
{
    out.extend_from_slice(bytes)
}

/// Appends a text, which is given up.
pub(crate) fn append_text(text: String, out: &mut Vec<u8>) -> Result<(), NoMemory>
    ensures { OnOk result (out.new.items ≡ out.old.items ++ string_bytes text) }
{
    append_bytes(text.as_bytes(), out)
}

// Appends spaces.
fn append_spaces(count: usize, out: &mut Vec<u8>) -> Result<(), NoMemory>
    ensures { OnOk result (out.new.items ≡ out.old.items ++ replicate count 32) }
{
    for done in 0..count {
        out.push(b' ')?;
    }
    Ok(())
}

/// Appends a column: a text, and spaces up to the width, in bytes, but at least two.
pub fn append_padded(width: usize, text: &[u8], out: &mut Vec<u8>) -> Result<(), NoMemory>
    ensures { OnOk result (out.new.items ≡ out.old.items ++ padded width text.now) }
{
    append_bytes(text, out)?;
    append_spaces(width.saturating_sub(text.len()).max(2), out)
}
