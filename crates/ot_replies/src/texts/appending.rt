//! Bytes and texts behind what is written.
ghost use Rattle.std.specs.Prelude.{◌≡◌, ◌++◌, string_bytes, OnOk};

use ot_model::NoMemory;

/// Appends bytes.
pub(super) fn append_bytes(bytes: &[u8], out: &mut Vec<u8>) -> Result<(), NoMemory>
    ensures { OnOk result (out.new.items ≡ out.old.items ++ bytes.now) }
{
    out.extend_from_slice(bytes)
}

/// Appends a text, which is given up.
pub(super) fn append_text(text: String, out: &mut Vec<u8>) -> Result<(), NoMemory>
    ensures { OnOk result (out.new.items ≡ out.old.items ++ string_bytes text) }
{
    append_bytes(text.as_bytes(), out)
}
