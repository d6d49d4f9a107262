//! The line that no function of those that edits lead to is right.
ghost use Rattle.std.specs.Prelude.{◌≡◌, [], OnOk};
ghost use Rattle.ot_replies.specs.MendTexts.{not_mended_text};

use super::appending::append_bytes;
use super::lines::write_number_line;
use ot_model::NoMemory;
use std::alloc::Global;

/// Writes that no function of so many edits is right, or of any number of edits.
pub(super) fn write_not_mended(
    alloc: Global,
    most: Option<u32>,
    out: &mut Vec<u8>,
) -> Result<(), NoMemory>
    requires { out.old.items ≡ [] }
    ensures { OnOk result (out.new.items ≡ not_mended_text most) }
{
    match most {
        Some(edits) => write_number_line(alloc, "none", edits as u64, out),
        None => append_bytes(b"none\n", out),
    }
}
