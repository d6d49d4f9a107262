//! Lines of columns, and bytes behind what is written.
ghost use Rattle.std.specs.Prelude.{◌≡◌, ◌++◌, OnOk};
ghost use Rattle.ot_trace.specs.Columns.{columns, two_columns};

use ot_model::NoMemory;
use ot_steps::append_padded;

/// Appends bytes.
pub(crate) fn append(bytes: &[u8], out: &mut Vec<u8>) -> Result<(), NoMemory>
    ensures { OnOk result (out.new.items ≡ out.old.items ++ bytes.now) }
{
    out.extend_from_slice(bytes)
}

/// Writes a line of three columns.
pub(crate) fn write_columns(
    first: &[u8],
    second: &[u8],
    last: &[u8],
    out: &mut Vec<u8>,
) -> Result<(), NoMemory>
    ensures { OnOk result (out.new.items ≡ out.old.items ++ columns first.now second.now last.now) }
{
    append_padded(22, first, out)?;
    append_padded(14, second, out)?;
    append(last, out)?;
    append(b"\n", out)
}

/// Writes a line of two columns.
pub(crate) fn write_two_columns(
    first: &[u8],
    second: &[u8],
    out: &mut Vec<u8>,
) -> Result<(), NoMemory>
    ensures { OnOk result (out.new.items ≡ out.old.items ++ two_columns first.now second.now) }
{
    append_padded(22, first, out)?;
    append(second, out)?;
    append(b"\n", out)
}
