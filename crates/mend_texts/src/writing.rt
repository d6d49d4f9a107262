//! Texts and tokens behind what is written.
ghost use Rattle.std.specs.Prelude.{◌≡◌, ◌++◌, OnOk, string_bytes};
ghost use Rattle.fn_tokens.specs.Spelling.{spelled};

use fn_rules::NoMemory;
use fn_tokens::{Token, spell};
use std::alloc::Global;

/// Writes bytes.
pub(crate) fn write_bytes(bytes: &[u8], out: &mut Vec<u8>) -> Result<(), NoMemory>
    ensures { OnOk result (out.new.items ≡ out.old.items ++ bytes.now) }
{
    out.extend_from_slice(bytes)
}

/// Writes a text, which is given up.
pub(crate) fn write_text(text: String, out: &mut Vec<u8>) -> Result<(), NoMemory>
    ensures { OnOk result (out.new.items ≡ out.old.items ++ string_bytes text) }
{
    out.extend_from_slice(text.as_bytes())
}

/// Writes the bytes of tokens.
pub(crate) fn write_spelled(
    alloc: Global,
    tokens: &[Token],
    out: &mut Vec<u8>,
) -> Result<(), NoMemory>
    ensures { OnOk result (out.new.items ≡ out.old.items ++ spelled tokens.now) }
{
    let bytes = spell(alloc, tokens)?;
    out.extend_from_slice(bytes.as_slice())
}
