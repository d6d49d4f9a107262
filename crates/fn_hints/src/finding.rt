//! From the bytes of a file to what is told of it.

ghost use Rattle.std.specs.Prelude.{◌≡◌, ◌<◌, ◌^◌, length, option_map, IfOk};
ghost use Rattle.fn_hints.specs.Hints.{hint_of, hint_for, hint_in};

use crate::hint::Hint;
use crate::shown::{line_in, mark_at, shown_line};
use crate::slip::slip_in;
use crate::standing::{numbers_at, tokens_at};
use fn_text::{NoMemory, WrongToken, first_wrong};
use std::alloc::Global;

fn hint_for(alloc: Global, bytes: &[u8], wrong: WrongToken) -> Result<Hint, NoMemory>
    ensures { IfOk result (λ hint. hint_of hint ≡ hint_for bytes.now wrong) }
{
    let line = line_in(bytes, wrong.at.line);
    Ok(Hint {
        shown: shown_line(alloc, line, wrong.at.column)?,
        mark: mark_at(wrong.at.column),
        fault: wrong.control.fault(&wrong.at),
        slip: slip_in(wrong, line),
        tokens: tokens_at(alloc, wrong)?,
        numbers: numbers_at(wrong.control.want),
    })
}

/// What is told of a file that is refused, and nothing of one that is read.
pub fn find_hint(alloc: Global, bytes: &[u8]) -> Result<Option<Hint>, NoMemory>
    requires { length bytes.now < 2 ^ 31 }
    ensures { IfOk result (λ hint. option_map hint_of hint ≡ hint_in bytes.now) }
{
    match first_wrong(alloc, bytes)? {
        None => Ok(None),
        Some(wrong) => Ok(Some(hint_for(alloc, bytes, wrong)?)),
    }
}
