//! Lines of words and numbers.
ghost use Rattle.std.specs.Prelude.{◌≡◌, ◌++◌, [], ◌∷◌, codes, OnOk};
ghost use Rattle.std.specs.Fmt.{decimal};
ghost use Rattle.ot_replies.specs.CounterTexts.{line_of};

use super::appending::append_text;
use ot_model::NoMemory;
use std::alloc::Global;

/// Writes a line of some words and one word behind them.
pub(super) fn write_word_line(
    alloc: Global,
    front: &str,
    word: &str,
    out: &mut Vec<u8>,
) -> Result<(), NoMemory>
    ensures { OnOk result (out.new.items ≡ out.old.items ++ line_of (front.now ++ codes " " ++ word.now)) }
{
    append_text(format!(in alloc; "{front} {word}\n")?, out)
}

/// Writes a line of some words and a number behind them.
pub(super) fn write_number_line(
    alloc: Global,
    front: &str,
    number: u64,
    out: &mut Vec<u8>,
) -> Result<(), NoMemory>
    ensures { OnOk result (out.new.items ≡ out.old.items ++ line_of (front.now ++ codes " " ++ decimal number)) }
{
    append_text(format!(in alloc; "{front} {number}\n")?, out)
}

/// Writes a line of some words, a number and a word behind it.
pub(super) fn write_cause_line(
    alloc: Global,
    front: &str,
    number: u64,
    word: &str,
    out: &mut Vec<u8>,
) -> Result<(), NoMemory>
    ensures { OnOk result (out.new.items ≡ out.old.items
        ++ (front.now ++ codes " " ++ decimal number ++ codes " " ++ word.now ++ 10 ∷ [])) }
{
    append_text(format!(in alloc; "{front} {number} {word}\n")?, out)
}
