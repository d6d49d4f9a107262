//! The text of a document: each cell is its character, behind a `~` if it is dead.
ghost use Rattle.std.specs.Prelude.{◌≡◌, ◌≤◌, ◌<◌, [], ◌∷◌, ◌++◌, List, length, encode_utf8_all, IsUtf8};
ghost use Rattle.std.specs.Prelude.{OnOk, OnErr, Ok, IfSome, IfNone};
ghost use Rattle.std.specs.Option.{option_map};
ghost use Rattle.std.specs.Str.{chars};
ghost use Rattle.ot_model.specs.declared.cell.Cell.{Cell as CellValue};
ghost use Rattle.case_json.specs.Faults.{CaseReads};
ghost use Rattle.case_json.specs.DocText.{doc_text, cell_text, char_text, cells_within};
ghost use Rattle.case_json.specs.DocText.{cell_at, char_at, escaped_at, meant_by};
ghost use Rattle.ot_outside.specs.Whole.{AppendsFront};

use crate::fault::{CaseFault, Name};
use crate::stop::CaseError;
use ot_model::{Cell, Doc, MAX_CELLS, NoMemory};
use std::alloc::Global;

/// Reads the text of a document. Of a malformed place (`Field(Doc)`) and a cell too many
/// (`Limit(Cells)`) it answers the one that comes first in the text.
pub fn doc_read(alloc: Global, text: &str) -> Result<Doc, CaseError>
    ensures reading { CaseReads result (cells_within MAX_CELLS (chars text.now)) }
    ensures written { (doc : List CellValue) → length doc ≤ MAX_CELLS → chars text.now ≡ doc_text doc
        → CaseReads result (Ok doc) }
{
    let mut doc = Doc::new(alloc);
    let mut rest = text;
    while !rest.is_empty() {
        let Some((cell, behind)) = first_cell(rest) else {
            return Err(CaseError::Fault(CaseFault::Field(Name::Doc)));
        };
        if doc.len() == MAX_CELLS {
            return Err(CaseError::Fault(CaseFault::Limit(Name::Cells)));
        }
        doc.push(cell)?;
        rest = behind;
    }
    Ok(doc)
}

/// Writes the text of a document behind what is there. Where memory is wanting, a front of it.
pub fn doc_write(doc: &Doc, out: &mut Vec<u8>) -> Result<(), NoMemory>
    ensures ok { OnOk result (out.new.items ≡ out.old.items ++ encode_utf8_all (doc_text doc.now)) }
    ensures err { OnErr result (AppendsFront out.old.items (encode_utf8_all (doc_text doc.now)) out.new.items) }
{
    for cell in doc.cells() {
        write_cell(*cell, out)?;
    }
    Ok(())
}

/// Writes a cell.
fn write_cell(cell: Cell, out: &mut Vec<u8>) -> Result<(), NoMemory>
    ensures ok { OnOk result (out.new.items ≡ out.old.items ++ encode_utf8_all (cell_text cell)) }
    ensures err { OnErr result (AppendsFront out.old.items (encode_utf8_all (cell_text cell)) out.new.items) }
{
    if cell.live {
        return char_write(cell.ch, out);
    }
    out.push(b'~')?;
    char_write(cell.ch, out)
}

/// The cell that a text begins with, and the text behind it.
fn first_cell(text: &str) -> Option<(Cell, &str)>
    ensures reads { option_map (λ first. (first.0, chars first.1.now)) result ≡ cell_at (chars text.now) }
    ensures shorter { IfSome result (λ first. length first.1.now < length text.now) }
    ensures utf8 { IfSome result (λ first. IsUtf8 first.1.now) }
{
    let (begin, behind) = split_char(text)?;
    if begin == '~' {
        let (ch, behind) = first_char(behind)?;
        Some((Cell { ch, live: false }, behind))
    } else {
        let (ch, behind) = first_char(text)?;
        Some((Cell { ch, live: true }, behind))
    }
}

/// The character that a text begins with, escaped or as itself, and the text behind it.
fn first_char(text: &str) -> Option<(char, &str)>
    ensures reads { option_map (λ first. (first.0, chars first.1.now)) result ≡ char_at (chars text.now) }
    ensures shorter { IfSome result (λ first. length first.1.now < length text.now) }
    ensures utf8 { IfSome result (λ first. IsUtf8 first.1.now) }
{
    let (begin, behind) = split_char(text)?;
    match begin {
        '\\' => first_escaped(behind),
        '~' => None,
        _ => Some((begin, behind)),
    }
}

/// The character that a text behind a backslash begins with, and the text behind it.
fn first_escaped(text: &str) -> Option<(char, &str)>
    ensures reads { option_map (λ first. (first.0, chars first.1.now)) result ≡ escaped_at (chars text.now) }
    ensures shorter { IfSome result (λ first. length first.1.now < length text.now) }
    ensures utf8 { IfSome result (λ first. IsUtf8 first.1.now) }
{
    let (letter, behind) = split_char(text)?;
    Some((unescaped(letter)?, behind))
}

/// The character that a letter behind a backslash stands for.
fn unescaped(letter: char) -> Option<char>
    ensures { result ≡ meant_by letter }
{
    match letter {
        '\\' | '~' => Some(letter),
        'n' => Some('\n'),
        'r' => Some('\r'),
        _ => None,
    }
}

/// The first character of a text, and the text behind it.
pub(crate) fn split_char(text: &str) -> Option<(char, &str)>
    ensures some { IfSome result (λ first. chars text.now ≡ first.0 ∷ chars first.1.now) }
    ensures none { IfNone result (chars text.now ≡ []) }
    ensures shorter { IfSome result (λ first. length first.1.now < length text.now) }
    ensures utf8 { IfSome result (λ first. IsUtf8 first.1.now) }
{
    let mut rest = text.chars();
    match rest.next() {
        Some(ch) => Some((ch, rest.as_str())),
        None => None,
    }
}

/// Writes a character as the text of a document has it, behind what is there: escaped where it has a meaning of its
/// own. Where memory is wanting, a front of it.
pub fn char_write(ch: char, out: &mut Vec<u8>) -> Result<(), NoMemory>
    ensures ok { OnOk result (out.new.items ≡ out.old.items ++ encode_utf8_all (char_text ch)) }
    ensures err { OnErr result (AppendsFront out.old.items (encode_utf8_all (char_text ch)) out.new.items) }
{
    match ch {
        '\\' => out.extend_from_slice(b"\\\\"),
        '~' => out.extend_from_slice(b"\\~"),
        '\n' => out.extend_from_slice(b"\\n"),
        '\r' => out.extend_from_slice(b"\\r"),
        _ => out.extend_from_slice(ch.encode_utf8(&mut [0; 4]).as_bytes()),
    }
}
