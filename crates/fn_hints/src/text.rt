//! The lines of a hint.

ghost use Rattle.std.specs.Prelude.{◌≡◌, ◌++◌, ◌∷◌, [], replicate, flat_map, string_bytes, OnOk};
ghost use Rattle.fn_tokens.specs.Words.{spelling_of};
ghost use Rattle.fn_tokens.specs.declared.token.Word.TheVariants as Word;
ghost use Rattle.fn_tokens.specs.Spelling.{spelled};
ghost use Rattle.fn_hints.specs.Hints.{hint_of};
ghost use Rattle.fn_hints.specs.Texts.{sentence_of, slip_sentence, slip_line, token_name, spaced_name, number_names};
ghost use Rattle.fn_hints.specs.Texts.{is_nothing, standing_names, shown_lines, standing_line, hint_text};

use crate::hint::Hint;
use crate::slip::Slip;
use crate::standing::Numbers;
use fn_text::{FaultKind, NoMemory, Token};
use fn_tokens::spell;
use ot_model::Kind;
use std::alloc::Global;

fn sentence(cause: FaultKind) -> &'static str
    ensures { result.now ≡ sentence_of cause }
{
    match cause {
        FaultKind::Byte => "No token begins with this byte.",
        FaultKind::Word => "The language has no such word.",
        FaultKind::Expected => "Something else must stand here.",
        FaultKind::Sort => {
            "Two things of one sort are compared, one of each operation; only ins and upd have a character."
        }
        FaultKind::Offset => "The number behind + or - is at most 99.",
        FaultKind::Missing => "Each two declared kinds have a block before end.",
        FaultKind::Double => "These two kinds have a block already.",
        FaultKind::Kind => "This kind is not declared in the line kinds.",
        FaultKind::Cases => "A block has at most 64 cases.",
        FaultKind::Atoms => "A case has at most 16 comparisons and true.",
        FaultKind::Nesting => "At most 32 ( and not stand around one another.",
        FaultKind::Outcome => "A result is nop, or has the first kind of its block.",
        FaultKind::Version => "The languages are 1 and 2.",
    }
}

/// Writes a text, which is given up.
fn write_text(text: String, out: &mut Vec<u8>) -> Result<(), NoMemory>
    ensures { OnOk result (out.new.items ≡ out.old.items ++ string_bytes text) }
{
    out.extend_from_slice(text.as_bytes())
}

fn kind_word(kind: Kind) -> &'static str
    ensures { result.now ≡ spelling_of (Word.Kind kind) }
{
    match kind {
        Kind::Ins => "ins",
        Kind::Del => "del",
        Kind::Upd => "upd",
    }
}

fn write_missing(
    alloc: Global,
    first: Kind,
    second: Kind,
    out: &mut Vec<u8>,
) -> Result<(), NoMemory>
    ensures { OnOk result (out.new.items ≡ out.old.items ++ slip_sentence (Slip.MissingBlock first second)) }
{
    let one = kind_word(first);
    let other = kind_word(second);
    write_text(format!(in alloc; "There is no block {one} {other}.")?, out)
}

fn write_slip(alloc: Global, slip: Slip, out: &mut Vec<u8>) -> Result<(), NoMemory>
    ensures { OnOk result (out.new.items ≡ out.old.items ++ slip_sentence slip) }
{
    match slip {
        Slip::Greater => {
            out.extend_from_slice(b"There is no >: write p1 > p2 the other way round, p2 < p1.")
        }
        Slip::GreaterEqual => {
            out.extend_from_slice(b"There is no >=: write p1 >= p2 the other way round, p2 <= p1.")
        }
        Slip::DoubledEquals => out.extend_from_slice(b"Write one =, as in p1 = p2."),
        Slip::NotEqual => out.extend_from_slice(b"There is no !=: write not p1 = p2."),
        Slip::Ampersands => out.extend_from_slice(b"There is no &&: write and."),
        Slip::Bars => out.extend_from_slice(b"There is no ||: write or."),
        Slip::SumOnTheLeft => out.extend_from_slice(
            b"A sum stands on the right alone: write p1 + 1 <= p2 as p1 <= p2 - 1.",
        ),
        Slip::LoneNumber => {
            out.extend_from_slice(b"A number stands behind + or - alone, as in p1 = p2 + 1.")
        }
        Slip::MissingBlock(first, second) => write_missing(alloc, first, second, out),
    }
}

fn write_slip_line(alloc: Global, slip: Option<Slip>, out: &mut Vec<u8>) -> Result<(), NoMemory>
    ensures { OnOk result (out.new.items ≡ out.old.items ++ slip_line slip) }
{
    match slip {
        None => Ok(()),
        Some(slip) => {
            write_slip(alloc, slip, out)?;
            out.push(b'\n')?;
            Ok(())
        }
    }
}

fn write_spelled(alloc: Global, token: Token, out: &mut Vec<u8>) -> Result<(), NoMemory>
    ensures { OnOk result (out.new.items ≡ out.old.items ++ spelled (token ∷ [])) }
{
    let bytes = spell(alloc, &[token])?;
    out.extend_from_slice(bytes.as_slice())
}

fn write_name(alloc: Global, token: Token, out: &mut Vec<u8>) -> Result<(), NoMemory>
    ensures { OnOk result (out.new.items ≡ out.old.items ++ token_name token) }
{
    match token {
        Token::LineEnd => out.extend_from_slice(b"line-end"),
        Token::FileEnd => out.extend_from_slice(b"file-end"),
        token => write_spelled(alloc, token, out),
    }
}

fn write_spaced(alloc: Global, token: Token, out: &mut Vec<u8>) -> Result<(), NoMemory>
    ensures { OnOk result (out.new.items ≡ out.old.items ++ spaced_name token) }
{
    out.extend_from_slice(b" ")?;
    write_name(alloc, token, out)
}

fn write_tokens(alloc: Global, tokens: &[Token], out: &mut Vec<u8>) -> Result<(), NoMemory>
    ensures { OnOk result (out.new.items ≡ out.old.items ++ flat_map spaced_name tokens.now) }
{
    for token in tokens {
        write_spaced(alloc, *token, out)?;
    }
    Ok(())
}

fn number_names(numbers: Numbers) -> &'static str
    ensures { result.now ≡ number_names numbers }
{
    match numbers {
        Numbers::NoNumber => "",
        Numbers::OfLanguages => " 1 2",
        Numbers::UpTo99 => " 0..99",
    }
}

fn is_nothing(tokens: &[Token], numbers: Numbers) -> bool
    ensures { result ≡ is_nothing tokens.now numbers }
{
    match (tokens, numbers) {
        ([], Numbers::NoNumber) => true,
        _ => false,
    }
}

fn write_names(
    alloc: Global,
    tokens: &[Token],
    numbers: Numbers,
    out: &mut Vec<u8>,
) -> Result<(), NoMemory>
    ensures { OnOk result (out.new.items ≡ out.old.items ++ standing_names tokens.now numbers) }
{
    if is_nothing(tokens, numbers) {
        return out.extend_from_slice(b" nothing");
    }
    write_tokens(alloc, tokens, out)?;
    out.extend_from_slice(number_names(numbers).as_bytes())
}

fn write_standing(
    alloc: Global,
    tokens: &[Token],
    numbers: Numbers,
    out: &mut Vec<u8>,
) -> Result<(), NoMemory>
    ensures { OnOk result (out.new.items ≡ out.old.items ++ standing_line tokens.now numbers) }
{
    out.extend_from_slice(b"may stand:")?;
    write_names(alloc, tokens, numbers, out)?;
    out.extend_from_slice(b"\n")
}

fn write_spaces(count: usize, out: &mut Vec<u8>) -> Result<(), NoMemory>
    ensures { OnOk result (out.new.items ≡ out.old.items ++ replicate count 32) }
{
    for _i in 0..count {
        out.push(b' ')?;
    }
    Ok(())
}

fn write_shown(shown: &[u8], mark: usize, out: &mut Vec<u8>) -> Result<(), NoMemory>
    ensures { OnOk result (out.new.items ≡ out.old.items ++ shown_lines shown.now mark) }
{
    out.extend_from_slice(b"  ")?;
    out.extend_from_slice(shown)?;
    out.extend_from_slice(b"\n  ")?;
    write_spaces(mark, out)?;
    out.extend_from_slice(b"^\n")
}

fn write_sentence(cause: FaultKind, out: &mut Vec<u8>) -> Result<(), NoMemory>
    ensures { OnOk result (out.new.items ≡ out.old.items ++ (sentence_of cause ++ 10 ∷ [])) }
{
    out.extend_from_slice(sentence(cause).as_bytes())?;
    out.extend_from_slice(b"\n")
}

/// Writes the lines of a hint.
pub fn write_hint(alloc: Global, hint: &Hint, out: &mut Vec<u8>) -> Result<(), NoMemory>
    ensures { OnOk result (out.new.items ≡ out.old.items ++ hint_text (hint_of hint.now)) }
{
    write_shown(hint.shown.as_slice(), hint.mark, out)?;
    write_sentence(hint.fault.kind, out)?;
    write_slip_line(alloc, hint.slip, out)?;
    write_standing(alloc, hint.tokens.as_slice(), hint.numbers, out)
}
