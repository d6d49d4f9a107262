//! Proofs, written part by part.
ghost use Rattle.std.specs.Prelude.{◌≡◌, ◌+◌, ◌<◌, ◌∷◌, ◌++◌, [], ℤ, OnOk, OnErr};
ghost use Rattle.std.specs.Fmt.{decimal};
ghost use Rattle.cert_text.specs.Numbers.{more_numbers_text, numbers_text};
ghost use Rattle.cert_text.specs.Spelling.{ob_text};
ghost use Rattle.proof_text.specs.Spelling.{proof_header_text, literal_text, literals_text, more_literals_text};
ghost use Rattle.proof_text.specs.Spelling.{literal_name_text};
ghost use Rattle.proof_text.specs.Spelling.{newline_text, offset_text, proof_token_text};
ghost use Rattle.ot_outside.specs.Whole.{AppendsFront};

use crate::line::header_line;
use ask_core::NoMemory;
use cert_text::ob_line;
use diff_graph::Lit;
use fn_rules::{Level, ObName};
use itoa::Buffer;
use proof_trees::ProofTok;

/// Appends the first line of a proof of a level. After `NoMemory` a front of it was appended.
pub fn write_header(level: Level, out: &mut Vec<u8>) -> Result<(), NoMemory>
    ensures ok { OnOk result (out.new.items ≡ out.old.items ++ proof_header_text level) }
    ensures err { OnErr result (AppendsFront out.old.items (proof_header_text level) out.new.items) }
{
    append(header_line(level), out)
}

/// Appends the line before the tree of an obligation. After `NoMemory` a front of it was appended.
pub fn write_ob_line(name: ObName, out: &mut Vec<u8>) -> Result<(), NoMemory>
    ensures ok { OnOk result (out.new.items ≡ out.old.items ++ ob_text name) }
    ensures err { OnErr result (AppendsFront out.old.items (ob_text name) out.new.items) }
{
    let line = ob_line(*out.allocator(), name);
    append(line.as_slice(), out)
}

/// Appends the newline after a tree. After `NoMemory` nothing was appended.
pub fn write_line_end(out: &mut Vec<u8>) -> Result<(), NoMemory>
    ensures ok { OnOk result (out.new.items ≡ out.old.items ++ newline_text) }
    ensures err { OnErr result (AppendsFront out.old.items newline_text out.new.items) }
{
    append_byte(b'\n', out)
}

/// Appends a token. After `NoMemory` a front of it was appended.
pub fn write_token(tok: &ProofTok, out: &mut Vec<u8>) -> Result<(), NoMemory>
    ensures ok { OnOk result (out.new.items ≡ out.old.items ++ proof_token_text tok.now) }
    ensures err { OnErr result (AppendsFront out.old.items (proof_token_text tok.now) out.new.items) }
{
    match tok {
        ProofTok::Ask => append_byte(b'?', out),
        ProofTok::Holds => append_byte(b'.', out),
        ProofTok::Cycle(picks) => write_cycle(picks.as_slice(), out),
        ProofTok::Lemma(literals) => write_lemma(literals.as_slice(), out),
        ProofTok::Cite(number) => write_cite(*number, out),
    }
}

fn append(bytes: &[u8], out: &mut Vec<u8>) -> Result<(), NoMemory>
    ensures ok { OnOk result (out.new.items ≡ out.old.items ++ bytes.now) }
    ensures err { OnErr result (AppendsFront out.old.items bytes.now out.new.items) }
{
    out.extend_from_slice(bytes)
}

// One byte, which needs no copy of a slice.
#[inline]
fn append_byte(byte: u8, out: &mut Vec<u8>) -> Result<(), NoMemory>
    ensures ok { OnOk result (out.new.items ≡ out.old.items ++ byte ∷ []) }
    ensures err { OnErr result (AppendsFront out.old.items (byte ∷ []) out.new.items) }
{
    out.push(byte)?;
    Ok(())
}

#[inline]
fn digit_of(value: u32) -> u8
    requires { value < 10 }
    ensures { result ≡ 48 + value }
{
    b'0' + value as u8
}

// Most numbers have one digit.
fn write_number(number: u32, out: &mut Vec<u8>) -> Result<(), NoMemory>
    ensures ok { OnOk result (out.new.items ≡ out.old.items ++ decimal number) }
    ensures err { OnErr result (AppendsFront out.old.items (decimal number) out.new.items) }
{
    if number < 10 {
        return append_byte(digit_of(number), out);
    }
    let mut buffer = Buffer::new();
    append(buffer.format(number).as_bytes(), out)
}

fn write_more_numbers(numbers: &[u32], out: &mut Vec<u8>) -> Result<(), NoMemory>
    ensures ok { OnOk result (out.new.items ≡ out.old.items ++ more_numbers_text numbers.now) }
    ensures err { OnErr result (AppendsFront out.old.items (more_numbers_text numbers.now) out.new.items) }
{
    let Some((first, rest)) = numbers.split_first() else {
        return Ok(());
    };
    append_byte(b',', out)?;
    write_number(*first, out)?;
    write_more_numbers(rest, out)
}

fn write_numbers(numbers: &[u32], out: &mut Vec<u8>) -> Result<(), NoMemory>
    ensures ok { OnOk result (out.new.items ≡ out.old.items ++ numbers_text numbers.now) }
    ensures err { OnErr result (AppendsFront out.old.items (numbers_text numbers.now) out.new.items) }
{
    let Some((first, rest)) = numbers.split_first() else {
        return Ok(());
    };
    write_number(*first, out)?;
    write_more_numbers(rest, out)
}

fn write_cycle(numbers: &[u32], out: &mut Vec<u8>) -> Result<(), NoMemory>
    ensures ok { OnOk result (out.new.items ≡ out.old.items ++ (120 ∷ numbers_text numbers.now ++ 59 ∷ [])) }
    ensures err { OnErr result (AppendsFront out.old.items (120 ∷ numbers_text numbers.now ++ 59 ∷ []) out.new.items) }
{
    append_byte(b'x', out)?;
    write_numbers(numbers, out)?;
    append_byte(b';', out)
}

fn write_cite(number: u32, out: &mut Vec<u8>) -> Result<(), NoMemory>
    ensures ok { OnOk result (out.new.items ≡ out.old.items ++ (99 ∷ decimal number ++ 59 ∷ [])) }
    ensures err { OnErr result (AppendsFront out.old.items (99 ∷ decimal number ++ 59 ∷ []) out.new.items) }
{
    append_byte(b'c', out)?;
    write_number(number, out)?;
    append_byte(b';', out)
}

fn write_minus(amount: u32, out: &mut Vec<u8>) -> Result<(), NoMemory>
    ensures ok { OnOk result (out.new.items ≡ out.old.items ++ (45 ∷ decimal amount)) }
    ensures err { OnErr result (AppendsFront out.old.items (45 ∷ decimal amount) out.new.items) }
{
    append_byte(b'-', out)?;
    write_number(amount, out)
}

fn write_offset(offset: i32, out: &mut Vec<u8>) -> Result<(), NoMemory>
    ensures ok { OnOk result (out.new.items ≡ out.old.items ++ offset_text offset) }
    ensures err { OnErr result (AppendsFront out.old.items (offset_text offset) out.new.items) }
{
    if offset < 0 {
        write_minus(offset.unsigned_abs(), out)
    } else {
        write_number(offset.unsigned_abs(), out)
    }
}

// A name and the comma after it.
fn write_name(name: u32, out: &mut Vec<u8>) -> Result<(), NoMemory>
    ensures ok { OnOk result (out.new.items ≡ out.old.items ++ literal_name_text name) }
    ensures err { OnErr result (AppendsFront out.old.items (literal_name_text name) out.new.items) }
{
    write_number(name, out)?;
    append_byte(b',', out)
}

fn write_literal(literal: &Lit, out: &mut Vec<u8>) -> Result<(), NoMemory>
    ensures ok { OnOk result (out.new.items ≡ out.old.items ++ literal_text literal.now) }
    ensures err { OnErr result (AppendsFront out.old.items (literal_text literal.now) out.new.items) }
{
    write_name(literal.x as u32, out)?;
    write_name(literal.y as u32, out)?;
    write_offset(literal.k, out)
}

fn write_more_literals(literals: &[Lit], out: &mut Vec<u8>) -> Result<(), NoMemory>
    ensures ok { OnOk result (out.new.items ≡ out.old.items ++ more_literals_text literals.now) }
    ensures err { OnErr result (AppendsFront out.old.items (more_literals_text literals.now) out.new.items) }
{
    let Some((first, rest)) = literals.split_first() else {
        return Ok(());
    };
    append_byte(b'/', out)?;
    write_literal(first, out)?;
    write_more_literals(rest, out)
}

fn write_literals(literals: &[Lit], out: &mut Vec<u8>) -> Result<(), NoMemory>
    ensures ok { OnOk result (out.new.items ≡ out.old.items ++ literals_text literals.now) }
    ensures err { OnErr result (AppendsFront out.old.items (literals_text literals.now) out.new.items) }
{
    let Some((first, rest)) = literals.split_first() else {
        return Ok(());
    };
    write_literal(first, out)?;
    write_more_literals(rest, out)
}

fn write_lemma(literals: &[Lit], out: &mut Vec<u8>) -> Result<(), NoMemory>
    ensures ok { OnOk result (out.new.items ≡ out.old.items ++ (108 ∷ literals_text literals.now ++ 59 ∷ [])) }
    ensures err { OnErr result
        (AppendsFront out.old.items (108 ∷ literals_text literals.now ++ 59 ∷ []) out.new.items) }
{
    append_byte(b'l', out)?;
    write_literals(literals, out)?;
    append_byte(b';', out)
}
