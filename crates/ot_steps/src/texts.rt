//! The parts of a line: operations, cases that are taken, and documents after operations.
ghost use Rattle.std.specs.Prelude.{◌≡◌, ◌++◌, unsigned_abs, codes, encode_utf8_all, OnOk};
ghost use Rattle.std.specs.Fmt.{signed_decimal};
ghost use Rattle.ot_model.specs.Operations.{at_of};
ghost use Rattle.fn_rules.specs.Rules.{function_of};
ghost use Rattle.cert_text.specs.Spelling.{kind_text};
ghost use Rattle.case_json.specs.DocText.{char_text};
ghost use Rattle.ot_ways.specs.Taken.{case_named};
ghost use Rattle.ot_steps.specs.StepTexts.{choice_text, end_text, named_case_text, result_text, short_op, taken_text};

use crate::NoMemory;
use crate::columns::{append_bytes, append_text};
use crate::short_document::write_short_document;
use case_json::char_write;
use fn_grammar::case_text;
use fn_rules::{Rules, rules_are_valid, undeclared_pairs_have_no_cases};
use ot_counter::WayResult;
use ot_model::{Kind, Op};
use ot_ways::{Step, Taken};
use std::alloc::Global;

// The word of a kind.
fn write_word(word: &str, out: &mut Vec<u8>) -> Result<(), NoMemory>
    ensures { OnOk result (out.new.items ≡ out.old.items ++ word.now) }
{
    append_bytes(word.as_bytes(), out)
}

// The position in front of a character.
fn write_position(alloc: Global, at: i64, out: &mut Vec<u8>) -> Result<(), NoMemory>
    ensures { OnOk result (out.new.items ≡ out.old.items ++ (codes " " ++ signed_decimal at ++ codes " ")) }
{
    append_text(format!(in alloc; " {at} ")?, out)
}

// An operation with a character, after the word of its kind.
fn write_with_char(
    alloc: Global,
    word: &str,
    at: i64,
    ch: char,
    out: &mut Vec<u8>,
) -> Result<(), NoMemory>
    ensures { OnOk result (out.new.items ≡ out.old.items
        ++ (word.now ++ codes " " ++ signed_decimal at ++ codes " " ++ encode_utf8_all (char_text ch))) }
{
    write_word(word, out)?;
    write_position(alloc, at, out)?;
    char_write(ch, out)
}

/// Writes an operation without its site.
pub fn write_short_op(alloc: Global, op: &Op, out: &mut Vec<u8>) -> Result<(), NoMemory>
    ensures { OnOk result (out.new.items ≡ out.old.items ++ short_op op.now) }
{
    match *op {
        Op::Ins { at, ch, .. } => write_with_char(alloc, "ins", at, ch, out),
        Op::Del { at, .. } => append_text(format!(in alloc; "del {at}")?, out),
        Op::Upd { at, ch, .. } => write_with_char(alloc, "upd", at, ch, out),
        Op::Nop => append_bytes(b"nop", out),
    }
}

/// Writes what a transformation came to.
pub fn write_form(alloc: Global, form: &Option<Op>, out: &mut Vec<u8>) -> Result<(), NoMemory>
    ensures { OnOk result (out.new.items ≡ out.old.items ++ result_text form.now) }
{
    match form {
        None => append_bytes(b"undefined", out),
        Some(op) => write_short_op(alloc, op, out),
    }
}

fn kind_word(kind: Kind) -> &'static str
    ensures { result.now ≡ kind_text kind }
{
    match kind {
        Kind::Ins => "ins",
        Kind::Del => "del",
        Kind::Upd => "upd",
    }
}

// The canonical text of a case, if there is the case.
fn write_named_case(
    alloc: Global,
    rules: &Rules,
    taken: Taken,
    out: &mut Vec<u8>,
) -> Result<(), NoMemory>
    ensures { OnOk result (out.new.items ≡ out.old.items
        ++ named_case_text (function_of rules.now) taken (case_named (function_of rules.now) taken)) }
{
    undeclared_pairs_have_no_cases();
    rules_are_valid(rules);
    if !rules.head().declares_pair(taken.first, taken.second) {
        return Ok(());
    }
    match case_text(alloc, rules, taken.first, taken.second, taken.number)? {
        Some(text) => append_bytes(&text, out),
        None => Ok(()),
    }
}

/// Writes a case: the kinds of its block, its number, and its canonical text.
pub fn write_taken(
    alloc: Global,
    rules: &Rules,
    taken: Taken,
    out: &mut Vec<u8>,
) -> Result<(), NoMemory>
    ensures { OnOk result (out.new.items ≡ out.old.items ++ taken_text (function_of rules.now) taken) }
{
    let first = kind_word(taken.first);
    let second = kind_word(taken.second);
    let number = taken.number;
    append_text(format!(in alloc; "{first} {second} {number}: ")?, out)?;
    write_named_case(alloc, rules, taken, out)
}

/// Writes the case that a transformation took, or that it took none.
pub fn write_choice(
    alloc: Global,
    rules: &Rules,
    step: &Step,
    out: &mut Vec<u8>,
) -> Result<(), NoMemory>
    ensures { OnOk result (out.new.items ≡ out.old.items
        ++ choice_text (function_of rules.now) step.now.result step.now.taken) }
{
    match step.taken {
        Some(taken) => write_taken(alloc, rules, taken, out),
        None => match step.result {
            None => append_bytes(b"no case", out),
            Some(_) => append_bytes(b"nop", out),
        },
    }
}

// The position of an operation, as a place of a document.
pub(crate) fn place_of(op: &Op) -> usize
    ensures { result ≡ unsigned_abs (at_of op.now) }
{
    op.position().unsigned_abs() as usize
}

// The document after an operation, or that the operation has no position there.
pub(crate) fn write_end(
    alloc: Global,
    form: &Option<Op>,
    end: &WayResult,
    out: &mut Vec<u8>,
) -> Result<(), NoMemory>
    ensures { OnOk result (out.new.items ≡ out.old.items ++ end_text form.now end.now) }
{
    let Some(op) = form else {
        return Ok(());
    };
    match end {
        WayResult::OutOfRange => append_bytes(b"range", out),
        WayResult::Doc(doc) => write_short_document(alloc, place_of(op), doc, out),
        WayResult::Undefined | WayResult::Op(_) => Ok(()),
    }
}
