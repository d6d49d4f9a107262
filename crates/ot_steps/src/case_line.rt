//! A counterexample as a case, in one line.
ghost use Rattle.std.specs.Prelude.{◌≡◌, ◌++◌, map, Some, encode_utf8_all, string_bytes, IfOk, OnOk};
ghost use Rattle.serde_json.specs.View.{view};
ghost use Rattle.serde_json.specs.Written.{compact_text};
ghost use Rattle.case_json.specs.DocText.{cell_text, char_text, doc_text};
ghost use Rattle.case_json.specs.Json.{json_in};
ghost use Rattle.case_json.specs.Operations.{operation_word};
ghost use Rattle.ot_steps.specs.CaseLines.{case_data, case_line, deletion_data, op_data, orders_data, with_char_data};

use crate::NoMemory;
use crate::columns::{append_bytes, append_text};
use fn_rules::Level;
use ot_model::{Cell, Doc, Kind, Op};
use serde_json::{Value, json};
use std::alloc::Global;

// The word of a kind.
fn operation_word(kind: Kind) -> &'static str
    ensures { result.now ≡ operation_word kind }
{
    match kind {
        Kind::Ins => "ins",
        Kind::Del => "del",
        Kind::Upd => "upd",
    }
}

// An operation with a character.
fn with_char(alloc: Global, kind: Kind, at: i64, ch: char, site: u32) -> Result<Value, NoMemory>
    ensures { IfOk result (λ value. view value ≡ with_char_data kind at ch site) }
{
    let mut letter = String::new(alloc);
    letter.push(ch)?;
    json!(in alloc; [operation_word(kind), at, letter, site])
}

// A deletion.
fn deletion(alloc: Global, at: i64, site: u32) -> Result<Value, NoMemory>
    ensures { IfOk result (λ value. view value ≡ deletion_data at site) }
{
    json!(in alloc; ["del", at, site])
}

// An operation.
fn op_value(alloc: Global, op: &Op) -> Result<Value, NoMemory>
    ensures { IfOk result (λ value. view value ≡ op_data op.now) }
{
    match *op {
        Op::Ins { at, ch, site } => with_char(alloc, Kind::Ins, at, ch, site),
        Op::Del { at, site } => deletion(alloc, at, site),
        Op::Upd { at, ch, site } => with_char(alloc, Kind::Upd, at, ch, site),
        Op::Nop => Ok(Value::Null),
    }
}

fn op_values(alloc: Global, ops: &[Op]) -> Result<Vec<Value>, NoMemory>
    ensures { IfOk result (λ values. map view values.items ≡ map op_data ops.now) }
{
    let mut values = Vec::new(alloc);
    for op in ops {
        values.push(op_value(alloc, op)?)?;
    }
    Ok(values)
}

// The two orders.
fn orders_value(alloc: Global, level: Level) -> Result<Value, NoMemory>
    ensures { IfOk result (λ value. view value ≡ orders_data level) }
{
    match level {
        Level::Tp1 => json!(in alloc; [[0_u32, 1_u32], [1_u32, 0_u32]]),
        Level::Tp2 => json!(in alloc; [[0_u32, 1_u32, 2_u32], [1_u32, 0_u32, 2_u32]]),
    }
}

// Appends a character as the text of a document has it.
fn push_char(ch: char, text: &mut String) -> Result<(), NoMemory>
    ensures { OnOk result (string_bytes text.new ≡ string_bytes text.old ++ encode_utf8_all (char_text ch)) }
{
    match ch {
        '\\' => text.push_str("\\\\"),
        '~' => text.push_str("\\~"),
        '\n' => text.push_str("\\n"),
        '\r' => text.push_str("\\r"),
        _ => text.push(ch),
    }
}

// Appends a cell.
fn push_cell(cell: Cell, text: &mut String) -> Result<(), NoMemory>
    ensures { OnOk result (string_bytes text.new ≡ string_bytes text.old ++ encode_utf8_all (cell_text cell)) }
{
    if !cell.live {
        text.push('~')?;
    }
    push_char(cell.ch, text)
}

// The text of a document.
fn doc_string(alloc: Global, doc: &Doc) -> Result<String, NoMemory>
    ensures { IfOk result (λ text. string_bytes text ≡ encode_utf8_all (doc_text doc.now)) }
{
    let mut text = String::new(alloc);
    for cell in doc.cells() {
        push_cell(*cell, &mut text)?;
    }
    Ok(text)
}

// The case.
fn case_value(alloc: Global, level: Level, doc: &Doc, ops: &[Op]) -> Result<Value, NoMemory>
    ensures { IfOk result (λ value. view value ≡ case_data level doc.now ops.now) }
{
    let text = doc_string(alloc, doc)?;
    let values = op_values(alloc, ops)?;
    let orders = orders_value(alloc, level)?;
    json!(in alloc; {"doc": text, "ops": values, "orders": orders})
}

// The text of the case.
fn case_string(alloc: Global, level: Level, doc: &Doc, ops: &[Op]) -> Result<String, NoMemory>
    ensures text { IfOk result (λ text. string_bytes text ≡ compact_text (case_data level doc.now ops.now)) }
    ensures reads_back { IfOk result (λ text. json_in (string_bytes text) ≡ Some (case_data level doc.now ops.now)) }
{
    let value = case_value(alloc, level, doc, ops)?;
    let text = value.to_string(alloc)?;
    Ok(text)
}

/// Writes the line of a case: the document, the operations, and the two orders of the ways of the property. What is
/// after the word `case` is read as that value of JSON.
pub fn write_case_line(
    alloc: Global,
    level: Level,
    doc: &Doc,
    ops: &[Op],
    out: &mut Vec<u8>,
) -> Result<(), NoMemory>
    ensures text { OnOk result (out.new.items ≡ out.old.items ++ case_line level doc.now ops.now) }
    ensures reads_back { OnOk result (json_in (compact_text (case_data level doc.now ops.now))
        ≡ Some (case_data level doc.now ops.now)) }
{
    let text = case_string(alloc, level, doc, ops)?;
    append_bytes(b"case ", out)?;
    append_text(text, out)?;
    append_bytes(b"\n", out)
}
