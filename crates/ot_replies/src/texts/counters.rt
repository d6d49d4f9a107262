//! The lines of a counterexample.
ghost use Rattle.std.specs.Prelude.{◌≡◌, ◌++◌, [], codes, encode_utf8_all, OnOk};
ghost use Rattle.std.specs.Fmt.{decimal, signed_decimal};
ghost use Rattle.case_json.specs.DocText.{char_text};
ghost use Rattle.cert_text.specs.Spelling.{level_text};
ghost use Rattle.ot_replies.specs.DocumentTexts.{document_text};
ghost use Rattle.ot_replies.specs.CounterTexts.{counter_text, line_of, op_lines, op_text, way_text, why_word};

use super::appending::{append_bytes, append_text};
use super::documents::write_document;
use super::level_word;
use case_json::char_write;
use fn_rules::Level;
use ot_counter::{Counter, WayResult};
use ot_model::{Doc, NoMemory, Op};
use ot_questions::Why;
use std::alloc::Global;

fn why_word(why: Why) -> &'static str
    ensures { result.now ≡ why_word why }
{
    match why {
        Why::Undefined => "undefined",
        Why::OutOfRange => "range",
        Why::Lengths => "lengths",
        Why::Cells { .. } => "cells",
        Why::Operations => "operations",
    }
}

// The word of a kind.
fn write_word(word: &str, out: &mut Vec<u8>) -> Result<(), NoMemory>
    ensures { OnOk result (out.new.items ≡ out.old.items ++ word.now) }
{
    append_bytes(word.as_bytes(), out)
}

// The position in front of a character.
fn write_position(alloc: Global, at: i64, out: &mut Vec<u8>) -> Result<(), NoMemory>
    ensures { OnOk result (out.new.items ≡ out.old.items ++ (codes " " ++ signed_decimal at ++ codes " ")) }
{
    append_text(format!(in alloc; " {at} ")?, out)
}

// The site behind a character.
fn write_site(alloc: Global, site: u32, out: &mut Vec<u8>) -> Result<(), NoMemory>
    ensures { OnOk result (out.new.items ≡ out.old.items ++ (codes " " ++ decimal site)) }
{
    append_text(format!(in alloc; " {site}")?, out)
}

// An operation with a character, behind the word of its kind.
fn write_with_char(
    alloc: Global,
    word: &str,
    at: i64,
    ch: char,
    site: u32,
    out: &mut Vec<u8>,
) -> Result<(), NoMemory>
    ensures { OnOk result (out.new.items ≡ out.old.items
        ++ (word.now ++ codes " " ++ signed_decimal at ++ codes " " ++ encode_utf8_all (char_text ch) ++ codes " "
        ++ decimal site)) }
{
    write_word(word, out)?;
    write_position(alloc, at, out)?;
    char_write(ch, out)?;
    write_site(alloc, site, out)
}

// A deletion.
fn write_deletion(alloc: Global, at: i64, site: u32, out: &mut Vec<u8>) -> Result<(), NoMemory>
    ensures { OnOk result (out.new.items ≡ out.old.items
        ++ (codes "del " ++ signed_decimal at ++ codes " " ++ decimal site)) }
{
    append_text(format!(in alloc; "del {at} {site}")?, out)
}

/// Writes an operation.
pub(crate) fn write_op(alloc: Global, op: &Op, out: &mut Vec<u8>) -> Result<(), NoMemory>
    ensures { OnOk result (out.new.items ≡ out.old.items ++ op_text op.now) }
{
    match *op {
        Op::Ins { at, ch, site } => write_with_char(alloc, "ins", at, ch, site, out),
        Op::Upd { at, ch, site } => write_with_char(alloc, "upd", at, ch, site, out),
        Op::Del { at, site } => write_deletion(alloc, at, site, out),
        Op::Nop => append_bytes(b"nop", out),
    }
}

fn write_way(alloc: Global, way: &WayResult, out: &mut Vec<u8>) -> Result<(), NoMemory>
    ensures { OnOk result (out.new.items ≡ out.old.items ++ way_text way.now) }
{
    match way {
        WayResult::Undefined => append_bytes(b"undefined", out),
        WayResult::OutOfRange => append_bytes(b"range", out),
        WayResult::Doc(doc) => write_document(doc, out),
        WayResult::Op(op) => write_op(alloc, op, out),
    }
}

// The line of the property that fails, and of the cause.
fn write_failure(alloc: Global, level: Level, why: Why, out: &mut Vec<u8>) -> Result<(), NoMemory>
    ensures { OnOk result (out.new.items ≡ out.old.items
        ++ line_of (codes "no " ++ level_text level ++ codes " " ++ why_word why)) }
{
    let property = level_word(level);
    let cause = why_word(why);
    append_text(format!(in alloc; "no {property} {cause}\n")?, out)
}

/// Writes the line of the document.
pub(crate) fn write_doc_line(doc: &Doc, out: &mut Vec<u8>) -> Result<(), NoMemory>
    ensures { OnOk result (out.new.items ≡ out.old.items ++ line_of (codes "doc " ++ document_text doc.now)) }
{
    append_bytes(b"doc ", out)?;
    write_document(doc, out)?;
    append_bytes(b"\n", out)
}

// The line of an operation.
fn write_op_line(alloc: Global, number: usize, op: &Op, out: &mut Vec<u8>) -> Result<(), NoMemory>
    ensures { OnOk result (out.new.items ≡ out.old.items
        ++ line_of (codes "op " ++ decimal number ++ codes " " ++ op_text op.now)) }
{
    append_text(format!(in alloc; "op {number} ")?, out)?;
    write_op(alloc, op, out)?;
    append_bytes(b"\n", out)
}

/// Writes a line for each operation; they are counted from 1.
pub(crate) fn write_ops(alloc: Global, ops: &[Op], out: &mut Vec<u8>) -> Result<(), NoMemory>
    ensures { OnOk result (out.new.items ≡ out.old.items ++ op_lines 1 ops.now) }
{
    for (place, op) in ops.iter().enumerate() {
        write_op_line(alloc, place + 1, op, out)?;
    }
    Ok(())
}

/// Writes the line of a way's result, behind its name.
pub(crate) fn write_way_line(
    alloc: Global,
    name: &str,
    way: &WayResult,
    out: &mut Vec<u8>,
) -> Result<(), NoMemory>
    ensures { OnOk result (out.new.items ≡ out.old.items ++ line_of (name.now ++ way_text way.now)) }
{
    append_bytes(name.as_bytes(), out)?;
    write_way(alloc, way, out)?;
    append_bytes(b"\n", out)
}

/// Writes the lines of a counterexample.
pub(crate) fn write_counter(
    alloc: Global,
    counter: &Counter,
    out: &mut Vec<u8>,
) -> Result<(), NoMemory>
    ensures { OnOk result (out.new.items ≡ out.old.items ++ counter_text counter.now) }
{
    write_failure(alloc, counter.level, counter.why, out)?;
    write_doc_line(&counter.doc, out)?;
    write_ops(alloc, counter.ops.as_slice(), out)?;
    write_way_line(alloc, "left ", &counter.left, out)?;
    write_way_line(alloc, "right ", &counter.right, out)
}
