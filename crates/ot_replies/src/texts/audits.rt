//! The lines of what is found of a function, and of two.
ghost use Rattle.std.specs.Prelude.{◌≡◌, ◌++◌, [], codes, is_some, OnOk};
ghost use Rattle.std.specs.List.{flat_map, list_all};
ghost use Rattle.cert_text.specs.Spelling.{kind_text};
ghost use Rattle.ot_counter.specs.Ways.{operation_result};
ghost use Rattle.ot_replies.specs.AuditTexts.{audit_status, audit_text, block_text, case_line, case_lines};
ghost use Rattle.ot_replies.specs.AuditTexts.{difference_text, found_text, is_total, open_line};
ghost use Rattle.ot_replies.specs.AuditTexts.{same_status, same_text, spent_text};
ghost use Rattle.ot_replies.specs.CounterTexts.{line_of, op_text, way_text};

use super::appending::{append_bytes, append_text};
use super::counters::{write_op, write_ops, write_way_line};
use ot_audit::{Audit, BlockAudit, Same};
use ot_counter::WayResult;
use ot_model::{Kind, NoMemory, Op};
use std::alloc::Global;

fn are_taken(cases: &[Option<(Op, Op)>]) -> bool
    ensures { result ≡ list_all is_some cases.now }
{
    cases.iter().all(|found| found.is_some())
}

fn is_total(block: &BlockAudit) -> bool
    ensures { result ≡ is_total block.now }
{
    are_taken(block.cases.as_slice()) && block.gap.is_none()
}

fn are_total(blocks: &[BlockAudit]) -> bool
    ensures { result ≡ list_all is_total blocks.now }
{
    blocks.iter().all(|block| is_total(block))
}

/// The status of what is found of a function.
pub(crate) fn audit_status(audit: &Audit) -> u8
    ensures { result ≡ audit_status audit.now }
{
    match audit {
        Audit::Blocks(blocks) => { if are_total(blocks.as_slice()) { 0 } else { 1 } }
        Audit::Spent => 8,
    }
}

/// The status of what is found of two functions.
pub(crate) fn same_status(same: &Same) -> u8
    ensures { result ≡ same_status same.now }
{
    match same {
        Same::Everywhere => 0,
        Same::Heads => 1,
        Same::Differ { .. } => 1,
        Same::Spent => 8,
    }
}

/// Writes that more is asked than is allowed.
pub(crate) fn write_spent(out: &mut Vec<u8>) -> Result<(), NoMemory>
    requires { out.old.items ≡ [] }
    ensures { OnOk result (out.new.items ≡ spent_text) }
{
    append_bytes(b"spent\n", out)
}

fn kind_word(kind: Kind) -> &'static str
    ensures { result.now ≡ kind_text kind }
{
    match kind {
        Kind::Ins => "ins",
        Kind::Del => "del",
        Kind::Upd => "upd",
    }
}

// Writes two operations behind a word.
fn write_pair(alloc: Global, word: &str, a: &Op, b: &Op, out: &mut Vec<u8>) -> Result<(), NoMemory>
    ensures { OnOk result (out.new.items ≡ out.old.items ++ (word.now ++ op_text a.now ++ codes " against " ++ op_text b.now)) }
{
    append_bytes(word.as_bytes(), out)?;
    write_op(alloc, a, out)?;
    append_bytes(b" against ", out)?;
    write_op(alloc, b, out)
}

// Writes two operations behind a word, or the word of what is found nowhere.
fn write_found(
    alloc: Global,
    word: &str,
    nowhere: &str,
    found: &Option<(Op, Op)>,
    out: &mut Vec<u8>,
) -> Result<(), NoMemory>
    ensures { OnOk result (out.new.items ≡ out.old.items ++ found_text word.now nowhere.now found.now) }
{
    match found {
        None => append_bytes(nowhere.as_bytes(), out),
        Some((a, b)) => write_pair(alloc, word, a, b, out),
    }
}

// Writes the line of a case.
fn write_case(
    alloc: Global,
    first: Kind,
    second: Kind,
    number: usize,
    found: &Option<(Op, Op)>,
    out: &mut Vec<u8>,
) -> Result<(), NoMemory>
    ensures { OnOk result (out.new.items ≡ out.old.items ++ case_line first second number found.now) }
{
    let one = kind_word(first);
    let other = kind_word(second);
    append_text(format!(in alloc; "case {one} {other} {number} ")?, out)?;
    write_found(alloc, "taken ", "never", found, out)?;
    append_bytes(b"\n", out)
}

// Writes a line for each case.
fn write_cases(
    alloc: Global,
    first: Kind,
    second: Kind,
    cases: &[Option<(Op, Op)>],
    out: &mut Vec<u8>,
) -> Result<(), NoMemory>
    ensures { OnOk result (out.new.items ≡ out.old.items ++ case_lines first second 0 cases.now) }
{
    for (number, found) in cases.iter().enumerate() {
        write_case(alloc, first, second, number, found, out)?;
    }
    Ok(())
}

// Writes the line of a block's end.
fn write_open(
    alloc: Global,
    first: Kind,
    second: Kind,
    found: &Option<(Op, Op)>,
    out: &mut Vec<u8>,
) -> Result<(), NoMemory>
    ensures { OnOk result (out.new.items ≡ out.old.items ++ open_line first second found.now) }
{
    let one = kind_word(first);
    let other = kind_word(second);
    append_text(format!(in alloc; "block {one} {other} ")?, out)?;
    write_found(alloc, "open ", "total", found, out)?;
    append_bytes(b"\n", out)
}

// Writes the lines of a block.
fn write_block(alloc: Global, block: &BlockAudit, out: &mut Vec<u8>) -> Result<(), NoMemory>
    ensures { OnOk result (out.new.items ≡ out.old.items ++ block_text block.now) }
{
    write_cases(
        alloc,
        block.first,
        block.second,
        block.cases.as_slice(),
        out,
    )?;
    write_open(alloc, block.first, block.second, &block.gap, out)
}

// Writes the lines of each block.
fn write_blocks(alloc: Global, blocks: &[BlockAudit], out: &mut Vec<u8>) -> Result<(), NoMemory>
    requires { out.old.items ≡ [] }
    ensures { OnOk result (out.new.items ≡ flat_map block_text blocks.now) }
{
    for block in blocks {
        write_block(alloc, block, out)?;
    }
    Ok(())
}

/// Writes the lines of what is found of a function.
pub(crate) fn write_audit(alloc: Global, audit: &Audit, out: &mut Vec<u8>) -> Result<(), NoMemory>
    requires { out.old.items ≡ [] }
    ensures { OnOk result (out.new.items ≡ audit_text audit.now) }
{
    match audit {
        Audit::Blocks(blocks) => write_blocks(alloc, blocks.as_slice(), out),
        Audit::Spent => write_spent(out),
    }
}

// What a function gives.
fn way_of(form: Option<Op>) -> WayResult
    ensures { result ≡ operation_result form }
{
    match form {
        None => WayResult::Undefined,
        Some(op) => WayResult::Op(op),
    }
}

/// Writes the line of what a function gives, behind its name.
pub(crate) fn write_form_line(
    alloc: Global,
    name: &str,
    form: Option<Op>,
    out: &mut Vec<u8>,
) -> Result<(), NoMemory>
    ensures { OnOk result (out.new.items ≡ out.old.items
        ++ line_of (name.now ++ way_text (operation_result form))) }
{
    write_way_line(alloc, name, &way_of(form), out)
}

// Writes on which block two functions differ, at which operations, and what each gives.
fn write_difference(
    alloc: Global,
    first: Kind,
    second: Kind,
    ops: &[Op],
    left: Option<Op>,
    right: Option<Op>,
    out: &mut Vec<u8>,
) -> Result<(), NoMemory>
    requires { out.old.items ≡ [] }
    ensures { OnOk result (out.new.items ≡ difference_text first second ops.now left right) }
{
    let one = kind_word(first);
    let other = kind_word(second);
    append_text(format!(in alloc; "differ {one} {other}\n")?, out)?;
    write_ops(alloc, ops, out)?;
    write_form_line(alloc, "left ", left, out)?;
    write_form_line(alloc, "right ", right, out)
}

/// Writes whether two functions agree, or where they do not.
pub(crate) fn write_same(alloc: Global, same: &Same, out: &mut Vec<u8>) -> Result<(), NoMemory>
    requires { out.old.items ≡ [] }
    ensures { OnOk result (out.new.items ≡ same_text same.now) }
{
    match *same {
        Same::Everywhere => append_bytes(b"same\n", out),
        Same::Heads => append_bytes(b"differ head\n", out),
        Same::Differ {
            first,
            second,
            a,
            b,
            left,
            right,
        } => write_difference(alloc, first, second, &[a, b], left, right, out),
        Same::Spent => write_spent(out),
    }
}
