//! The lines of both ways of a counterexample, and where they differ.
ghost use Rattle.std.specs.Prelude.{◌≡◌, ◌++◌, Some, slice_get, codes, OnOk};
ghost use Rattle.fn_rules.specs.Rules.{function_of};
ghost use Rattle.ot_ways.specs.declared.ways.BothWays.TheVariants.{Pair, Triple};
ghost use Rattle.ot_steps.specs.Columns.{padded};
ghost use Rattle.ot_steps.specs.StepTexts.{both_line, cell_or_nothing, difference_line, document_way_text};
ghost use Rattle.ot_steps.specs.StepTexts.{documents_line, executed_line, label_text, last_result, made_line};
ghost use Rattle.ot_steps.specs.StepTexts.{one_end_line, operation_way_text, operations_line, result_text, step_line};
ghost use Rattle.ot_steps.specs.StepTexts.{ways_text};

use crate::NoMemory;
use crate::columns::{DOCUMENT, LABEL, OPERATION, append_bytes, append_padded, append_text};
use crate::short_document::{write_cell, write_short_document};
use crate::texts::{place_of, write_choice, write_end, write_form, write_short_op};
use fn_rules::Rules;
use ot_counter::WayResult;
use ot_model::{Cell, Doc, Op};
use ot_ways::{BothWays, DocumentWay, OperationWay, Step, difference};
use std::alloc::Global;

/// What a line is about.
#[derive(Clone, Copy)]
pub enum Label {
    /// The operation of this number, counted from 1, as it was made.
    Made(usize),

    /// The operation of the first number, transformed against that of the second.
    After(usize, usize),

    /// The third operation, transformed against the first two.
    Both,
}

// Writes what a line is about.
fn write_label(alloc: Global, label: Label, out: &mut Vec<u8>) -> Result<(), NoMemory>
    ensures { OnOk result (out.new.items ≡ out.old.items ++ label_text label) }
{
    match label {
        Label::Made(number) => append_text(format!(in alloc; "op {number}")?, out),
        Label::After(number, other) => {
            append_text(format!(in alloc; "op {number}")?, out)?;
            append_text(format!(in alloc; " after op {other}")?, out)
        }
        Label::Both => append_bytes(b"op 3 after both", out),
    }
}

// Begins a line with its label and what is executed.
fn begin_line(
    alloc: Global,
    label: Label,
    form: &Option<Op>,
    out: &mut Vec<u8>,
) -> Result<(), NoMemory>
    ensures { OnOk result (out.new.items ≡ out.old.items
        ++ (codes "  " ++ padded LABEL (label_text label) ++ padded OPERATION (result_text form.now))) }
{
    let mut first = Vec::new(alloc);
    write_label(alloc, label, &mut first)?;
    let mut second = Vec::new(alloc);
    write_form(alloc, form, &mut second)?;
    append_bytes(b"  ", out)?;
    append_padded(LABEL, &first, out)?;
    append_padded(OPERATION, &second, out)
}

// The line of a transformation.
fn write_step_line(
    alloc: Global,
    rules: &Rules,
    label: Label,
    step: &Step,
    out: &mut Vec<u8>,
) -> Result<(), NoMemory>
    ensures { OnOk result (out.new.items ≡ out.old.items ++ step_line (function_of rules.now) label step.now) }
{
    begin_line(alloc, label, &step.result, out)?;
    write_choice(alloc, rules, step, out)?;
    append_bytes(b"\n", out)
}

// The line of an operation that is executed as it was made.
fn write_made_line(
    alloc: Global,
    label: Label,
    op: &Op,
    doc: &Doc,
    out: &mut Vec<u8>,
) -> Result<(), NoMemory>
    ensures { OnOk result (out.new.items ≡ out.old.items ++ made_line label op.now doc.now) }
{
    begin_line(alloc, label, &Some(*op), out)?;
    write_short_document(alloc, place_of(op), doc, out)?;
    append_bytes(b"\n", out)
}

// The line of an operation that is transformed and executed.
fn write_executed_line(
    alloc: Global,
    rules: &Rules,
    label: Label,
    step: &Step,
    end: &WayResult,
    out: &mut Vec<u8>,
) -> Result<(), NoMemory>
    ensures { OnOk result (out.new.items ≡ out.old.items
        ++ executed_line (function_of rules.now) label step.now end.now) }
{
    let mut column = Vec::new(alloc);
    write_end(alloc, &step.result, end, &mut column)?;
    begin_line(alloc, label, &step.result, out)?;
    append_padded(DOCUMENT, &column, out)?;
    write_choice(alloc, rules, step, out)?;
    append_bytes(b"\n", out)
}

// A way of two operations, of which this one is executed first.
fn write_document_way(
    alloc: Global,
    rules: &Rules,
    first: usize,
    other: usize,
    way: &DocumentWay,
    out: &mut Vec<u8>,
) -> Result<(), NoMemory>
    ensures { OnOk result (out.new.items ≡ out.old.items
        ++ document_way_text (function_of rules.now) first other way.now) }
{
    write_made_line(alloc, Label::Made(first), &way.first, &way.doc, out)?;
    write_executed_line(
        alloc,
        rules,
        Label::After(other, first),
        &way.other,
        &way.end,
        out,
    )
}

// The line of the third operation against what the other of the first two became.
fn write_both_line(
    alloc: Global,
    rules: &Rules,
    step: &Option<Step>,
    out: &mut Vec<u8>,
) -> Result<(), NoMemory>
    ensures { OnOk result (out.new.items ≡ out.old.items ++ both_line (function_of rules.now) step.now) }
{
    match step {
        Some(step) => write_step_line(alloc, rules, Label::Both, step, out),
        None => Ok(()),
    }
}

// A way of three operations, of which this one is executed first.
fn write_operation_way(
    alloc: Global,
    rules: &Rules,
    first: usize,
    other: usize,
    way: &OperationWay,
    out: &mut Vec<u8>,
) -> Result<(), NoMemory>
    ensures { OnOk result (out.new.items ≡ out.old.items
        ++ operation_way_text (function_of rules.now) first other way.now) }
{
    write_step_line(alloc, rules, Label::After(other, first), &way.second, out)?;
    write_step_line(alloc, rules, Label::After(3, first), &way.third, out)?;
    write_both_line(alloc, rules, &way.both, out)
}

// Writes the cell at a place, or that there is none.
fn write_cell_at(cells: &[Cell], place: usize, out: &mut Vec<u8>) -> Result<(), NoMemory>
    ensures { OnOk result (out.new.items ≡ out.old.items ++ cell_or_nothing (slice_get cells.now place)) }
{
    match cells.get(place) {
        Some(cell) => write_cell(*cell, out),
        None => append_bytes(b"nothing", out),
    }
}

// The line of a place at which two documents differ.
fn write_difference(
    alloc: Global,
    place: usize,
    left: &Doc,
    right: &Doc,
    out: &mut Vec<u8>,
) -> Result<(), NoMemory>
    ensures { OnOk result (out.new.items ≡ out.old.items ++ difference_line left.now right.now (Some place)) }
{
    append_text(format!(in alloc; "differ at {place}: ")?, out)?;
    write_cell_at(left.cells(), place, out)?;
    append_bytes(b", ", out)?;
    write_cell_at(right.cells(), place, out)?;
    append_bytes(b"\n", out)
}

// The line of the first place at which two documents differ, if there is one.
fn write_documents(
    alloc: Global,
    left: &WayResult,
    right: &WayResult,
    out: &mut Vec<u8>,
) -> Result<(), NoMemory>
    ensures { OnOk result (out.new.items ≡ out.old.items ++ documents_line left.now right.now) }
{
    let WayResult::Doc(left) = left else {
        return Ok(());
    };
    let WayResult::Doc(right) = right else {
        return Ok(());
    };
    match difference(left, right) {
        Some(place) => write_difference(alloc, place, left, right, out),
        None => Ok(()),
    }
}

// What the last transformation of a way came to.
fn last_result(step: &Option<Step>) -> Option<Op>
    ensures { result ≡ last_result step.now }
{
    match step {
        Some(step) => step.result,
        None => None,
    }
}

// The line of the two operations to which both ways come, if there are two.
fn write_operations(
    alloc: Global,
    left: &Option<Op>,
    right: &Option<Op>,
    out: &mut Vec<u8>,
) -> Result<(), NoMemory>
    ensures { OnOk result (out.new.items ≡ out.old.items ++ operations_line left.now right.now) }
{
    let Some(one) = left else {
        return Ok(());
    };
    let Some(other) = right else {
        return Ok(());
    };
    append_bytes(b"differ: ", out)?;
    write_short_op(alloc, one, out)?;
    append_bytes(b", ", out)?;
    write_short_op(alloc, other, out)?;
    append_bytes(b"\n", out)
}

// The line of what both ways come to.
fn write_last(
    alloc: Global,
    left: &Option<Step>,
    right: &Option<Step>,
    out: &mut Vec<u8>,
) -> Result<(), NoMemory>
    ensures { OnOk result (out.new.items ≡ out.old.items
        ++ operations_line (last_result left.now) (last_result right.now)) }
{
    let one = last_result(left);
    let other = last_result(right);
    write_operations(alloc, &one, &other, out)
}

// The line of the document with which both orders end.
fn write_end_line(alloc: Global, doc: &Doc, out: &mut Vec<u8>) -> Result<(), NoMemory>
    ensures { OnOk result (out.new.items ≡ out.old.items ++ one_end_line (Some doc.now)) }
{
    append_bytes(b"on this document both orders end with ", out)?;
    write_short_document(alloc, 0, doc, out)?;
    append_bytes(b"\n", out)
}

// The line that says that both orders end with one document, if they do.
fn write_one_end(alloc: Global, end: &Option<Doc>, out: &mut Vec<u8>) -> Result<(), NoMemory>
    ensures { OnOk result (out.new.items ≡ out.old.items ++ one_end_line end.now) }
{
    match end {
        Some(doc) => write_end_line(alloc, doc, out),
        None => Ok(()),
    }
}

// Both ways of two operations.
fn write_pair(
    alloc: Global,
    rules: &Rules,
    left: &DocumentWay,
    right: &DocumentWay,
    out: &mut Vec<u8>,
) -> Result<(), NoMemory>
    ensures { OnOk result (out.new.items ≡ out.old.items
        ++ ways_text (function_of rules.now) (Pair left.now right.now)) }
{
    append_bytes(b"left\n", out)?;
    write_document_way(alloc, rules, 1, 2, left, out)?;
    append_bytes(b"right\n", out)?;
    write_document_way(alloc, rules, 2, 1, right, out)?;
    write_documents(alloc, &left.end, &right.end, out)
}

// Both ways of three operations.
fn write_triple(
    alloc: Global,
    rules: &Rules,
    left: &OperationWay,
    right: &OperationWay,
    end: &Option<Doc>,
    out: &mut Vec<u8>,
) -> Result<(), NoMemory>
    ensures { OnOk result (out.new.items ≡ out.old.items
        ++ ways_text (function_of rules.now) (Triple left.now right.now end.now)) }
{
    append_bytes(b"left\n", out)?;
    write_operation_way(alloc, rules, 1, 2, left, out)?;
    append_bytes(b"right\n", out)?;
    write_operation_way(alloc, rules, 2, 1, right, out)?;
    write_last(alloc, &left.both, &right.both, out)?;
    write_one_end(alloc, end, out)
}

/// Writes both ways of a counterexample, and where they differ.
pub fn write_ways(
    alloc: Global,
    rules: &Rules,
    ways: &BothWays,
    out: &mut Vec<u8>,
) -> Result<(), NoMemory>
    ensures { OnOk result (out.new.items ≡ out.old.items ++ ways_text (function_of rules.now) ways.now) }
{
    match ways {
        BothWays::Pair(left, right) => write_pair(alloc, rules, left, right, out),
        BothWays::Triple(left, right, end) => write_triple(alloc, rules, left, right, end, out),
    }
}
