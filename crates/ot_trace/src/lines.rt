//! The lines of operations that are carried and executed.
ghost use Rattle.std.specs.Prelude.{◌≡◌, ◌++◌, codes, unsigned_abs, IfOk, OnOk};
ghost use Rattle.std.specs.List.{flat_map};
ghost use Rattle.fn_rules.specs.Rules.{function_of};
ghost use Rattle.ot_model.specs.Operations.{at_of};
ghost use Rattle.ot_trace.specs.Orders.{NoForm, NotEnabled};
ghost use Rattle.ot_steps.specs.ShortDocuments.{short_document};
ghost use Rattle.ot_steps.specs.StepTexts.{choice_text, result_text, short_op};
ghost use Rattle.ot_trace.specs.Texts.{done_line, end_line, op_line, step_line};

use crate::columns::{append, write_columns, write_two_columns};
use fn_rules::Rules;
use ot_model::{Doc, NoMemory, Op};
use ot_steps::{write_choice, write_form, write_short_document, write_short_op};
use ot_ways::Step;
use std::alloc::Global;

/// The text of an operation, behind some words.
pub(crate) fn op_bytes(alloc: Global, words: &str, op: &Op) -> Result<Vec<u8>, NoMemory>
    ensures { IfOk result (λ text. text.items ≡ words.now ++ short_op op.now) }
{
    let mut text = Vec::new(alloc);
    append(words.as_bytes(), &mut text)?;
    write_short_op(alloc, op, &mut text)?;
    Ok(text)
}

/// The text of what a transformation comes to.
pub(crate) fn form_bytes(alloc: Global, form: &Option<Op>) -> Result<Vec<u8>, NoMemory>
    ensures { IfOk result (λ text. text.items ≡ result_text form.now) }
{
    let mut text = Vec::new(alloc);
    write_form(alloc, form, &mut text)?;
    Ok(text)
}

/// The text of the case that a transformation takes.
pub(crate) fn choice_bytes(alloc: Global, rules: &Rules, step: &Step) -> Result<Vec<u8>, NoMemory>
    ensures { IfOk result (λ text. text.items
        ≡ choice_text (function_of rules.now) step.now.result step.now.taken) }
{
    let mut text = Vec::new(alloc);
    write_choice(alloc, rules, step, &mut text)?;
    Ok(text)
}

// A document, shortened around the position of an operation.
fn after_bytes(alloc: Global, op: &Op, doc: &Doc) -> Result<Vec<u8>, NoMemory>
    ensures { IfOk result (λ text. text.items ≡ short_document (unsigned_abs (at_of op.now)) doc.now) }
{
    let mut text = Vec::new(alloc);
    write_short_document(alloc, op.position().unsigned_abs() as usize, doc, &mut text)?;
    Ok(text)
}

/// Writes the line of an operation of an order.
pub(crate) fn write_op_line(
    alloc: Global,
    number: u32,
    op: &Op,
    out: &mut Vec<u8>,
) -> Result<(), NoMemory>
    ensures { OnOk result (out.new.items ≡ out.old.items ++ op_line number op.now) }
{
    let name = format!(in alloc; "op {number}")?;
    let text = op_bytes(alloc, "", op)?;
    write_two_columns(name.as_bytes(), &text, out)
}

/// Writes the line of a transformation.
pub(crate) fn write_step(
    alloc: Global,
    rules: &Rules,
    step: &Step,
    out: &mut Vec<u8>,
) -> Result<(), NoMemory>
    ensures { OnOk result (out.new.items ≡ out.old.items ++ step_line (function_of rules.now) step.now) }
{
    let over = op_bytes(alloc, "  over ", &step.against)?;
    let form = form_bytes(alloc, &step.result)?;
    let case = choice_bytes(alloc, rules, step)?;
    write_columns(&over, &form, &case, out)
}

/// Writes a line for each transformation.
pub(crate) fn write_steps(
    alloc: Global,
    rules: &Rules,
    steps: &[Step],
    out: &mut Vec<u8>,
) -> Result<(), NoMemory>
    ensures { OnOk result (out.new.items ≡ out.old.items ++ flat_map (step_line (function_of rules.now)) steps.now) }
{
    for step in steps {
        write_step(alloc, rules, step, out)?;
    }
    Ok(())
}

/// Writes that an operation was executed, and the document after it.
pub(crate) fn write_done(
    alloc: Global,
    form: &Op,
    doc: &Doc,
    out: &mut Vec<u8>,
) -> Result<(), NoMemory>
    ensures { OnOk result (out.new.items ≡ out.old.items ++ done_line form.now doc.now) }
{
    let text = op_bytes(alloc, "", form)?;
    let after = after_bytes(alloc, form, doc)?;
    write_columns(b"  done", &text, &after, out)
}

/// Writes that there is no form.
pub(crate) fn write_no_form(out: &mut Vec<u8>) -> Result<(), NoMemory>
    ensures { OnOk result (out.new.items ≡ out.old.items ++ end_line NoForm) }
{
    write_two_columns(b"  stuck", b"undefined", out)
}

/// Writes that a form is not enabled on so many cells.
pub(crate) fn write_not_enabled(
    alloc: Global,
    form: &Op,
    cells: usize,
    out: &mut Vec<u8>,
) -> Result<(), NoMemory>
    ensures { OnOk result (out.new.items ≡ out.old.items ++ end_line (NotEnabled form.now cells)) }
{
    let text = op_bytes(alloc, "", form)?;
    let why = format!(in alloc; "not enabled on {cells} cells")?;
    write_columns(b"  stuck", &text, why.as_bytes(), out)
}
