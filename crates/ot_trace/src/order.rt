//! A case, order by order and operation by operation.
ghost use Rattle.std.specs.Prelude.{◌≡◌, ◌≤◌, ◌++◌, length, IfOk, IfSome, OnOk};
ghost use Rattle.std.specs.List.{All, flat_map};
ghost use Rattle.ot_model.specs.Operations.{kind_of};
ghost use Rattle.ot_model.specs.declared.limits.TheConstants.{MAX_CELLS, MAX_OPERATIONS};
ghost use Rattle.case_json.specs.Tests.{IsReadyTrial};
ghost use Rattle.fn_rules.specs.Conditions.{IsIntegrable, IsWithin};
ghost use Rattle.fn_rules.specs.Functions.{IsForKind};
ghost use Rattle.fn_rules.specs.Orders.{operation_at, through};
ghost use Rattle.fn_rules.specs.Rules.{function_of};
ghost use Rattle.ot_integrate.specs.Conditions.{IsExecuted, most_cells};
ghost use Rattle.ot_trace.specs.Orders.{end_of, op_trace, order_trace, HasEnded};
ghost use Rattle.ot_trace.specs.Texts.{case_trace_text, end_line, op_lines, order_text, orders_text};

use crate::carrying::carry;
use crate::columns::append;
use crate::lines::{write_done, write_no_form, write_not_enabled, write_op_line, write_steps};
use case_json::Trial;
use fn_rules::{Rules, enabled_operations_are_near, tests_decide_their_facts};
use ot_model::{Apply, Doc, NoMemory, Op, apply, documents_grow_by_one_cell_at_most};
use std::alloc::Global;

/// The operation that a number names.
fn named(ops: &[Op], number: u32) -> Op
    ensures { result ≡ operation_at ops.now number }
{
    ops.get(number as usize).copied().unwrap_or(Op::Nop)
}

/// Executes a form, where there is one that is enabled, and writes what came of it. Answers the form that was executed.
fn end(
    alloc: Global,
    rules: &Rules,
    form: Option<Op>,
    doc: &mut Doc,
    out: &mut Vec<u8>,
) -> Result<Option<Op>, NoMemory>
    ensures text { IfOk result (λ done. out.new.items
        ≡ out.old.items ++ end_line (end_of (function_of rules.now) doc.old form)) }
    ensures ended { IfOk result (λ done. HasEnded (end_of (function_of rules.now) doc.old form) doc.old done doc.new) }
    ensures is { IfOk result (λ done. IfSome done (λ p. form ≡ Some p)) }
{
    tests_decide_their_facts();
    let Some(form) = form else {
        write_no_form(out)?;
        return Ok(None);
    };
    match apply(rules.head().mode, &form, doc) {
        Ok(()) => {
            write_done(alloc, &form, doc, out)?;
            Ok(Some(form))
        }
        Err(Apply::NotEnabled) => {
            write_not_enabled(alloc, &form, doc.len(), out)?;
            Ok(None)
        }
        Err(Apply::NoMemory) => Err(NoMemory),
    }
}

/// Carries an operation over those that were executed before it, executes what it becomes, and writes that.
fn next(
    alloc: Global,
    rules: &Rules,
    ops: &[Op],
    number: u32,
    executed: &[Op],
    doc: &mut Doc,
    out: &mut Vec<u8>,
) -> Result<Option<Op>, NoMemory>
    requires declared { IsForKind (function_of rules.now).head (kind_of (operation_at ops.now number)) }
    requires near { IsWithin most_cells (operation_at ops.now number) }
    requires executed { All (IsExecuted (function_of rules.now)) executed.now }
    requires few { length executed.now ≤ MAX_OPERATIONS }
    ensures text { IfOk result (λ done. out.new.items
        ≡ out.old.items ++ op_lines (function_of rules.now)
        (op_trace (function_of rules.now) doc.old ops.now executed.now number)) }
    ensures ended { IfOk result (λ done. HasEnded (end_of (function_of rules.now) doc.old
        (through (function_of rules.now) (operation_at ops.now number) executed.now)) doc.old done doc.new) }
    ensures declared { IfOk result (λ done.
        IfSome done (λ p. IsForKind (function_of rules.now).head (kind_of p))) }
{
    let op = named(ops, number);
    let carried = carry(alloc, rules, op, executed)?;
    write_op_line(alloc, number, &op, out)?;
    write_steps(alloc, rules, carried.steps.as_slice(), out)?;
    end(alloc, rules, carried.form, doc, out)
}

/// Writes the operations of an order.
fn write_ops(
    alloc: Global,
    rules: &Rules,
    doc: &Doc,
    ops: &[Op],
    order: &[u32],
    out: &mut Vec<u8>,
) -> Result<(), NoMemory>
    requires integrable { All (IsIntegrable (function_of rules.now) (length doc.now)) ops.now }
    requires cells { length doc.now ≤ MAX_CELLS }
    requires places { length order.now ≤ MAX_OPERATIONS }
    ensures { OnOk result (out.new.items ≡ out.old.items ++ flat_map (op_lines (function_of rules.now))
        (order_trace (function_of rules.now) doc.now ops.now order.now)) }
{
    enabled_operations_are_near();
    documents_grow_by_one_cell_at_most();
    tests_decide_their_facts();
    let mut current = doc.try_clone()?;
    let mut executed = Vec::new(alloc);
    for number in order {
        match next(alloc, rules, ops, *number, &executed, &mut current, out)? {
            Some(form) => executed.push(form)?,
            None => return Ok(()),
        }
    }
    Ok(())
}

/// Writes an order.
fn write_order(
    alloc: Global,
    rules: &Rules,
    trial: &Trial,
    number: usize,
    order: &[u32],
    out: &mut Vec<u8>,
) -> Result<(), NoMemory>
    requires ready { IsReadyTrial (function_of rules.now) trial.now }
    requires places { length order.now ≤ MAX_OPERATIONS }
    ensures { OnOk result (out.new.items ≡ out.old.items ++ order_text (function_of rules.now) number
        (order_trace (function_of rules.now) trial.now.doc trial.now.ops order.now)) }
{
    append(format!(in alloc; "order {number}\n")?.as_bytes(), out)?;
    write_ops(alloc, rules, &trial.doc, trial.ops.as_slice(), order, out)
}

/// Writes what becomes of each operation of a case, order by order: over what it is carried, with the case that is taken
/// of each transformation, and the document after it.
pub fn trace_case(
    alloc: Global,
    rules: &Rules,
    trial: &Trial,
    out: &mut Vec<u8>,
) -> Result<(), NoMemory>
    requires { IsReadyTrial (function_of rules.now) trial.now }
    ensures { OnOk result (out.new.items ≡ out.old.items ++ case_trace_text (function_of rules.now) trial.now) }
{
    for (number, order) in trial.orders.as_slice().iter().enumerate() {
        write_order(alloc, rules, trial, number, order.as_slice(), out)?;
    }
    Ok(())
}
