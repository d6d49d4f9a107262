//! Integrating in an order.
ghost use Rattle.std.specs.Prelude.{◌≡◌, ◌≤◌, ◌↔◌, length, All, IsTrue, IfOk, IfSome};
ghost use Rattle.ot_model.specs.Operations.{kind_of};
ghost use Rattle.fn_rules.specs.Functions.{IsForKind};
ghost use Rattle.fn_rules.specs.Rules.{function_of};
ghost use Rattle.fn_rules.specs.Conditions.{IsIntegrable, IsWithin};
ghost use Rattle.fn_rules.specs.Properties.{AreConcurrent, HasTp1, HasTp2};
ghost use Rattle.fn_rules.specs.Orders.{through, operation_at, integrated, NamesEachOnce};
ghost use Rattle.ot_integrate.specs.Conditions.{most_cells, IsExecuted};
ghost use Rattle.ot_integrate.specs.Ends.{outcome_of, EndsAsListed};

use crate::end::End;
use crate::one_outcome::both_properties_give_one_outcome;
use fn_rules::{
    Rules, enabled_operations_are_near, functions_keep_forms, is_integrable, rules_are_valid,
    tests_decide_their_facts, transform, transform_stays_near,
};
use ot_model::{
    Apply, Doc, MAX_CELLS, MAX_OPERATIONS, NoMemory, Op, apply, documents_grow_by_one_cell_at_most,
};
use std::alloc::Global;

/// Whether the operations may be integrated on a document of so many cells: each is of a kind that the
/// function is for, or nop, and is enabled there.
pub fn are_integrable(rules: &Rules, cells: usize, ops: &[Op]) -> bool
    ensures { IsTrue result ↔ All (IsIntegrable (function_of rules.now) cells) ops.now }
{
    ops.iter().all(|op| is_integrable(rules, cells, op))
}

/// Integrates the operations in the order that the numbers say, counted from 0; they were all made on
/// the document. A number that names no operation stands for nop.
pub fn integrate(
    alloc: Global,
    rules: &Rules,
    doc: &Doc,
    ops: &[Op],
    order: &[u32],
) -> Result<End, NoMemory>
    requires integrable { All (IsIntegrable (function_of rules.now) (length doc.now)) ops.now }
    requires cells { length doc.now ≤ MAX_CELLS }
    requires places { length order.now ≤ MAX_OPERATIONS }
    ensures outcome { IfOk result (λ end. outcome_of end
        ≡ integrated (function_of rules.now) doc.now ops.now order.now) }

    // Where the function has both properties, no order of concurrent operations is stuck, and each ends
    // with one document.
    ensures one_document { IfOk result (λ end.
        HasTp1 (function_of rules.now) → HasTp2 (function_of rules.now)
        → AreConcurrent (function_of rules.now) doc.now ops.now → NamesEachOnce (length ops.now) order.now
        → EndsAsListed (function_of rules.now) doc.now ops.now (outcome_of end)) }
{
    both_properties_give_one_outcome();
    tests_decide_their_facts();
    enabled_operations_are_near();
    documents_grow_by_one_cell_at_most();
    let mode = rules.head().mode;
    let mut current = doc.try_clone()?;
    let mut executed = Vec::new(alloc);
    for (place, number) in order.iter().enumerate() {
        let Some(form) = form_behind(rules, named(ops, *number), &executed) else {
            return Ok(End::Stuck(place as u32));
        };
        match apply(mode, &form, &mut current) {
            Ok(()) => executed.push(form)?,
            Err(Apply::NotEnabled) => return Ok(End::Stuck(place as u32)),
            Err(Apply::NoMemory) => return Err(NoMemory),
        }
    }
    Ok(End::Doc(current))
}

/// The operation that a number names.
fn named(ops: &[Op], number: u32) -> Op
    ensures { result ≡ operation_at ops.now number }
{
    ops.get(number as usize).copied().unwrap_or(Op::Nop)
}

/// The operation, transformed in turn by the operations that were executed. None where one of these
/// transformations has no result.
fn form_behind(rules: &Rules, op: Op, executed: &[Op]) -> Option<Op>
    requires declared { IsForKind (function_of rules.now).head (kind_of op) }
    requires near { IsWithin most_cells op }
    requires executed { All (IsExecuted (function_of rules.now)) executed.now }
    requires few { length executed.now ≤ MAX_OPERATIONS }
    ensures form { result ≡ through (function_of rules.now) op executed.now }
    ensures declared { IfSome result (λ form. IsForKind (function_of rules.now).head (kind_of form)) }
{
    rules_are_valid(rules);
    transform_stays_near();
    functions_keep_forms();
    enabled_operations_are_near();
    let mut form = op;
    for other in executed {
        form = transform(rules, &form, other)?;
    }
    Some(form)
}
