//! Both ways of an instance of a property, transformation by transformation.
ghost use Rattle.std.specs.Prelude.{◌≡◌, ◌≤◌, ◌∷◌, [], All, IfOk, IfSome, length};
ghost use Rattle.ot_model.specs.Effect.{IsEnabled, document_after};
ghost use Rattle.ot_model.specs.Operations.{kind_of};
ghost use Rattle.fn_rules.specs.declared.function.Level.TheVariants.{Tp1, Tp2};
ghost use Rattle.fn_rules.specs.Conditions.{IsInRange, IsIntegrable, IsWithin};
ghost use Rattle.fn_rules.specs.Functions.{IsForKind};
ghost use Rattle.fn_rules.specs.Orders.{integrated};
ghost use Rattle.fn_rules.specs.Rules.{function_of};
ghost use Rattle.ot_integrate.specs.Ends.{outcome_of};
ghost use Rattle.ot_counter.specs.Ways.{executed_form};
ghost use Rattle.ot_ways.specs.Steps.{both_ways_of, document_way_of, one_end, one_end_of, operation_way_of};
ghost use Rattle.ot_ways.specs.Steps.{shown_ways, third_step_of};

use crate::NoMemory;
use crate::differences::one_document;
use crate::one_step::Step;
use crate::stepping::step;
use fn_rules::{
    Level, Rules, enabled_operations_are_near, functions_keep_forms, rules_are_valid,
    tests_decide_their_facts, transform_stays_near,
};
use ot_counter::WayResult;
use ot_integrate::{End, integrate};
use ot_model::{Apply, Doc, MAX_CELLS, Mode, Op, apply};
use std::alloc::Global;

/// A way of two operations: one of them is executed, and then the other, transformed against it.
#[derive(Drop)]
pub struct DocumentWay {
    /// The operation that is executed as it was made.
    pub first: Op,

    /// The document after it.
    pub doc: Doc,

    /// The transformation of the other operation.
    pub other: Step,

    /// The document after that one too, or why there is none.
    pub end: WayResult,
}

/// A way of three operations: what the third becomes against the first two, one of which was executed first.
#[derive(Drop)]
pub struct OperationWay {
    /// The other of the first two operations, against the one that was executed first.
    pub second: Step,

    /// The third operation against that one.
    pub third: Step,

    /// And what it became against what the other became; none where one of these has no result.
    pub both: Option<Step>,
}

/// Both ways of two operations, or of three.
#[derive(Drop)]
pub enum BothWays {
    /// The first operation and then the second, and these in the other order.
    Pair(DocumentWay, DocumentWay),

    /// The third operation against the first and then the second, and in the other order; then the document with which
    /// integrating all three ends in both orders, if it is one document.
    Triple(OperationWay, OperationWay, Option<Doc>),
}

// The document after an operation that is enabled.
fn after(mode: Mode, doc: &Doc, op: &Op) -> Result<Doc, NoMemory>
    requires enabled { IsEnabled op.now (length doc.now) }
    ensures { IfOk result (λ next. next ≡ document_after mode op.now doc.now) }
{
    let mut current = doc.try_clone()?;
    match apply(mode, op, &mut current) {
        Ok(()) => Ok(current),
        Err(Apply::NoMemory) => Err(NoMemory),
        Err(Apply::NotEnabled) => unreachable!(),
    }
}

// What a transformation became, executed where it is enabled.
fn executed(mode: Mode, doc: &Doc, form: Option<Op>) -> Result<WayResult, NoMemory>
    ensures { IfOk result (λ way. way ≡ executed_form mode doc.now form) }
{
    let Some(op) = form else {
        return Ok(WayResult::Undefined);
    };
    let mut current = doc.try_clone()?;
    match apply(mode, &op, &mut current) {
        Ok(()) => Ok(WayResult::Doc(current)),
        Err(Apply::NotEnabled) => Ok(WayResult::OutOfRange),
        Err(Apply::NoMemory) => Err(NoMemory),
    }
}

// One operation executed, and then the other.
fn document_way(rules: &Rules, doc: &Doc, first: &Op, other: &Op) -> Result<DocumentWay, NoMemory>
    requires first { IsIntegrable (function_of rules.now) (length doc.now) first.now }
    requires other { IsIntegrable (function_of rules.now) (length doc.now) other.now }
    requires few { length doc.now ≤ MAX_CELLS }
    ensures { IfOk result (λ way. way ≡ document_way_of (function_of rules.now) doc.now first.now other.now) }
{
    enabled_operations_are_near();
    let mode = rules.head().mode;
    let next = after(mode, doc, first)?;
    let transformed = step(rules, other, first);
    let end = executed(mode, &next, transformed.result)?;
    Ok(DocumentWay {
        first: *first,
        doc: next,
        other: transformed,
        end,
    })
}

// The third operation against the second, where both have a result.
fn third_step(rules: &Rules, second: Option<Op>, third: Option<Op>) -> Option<Step>
    requires second { IfSome second (λ o. IsForKind (function_of rules.now).head (kind_of o) × IsInRange o) }
    requires third { IfSome third (λ o. IsForKind (function_of rules.now).head (kind_of o) × IsInRange o) }
    ensures { result ≡ third_step_of (function_of rules.now) second third }
{
    let b = second?;
    let c = third?;
    Some(step(rules, &c, &b))
}

// The third operation against `a` and then `b`.
fn operation_way(rules: &Rules, a: &Op, b: &Op, c: &Op) -> OperationWay
    requires a_declared { IsForKind (function_of rules.now).head (kind_of a.now) }
    requires b_declared { IsForKind (function_of rules.now).head (kind_of b.now) }
    requires c_declared { IsForKind (function_of rules.now).head (kind_of c.now) }
    requires a_near { IsWithin MAX_CELLS a.now }
    requires b_near { IsWithin MAX_CELLS b.now }
    requires c_near { IsWithin MAX_CELLS c.now }
    ensures { result ≡ operation_way_of (function_of rules.now) a.now b.now c.now }
{
    rules_are_valid(rules);
    functions_keep_forms();
    transform_stays_near();
    enabled_operations_are_near();
    let second = step(rules, b, a);
    let third = step(rules, c, a);
    OperationWay {
        second,
        third,
        both: third_step(rules, second.result, third.result),
    }
}

// The document of two ends that are one document.
fn one_end(left: End, right: End) -> Option<Doc>
    ensures { result ≡ one_end (outcome_of left) (outcome_of right) }
{
    let End::Doc(doc) = left else {
        return None;
    };
    let End::Doc(other) = right else {
        return None;
    };
    one_document(doc, &other)
}

// The document with which both orders of three operations end.
fn one_end_of(alloc: Global, rules: &Rules, doc: &Doc, ops: &[Op]) -> Result<Option<Doc>, NoMemory>
    requires integrable { All (IsIntegrable (function_of rules.now) (length doc.now)) ops.now }
    requires few { length doc.now ≤ MAX_CELLS }
    ensures { IfOk result (λ found. found ≡ one_end_of (function_of rules.now) doc.now ops.now) }
{
    let left = integrate(alloc, rules, doc, ops, &[0, 1, 2])?;
    let right = integrate(alloc, rules, doc, ops, &[1, 0, 2])?;
    Ok(one_end(left, right))
}

// Both ways of two operations.
fn pair_ways(rules: &Rules, doc: &Doc, ops: &[Op]) -> Result<Option<BothWays>, NoMemory>
    requires integrable { All (IsIntegrable (function_of rules.now) (length doc.now)) ops.now }
    requires few { length doc.now ≤ MAX_CELLS }
    ensures { IfOk result (λ ways. ways ≡ both_ways_of (function_of rules.now) Tp1 doc.now ops.now) }
{
    let [a, b] = ops else {
        return Ok(None);
    };
    let left = document_way(rules, doc, a, b)?;
    let right = document_way(rules, doc, b, a)?;
    Ok(Some(BothWays::Pair(left, right)))
}

// Both ways of three operations.
fn triple_ways(
    alloc: Global,
    rules: &Rules,
    doc: &Doc,
    ops: &[Op],
) -> Result<Option<BothWays>, NoMemory>
    requires integrable { All (IsIntegrable (function_of rules.now) (length doc.now)) ops.now }
    requires few { length doc.now ≤ MAX_CELLS }
    ensures { IfOk result (λ ways. ways ≡ both_ways_of (function_of rules.now) Tp2 doc.now ops.now) }
{
    enabled_operations_are_near();
    let [a, b, c] = ops else {
        return Ok(None);
    };
    let one = one_end_of(alloc, rules, doc, ops)?;
    let left = operation_way(rules, a, b, c);
    let right = operation_way(rules, b, a, c);
    Ok(Some(BothWays::Triple(left, right, one)))
}

/// Both ways of the operations, which were made on the document: of two for TP1, and of three for TP2. None for another
/// number of operations, and where the document is longer than that of a case may be.
pub fn both_ways(
    alloc: Global,
    rules: &Rules,
    level: Level,
    doc: &Doc,
    ops: &[Op],
) -> Result<Option<BothWays>, NoMemory>
    requires { All (IsIntegrable (function_of rules.now) (length doc.now)) ops.now }
    ensures { IfOk result (λ ways. ways ≡ shown_ways (function_of rules.now) level doc.now ops.now) }
{
    if doc.len() > MAX_CELLS {
        return Ok(None);
    }
    match level {
        Level::Tp1 => pair_ways(rules, doc, ops),
        Level::Tp2 => triple_ways(alloc, rules, doc, ops),
    }
}
