//! What the interpreter gives on the two ways of an instance.
ghost use Rattle.std.specs.Prelude.{◌≡◌, length, IfOk};
ghost use Rattle.ot_model.specs.Effect.{IsEnabled, document_after};
ghost use Rattle.ot_model.specs.Operations.{kind_of};
ghost use Rattle.fn_rules.specs.Functions.{IsForKind};
ghost use Rattle.fn_rules.specs.Conditions.{IsWithin};
ghost use Rattle.fn_rules.specs.Rules.{function_of};
ghost use Rattle.ot_questions.specs.Instances as instances;
ghost use Rattle.ot_values.specs.Values.{farthest};
ghost use Rattle.ot_counter.specs.Ways as ways;

use crate::NoMemory;
use crate::counter::WayResult;
use fn_rules::{
    Rules, rules_are_valid, transform, transform_keeps_all_but_the_position, transform_stays_near,
};
use ot_model::{Apply, Doc, Mode, Op, apply};

// An operation executed where it is enabled.
fn executed(mode: Mode, doc: &Doc, op: &Op) -> Result<WayResult, NoMemory>
    ensures { IfOk result (λ way. way ≡ ways.executed_way mode doc.now op.now) }
{
    let mut current = doc.try_clone()?;
    match apply(mode, op, &mut current) {
        Ok(()) => Ok(WayResult::Doc(current)),
        Err(Apply::NotEnabled) => Ok(WayResult::OutOfRange),
        Err(Apply::NoMemory) => Err(NoMemory),
    }
}

// The document after an operation that is enabled.
fn after(mode: Mode, doc: &Doc, op: &Op) -> Result<Doc, NoMemory>
    requires enabled { IsEnabled op.now (length doc.now) }
    ensures { IfOk result (λ next. next ≡ document_after mode op.now doc.now) }
{
    let mut current = doc.try_clone()?;
    match apply(mode, op, &mut current) {
        Ok(()) => Ok(current),
        Err(Apply::NoMemory) => Err(NoMemory),
        Err(Apply::NotEnabled) => unreachable!(),
    }
}

/// One operation executed, and then the form of another behind it.
pub(crate) fn document_way(
    rules: &Rules,
    doc: &Doc,
    first: &Op,
    other: &Op,
) -> Result<WayResult, NoMemory>
    requires enabled { IsEnabled first.now (length doc.now) }
    requires first_declared { IsForKind (function_of rules.now).head (kind_of first.now) }
    requires other_declared { IsForKind (function_of rules.now).head (kind_of other.now) }
    requires first_near { IsWithin farthest first.now }
    requires other_near { IsWithin farthest other.now }
    ensures { IfOk result (λ way. way ≡ ways.document_way (function_of rules.now) doc.now first.now other.now) }
{
    let mode = rules.head().mode;
    let next = after(mode, doc, first)?;
    match transform(rules, other, first) {
        None => Ok(WayResult::Undefined),
        Some(form) => executed(mode, &next, &form),
    }
}

// The form of `c` behind `a` and then `b`.
fn form_behind(rules: &Rules, a: &Op, b: &Op, c: &Op) -> Option<Op>
    requires a_declared { IsForKind (function_of rules.now).head (kind_of a.now) }
    requires b_declared { IsForKind (function_of rules.now).head (kind_of b.now) }
    requires c_declared { IsForKind (function_of rules.now).head (kind_of c.now) }
    requires a_near { IsWithin farthest a.now }
    requires b_near { IsWithin farthest b.now }
    requires c_near { IsWithin farthest c.now }
    ensures { result ≡ instances.form_behind (function_of rules.now) a.now b.now c.now }
{
    rules_are_valid(rules);
    transform_stays_near();
    transform_keeps_all_but_the_position();
    let b_after_a = transform(rules, b, a)?;
    let c_after_a = transform(rules, c, a)?;
    transform(rules, &c_after_a, &b_after_a)
}

/// The form of `c` behind `a` and then `b`, as the result of a way.
pub(crate) fn operation_way(rules: &Rules, a: &Op, b: &Op, c: &Op) -> WayResult
    requires a_declared { IsForKind (function_of rules.now).head (kind_of a.now) }
    requires b_declared { IsForKind (function_of rules.now).head (kind_of b.now) }
    requires c_declared { IsForKind (function_of rules.now).head (kind_of c.now) }
    requires a_near { IsWithin farthest a.now }
    requires b_near { IsWithin farthest b.now }
    requires c_near { IsWithin farthest c.now }
    ensures { result ≡ ways.operation_result (instances.form_behind (function_of rules.now) a.now b.now c.now) }
{
    match form_behind(rules, a, b, c) {
        None => WayResult::Undefined,
        Some(form) => WayResult::Op(form),
    }
}
