//! An operation that is carried over others: each transformation, and the case that was taken.
ghost use Rattle.std.specs.Prelude.{◌≡◌, ◌≤◌, length, IfOk, IfSome};
ghost use Rattle.std.specs.List.{All};
ghost use Rattle.ot_model.specs.declared.limits.TheConstants.{MAX_OPERATIONS};
ghost use Rattle.ot_model.specs.Operations.{kind_of};
ghost use Rattle.fn_rules.specs.Conditions.{IsWithin};
ghost use Rattle.fn_rules.specs.Functions.{IsForKind};
ghost use Rattle.fn_rules.specs.Orders.{through};
ghost use Rattle.fn_rules.specs.Rules.{function_of};
ghost use Rattle.ot_integrate.specs.Conditions.{most_cells, IsExecuted};
ghost use Rattle.ot_trace.specs.Steps.{steps_over};

use fn_rules::{
    Rules, enabled_operations_are_near, functions_keep_forms, rules_are_valid, transform_stays_near,
};
use ot_model::{NoMemory, Op};
use ot_ways::{Step, step};
use plain_list::List;
use std::alloc::Global;

/// An operation that was carried over others: each transformation up to the first without a result, and what came out.
#[derive(Drop)]
pub(crate) struct Carried {
    pub steps: List<Step>,
    pub form: Option<Op>,
}

/// Carries an operation over those that were executed before it.
pub(crate) fn carry(
    alloc: Global,
    rules: &Rules,
    op: Op,
    executed: &[Op],
) -> Result<Carried, NoMemory>
    requires declared { IsForKind (function_of rules.now).head (kind_of op) }
    requires near { IsWithin most_cells op }
    requires executed { All (IsExecuted (function_of rules.now)) executed.now }
    requires few { length executed.now ≤ MAX_OPERATIONS }
    ensures steps { IfOk result (λ carried. carried.steps ≡ steps_over (function_of rules.now) op executed.now) }
    ensures form { IfOk result (λ carried. carried.form ≡ through (function_of rules.now) op executed.now) }
    ensures declared { IfOk result (λ carried.
        IfSome carried.form (λ form. IsForKind (function_of rules.now).head (kind_of form))) }
{
    rules_are_valid(rules);
    transform_stays_near();
    functions_keep_forms();
    enabled_operations_are_near();
    let mut steps = List::new(alloc);
    let mut form = op;
    for other in executed {
        let one = step(rules, &form, other);
        steps.push(one)?;
        let Some(next) = one.result else {
            return Ok(Carried { steps, form: None });
        };
        form = next;
    }
    Ok(Carried {
        steps,
        form: Some(form),
    })
}
