//! Carrying an operation over others, and these over it.
ghost use Rattle.std.specs.Prelude.{◌≡◌, IfOk, Some, IsSome};
ghost use Rattle.fn_rules.specs.Rules.{function_of};
ghost use Rattle.ot_hub.specs.Carry.{crossed, carry, from_place, carried_op, carried_list};
ghost use Rattle.ot_hub.specs.Usable.{IsUsable, CanBeCarried, farthest_carried};

use crate::placed::PlacedOp;
use fn_rules::{
    Rules, enabled_operations_are_near, functions_keep_forms, rules_are_valid, transform,
    transform_stays_near,
};
use ot_model::{NoMemory, Op};
use plain_list::List;
use std::alloc::Global;

/// What two operations become, each after the other one.
#[derive(Clone, Copy)]
pub(crate) struct Crossed {
    pub own: Op,
    pub other: Op,
}

/// Both transformations of two operations that were made on one document. None where one has no result.
pub(crate) fn cross(rules: &Rules, own: &Op, other: &Op) -> Option<Crossed>
    requires own { IsUsable (function_of rules.now) (farthest_carried 0) own.now }
    requires other { IsUsable (function_of rules.now) (farthest_carried 0) other.now }
    ensures { result ≡ crossed (function_of rules.now) own.now other.now }
{
    Some(Crossed {
        own: transform(rules, own, other)?,
        other: transform(rules, other, own)?,
    })
}

/// What an operation becomes that is carried over those of the list from a place on. None where it can't be.
pub(crate) fn carried(rules: &Rules, op: Op, list: &[PlacedOp], place: u32) -> Option<Op>
    requires { CanBeCarried (function_of rules.now) op list.now }
    ensures { result ≡ carried_op (carry (function_of rules.now) op (from_place place list.now)) }
{
    rules_are_valid(rules);
    transform_stays_near();
    functions_keep_forms();
    enabled_operations_are_near();
    let mut form = op;
    for other in list {
        if other.place >= place {
            form = cross(rules, &form, &other.op)?.own;
        }
    }
    Some(form)
}

/// What those of the list from a place on become that an operation is carried over.
pub(crate) fn carry_list(
    alloc: Global,
    rules: &Rules,
    op: Op,
    list: &[PlacedOp],
    place: u32,
) -> Result<List<PlacedOp>, NoMemory>
    requires usable { CanBeCarried (function_of rules.now) op list.now }
    requires carried { IsSome (carry (function_of rules.now) op (from_place place list.now)) }
    ensures { IfOk result (λ new. carried_list (carry (function_of rules.now) op (from_place place list.now))
        ≡ Some new) }
{
    rules_are_valid(rules);
    transform_stays_near();
    functions_keep_forms();
    enabled_operations_are_near();
    let mut form = op;
    let mut new = List::new(alloc);
    for other in list {
        if other.place >= place {
            let Some(both) = cross(rules, &form, &other.op) else {
                unreachable!()
            };
            new.push(PlacedOp {
                place: other.place,
                op: both.other,
            })?;
            form = both.own;
        }
    }
    Ok(new)
}
