//! The pairs of operations that cross where one is carried over others.
ghost use Rattle.std.specs.Prelude.{◌≡◌, IfOk};
ghost use Rattle.std.specs.List.{All};
ghost use Rattle.fn_rules.specs.Rules.{function_of};
ghost use Rattle.ot_hub.specs.Carry.{from_place};
ghost use Rattle.ot_hub.specs.Crossings.{CanBothMove, crossings};
ghost use Rattle.ot_hub.specs.Usable.{CanBeCarried};

use crate::carry::cross;
use crate::placed::PlacedOp;
use fn_rules::{
    Rules, enabled_operations_are_near, functions_keep_forms, rules_are_valid, transform_stays_near,
};
use ot_model::{NoMemory, Op};
use plain_list::List;
use std::alloc::Global;

/// Two operations that cross, as they are before that: the one that is carried, and one that it is carried over.
#[derive(Clone, Copy)]
pub struct Crossing {
    /// The operation that is carried.
    pub own: Op,

    /// The operation that it is carried over.
    pub other: Op,
}

/// The pairs that cross where an operation is carried over those of the list from a place on, up to the first of which
/// one has no result.
pub(crate) fn crossings(
    alloc: Global,
    rules: &Rules,
    op: Op,
    list: &[PlacedOp],
    place: u32,
) -> Result<List<Crossing>, NoMemory>
    requires { CanBeCarried (function_of rules.now) op list.now }
    ensures crossings { IfOk result (λ found.
        found ≡ crossings (function_of rules.now) op (from_place place list.now)) }
    ensures usable { IfOk result (All (CanBothMove (function_of rules.now))) }
{
    rules_are_valid(rules);
    transform_stays_near();
    functions_keep_forms();
    enabled_operations_are_near();
    let mut form = op;
    let mut found = List::new(alloc);
    for other in list {
        if other.place >= place {
            found.push(Crossing {
                own: form,
                other: other.op,
            })?;
            let Some(both) = cross(rules, &form, &other.op) else {
                return Ok(found);
            };
            form = both.own;
        }
    }
    Ok(found)
}
