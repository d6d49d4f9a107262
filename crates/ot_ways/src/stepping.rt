//! The making of a step.
ghost use Rattle.std.specs.Prelude.{◌≡◌};
ghost use Rattle.ot_model.specs.Operations.{kind_of};
ghost use Rattle.fn_rules.specs.Conditions.{IsInRange};
ghost use Rattle.fn_rules.specs.Functions.{IsForKind};
ghost use Rattle.fn_rules.specs.Rules.{function_of};
ghost use Rattle.ot_ways.specs.Steps.{step_of};

use crate::one_step::Step;
use crate::taking::taken;
use fn_rules::{Rules, transform};
use ot_model::Op;

/// Transforms `a` against `b`.
pub fn step(rules: &Rules, a: &Op, b: &Op) -> Step
    requires a_declared { IsForKind (function_of rules.now).head (kind_of a.now) }
    requires b_declared { IsForKind (function_of rules.now).head (kind_of b.now) }
    requires a_in_range { IsInRange a.now }
    requires b_in_range { IsInRange b.now }
    ensures { result ≡ step_of (function_of rules.now) a.now b.now }
{
    Step {
        op: *a,
        against: *b,
        result: transform(rules, a, b),
        taken: taken(rules, a, b),
    }
}
