//! Cases that are tried one after another.
ghost use Rattle.std.specs.Prelude.{◌≡◌, false, IfSome};
ghost use Rattle.fn_rules.specs.declared.function.ObName.{ObName};
ghost use Rattle.fn_rules.specs.Rules.{function_of};
ghost use Rattle.ot_terms.specs.Belonging.{IsGoalOf};
ghost use Rattle.ot_terms.specs.Goals.{Choose};
ghost use Rattle.start_laws.specs.Settled.{is_begun};
ghost use Rattle.ot_starts.specs.Trials.{IsTrialOf};

use fn_rules::{Rules, rules_are_valid};
use ot_paths::trial as tried;
use ot_rewrite::{Trial, rules_keep_what_is_asked};
use ot_terms::{GoalProgress, Operands};
use start_laws::rules_keep_starts;

/// The case that is tried next, not as the first one of a transformation; none where none is left or an operation is
/// nop.
pub(crate) fn trial<'r, 'a>(
    rules: &'r Rules,
    case: u32,
    ops: &'a Operands,
    plan: &'a GoalProgress,
) -> Option<Trial<'r, 'a>>
    requires goal { (ob : ObName) × IsGoalOf (function_of rules.now) ob (Choose case ops.now.a ops.now.b plan.now) }
    requires later { is_begun (Choose case ops.now.a ops.now.b plan.now) ≡ false }
    ensures { IfSome result (IsTrialOf (function_of rules.now) (Choose case ops.now.a ops.now.b plan.now)
        ops.now.a ops.now.b) }
{
    rules_keep_starts();
    rules_keep_what_is_asked();
    rules_are_valid(rules);
    tried(rules, case, ops, plan)
}
