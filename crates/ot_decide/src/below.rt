//! Plans on short documents.
ghost use Rattle.std.specs.Prelude.{ℕ, Option, IsTrue};
ghost use Rattle.fn_rules.specs.declared.function.ObName.{ObName};
ghost use Rattle.fn_rules.specs.Functions.{Function};
ghost use Rattle.fn_rules.specs.Validity.{is_valid};
ghost use Rattle.ask_core.specs.Askers.{IsFine};
ghost use Rattle.ot_questions.specs.Names.{name_count};
ghost use Rattle.ot_questions.specs.Obligation.{plan_below};
ghost use Rattle.ot_decide.specs.Below.{IsBound};

use ot_questions::plans_keep_limits;

// The plans of obligations keep the limits of plans on the documents of fewer cells than a bound too. This function
// works nothing out: its contract is the law.
pub(crate) fn shorter_plans_keep_limits()
    ensures { (f : Function) (below : Option ℕ) (ob : ObName) → IsTrue (is_valid f) → IsBound below
        → IsFine (name_count ob) (plan_below f below ob) }
{
    plans_keep_limits();
}
