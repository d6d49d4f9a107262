//! How many questions a function can have. The function works nothing out: its contract is the law.
ghost use Rattle.std.specs.Prelude.{ℕ, ◌+◌, ◌*◌, ◌^◌, ◌≤◌, IsTrue, List};
ghost use Rattle.fn_rules.specs.declared.function.Level.{Level};
ghost use Rattle.fn_rules.specs.Atoms.{function_atoms};
ghost use Rattle.fn_rules.specs.Functions.{Function};
ghost use Rattle.fn_rules.specs.Obligations.{obligations_of};
ghost use Rattle.fn_rules.specs.Validity.{is_valid};
ghost use Rattle.ot_questions.specs.declared.why.Why.{Why};
ghost use Rattle.ot_questions.specs.Obligation.{plan_of};
ghost use Rattle.ot_decide.specs.Verdicts.{AreAsked, ObQuestions, count_in};

use fn_rules::levels_have_few_obligations;
use ot_questions::atoms_bound_questions;

/// A level has at most 24 obligations, and each of them has at most `2 ^ (12 g + 40)` questions, where `g` is the
/// number of the function's atoms. So a budget of 24 times as many is always enough.
pub fn atoms_bound_the_budget()
    ensures { (f : Function) (level : Level) (lists : List (ObQuestions Why)) → IsTrue (is_valid f)
        → AreAsked (plan_of f) (obligations_of f.head level) lists
        → count_in lists ≤ 24 * 2 ^ (12 * function_atoms f + 40) }
{
    levels_have_few_obligations();
    atoms_bound_questions();
}
