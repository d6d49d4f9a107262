//! The rules for the cases of a transformation.
ghost use Rattle.std.specs.Prelude.{◌≡◌, ◌≤◌, false, IfOk, IfSome, IfNone, Some, map, length, drop};
ghost use Rattle.fn_rules.specs.Functions.{case_of};
ghost use Rattle.fn_rules.specs.Formulas.{formula_of};
ghost use Rattle.fn_rules.specs.Rules.{function_of};
ghost use Rattle.ot_questions.specs.Nears.{IsNearOp, IsNearCase, HasNearAtoms};
ghost use Rattle.std.specs.List.{AllByRecursion};
ghost use Rattle.ot_rewrite.specs.Steps.{front_tree, trial_tree, is_tried, IsChoosable};
ghost use Rattle.ot_rewrite.specs.Table as table;

use crate::front::Front;
use ask_core::NoMemory;
use bumpalo::Bump;
use fn_rules::{Case, Guard, Rules};
use ot_terms::{Goal, GoalProgress, Operands, SymOp, Why, place_form};

/// A case that is tried: its guard, and what is left where this is true and where it is not.
#[derive(Clone, Copy)]
pub struct Trial<'r, 'a> {
    pub guard: &'r Guard,
    pub yes: Goal<'a>,
    pub no: Goal<'a>,
}

// The first of the cases that are left, of the case number on.
#[inline]
fn first_case<'r, 'a>(
    cases: &'r [Case],
    case: u32,
    ops: &'a Operands,
    progress: &'a GoalProgress,
) -> Option<Trial<'r, 'a>>
    requires a_near { IsNearOp 99 ops.now.a }
    requires b_near { IsNearOp 99 ops.now.b }
    requires cases_near { AllByRecursion IsNearCase (map case_of cases.now) }
    requires few { case ≤ 64 }
    ensures tries { trial_tree ops.now.a ops.now.b result
        ≡ table.choose_case (map case_of cases.now) case ops.now.a ops.now.b progress.now }
    ensures near { IfSome result (λ t. HasNearAtoms (formula_of t.guard.now)) }
{
    match cases {
        [] => None,
        [first, ..] => Some(Trial {
            guard: &first.guard,
            yes: Goal::Deliver {
                op: ops.a.result(first.res, ops.b),
                plan: progress,
            },
            no: Goal::Choose {
                case: case + 1,
                ops,
                plan: progress,
            },
        }),
    }
}

/// The case that is tried next where the first operation is transformed behind the second one, if both are there and a
/// case is left.
pub fn next_case<'r, 'a>(
    rules: &'r Rules,
    case: u32,
    ops: &'a Operands,
    progress: &'a GoalProgress,
) -> Option<Trial<'r, 'a>>
    requires { IsChoosable (function_of rules.now) case ops.now.a ops.now.b }
    ensures tries { IfSome result (λ t. trial_tree ops.now.a ops.now.b (Some t)
        ≡ table.rewrite_choose (function_of rules.now) case ops.now.a ops.now.b progress.now) }
    ensures none { IfNone result
        (is_tried (table.rewrite_choose (function_of rules.now) case ops.now.a ops.now.b progress.now) ≡ false) }
    ensures near { IfSome result (λ t. HasNearAtoms (formula_of t.guard.now)) }
{
    let Some(first) = ops.a.kind() else {
        return None;
    };
    let Some(second) = ops.b.kind() else {
        return None;
    };
    let cases = rules.cases(first, second);
    first_case(&cases[case as usize..], case, ops, progress)
}

// The first of the cases that are left, of the case number on, with its form.
#[inline]
fn choose_case<'a>(
    bump: &'a Bump,
    cases: &[Case],
    case: u32,
    ops: &'a Operands,
    progress: &'a GoalProgress,
) -> Result<Front<'a>, NoMemory>
    requires a_near { IsNearOp 99 ops.now.a }
    requires b_near { IsNearOp 99 ops.now.b }
    requires cases_near { AllByRecursion IsNearCase (map case_of cases.now) }
    requires few { case ≤ 64 }
    ensures { IfOk result (λ r. front_tree r ≡ table.choose_case (map case_of cases.now) case ops.now.a ops.now.b
        progress.now) }
{
    match first_case(cases, case, ops, progress) {
        None => Ok(Front::Fails(Why::Undefined)),
        Some(Trial { guard, yes, no }) => {
            Front::either(bump, place_form(bump, guard, ops.a, ops.b)?, yes, no)
        }
    }
}

/// What the first operation becomes behind the second: both are there and a case is tried, or one is nop.
#[inline]
pub(crate) fn choose<'a>(
    bump: &'a Bump,
    rules: &Rules,
    case: u32,
    ops: &'a Operands,
    progress: &'a GoalProgress,
) -> Result<Front<'a>, NoMemory>
    requires { IsChoosable (function_of rules.now) case ops.now.a ops.now.b }
    ensures { IfOk result (λ r. front_tree r
        ≡ table.rewrite_choose (function_of rules.now) case ops.now.a ops.now.b progress.now) }
{
    let Some(first) = ops.a.kind() else {
        return Ok(Front::Deliver {
            op: SymOp::Nop,
            progress,
        });
    };
    let Some(second) = ops.b.kind() else {
        return Ok(Front::Deliver {
            op: ops.a,
            progress,
        });
    };
    let cases = rules.cases(first, second);
    choose_case(bump, &cases[case as usize..], case, ops, progress)
}
