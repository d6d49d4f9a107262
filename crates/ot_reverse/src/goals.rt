//! Goals of ordered pairs of kinds.
ghost use Rattle.std.specs.Prelude.{◌≡◌, ◌∷◌, [], map, IfOk, IfSome, IsTrue};
ghost use Rattle.std.specs.List.{AllByRecursion};
ghost use Rattle.fn_rules.specs.Functions.{case_of, cases_of, is_declared_pair};
ghost use Rattle.fn_rules.specs.Rules.{function_of};
ghost use Rattle.ot_audit.specs.Goals.{with_first_result};
ghost use Rattle.ot_questions.specs.Nears.{IsNearCase, IsNearOp};
ghost use Rattle.ot_questions.specs.Places.{sym_kind};
ghost use Rattle.ot_terms.specs.Goals.{goal_tree};
ghost use Rattle.ot_terms.specs.Starting as starting;
ghost use Rattle.ot_reverse.specs.Goals as goals;
ghost use Rattle.ot_reverse.specs.Reversal.{AreAlike};

use ask_core::NoMemory;
use bumpalo::Bump;
use fn_rules::{Case, Rules};
use ot_audit::{by_case, if_allowed, unless_one_place};
use ot_model::Kind;
use ot_questions::Who;
use ot_terms::{Form, Goal, Place, SymOp, Why, enabled_form};

// There is no result, which is a cause.
fn undefined<'a>(bump: &'a Bump) -> Result<&'a Goal<'a>, NoMemory>
    ensures { IfOk result (λ r. goal_tree r.now ≡ goals.undefined) }
{
    Goal::fails(bump, Why::Undefined)
}

// The goal, where the operation is enabled on the document.
fn if_enabled<'a>(bump: &'a Bump, op: SymOp, next: &'a Goal<'a>) -> Result<&'a Goal<'a>, NoMemory>
    ensures { IfOk result (λ r. goal_tree r.now ≡ starting.if_enabled op (goal_tree next.now)) }
{
    let enabled = enabled_form(bump, op, 0)?;
    let holds = Goal::holds(bump)?;
    Goal::either(bump, *enabled, next, holds)
}

// The goal, where both operations are enabled on a document of some length.
fn if_both_enabled<'a>(
    bump: &'a Bump,
    a: SymOp,
    b: SymOp,
    next: &'a Goal<'a>,
) -> Result<&'a Goal<'a>, NoMemory>
    ensures { IfOk result (λ r. goal_tree r.now ≡ starting.if_length
        (starting.if_all_enabled (a ∷ b ∷ []) (goal_tree next.now))) }
{
    let second = if_enabled(bump, b, next)?;
    let first = if_enabled(bump, a, second)?;
    let holds = Goal::holds(bump)?;
    let length = Form::Le(Place::zero(), Place::length_and(0));
    Goal::either(bump, length, first, holds)
}

// What comes back is to be there, and to be the operation itself.
fn unless_same<'a>(bump: &'a Bump, a: SymOp, back: Option<SymOp>) -> Result<&'a Goal<'a>, NoMemory>
    ensures { IfOk result (λ r. goal_tree r.now ≡ goals.unless_itself a back) }
{
    match back {
        None => undefined(bump),
        Some(back) => unless_one_place(bump, back, a),
    }
}

// The guards of the second function for the form, and then the position of what comes back.
fn with_back<'a>(
    bump: &'a Bump,
    cases: &[Case],
    a: SymOp,
    b: SymOp,
    there: SymOp,
) -> Result<&'a Goal<'a>, NoMemory>
    requires b_near { IsNearOp 200 b }
    requires there_near { IsNearOp 200 there }
    requires near { AllByRecursion IsNearCase (map case_of cases.now) }
    ensures { IfOk result (λ r. goal_tree r.now ≡ with_first_result (map case_of cases.now) there b
        (λ back. goals.unless_itself a back)) }
{
    match cases {
        [] => unless_same(bump, a, None),
        [case, others @ ..] => {
            let behind = with_back(bump, others, a, b, there)?;
            let here = unless_same(bump, a, Some(there.result(case.res, b)))?;
            by_case(bump, case, there, b, here, behind)
        }
    }
}

// What comes back of a form, which is asked where it is not nop.
fn unless_back<'a>(
    bump: &'a Bump,
    cases: &[Case],
    a: SymOp,
    b: SymOp,
    there: SymOp,
) -> Result<&'a Goal<'a>, NoMemory>
    requires b_near { IsNearOp 200 b }
    requires there_near { IsNearOp 200 there }
    requires near { AllByRecursion IsNearCase (map case_of cases.now) }
    ensures { IfOk result (λ r. goal_tree r.now ≡ goals.unless_back (map case_of cases.now) a b there
        (sym_kind there)) }
{
    match there.kind() {
        None => Goal::holds(bump),
        Some(_) => with_back(bump, cases, a, b, there),
    }
}

// The form is to be there, and to come back.
fn unless_there<'a>(
    bump: &'a Bump,
    cases: &[Case],
    a: SymOp,
    b: SymOp,
    there: Option<SymOp>,
) -> Result<&'a Goal<'a>, NoMemory>
    requires b_near { IsNearOp 200 b }
    requires there_near { IfSome there (IsNearOp 200) }
    requires near { AllByRecursion IsNearCase (map case_of cases.now) }
    ensures { IfOk result (λ r. goal_tree r.now ≡ goals.unless_there (map case_of cases.now) a b there) }
{
    match there {
        None => undefined(bump),
        Some(there) => unless_back(bump, cases, a, b, there),
    }
}

// The guards of the first function, and then what comes back of each result.
fn unless_taken_back<'a>(
    bump: &'a Bump,
    cases: &[Case],
    others: &[Case],
    a: SymOp,
    b: SymOp,
) -> Result<&'a Goal<'a>, NoMemory>
    requires a_near { IsNearOp 101 a }
    requires b_near { IsNearOp 101 b }
    requires near { AllByRecursion IsNearCase (map case_of cases.now) }
    requires others_near { AllByRecursion IsNearCase (map case_of others.now) }
    ensures { IfOk result (λ r. goal_tree r.now ≡ goals.unless_taken_back (map case_of cases.now)
        (map case_of others.now) a b) }
{
    match cases {
        [] => undefined(bump),
        [case, rest @ ..] => {
            let behind = unless_taken_back(bump, rest, others, a, b)?;
            let here = unless_there(bump, others, a, b, Some(a.result(case.res, b)))?;
            by_case(bump, case, a, b, here, behind)
        }
    }
}

/// The goal of where the second function does not take back what the first one makes of operations of the two kinds.
/// The error is want of memory.
pub fn reversal_goal<'a>(
    bump: &'a Bump,
    rules: &Rules,
    others: &Rules,
    first: Kind,
    second: Kind,
) -> Result<&'a Goal<'a>, NoMemory>
    requires declared { IsTrue (is_declared_pair (function_of rules.now).head first second) }
    requires alike { AreAlike (function_of rules.now).head (function_of others.now).head }
    ensures { IfOk result (λ r. goal_tree r.now ≡ goals.reversal_goal (function_of rules.now) (function_of others.now)
        first second) }
{
    let a = SymOp::named(first, Who::A);
    let b = SymOp::named(second, Who::B);
    let cases = rules.cases(first, second);
    let other_cases = others.cases(first, second);
    let taken_back = unless_taken_back(bump, cases, other_cases, a, b)?;
    let allowed = if_allowed(bump, &rules.head(), a, b, taken_back)?;
    if_both_enabled(bump, a, b, allowed)
}
