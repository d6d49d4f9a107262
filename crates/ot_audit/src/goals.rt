//! Goals about the guards of a block.
ghost use Rattle.std.specs.Prelude.{◌≡◌, ◌<◌, length, map, IfOk, IsTrue};
ghost use Rattle.std.specs.List.{AllByRecursion};
ghost use Rattle.fn_rules.specs.Functions.{case_of, cases_of, is_declared_pair};
ghost use Rattle.fn_rules.specs.Rules.{function_of};
ghost use Rattle.ot_questions.specs.Nears.{IsNearCase, IsNearOp};
ghost use Rattle.ot_questions.specs.Places.{sym_at, sym_kind};
ghost use Rattle.ot_terms.specs.Forms.{Eq};
ghost use Rattle.ot_terms.specs.Goals.{goal_tree, Holds, If};
ghost use Rattle.ot_terms.specs.Placing.{guard_form};
ghost use Rattle.ot_terms.specs.Starting as starting;
ghost use Rattle.ot_audit.specs.declared.target.Target.TheVariants as targets;
ghost use Rattle.ot_audit.specs.Goals as goals;

use crate::target::Target;
use ask_core::NoMemory;
use bumpalo::Bump;
use fn_rules::{Case, Head, Rules};
use ot_model::Kind;
use ot_questions::{Who, position_name};
use ot_terms::{Form, Goal, Place, SymOp, Why, place_form};

// What is sought was found.
fn found<'a>(bump: &'a Bump) -> Result<&'a Goal<'a>, NoMemory>
    ensures { IfOk result (λ r. goal_tree r.now ≡ goals.found) }
{
    Goal::fails(bump, Why::Operations)
}

// The goal, where the operation's position is not negative.
fn if_there<'a>(bump: &'a Bump, who: Who, next: &'a Goal<'a>) -> Result<&'a Goal<'a>, NoMemory>
    ensures { IfOk result (λ r. goal_tree r.now ≡ goals.if_there who (goal_tree next.now)) }
{
    let holds = Goal::holds(bump)?;
    let there = Form::Le(Place::zero(), Place::named(position_name(who)));
    Goal::either(bump, there, next, holds)
}

// The goal, where the two names stand for different integers.
fn if_differ<'a>(
    bump: &'a Bump,
    x: Option<u8>,
    y: Option<u8>,
    next: &'a Goal<'a>,
) -> Result<&'a Goal<'a>, NoMemory>
    ensures { IfOk result (λ r. goal_tree r.now ≡ starting.if_differ x y (goal_tree next.now)) }
{
    let Some(x) = x else {
        return Ok(next);
    };
    let Some(y) = y else {
        return Ok(next);
    };
    let holds = Goal::holds(bump)?;
    Goal::either(
        bump,
        Form::Eq(Place::named(x), Place::named(y)),
        holds,
        next,
    )
}

// The goal, where the two names differ if it is assumed that they do.
fn if_assumed<'a>(
    bump: &'a Bump,
    assumed: bool,
    x: Option<u8>,
    y: Option<u8>,
    next: &'a Goal<'a>,
) -> Result<&'a Goal<'a>, NoMemory>
    ensures { IfOk result (λ r. goal_tree r.now ≡ starting.if_assumed assumed x y (goal_tree next.now)) }
{
    if assumed {
        return if_differ(bump, x, y, next);
    }
    Ok(next)
}

/// The goal, where the two operations differ in what is assumed to differ. The error is want of memory.
pub fn if_allowed<'a>(
    bump: &'a Bump,
    head: &Head,
    a: SymOp,
    b: SymOp,
    next: &'a Goal<'a>,
) -> Result<&'a Goal<'a>, NoMemory>
    ensures { IfOk result (λ r. goal_tree r.now ≡ starting.if_allowed head.now a b (goal_tree next.now)) }
{
    let next = if_assumed(bump, head.chars_differ, a.ch(), b.ch(), next)?;
    if_assumed(bump, head.sites_differ, a.site(), b.site(), next)
}

// The goal, where the two operations are meant.
fn if_meant<'a>(
    bump: &'a Bump,
    head: &Head,
    a: SymOp,
    b: SymOp,
    next: &'a Goal<'a>,
) -> Result<&'a Goal<'a>, NoMemory>
    ensures { IfOk result (λ r. goal_tree r.now ≡ goals.if_meant head.now a b (goal_tree next.now)) }
{
    let allowed = if_allowed(bump, head, a, b, next)?;
    let second = if_there(bump, Who::B, allowed)?;
    if_there(bump, Who::A, second)
}

/// By the guard of a case: the first goal where it is true, and the second where it is not. The error is want of memory.
pub fn by_case<'a>(
    bump: &'a Bump,
    case: &Case,
    a: SymOp,
    b: SymOp,
    yes: &'a Goal<'a>,
    no: &'a Goal<'a>,
) -> Result<&'a Goal<'a>, NoMemory>
    requires a_near { IsNearOp 200 a }
    requires b_near { IsNearOp 200 b }
    requires near { IsNearCase (case_of case.now) }
    ensures { IfOk result (λ r. goal_tree r.now ≡ If (guard_form (case_of case.now).guard a b) (goal_tree yes.now)
        (goal_tree no.now)) }
{
    let guard = place_form(bump, &case.guard, a, b)?;
    Goal::either(bump, *guard, yes, no)
}

// The guards in their order, and behind them the goal.
fn unless_true<'a>(
    bump: &'a Bump,
    cases: &[Case],
    a: SymOp,
    b: SymOp,
    next: &'a Goal<'a>,
) -> Result<&'a Goal<'a>, NoMemory>
    requires a_near { IsNearOp 200 a }
    requires b_near { IsNearOp 200 b }
    requires near { AllByRecursion IsNearCase (map case_of cases.now) }
    ensures { IfOk result (λ r. goal_tree r.now ≡ goals.unless_true (map case_of cases.now) a b (goal_tree next.now)) }
{
    match cases {
        [] => Ok(next),
        [case, others @ ..] => {
            let behind = unless_true(bump, others, a, b, next)?;
            let holds = Goal::holds(bump)?;
            by_case(bump, case, a, b, holds, behind)
        }
    }
}

// The guard of one case is what is sought to be true.
fn at_own<'a>(bump: &'a Bump, case: &Case, a: SymOp, b: SymOp) -> Result<&'a Goal<'a>, NoMemory>
    requires a_near { IsNearOp 200 a }
    requires b_near { IsNearOp 200 b }
    requires near { IsNearCase (case_of case.now) }
    ensures { IfOk result (λ r. goal_tree r.now ≡ goals.at_own (Some (case_of case.now)) a b) }
{
    let found = found(bump)?;
    let holds = Goal::holds(bump)?;
    by_case(bump, case, a, b, found, holds)
}

// Where a case is taken: its guard behind all earlier ones.
fn at_case<'a>(
    bump: &'a Bump,
    cases: &[Case],
    number: u32,
    a: SymOp,
    b: SymOp,
) -> Result<&'a Goal<'a>, NoMemory>
    requires a_near { IsNearOp 200 a }
    requires b_near { IsNearOp 200 b }
    requires near { AllByRecursion IsNearCase (map case_of cases.now) }
    requires number { number < length cases.now }
    ensures { IfOk result (λ r. goal_tree r.now ≡ goals.at_target (map case_of cases.now) (targets.Case number) a b) }
{
    let at = number as usize;
    let own = at_own(bump, &cases[at], a, b)?;
    let earlier = &cases[..at];
    unless_true(bump, earlier, a, b, own)
}

// Where the target is reached.
fn at_target<'a>(
    bump: &'a Bump,
    cases: &[Case],
    target: Target,
    a: SymOp,
    b: SymOp,
) -> Result<&'a Goal<'a>, NoMemory>
    requires a_near { IsNearOp 200 a }
    requires b_near { IsNearOp 200 b }
    requires near { AllByRecursion IsNearCase (map case_of cases.now) }
    requires target { goals.IsTargetOf (length cases.now) target }
    ensures { IfOk result (λ r. goal_tree r.now ≡ goals.at_target (map case_of cases.now) target a b) }
{
    match target {
        Target::Case(number) => at_case(bump, cases, number, a, b),
        Target::Open => unless_true(bump, cases, a, b, found(bump)?),
    }
}

// What is sought is that the two results, none of which need be there, differ.
fn unless_same<'a>(
    bump: &'a Bump,
    left: Option<SymOp>,
    right: Option<SymOp>,
) -> Result<&'a Goal<'a>, NoMemory>
    ensures { IfOk result (λ r. goal_tree r.now ≡ goals.unless_same left right) }
{
    match left {
        None => match right {
            None => Goal::holds(bump),
            Some(_) => found(bump),
        },
        Some(left) => match right {
            None => found(bump),
            Some(right) => unless_one_place(bump, left, right),
        },
    }
}

// What is sought is that two places differ.
fn unless_equal<'a>(bump: &'a Bump, x: Place, y: Place) -> Result<&'a Goal<'a>, NoMemory>
    ensures { IfOk result (λ r. goal_tree r.now ≡ If (Eq x y) Holds goals.found) }
{
    let holds = Goal::holds(bump)?;
    let found = found(bump)?;
    Goal::either(bump, Form::Eq(x, y), holds, found)
}

/// The same of two results of one operation that are there: it holds where both are nop, or both stand at one place.
/// The error is want of memory.
pub fn unless_one_place<'a>(
    bump: &'a Bump,
    left: SymOp,
    right: SymOp,
) -> Result<&'a Goal<'a>, NoMemory>
    ensures { IfOk result (λ r. goal_tree r.now
        ≡ goals.unless_one_place (sym_kind left) (sym_kind right) (sym_at left) (sym_at right)) }
{
    match left.kind() {
        None => match right.kind() {
            None => Goal::holds(bump),
            Some(_) => found(bump),
        },
        Some(_) => match right.kind() {
            None => found(bump),
            Some(_) => unless_equal(bump, left.at(), right.at()),
        },
    }
}

// The guards of the second function, and then the two results.
fn with_right<'a>(
    bump: &'a Bump,
    cases: &[Case],
    a: SymOp,
    b: SymOp,
    left: Option<SymOp>,
) -> Result<&'a Goal<'a>, NoMemory>
    requires a_near { IsNearOp 200 a }
    requires b_near { IsNearOp 200 b }
    requires near { AllByRecursion IsNearCase (map case_of cases.now) }
    ensures { IfOk result (λ r. goal_tree r.now ≡ goals.with_first_result (map case_of cases.now) a b
        (λ y. goals.unless_same left y)) }
{
    match cases {
        [] => unless_same(bump, left, None),
        [case, others @ ..] => {
            let behind = with_right(bump, others, a, b, left)?;
            let here = unless_same(bump, left, Some(a.result(case.res, b)))?;
            by_case(bump, case, a, b, here, behind)
        }
    }
}

// The guards of the first function, then those of the second, and then the two results.
fn unless_agreed<'a>(
    bump: &'a Bump,
    cases: &[Case],
    others: &[Case],
    a: SymOp,
    b: SymOp,
) -> Result<&'a Goal<'a>, NoMemory>
    requires a_near { IsNearOp 200 a }
    requires b_near { IsNearOp 200 b }
    requires near { AllByRecursion IsNearCase (map case_of cases.now) }
    requires others_near { AllByRecursion IsNearCase (map case_of others.now) }
    ensures { IfOk result (λ r. goal_tree r.now ≡ goals.unless_agreed (map case_of cases.now) (map case_of others.now) a
        b) }
{
    match cases {
        [] => with_right(bump, others, a, b, None),
        [case, rest @ ..] => {
            let behind = unless_agreed(bump, rest, others, a, b)?;
            let here = with_right(bump, others, a, b, Some(a.result(case.res, b)))?;
            by_case(bump, case, a, b, here, behind)
        }
    }
}

/// The goal of where the target of the block of two kinds is reached. The error is want of memory.
pub fn target_goal<'a>(
    bump: &'a Bump,
    rules: &Rules,
    first: Kind,
    second: Kind,
    target: Target,
) -> Result<&'a Goal<'a>, NoMemory>
    requires declared { IsTrue (is_declared_pair (function_of rules.now).head first second) }
    requires target { goals.IsTargetOf (length (cases_of (function_of rules.now) first second)) target }
    ensures { IfOk result (λ r. goal_tree r.now ≡ goals.target_goal (function_of rules.now) first second target) }
{
    let a = SymOp::named(first, Who::A);
    let b = SymOp::named(second, Who::B);
    let cases = rules.cases(first, second);
    let reached = at_target(bump, cases, target, a, b)?;
    if_meant(bump, &rules.head(), a, b, reached)
}

/// The goal of where two functions of one head do not agree on the block of two kinds. The error is want of memory.
pub fn difference_goal<'a>(
    bump: &'a Bump,
    rules: &Rules,
    others: &Rules,
    first: Kind,
    second: Kind,
) -> Result<&'a Goal<'a>, NoMemory>
    requires declared { IsTrue (is_declared_pair (function_of rules.now).head first second) }
    requires heads { (function_of others.now).head ≡ (function_of rules.now).head }
    ensures { IfOk result (λ r. goal_tree r.now ≡ goals.difference_goal (function_of rules.now) (function_of others.now)
        first second) }
{
    let a = SymOp::named(first, Who::A);
    let b = SymOp::named(second, Who::B);
    let cases = rules.cases(first, second);
    let other_cases = others.cases(first, second);
    let agreed = unless_agreed(bump, cases, other_cases, a, b)?;
    if_meant(bump, &rules.head(), a, b, agreed)
}
