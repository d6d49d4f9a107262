//! The goal that an obligation begins with.
ghost use Rattle.std.specs.Prelude.{◌≡◌, IfOk};
ghost use Rattle.fn_rules.specs.Rules.{function_of};
ghost use Rattle.ot_terms.specs.Goals.{goal_tree};
ghost use Rattle.ot_terms.specs.Starting as starting;

use ask_core::NoMemory;
use bumpalo::Bump;
use fn_rules::{Head, ObName, Rules};
use ot_model::Kind;
use ot_questions::Who;
use ot_terms::{
    Form, Goal, GoalProgress, Operands, Place, SymOp, enabled_form,
    first_goals_stand_for_obligations, placed,
};

// The goal, where the two names stand for different integers.
fn if_differ<'a>(
    bump: &'a Bump,
    x: Option<u8>,
    y: Option<u8>,
    next: &'a Goal<'a>,
) -> Result<&'a Goal<'a>, NoMemory>
    ensures { IfOk result (λ r. goal_tree r.now ≡ starting.if_differ x y (goal_tree next.now)) }
{
    let Some(x) = x else {
        return Ok(next);
    };
    let Some(y) = y else {
        return Ok(next);
    };
    let equal = Form::Eq(Place::named(x), Place::named(y));
    Goal::either(bump, equal, Goal::holds(bump)?, next)
}

// The goal, where the two names differ if it is assumed that they do.
fn if_assumed<'a>(
    bump: &'a Bump,
    assumed: bool,
    x: Option<u8>,
    y: Option<u8>,
    next: &'a Goal<'a>,
) -> Result<&'a Goal<'a>, NoMemory>
    ensures { IfOk result (λ r. goal_tree r.now ≡ starting.if_assumed assumed x y (goal_tree next.now)) }
{
    if assumed {
        return if_differ(bump, x, y, next);
    }
    Ok(next)
}

// The goal, where the two operations are allowed beside each other.
fn if_allowed<'a>(
    bump: &'a Bump,
    head: &Head,
    a: SymOp,
    b: SymOp,
    next: &'a Goal<'a>,
) -> Result<&'a Goal<'a>, NoMemory>
    ensures { IfOk result (λ r. goal_tree r.now ≡ starting.if_allowed head.now a b (goal_tree next.now)) }
{
    let next = if_assumed(bump, head.chars_differ, a.ch(), b.ch(), next)?;
    if_assumed(bump, head.sites_differ, a.site(), b.site(), next)
}

// The goal, where the operation is enabled on the document itself.
fn if_enabled<'a>(bump: &'a Bump, op: SymOp, next: &'a Goal<'a>) -> Result<&'a Goal<'a>, NoMemory>
    ensures { IfOk result (λ r. goal_tree r.now ≡ starting.if_enabled op (goal_tree next.now)) }
{
    let enabled = enabled_form(bump, op, 0)?;
    Goal::either(bump, *enabled, next, Goal::holds(bump)?)
}

// The goal, where each of the operations is.
fn if_all_enabled<'a>(
    bump: &'a Bump,
    ops: &[SymOp],
    next: &'a Goal<'a>,
) -> Result<&'a Goal<'a>, NoMemory>
    ensures { IfOk result (λ r. goal_tree r.now ≡ starting.if_all_enabled ops.now (goal_tree next.now)) }
{
    match ops {
        [] => Ok(next),
        [op, others @ ..] => {
            let next = if_all_enabled(bump, others, next)?;
            if_enabled(bump, *op, next)
        }
    }
}

// The goal, where the length is one.
fn if_length<'a>(bump: &'a Bump, next: &'a Goal<'a>) -> Result<&'a Goal<'a>, NoMemory>
    ensures { IfOk result (λ r. goal_tree r.now ≡ starting.if_length (goal_tree next.now)) }
{
    let length = Form::Le(Place::zero(), Place::length_and(0));
    Goal::either(bump, length, next, Goal::holds(bump)?)
}

// What the second operation becomes behind the first is the first result.
fn first_choice<'a>(
    bump: &'a Bump,
    ob: ObName,
    a: SymOp,
    b: SymOp,
    third: SymOp,
) -> Result<&'a Goal<'a>, NoMemory>
    ensures { IfOk result (λ r. goal_tree r.now ≡ starting.first_choice ob a b third) }
{
    let progress = GoalProgress {
        ob,
        ops: [a, b, third],
        got: [SymOp::Nop; 6],
        count: 0,
    };
    let ops = Operands { a: b, b: a };
    Goal::choose(bump, 0, placed(bump, ops)?, placed(bump, progress)?)
}

fn start_pair<'a>(bump: &'a Bump, head: &Head, k: Kind, l: Kind) -> Result<&'a Goal<'a>, NoMemory>
    ensures { IfOk result (λ r. goal_tree r.now ≡ starting.start_pair head.now k l) }
{
    let a = SymOp::named(k, Who::A);
    let b = SymOp::named(l, Who::B);
    let converge = first_choice(bump, ObName::Pair(k, l), a, b, SymOp::Nop)?;
    let allowed = if_allowed(bump, head, a, b, converge)?;
    let enabled = if_all_enabled(bump, &[a, b], allowed)?;
    if_length(bump, enabled)
}

fn start_triple<'a>(
    bump: &'a Bump,
    head: &Head,
    k: Kind,
    l: Kind,
    m: Kind,
) -> Result<&'a Goal<'a>, NoMemory>
    ensures { IfOk result (λ r. goal_tree r.now ≡ starting.start_triple head.now k l m) }
{
    let a = SymOp::named(k, Who::A);
    let b = SymOp::named(l, Who::B);
    let c = SymOp::named(m, Who::C);
    let commute = first_choice(bump, ObName::Triple(k, l, m), a, b, c)?;
    let last_two = if_allowed(bump, head, b, c, commute)?;
    let outer_two = if_allowed(bump, head, a, c, last_two)?;
    let first_two = if_allowed(bump, head, a, b, outer_two)?;
    let enabled = if_all_enabled(bump, &[a, b, c], first_two)?;
    if_length(bump, enabled)
}

/// The goal that an obligation begins with. What it is of, what it asks and when it is true is told by
/// `first_goals_stand_for_obligations` of `ot_terms`.
pub fn start_goal<'a>(bump: &'a Bump, rules: &Rules, ob: ObName) -> Result<&'a Goal<'a>, NoMemory>
    ensures { IfOk result (λ r. goal_tree r.now ≡ starting.start_goal_of (function_of rules.now).head ob) }
{
    let head = rules.head();
    match ob {
        ObName::Pair(k, l) => start_pair(bump, &head, k, l),
        ObName::Triple(k, l, m) => start_triple(bump, &head, k, l, m),
    }
}
