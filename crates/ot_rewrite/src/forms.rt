//! The rules for one of two goals, by a form.
ghost use Rattle.std.specs.Prelude.{◌≡◌, Some, IfOk, option_map};
ghost use Rattle.ot_questions.specs.Nears.{IsNear};
ghost use Rattle.ot_questions.specs.declared.place.Place.{Place};
ghost use Rattle.ot_terms.specs.Forms as trees;
ghost use Rattle.ot_terms.specs.Forms.{form_tree};
ghost use Rattle.ot_terms.specs.Goals.{goal_tree};
ghost use Rattle.ot_rewrite.specs.Steps.{front_tree, IsLoweredForm};
ghost use Rattle.ot_rewrite.specs.Table.{rewrite_if};

use crate::front::Front;
use ask_core::NoMemory;
use bumpalo::Bump;
use ot_terms::{Form, Goal, Place};

// Two places of one name are compared at once.
#[inline]
fn by_le<'a>(x: Place, y: Place, yes: &'a Goal<'a>, no: &'a Goal<'a>) -> Option<Front<'a>>
    ensures { option_map front_tree result ≡ rewrite_if (trees.Le x y) (goal_tree yes.now) (goal_tree no.now) }
{
    if x.is_at_most(y)? {
        return Some(Front::of(yes));
    }
    Some(Front::of(no))
}

#[inline]
fn by_lt<'a>(x: Place, y: Place, yes: &'a Goal<'a>, no: &'a Goal<'a>) -> Front<'a>
    requires { IsNear 999 y.off }
    ensures { Some (front_tree result) ≡ rewrite_if (trees.Lt x y) (goal_tree yes.now) (goal_tree no.now) }
{
    Front::If {
        form: Form::Le(x, y.plus(-1)),
        yes,
        no,
    }
}

#[inline]
fn by_eq<'a>(
    bump: &'a Bump,
    x: Place,
    y: Place,
    yes: &'a Goal<'a>,
    no: &'a Goal<'a>,
) -> Result<Option<Front<'a>>, NoMemory>
    ensures { IfOk result (λ r. option_map front_tree r ≡ rewrite_if (trees.Eq x y) (goal_tree yes.now)
        (goal_tree no.now)) }
{
    Ok(Some(Front::If {
        form: Form::Le(x, y),
        yes: Goal::either(bump, Form::Le(y, x), yes, no)?,
        no,
    }))
}

// The second form is asked where the first is true.
#[inline]
fn by_and<'a>(
    bump: &'a Bump,
    first: &'a Form<'a>,
    second: &'a Form<'a>,
    yes: &'a Goal<'a>,
    no: &'a Goal<'a>,
) -> Result<Option<Front<'a>>, NoMemory>
    ensures { IfOk result (λ r. option_map front_tree r
        ≡ rewrite_if (trees.And (form_tree first.now) (form_tree second.now)) (goal_tree yes.now) (goal_tree no.now)) }
{
    Ok(Some(Front::If {
        form: *first,
        yes: Goal::either(bump, *second, yes, no)?,
        no,
    }))
}

// The second form is asked where the first is not true.
#[inline]
fn by_or<'a>(
    bump: &'a Bump,
    first: &'a Form<'a>,
    second: &'a Form<'a>,
    yes: &'a Goal<'a>,
    no: &'a Goal<'a>,
) -> Result<Option<Front<'a>>, NoMemory>
    ensures { IfOk result (λ r. option_map front_tree r
        ≡ rewrite_if (trees.Or (form_tree first.now) (form_tree second.now)) (goal_tree yes.now) (goal_tree no.now)) }
{
    Ok(Some(Front::If {
        form: *first,
        yes,
        no: Goal::either(bump, *second, yes, no)?,
    }))
}

#[inline]
fn by_not<'a>(form: &'a Form<'a>, yes: &'a Goal<'a>, no: &'a Goal<'a>) -> Front<'a>
    ensures { Some (front_tree result) ≡ rewrite_if (trees.Not (form_tree form.now)) (goal_tree yes.now)
        (goal_tree no.now) }
{
    Front::If {
        form: *form,
        yes: no,
        no: yes,
    }
}

/// One of two goals, by a form; none where the form is a question.
#[inline]
pub(crate) fn by_form<'a>(
    bump: &'a Bump,
    form: Form<'a>,
    yes: &'a Goal<'a>,
    no: &'a Goal<'a>,
) -> Result<Option<Front<'a>>, NoMemory>
    requires { IsLoweredForm (form_tree form) }
    ensures { IfOk result (λ r. option_map front_tree r
        ≡ rewrite_if (form_tree form.entry) (goal_tree yes.now) (goal_tree no.now)) }
{
    match form {
        Form::True => Ok(Some(Front::of(yes))),
        Form::Le(x, y) => Ok(by_le(x, y, yes, no)),
        Form::Lt(x, y) => Ok(Some(by_lt(x, y, yes, no))),
        Form::Eq(x, y) => by_eq(bump, x, y, yes, no),
        Form::And(first, second) => by_and(bump, first, second, yes, no),
        Form::Or(first, second) => by_or(bump, first, second, yes, no),
        Form::Not(form) => Ok(Some(by_not(form, yes, no))),
    }
}
