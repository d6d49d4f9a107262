//! The first question of a form, and what is left of it behind the answer.
ghost use Rattle.std.specs.Prelude.{◌≡◌, ◌↔◌, ℕ, ℤ, if◌then◌else◌, Some, IfOk};
ghost use Rattle.ask_core.specs.Plans.{Plan};
ghost use Rattle.ot_questions.specs.declared.place.Place.{Place};
ghost use Rattle.ot_questions.specs.declared.why.Why.{Why};
ghost use Rattle.ot_terms.specs.Belonging.{HasPlaces};
ghost use Rattle.ot_terms.specs.Forms.{form_tree, form_holds};
ghost use Rattle.ot_terms.specs.Standing.{ask_form};
ghost use Rattle.ot_rewrite.specs.Splits as splits;
ghost use Rattle.ot_rewrite.specs.Splits.{split_tree, split_of, first_question, EndsInYes, EndsInNo, EndsAtQuestion};
ghost use Rattle.ot_rewrite.specs.Splits.{split_holds, ask_split, HasFewer, HasSplitPlaces, HasLowOffsets};

use crate::question::Split;
use ask_core::NoMemory;
use bumpalo::Bump;
use ot_terms::{Form, Place, placed};

// A question, and the forms that are left behind its answers.
fn asks<'a>(
    bump: &'a Bump,
    x: Place,
    y: Place,
    yes: Form<'a>,
    no: Form<'a>,
) -> Result<Split<'a>, NoMemory>
    ensures { IfOk result (λ r. split_tree r ≡ splits.Ask x y (form_tree yes.entry) (form_tree no.entry)) }
{
    Ok(Split::Ask {
        x,
        y,
        yes: placed(bump, yes)?,
        no: placed(bump, no)?,
    })
}

fn decided<'a>(holds: bool) -> Split<'a>
    ensures { split_tree result ≡ (if holds then splits.Yes else splits.No) }
{
    if holds { Split::Yes } else { Split::No }
}

fn split_le<'a>(bump: &'a Bump, x: Place, y: Place) -> Result<Split<'a>, NoMemory>
    ensures { IfOk result (λ r. split_tree r ≡ splits.split_le x y) }
{
    if let Some(holds) = x.is_at_most(y) {
        return Ok(decided(holds));
    }
    asks(bump, x, y, Form::True, Form::Not(Form::always(bump)?))
}

fn split_eq<'a>(bump: &'a Bump, x: Place, y: Place) -> Result<Split<'a>, NoMemory>
    ensures { IfOk result (λ r. split_tree r ≡ splits.split_eq x y) }
{
    if x.var == y.var {
        return Ok(decided(x.off == y.off));
    }
    asks(bump, x, y, Form::Le(y, x), Form::Not(Form::always(bump)?))
}

fn split_part<'a>(bump: &'a Bump, form: &'a Form<'a>) -> Result<Split<'a>, NoMemory>
    requires { HasLowOffsets (form_tree form.now) }
    ensures { IfOk result (λ r. split_tree r ≡ split_of (form_tree form.now)) }
{
    match form {
        Form::True => Ok(Split::Yes),
        Form::Le(x, y) => split_le(bump, *x, *y),
        Form::Lt(x, y) => split_le(bump, *x, y.plus(-1)),
        Form::Eq(x, y) => split_eq(bump, *x, *y),
        Form::And(first, second) => match split_part(bump, first)? {
            Split::Yes => split_part(bump, second),
            Split::No => Ok(Split::No),
            Split::Ask { x, y, yes, no } => {
                asks(bump, x, y, Form::And(yes, second), Form::And(no, second))
            }
        },
        Form::Or(first, second) => match split_part(bump, first)? {
            Split::Yes => Ok(Split::Yes),
            Split::No => split_part(bump, second),
            Split::Ask { x, y, yes, no } => {
                asks(bump, x, y, Form::Or(yes, second), Form::Or(no, second))
            }
        },
        Form::Not(form) => match split_part(bump, form)? {
            Split::Yes => Ok(Split::No),
            Split::No => Ok(Split::Yes),
            Split::Ask { x, y, yes, no } => asks(bump, x, y, Form::Not(yes), Form::Not(no)),
        },
    }
}

/// The first question of a form: of its parts from left to right, the first comparison of two different
/// names. What the rules for a form do, in one call.
pub fn split<'a>(bump: &'a Bump, form: &'a Form<'a>) -> Result<Split<'a>, NoMemory>
    requires { (count : ℕ) × HasPlaces count (form_tree form.now) }

    // where the rules end that begin with the form
    ensures yes { IfOk result (λ r. (split_tree r ≡ splits.Yes) ↔ EndsInYes (form_tree form.now)) }
    ensures no { IfOk result (λ r. (split_tree r ≡ splits.No) ↔ EndsInNo (form_tree form.now)) }
    ensures question { IfOk result (λ r. (x y : Place)
        → (first_question (split_tree r) ≡ Some (x, y)) ↔ EndsAtQuestion x y (form_tree form.now)) }

    // what the form means, and what it asks
    ensures truth { IfOk result (λ r. (v : ℕ → ℤ) → form_holds v (form_tree form.now) ≡ split_holds v (split_tree r)) }
    ensures asks { IfOk result (λ r. (p q : Plan Why) → ask_form (form_tree form.now) p q
        ≡ ask_split (split_tree r) p q) }

    // the forms that are left
    ensures fewer { IfOk result (λ r. HasFewer (form_tree form.now) (split_tree r)) }
    ensures places { IfOk result (λ r. (count : ℕ) → HasPlaces count (form_tree form.now)
        → HasSplitPlaces count (split_tree r)) }
{
    split_part(bump, form)
}
