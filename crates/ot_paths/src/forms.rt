//! One of two goals, by a form or by a guard.
ghost use Rattle.std.specs.Prelude.{◌≡◌, IfOk};
ghost use Rattle.fn_rules.specs.Formulas.{formula_of};
ghost use Rattle.ot_questions.specs.Nears.{IsNear, IsNearOp, HasNearAtoms};
ghost use Rattle.ot_terms.specs.Forms as forms;
ghost use Rattle.ot_terms.specs.Forms.{form_tree};
ghost use Rattle.ot_terms.specs.Goals.{goal_tree, laid_form, laid_order};
ghost use Rattle.ot_terms.specs.Placing.{compared, guard_form};
ghost use Rattle.ot_rewrite.specs.Splits.{HasLowOffsets};

use ask_core::NoMemory;
use bumpalo::Bump;
use fn_rules::{Cmp, Guard};
use ot_terms::{Form, Goal, Place, SymOp, places_of};

// One of two goals, where the first place is at most the second. Places of one name are compared at once.
#[inline(always)]
fn by_order<'a>(
    bump: &'a Bump,
    x: Place,
    y: Place,
    yes: &'a Goal<'a>,
    no: &'a Goal<'a>,
) -> Result<&'a Goal<'a>, NoMemory>
    ensures { IfOk result (λ r. goal_tree r.now ≡ laid_order x y (goal_tree yes.now) (goal_tree no.now)) }
{
    match x.is_at_most(y) {
        None => Goal::ask(bump, x, y, yes, no),
        Some(true) => Ok(yes),
        Some(false) => Ok(no),
    }
}

// One of two goals, where two places are equal.
#[inline(never)]
fn by_equality<'a>(
    bump: &'a Bump,
    x: Place,
    y: Place,
    yes: &'a Goal<'a>,
    no: &'a Goal<'a>,
) -> Result<&'a Goal<'a>, NoMemory>
    ensures { IfOk result (λ r. goal_tree r.now ≡ laid_form (forms.Eq x y) (goal_tree yes.now) (goal_tree no.now)) }
{
    let back = by_order(bump, y, x, yes, no)?;
    by_order(bump, x, y, back, no)
}

// One of two goals, as two places compare.
#[inline(always)]
fn by_places<'a>(
    bump: &'a Bump,
    cmp: Cmp,
    x: Place,
    y: Place,
    yes: &'a Goal<'a>,
    no: &'a Goal<'a>,
) -> Result<&'a Goal<'a>, NoMemory>
    requires { IsNear 999 y.off }
    ensures { IfOk result (λ r. goal_tree r.now ≡ laid_form (compared cmp x y) (goal_tree yes.now) (goal_tree no.now)) }
{
    let most = match cmp {
        Cmp::Lt => y.plus(-1),
        Cmp::Le => y,
        Cmp::Eq => return by_equality(bump, x, y, yes, no),
    };
    by_order(bump, x, most, yes, no)
}

/// One of two goals, by a form. All questions of the form share the two goals.
pub fn by_form<'a>(
    bump: &'a Bump,
    form: &Form<'a>,
    yes: &'a Goal<'a>,
    no: &'a Goal<'a>,
) -> Result<&'a Goal<'a>, NoMemory>
    requires { HasLowOffsets (form_tree form.now) }
    ensures { IfOk result (λ r. goal_tree r.now ≡ laid_form (form_tree form.now) (goal_tree yes.now)
        (goal_tree no.now)) }
{
    match form {
        Form::True => Ok(yes),
        Form::Le(x, y) => by_order(bump, *x, *y, yes, no),
        Form::Lt(x, y) => by_places(bump, Cmp::Lt, *x, *y, yes, no),
        Form::Eq(x, y) => by_equality(bump, *x, *y, yes, no),
        Form::And(g, h) => {
            let second = by_form(bump, h, yes, no)?;
            by_form(bump, g, second, no)
        }
        Form::Or(g, h) => {
            let second = by_form(bump, h, yes, no)?;
            by_form(bump, g, yes, second)
        }
        Form::Not(g) => by_form(bump, g, no, yes),
    }
}

/// One of two goals, by a guard at two operations: as by its form, of which nothing is placed into the arena. A
/// comparison before `and` or `or` takes no call of its own.
pub fn by_guard<'a>(
    bump: &'a Bump,
    guard: &Guard,
    a: &SymOp,
    b: &SymOp,
    yes: &'a Goal<'a>,
    no: &'a Goal<'a>,
) -> Result<&'a Goal<'a>, NoMemory>
    requires a_near { IsNearOp 200 a.now }
    requires b_near { IsNearOp 200 b.now }
    requires atoms_near { HasNearAtoms (formula_of guard.now) }
    ensures { IfOk result (λ r. goal_tree r.now ≡ laid_form (guard_form (formula_of guard.now) a.now b.now)
        (goal_tree yes.now) (goal_tree no.now)) }
{
    let (first, on_yes, on_no) = match guard {
        Guard::True => return Ok(yes),
        Guard::Atom(_) => (guard, yes, no),
        Guard::And(g, h) => (&**g, by_guard(bump, h, a, b, yes, no)?, no),
        Guard::Or(g, h) => (&**g, yes, by_guard(bump, h, a, b, yes, no)?),
        Guard::Not(g) => (&**g, no, yes),
    };
    match first {
        Guard::Atom(atom) => {
            let (x, y) = places_of(atom, a, b);
            by_places(bump, atom.cmp, x, y, on_yes, on_no)
        }
        _ => by_guard(bump, first, a, b, on_yes, on_no),
    }
}
