//! The form that a guard is at two operations.
ghost use Rattle.std.specs.Prelude.{◌≡◌, ◌<◌, ℕ, ℤ, pos, IfOk};
ghost use Rattle.ot_model.specs.declared.op.Op.{Op};
ghost use Rattle.fn_rules.specs.Formulas.{formula_of, holds_of};
ghost use Rattle.ask_core.specs.Plans.{Plan};
ghost use Rattle.ot_questions.specs.declared.why.Why.{Why};
ghost use Rattle.ot_questions.specs.Instances.{StandsForOperation};
ghost use Rattle.ot_questions.specs.Names.{zero_name};
ghost use Rattle.ot_questions.specs.Nears.{IsNear, IsNearOp, HasNearAtoms};
ghost use Rattle.ot_questions.specs.Questions.{ask_guard};
ghost use Rattle.ot_terms.specs.Belonging.{HasNames, HasPlaces};
ghost use Rattle.ot_terms.specs.Forms.{form_tree, form_holds};
ghost use Rattle.ot_terms.specs.Placing as placing;
ghost use Rattle.ot_terms.specs.Placing.{atom_form, guard_form};
ghost use Rattle.ot_terms.specs.Standing.{ask_form};

use crate::arena::placed;
use crate::form::Form;
use ask_core::NoMemory;
use bumpalo::Bump;
use fn_rules::{Atom, Cmp, Guard, Side};
use ot_questions::{Place, SymOp};

#[inline]
fn compared<'a>(cmp: Cmp, x: Place, y: Place) -> Form<'a>
    ensures { form_tree result ≡ placing.compared cmp x y }
{
    match cmp {
        Cmp::Lt => Form::Lt(x, y),
        Cmp::Le => Form::Le(x, y),
        Cmp::Eq => Form::Eq(x, y),
    }
}

/// The two places that a comparison is about at two operations, the left one first.
#[inline(always)]
pub fn places_of(atom: &Atom, a: &SymOp, b: &SymOp) -> (Place, Place)
    requires a_near { IsNearOp 200 a.now }
    requires b_near { IsNearOp 200 b.now }
    requires atom_near { IsNear 99 atom.now.k }
    ensures form { placing.compared atom.now.cmp result.0 result.1 ≡ atom_form atom.now a.now b.now }
    ensures near { IsNear 299 result.1.off }
{
    match atom.left {
        Side::First => (a.thing(atom.sort), b.thing(atom.sort).plus(atom.k)),
        Side::Second => (b.thing(atom.sort), a.thing(atom.sort).plus(atom.k)),
    }
}

#[inline]
fn place_atom<'a>(atom: &Atom, a: &SymOp, b: &SymOp) -> Form<'a>
    requires a_near { IsNearOp 200 a.now }
    requires b_near { IsNearOp 200 b.now }
    requires atom_near { IsNear 99 atom.now.k }
    ensures { form_tree result ≡ atom_form atom.now a.now b.now }
{
    let (x, y) = places_of(atom, a, b);
    compared(atom.cmp, x, y)
}

fn place_part<'a>(
    bump: &'a Bump,
    guard: &Guard,
    a: &SymOp,
    b: &SymOp,
) -> Result<&'a Form<'a>, NoMemory>
    requires a_near { IsNearOp 200 a.now }
    requires b_near { IsNearOp 200 b.now }
    requires atoms_near { HasNearAtoms (formula_of guard.now) }
    ensures { IfOk result (λ r. form_tree r.now ≡ guard_form (formula_of guard.now) a.now b.now) }
{
    match guard {
        Guard::True => Form::always(bump),
        Guard::Atom(atom) => placed(bump, place_atom(atom, a, b)),
        Guard::And(g, h) => Form::and(bump, place_part(bump, g, a, b)?, place_part(bump, h, a, b)?),
        Guard::Or(g, h) => Form::or(bump, place_part(bump, g, a, b)?, place_part(bump, h, a, b)?),
        Guard::Not(g) => Form::not(bump, place_part(bump, g, a, b)?),
    }
}

/// The guard part by part, at two operations. It is true where the guard is true for the operations that
/// these stand for, and asks what the guard asks.
#[tactic(auto, using(crate::proofs::GuardForms::guard_form_holds, crate::proofs::GuardForms::ask_form_guard_form))]
pub fn place_form<'a>(
    bump: &'a Bump,
    guard: &Guard,
    a: SymOp,
    b: SymOp,
) -> Result<&'a Form<'a>, NoMemory>
    requires a_near { IsNearOp 200 a }
    requires b_near { IsNearOp 200 b }
    requires atoms_near { HasNearAtoms (formula_of guard.now) }
    ensures tree { IfOk result (λ r. form_tree r.now ≡ guard_form (formula_of guard.now) a b) }
    ensures truth { IfOk result (λ r. (v : ℕ → ℤ) (x y : Op) → v zero_name ≡ pos 0
        → StandsForOperation v a x → StandsForOperation v b y
        → form_holds v (form_tree r.now) ≡ holds_of (formula_of guard.now) x y) }
    ensures places { IfOk result (λ r. (count : ℕ) → 0 < count → HasNames count a → HasNames count b → IsNearOp 99 a
        → IsNearOp 99 b
        → HasPlaces count (form_tree r.now)) }
    ensures asks { IfOk result (λ r. (p q : Plan Why) → ask_form (form_tree r.now) p q
        ≡ ask_guard (formula_of guard.now) a b p q) }
{
    Ok(place_part(bump, guard, &a, &b)?)
}
