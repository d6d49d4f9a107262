//! Forms: what a goal asks of the integers.
ghost use Rattle.std.specs.Prelude.{◌≡◌, IfOk};
ghost use Rattle.ot_terms.specs.Forms as trees;
ghost use Rattle.ot_terms.specs.Forms.{form_tree};

use crate::arena::placed;
use ask_core::NoMemory;
use bumpalo::Bump;
use ot_questions::Place;

/// A condition on the integers that the names stand for.
#[derive(Clone, Copy)]
pub enum Form<'a> {
    True,

    /// The first is at most the second.
    Le(Place, Place),

    /// The first is less than the second.
    Lt(Place, Place),

    Eq(Place, Place),
    And(&'a Form<'a>, &'a Form<'a>),
    Or(&'a Form<'a>, &'a Form<'a>),
    Not(&'a Form<'a>),
}

impl<'a> Form<'a> {
    pub fn always(bump: &'a Bump) -> Result<&'a Form<'a>, NoMemory>
        ensures { IfOk result (λ r. form_tree r.now ≡ trees.True) }
    {
        placed(bump, Form::True)
    }

    pub fn le(bump: &'a Bump, x: Place, y: Place) -> Result<&'a Form<'a>, NoMemory>
        ensures { IfOk result (λ r. form_tree r.now ≡ trees.Le x y) }
    {
        placed(bump, Form::Le(x, y))
    }

    pub fn lt(bump: &'a Bump, x: Place, y: Place) -> Result<&'a Form<'a>, NoMemory>
        ensures { IfOk result (λ r. form_tree r.now ≡ trees.Lt x y) }
    {
        placed(bump, Form::Lt(x, y))
    }

    pub fn eq(bump: &'a Bump, x: Place, y: Place) -> Result<&'a Form<'a>, NoMemory>
        ensures { IfOk result (λ r. form_tree r.now ≡ trees.Eq x y) }
    {
        placed(bump, Form::Eq(x, y))
    }

    pub fn and(bump: &'a Bump, g: &'a Form<'a>, h: &'a Form<'a>) -> Result<&'a Form<'a>, NoMemory>
        ensures { IfOk result (λ r. form_tree r.now ≡ trees.And (form_tree g.now) (form_tree h.now)) }
    {
        placed(bump, Form::And(g, h))
    }

    pub fn or(bump: &'a Bump, g: &'a Form<'a>, h: &'a Form<'a>) -> Result<&'a Form<'a>, NoMemory>
        ensures { IfOk result (λ r. form_tree r.now ≡ trees.Or (form_tree g.now) (form_tree h.now)) }
    {
        placed(bump, Form::Or(g, h))
    }

    pub fn not(bump: &'a Bump, g: &'a Form<'a>) -> Result<&'a Form<'a>, NoMemory>
        ensures { IfOk result (λ r. form_tree r.now ≡ trees.Not (form_tree g.now)) }
    {
        placed(bump, Form::Not(g))
    }
}
