//! Where an operation is enabled on a document, as a form.
ghost use Rattle.std.specs.Prelude.{◌≡◌, IfOk};
ghost use Rattle.ot_terms.specs.Forms.{form_tree};
ghost use Rattle.ot_terms.specs.Starting as starting;

use crate::arena::placed;
use crate::form::Form;
use ask_core::NoMemory;
use bumpalo::Bump;
use ot_questions::{Place, SymOp};

// The place is in the document, where `last` says what is asked of its end.
fn within<'a>(bump: &'a Bump, at: Place, last: Form<'a>) -> Result<&'a Form<'a>, NoMemory>
    ensures { IfOk result (λ r. form_tree r.now ≡ starting.within at (form_tree last.entry)) }
{
    let first = Form::le(bump, Place::zero(), at)?;
    Form::and(bump, first, placed(bump, last)?)
}

/// The operation is enabled on a document of the length plus an offset.
pub fn enabled_form<'a>(bump: &'a Bump, op: SymOp, off: i32) -> Result<&'a Form<'a>, NoMemory>
    ensures { IfOk result (λ r. form_tree r.now ≡ starting.enabled_form op off) }
{
    match op {
        SymOp::Ins { at, .. } => within(bump, at, Form::Le(at, Place::length_and(off))),
        SymOp::Del { at, .. } | SymOp::Upd { at, .. } => {
            within(bump, at, Form::Lt(at, Place::length_and(off)))
        }
        SymOp::Nop => Form::always(bump),
    }
}
