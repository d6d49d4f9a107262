//! The steps of a session, and why sites that have integrated the same hold the same. Each law is the
//! contract of a function that does nothing.
ghost use Rattle.std.specs.Prelude.{◌≡◌, ℕ, false, List};
ghost use Rattle.ot_model.specs.declared.cell.Cell.{Cell};
ghost use Rattle.ot_model.specs.declared.op.Op.{Op};
ghost use Rattle.fn_rules.specs.Functions.{Function};
ghost use Rattle.ot_causal.specs.Past.{Past};
ghost use Rattle.ot_causal.specs.Sessions.{IsSoundPast, SessionData, IsSound, IsNew, Makes, MayMake, Integrates};
ghost use Rattle.fn_rules.specs.Properties.{HasTp1, HasTp2};
ghost use Rattle.ot_causal.specs.Convergence.{HasOneCourse, Converges};

use fn_rules::{both_properties_hold_of_forms, functions_keep_forms};

/// A new session is sound, and making an operation and integrating one keep a session sound, whatever the
/// function.
pub fn steps_keep_sessions_sound()
    ensures begun { (f : Function) (d : List Cell) (session : SessionData) → IsNew d session → IsSound f session }
    ensures made { (f : Function) (old new : SessionData) (s : ℕ) (a : Op) → IsSound f old → MayMake f old s a
        → Makes f old new s a → IsSound f new }
    ensures integrated { (f : Function) (old new : SessionData) (s o : ℕ) → IsSound f old → Integrates f old new s o
        → IsSound f new }
{
    functions_keep_forms();
}

/// Where a function has both properties and does not assume that characters differ, each closed list leads
/// to a document, on which each operation that the list is ready for has an enabled form, and documents and
/// forms depend on sets alone. That sites differ is never asked: two operations of which none is before the
/// other are of two sites.
pub fn both_properties_give_one_course()
    ensures { (f : Function) (past : Past) (first : List Cell) → HasTp1 f → HasTp2 f → f.head.chars_differ ≡ false
        → IsSoundPast f past first → HasOneCourse f past first }
{
    both_properties_hold_of_forms();
}

/// So no site of a sound session is ever stuck, and two sites that have integrated the same set hold one
/// document.
pub fn both_properties_give_one_document()
    ensures { (f : Function) (session : SessionData) → HasTp1 f → HasTp2 f → f.head.chars_differ ≡ false
        → IsSound f session → Converges f session }
{
    both_properties_give_one_course();
}
