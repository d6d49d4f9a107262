//! Laws of forms, for the layers that execute operations as transformations leave them. Each is the
//! contract of a function that works nothing out.
ghost use Rattle.std.specs.Prelude.{◌≤◌, ◌↔◌, ℕ};
ghost use Rattle.ot_model.specs.declared.op.Op.{Op};
ghost use Rattle.ot_model.specs.Effect.{IsEnabled};
ghost use Rattle.fn_rules.specs.Functions.{Function};
ghost use Rattle.fn_rules.specs.Conditions.{IsWithin};
ghost use Rattle.fn_rules.specs.Properties.{HasTp1, HasTp2, HasTp1At, HasTp2At};
ghost use Rattle.fn_rules.specs.Forms.{KeepsForms, ConvergesOnForms, CarriesForms};

use crate::laws::tests_decide_their_facts;

/// What every function keeps of the operations that it transforms.
pub fn functions_keep_forms()
    ensures { (f : Function) → KeepsForms f }
{
    tests_decide_their_facts();
}

/// The first property, which speaks of operations as they were made, holds of forms, nop included: any two
/// that may be integrated on one document and be with each other converge there.
pub fn tp1_holds_of_forms()
    ensures { (f : Function) → HasTp1 f → ConvergesOnForms f }
{}

/// Both properties hold of forms.
pub fn both_properties_hold_of_forms()
    ensures { (f : Function) → HasTp1 f → HasTp2 f → CarriesForms f }
{
    functions_keep_forms();
}

/// A property holds exactly where it holds on the documents of each length.
pub fn properties_hold_at_each_length()
    ensures tp1 { (f : Function) → HasTp1 f ↔ ((n : ℕ) → HasTp1At f n) }
    ensures tp2 { (f : Function) → HasTp2 f ↔ ((n : ℕ) → HasTp2At f n) }
{}

/// An operation within a bound is within every wider one, and one that is enabled is within its document.
pub fn enabled_operations_are_near()
    ensures wider { (m n : ℕ) (o : Op) → m ≤ n → IsWithin m o → IsWithin n o }
    ensures enabled { (n : ℕ) (o : Op) → IsEnabled o n → IsWithin n o }
{}
