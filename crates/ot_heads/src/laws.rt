//! Laws of transformations as such. Each is the contract of a function that works nothing out.
ghost use Rattle.std.specs.Prelude.{◌≡◌, ◌↔◌, true};
ghost use Rattle.fn_rules.specs.declared.function.Head.{Head};
ghost use Rattle.fn_rules.specs.Functions.{Function};
ghost use Rattle.fn_rules.specs.Properties.{HasTp1, HasTp2};
ghost use Rattle.fn_rules.specs.Transformation.{transform_of};
ghost use Rattle.ot_heads.specs.Heads.{InsertsAndDeletesOnPlain, inserts_and_deletes_on_plain};
ghost use Rattle.ot_heads.specs.Transformations.{Transformation, KeepsOperations, HasTp1Of, HasTp2Of};

use fn_rules::transform_keeps_all_but_the_position;

/// A function of the language is a transformation that keeps operations, and has a property exactly where that
/// transformation has it under its head.
pub fn properties_are_those_of_transformations()
    ensures keeps { (f : Function) → KeepsOperations (transform_of f) }
    ensures tp1 { (f : Function) → HasTp1 f ↔ HasTp1Of f.head (transform_of f) }
    ensures tp2 { (f : Function) → HasTp2 f ↔ HasTp2Of f.head (transform_of f) }
{
    transform_keeps_all_but_the_position();
}

/// The test of a head decides the fact.
pub fn the_test_decides_the_fact()
    ensures { (head : Head) → (inserts_and_deletes_on_plain head ≡ true) ↔ InsertsAndDeletesOnPlain head }
{}

/// Where text is plain, and insertions and deletions are kinds, no transformation that keeps operations has both
/// properties, in whatever way it is computed, whatever is assumed of sites and characters, and with updates or not.
pub fn plain_text_has_no_transformation()
    ensures { (head : Head) (t : Transformation) → InsertsAndDeletesOnPlain head → KeepsOperations t
        → ¬ (HasTp1Of head t × HasTp2Of head t) }
{}

/// So no function of the language has both there.
pub fn plain_functions_lack_a_property()
    ensures { (f : Function) → InsertsAndDeletesOnPlain f.head → ¬ (HasTp1 f × HasTp2 f) }
{
    properties_are_those_of_transformations();
    plain_text_has_no_transformation();
}
