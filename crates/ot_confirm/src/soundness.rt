//! What a proof shows of its function. These functions work nothing out: their contracts are the laws.
ghost use Rattle.std.specs.Prelude.{◌≡◌, ℕ, List, Ok};
ghost use Rattle.fn_rules.specs.declared.function.Level.TheVariants.{Tp1, Tp2};
ghost use Rattle.fn_rules.specs.Functions.{Function};
ghost use Rattle.fn_rules.specs.Orders.{HasOneOutcome};
ghost use Rattle.fn_rules.specs.Properties.{HasTp1, HasTp2};
ghost use Rattle.ot_confirm.specs.Judgement.{judgement_of};

use fn_rules::obligations_are_those_of_the_kinds;
use ot_integrate::both_properties_give_one_outcome;
use ot_questions::{Why, pair_plans_mean_tp1, triple_plans_mean_tp2};
use ot_starts::Begun;
use proof_sections::accepted_proofs_hold;
use start_laws::{marked_plans_are_plans, starts_have_one_value};

/// A function that has a proof at level tp1 has the first property on every document, for all operations of its kinds
/// that meet what it assumes. One that has a proof at level tp2 has both, so any two orders of concurrent operations
/// end with one document.
pub fn proofs_show_the_properties()
    ensures tp1 { (f : Function) (bytes : List ℕ) → judgement_of f bytes ≡ Ok Tp1 → HasTp1 f }
    ensures tp2 { (f : Function) (bytes : List ℕ) → judgement_of f bytes ≡ Ok Tp2 → HasTp1 f × HasTp2 f }
    ensures one_outcome { (f : Function) (bytes : List ℕ) → judgement_of f bytes ≡ Ok Tp2 → HasOneOutcome f }
{
    accepted_proofs_hold::<Begun, Why>();
    starts_have_one_value();
    marked_plans_are_plans();
    obligations_are_those_of_the_kinds();
    pair_plans_mean_tp1();
    triple_plans_mean_tp2();
    both_properties_give_one_outcome();
}
