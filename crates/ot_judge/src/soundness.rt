//! What a certificate shows of its function. These functions work nothing out: their contracts are the
//! laws.
ghost use Rattle.std.specs.Prelude.{ℕ, List};
ghost use Rattle.fn_rules.specs.declared.function.Level.TheVariants.{Tp1, Tp2};
ghost use Rattle.fn_rules.specs.Functions.{Function};
ghost use Rattle.fn_rules.specs.Orders.{HasOneOutcome};
ghost use Rattle.fn_rules.specs.Properties.{HasTp1, HasTp2};
ghost use Rattle.ot_sections.specs.Certificates.{IsCertificate};

use ask_core::fitting_trees_hold;
use ot_integrate::both_properties_give_one_outcome;
use ot_questions::{Why, pair_plans_mean_tp1, triple_plans_mean_tp2};

/// A function that has a certificate at level tp1 has the first property on every
/// document, for all operations of its kinds that meet what it assumes. One that has a certificate at
/// level tp2 has both, so any two orders of concurrent operations end with one document.
pub fn certificates_show_the_properties()
    ensures tp1 { (bytes : List ℕ) (f : Function) → IsCertificate bytes f Tp1 → HasTp1 f }
    ensures tp2 { (bytes : List ℕ) (f : Function) → IsCertificate bytes f Tp2 → HasTp1 f × HasTp2 f }
    ensures one_outcome { (bytes : List ℕ) (f : Function) → IsCertificate bytes f Tp2 → HasOneOutcome f }
{
    fitting_trees_hold::<Why>();
    pair_plans_mean_tp1();
    triple_plans_mean_tp2();
    both_properties_give_one_outcome();
}
