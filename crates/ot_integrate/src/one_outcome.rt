//! What two orders of the same operations have to do with each other. This function works nothing out:
//! its contract is the law.
ghost use Rattle.fn_rules.specs.Functions.{Function};
ghost use Rattle.fn_rules.specs.Properties.{HasTp1, HasTp2};
ghost use Rattle.fn_rules.specs.Orders.{HasOneOutcome};

use fn_rules::both_properties_hold_of_forms;

/// A function that has both properties gives one outcome: any two orders of concurrent operations end
/// with one document.
pub fn both_properties_give_one_outcome()
    ensures { (f : Function) → HasTp1 f → HasTp2 f → HasOneOutcome f }
{
    both_properties_hold_of_forms();
}
