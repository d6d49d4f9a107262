//! A law of cases, for the layers above: the contract of a function that does nothing.
ghost use Rattle.std.specs.Prelude.{◌≡◌, ℕ, List, Ok};
ghost use Rattle.fn_rules.specs.Functions.{Function};
ghost use Rattle.case_json.specs.declared.trial.Trial.{Trial};
ghost use Rattle.case_json.specs.Tests.{IsReadyTrial};
ghost use Rattle.case_json.specs.Cases.{trial_in};

use fn_rules::tests_decide_their_facts;

/// What a case is read as for a function can be integrated.
pub fn read_trials_are_ready()
    ensures { (f : Function) (bytes : List ℕ) (trial : Trial) → trial_in f bytes ≡ Ok trial → IsReadyTrial f trial }
{
    tests_decide_their_facts();
}
