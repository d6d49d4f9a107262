//! What the conditions between two starts are good for. These functions do nothing: their contracts are the laws.
ghost use Rattle.std.specs.Prelude.{Some, None};
ghost use Rattle.fn_rules.specs.declared.function.ObName.{ObName};
ghost use Rattle.fn_rules.specs.Functions.{Function};
ghost use Rattle.proof_trees.specs.Starts.{IsLawful};
ghost use Rattle.ot_questions.specs.declared.place.SymOp.{SymOp};
ghost use Rattle.ot_terms.specs.declared.goal.GoalProgress.{GoalProgress};
ghost use Rattle.ot_terms.specs.Standing.{results_of};
ghost use Rattle.ot_terms.specs.Belonging.{IsProgressOf, IsNextResult};
ghost use Rattle.start_laws.specs.Begun.{IsBegunProgress};
ghost use Rattle.start_laws.specs.Starts.{compare_starts, meaning};

/// Integers that meet the conditions between two starts give the plans of both one value, of any function. So a lemma
/// that was shown at the one serves at the other one, where they do.
#[tactic(auto, using(crate::proofs::Conditions::compare_starts_lawful))]
pub fn starts_have_one_value()
    ensures { (f : Function) → IsLawful compare_starts (meaning f) }
{}

/// The results of an obligation are few and at small offsets, also with one more: so starts that come from them can be
/// compared.
#[tactic(auto, using(crate::proofs::Nears::progress_begun, crate::proofs::Nears::result_begun))]
pub fn results_stay_near()
    ensures first { (ob : ObName) (progress : GoalProgress) → IsProgressOf ob progress → IsBegunProgress progress None }
    ensures delivered { (ob : ObName) (progress : GoalProgress) (r : SymOp) → IsProgressOf ob progress
        → IsNextResult ob progress.ops (results_of progress) r → IsBegunProgress progress (Some r) }
{}
