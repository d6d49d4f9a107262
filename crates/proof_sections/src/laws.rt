//! What a judgement of bytes shows. A law is a clause and no code: a caller whose proof needs it calls it.
ghost use Rattle.std.specs.Prelude.{◌≡◌, ◌≢◌, ℕ, List, [], ◌++◌, Ok, Err};
ghost use Rattle.std.specs.List.{AllByRecursion};
ghost use Rattle.fn_rules.specs.declared.function.Level.{Level};
ghost use Rattle.fn_rules.specs.declared.function.ObName.{ObName};
ghost use Rattle.ask_core.specs.Plans.{Plan};
ghost use Rattle.proof_trees.specs.Starts.{MarkedPlan, unmarked, Comparison, IsMarkedBy, IsLawful};
ghost use Rattle.proof_trees.specs.Truth.{HoldsUnder};
ghost use Rattle.proof_sections.specs.declared.refusal.ProofRefusal.{ProofRefusal};
ghost use Rattle.proof_sections.specs.declared.refusal.ProofRefusal.TheVariants as why;
ghost use Rattle.proof_sections.specs.declared.refusal.ConfirmError.TheVariants as confirm;
ghost use Rattle.proof_sections.specs.Judgement.{proof_judged};

use proof_check::{completed_plans_hold, proof_tokens_are_taken_one_by_one};
use proof_text::{lines_are_found_exactly, tokens_are_found_exactly};

/// Of any lawful comparison: where bytes are a proof at a level, each valuation leads through the plan of each of its
/// obligations to an end that holds.
pub fn accepted_proofs_hold<S, W: Copy>()
    ensures { (compare : Comparison S) (meaning : S → Plan W) (plan : ObName → MarkedPlan S W)
        (names : Level → List ObName)
        (bytes : List ℕ) (level : Level)
        → IsLawful compare meaning → AllByRecursion (λ name. IsMarkedBy meaning (plan name)) (names level)
        → proof_judged compare plan names bytes ≡ Ok level
        → AllByRecursion (λ name. HoldsUnder [] (unmarked (plan name))) (names level) }
{
    tokens_are_found_exactly();
    proof_tokens_are_taken_one_by_one::<S, W>();
    completed_plans_hold::<S, W>();
}

/// Bytes that are refused, and not because they end too early, are refused so whatever follows them.
pub fn refusals_stand<S, W: Copy>()
    ensures { (compare : Comparison S) (plan : ObName → MarkedPlan S W) (names : Level → List ObName)
        (bytes more : List ℕ)
        (offset : ℕ) (cause : ProofRefusal)
        → proof_judged compare plan names bytes ≡ Err (confirm.Refused offset cause) → cause ≢ why.Truncated
        → proof_judged compare plan names (bytes ++ more) ≡ Err (confirm.Refused offset cause) }
{
    tokens_are_found_exactly();
    lines_are_found_exactly();
}
