//! What bytes are accepted, told by the spelling of trees. A law is a clause and no code: a caller whose proof needs it
//! calls it.
ghost use Rattle.std.specs.Prelude.{◌≡◌, ◌↔◌, ℕ, List, Ok};
ghost use Rattle.fn_rules.specs.declared.function.Level.{Level};
ghost use Rattle.fn_rules.specs.declared.function.ObName.{ObName};
ghost use Rattle.proof_trees.specs.Starts.{MarkedPlan, Comparison};
ghost use Rattle.proof_sections.specs.Judgement.{proof_judged};
ghost use Rattle.proof_sections.specs.Spelled.{IsProof};

use proof_check::proof_tokens_are_taken_one_by_one;
use proof_text::{lines_are_found_exactly, tokens_are_found_exactly};

/// Bytes are accepted at a level exactly where they are a proof at this level: its header, for each obligation in order
/// its line, a tree that shows its plan and a newline, and the last line.
pub fn proofs_are_accepted_exactly<S, W: Copy>()
    ensures { (compare : Comparison S) (plan : ObName → MarkedPlan S W) (names : Level → List ObName)
        (bytes : List ℕ) (level : Level)
        → (proof_judged compare plan names bytes ≡ Ok level ↔ IsProof compare plan names bytes level) }
{
    tokens_are_found_exactly();
    lines_are_found_exactly();
    proof_tokens_are_taken_one_by_one::<S, W>();
}
