//! What else holds of the judgement of bytes. A law is a clause and no code: a caller whose proof needs it calls it.
ghost use Rattle.std.specs.Prelude.{◌≡◌, ◌≢◌, ℕ, List, ◌++◌, Err};
ghost use Rattle.fn_rules.specs.Functions.{Function};
ghost use Rattle.proof_sections.specs.declared.refusal.ProofRefusal.{ProofRefusal};
ghost use Rattle.proof_sections.specs.declared.refusal.ProofRefusal.TheVariants as why;
ghost use Rattle.proof_sections.specs.declared.refusal.ConfirmError.TheVariants as confirm;
ghost use Rattle.ot_confirm.specs.Judgement.{judgement_of};

use ot_questions::Why;
use ot_starts::Begun;

/// Bytes that are refused, and not because they end too early, are refused so whatever follows them.
pub fn refusals_stand()
    ensures { (f : Function) (bytes more : List ℕ) (offset : ℕ) (cause : ProofRefusal)
        → judgement_of f bytes ≡ Err (confirm.Refused offset cause) → cause ≢ why.Truncated
        → judgement_of f (bytes ++ more) ≡ Err (confirm.Refused offset cause) }
{
    proof_sections::refusals_stand::<Begun, Why>();
}
