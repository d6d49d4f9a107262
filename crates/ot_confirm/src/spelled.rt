//! What a proof of a function is, and that a certificate is one under another header. These functions work nothing out:
//! their contracts are the laws.
ghost use Rattle.std.specs.Prelude.{◌≡◌, ◌↔◌, ℕ, List, Ok};
ghost use Rattle.fn_rules.specs.declared.function.Level.{Level};
ghost use Rattle.fn_rules.specs.Functions.{Function};
ghost use Rattle.ot_sections.specs.Certificates.{IsCertificate};
ghost use Rattle.ot_confirm.specs.Certified.{under_proof_header};
ghost use Rattle.ot_confirm.specs.Judgement.{judgement_of};
ghost use Rattle.ot_confirm.specs.Proofs.{IsProofOf};

use ot_questions::Why;
use ot_starts::Begun;
use proof_sections::proofs_are_accepted_exactly;
use proof_text::certificate_tokens_are_spelled_alike;
use start_laws::marked_plans_are_plans;

/// Bytes are accepted as a proof of a function at a level exactly where they are one: the header of the level, for each
/// obligation in order its line, the tokens of a tree that shows its plan and a newline, and the last line.
pub fn proofs_are_made_of_trees()
    ensures { (f : Function) (bytes : List ℕ) (level : Level)
        → (judgement_of f bytes ≡ Ok level ↔ IsProofOf bytes f level) }
{
    proofs_are_accepted_exactly::<Begun, Why>();
}

/// A certificate of a function at a level, with the first line of a proof of this level in place of its own, is
/// accepted as a proof of the function at this level.
pub fn certificates_are_accepted_as_proofs()
    ensures { (f : Function) (bytes : List ℕ) (level : Level)
        → IsCertificate bytes f level → judgement_of f (under_proof_header level bytes) ≡ Ok level }
{
    proofs_are_made_of_trees();
    marked_plans_are_plans();
    certificate_tokens_are_spelled_alike();
}
