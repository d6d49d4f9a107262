//! What tokens of proofs leave to be completed, and what they show. A law is a clause and no code: a caller whose
//! proof needs it calls it.
ghost use Rattle.std.specs.Prelude.{◌≡◌, ◌↔◌, List, [], ◌∷◌, Ok, Err};
ghost use Rattle.ask_core.specs.Plans.{Plan};
ghost use Rattle.proof_trees.specs.declared.token.ProofTok.{ProofTok};
ghost use Rattle.proof_trees.specs.Starts.{MarkedPlan, unmarked, Comparison, IsMarkedBy, IsLawful};
ghost use Rattle.proof_trees.specs.Proofs.{Learned};
ghost use Rattle.proof_trees.specs.Truth.{HoldsUnder};
ghost use Rattle.proof_trees.specs.Tokens.{Wanted, Tree, CompletesWanted, HasFew};
ghost use Rattle.proof_check.specs.declared.verdict.ProofError.{ProofError};
ghost use Rattle.proof_check.specs.Steps.{Standing, after_proof_token};

use proof_trees::shown_plans_hold;

/// Tokens complete what is wanted exactly where the first is taken and the others complete what it leaves. One
/// that is refused begins no tokens that complete it.
pub fn proof_tokens_are_taken_one_by_one<S, W: Copy>()
    ensures taken { (compare : Comparison S) (tok : ProofTok) (tokens : List ProofTok) (known : List (Learned S W))
        (wanted : List (Wanted S W)) (next : Standing S W) → HasFew tok
        → after_proof_token compare tok known wanted ≡ Ok next
        → (CompletesWanted compare (tok ∷ tokens) wanted known
        ↔ CompletesWanted compare tokens next.wanted next.known) }
    ensures refused { (compare : Comparison S) (tok : ProofTok) (tokens : List ProofTok) (known : List (Learned S W))
        (wanted : List (Wanted S W)) (why : ProofError) → after_proof_token compare tok known wanted ≡ Err why
        → CompletesWanted compare (tok ∷ tokens) wanted known → ⊥ }
{}

/// Of any lawful comparison: where tokens complete a plan, and no lemmas are known before, each valuation leads
/// through the plan to an end that holds.
pub fn completed_plans_hold<S, W: Copy>()
    ensures { (compare : Comparison S) (meaning : S → Plan W) (tokens : List ProofTok) (p : MarkedPlan S W)
        → IsLawful compare meaning → IsMarkedBy meaning p → CompletesWanted compare tokens (Tree p [] ∷ []) []
        → HoldsUnder [] (unmarked p) }
{
    shown_plans_hold::<S, W>();
}
