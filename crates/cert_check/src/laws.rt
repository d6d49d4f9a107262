//! What a token leaves to be completed. A law is a clause and no code: a caller whose proof needs it calls it.
ghost use Rattle.std.specs.Prelude.{◌≡◌, ◌↔◌, List, ◌∷◌, Ok, Err};
ghost use Rattle.ask_core.specs.declared.tree.Tok.{Tok};
ghost use Rattle.ask_core.specs.Trees.{Branch, Completes};
ghost use Rattle.cert_check.specs.declared.verdict.CheckError.{CheckError};
ghost use Rattle.cert_check.specs.Steps.{after, HasFewPicks};

use ask_core::trees_are_judged_token_by_token;

/// Tokens complete open branches exactly where the first is taken and the others complete what it leaves. One that is
/// refused begins no tokens that complete them.
pub fn tokens_are_taken_one_by_one<W: Copy>()
    ensures taken { (t : Tok) (tokens : List Tok) (branches next : List (Branch W)) → HasFewPicks t
        → after t branches ≡ Ok next
        → (Completes (t ∷ tokens) branches ↔ Completes tokens next) }
    ensures refused { (t : Tok) (tokens : List Tok) (branches : List (Branch W)) (why : CheckError)
        → after t branches ≡ Err why
        → Completes (t ∷ tokens) branches → ⊥ }
{
    trees_are_judged_token_by_token::<W>();
}
