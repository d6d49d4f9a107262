//! What a fitting tree shows, and how its tokens are taken. A law is a clause and no code: a caller
//! whose proof needs it calls it.
ghost use Rattle.std.specs.Prelude.{◌≡◌, ◌↔◌, ℕ, ℤ, pos, true, List, [], ◌∷◌};
ghost use Rattle.diff_graph.specs.declared.lit.Lit.{Lit};
ghost use Rattle.diff_graph.specs.Literals.{AreMet};
ghost use Rattle.ask_core.specs.declared.tree.Tok.{Tok};
ghost use Rattle.ask_core.specs.Plans.{Plan, value};
ghost use Rattle.ask_core.specs.Trees.{AnswerTree, Fits, Branch, Completes, CompletesBehind};

use diff_graph::negative_cycles_are_never_met;

/// A law and no code: where a tree fits a plan, the plan holds at every valuation. So whoever is handed
/// a tree needs to check nothing but that it fits.
pub fn fitting_trees_hold<W: Copy>()
    ensures whole { (t : AnswerTree) (p : Plan W) (v : ℕ → ℤ) → Fits t p [] → v 0 ≡ pos 0 → value p v ≡ true }

    // The same at any place of a plan, for the valuations that lead there.
    ensures from_a_place { (t : AnswerTree) (p : Plan W) (w : List Lit) (v : ℕ → ℤ) → AreMet v w → Fits t p w
        → value p v ≡ true }

    // The same of tokens that complete one branch.
    ensures completed { (tokens : List Tok) (b : Branch W) (v : ℕ → ℤ) → AreMet v b.answers
        → Completes tokens (b ∷ []) → value b.plan v ≡ true }
{
    negative_cycles_are_never_met();
}

/// A law and no code: whether tokens complete open branches is told by the first token and by what the
/// others complete, so a tree can be judged token by token.
pub fn trees_are_judged_token_by_token<W: Copy>()
    ensures { (tok : Tok) (tokens : List Tok) (branches : List (Branch W))
        → (Completes (tok ∷ tokens) branches ↔ CompletesBehind tok tokens branches) }
{}
