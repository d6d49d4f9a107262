//! What a negative cycle tells. A law is a clause and no code: a caller whose proof needs it calls it.
ghost use Rattle.std.specs.Prelude.{◌≡◌, ℕ, ℤ, List, Ok};
ghost use Rattle.diff_graph.specs.declared.lit.Lit.{Lit};
ghost use Rattle.diff_graph.specs.Literals.{AreMet};
ghost use Rattle.diff_graph.specs.Cycles.{pick_verdict};

/// No integers meet a list in which picks name a negative cycle.
pub fn negative_cycles_are_never_met()
    ensures { (v : ℕ → ℤ) (ls : List Lit) (picks : List ℕ) → pick_verdict ls picks ≡ Ok tt → ¬ AreMet v ls }
{}
