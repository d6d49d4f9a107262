//! Where an answer leads a valuation.
ghost use Rattle.std.specs.Prelude.{◌≡◌, ◌↔◌, ℕ, ℤ, Bool, List};
ghost use Rattle.diff_graph.specs.declared.lit.Lit.{Lit};
ghost use Rattle.diff_graph.specs.Literals.{AreMet, is_met};
ghost use Rattle.ask_core.specs.Trees.{with_answer};

/// A law and no code: a valuation meets the answers with one more exactly where it meets those before and
/// the last one is what the valuation answers. So each valuation that meets the answers at a question goes
/// on to exactly one of its parts.
pub fn valuations_answer_questions()
    ensures { (v : ℕ → ℤ) (w : List Lit) (l : Lit) (yes_said : Bool)
        → (AreMet v (with_answer w l yes_said) ↔ (AreMet v w × (is_met v l ≡ yes_said))) }
{}
