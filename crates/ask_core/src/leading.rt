//! Where answers that lead to an end that fails lead.
ghost use Rattle.std.specs.Prelude.{◌≡◌, ◌≤◌, ℕ, ℤ, List, length, Some};
ghost use Rattle.diff_graph.specs.declared.lit.Lit.{Lit};
ghost use Rattle.diff_graph.specs.Literals.{AreMet};
ghost use Rattle.diff_graph.specs.Limits.{AreNamed, AreSmall};
ghost use Rattle.ask_core.specs.Plans.{Plan, end_of};
ghost use Rattle.ask_core.specs.Askers.{IsFine, longest_path};
ghost use Rattle.ask_core.specs.Leading.{LeadTo};

/// A law and no code, of answers that lead to an end that fails: the plan ends there at each valuation
/// that meets them, they are no more than the questions on the plan's longest path, and those of a plan
/// within the limits are of its names, with small offsets.
pub fn answers_lead_to_ends<W: Copy>()
    ensures ends { (v : ℕ → ℤ) (why : W) (p : Plan W) (w : List Lit) → LeadTo why p w → AreMet v w
        → end_of p v ≡ Some why }
    ensures few { (why : W) (p : Plan W) (w : List Lit) → LeadTo why p w → length w ≤ longest_path p }
    ensures named { (count : ℕ) (why : W) (p : Plan W) (w : List Lit) → IsFine count p → LeadTo why p w
        → AreNamed count w }
    ensures small { (count : ℕ) (why : W) (p : Plan W) (w : List Lit) → IsFine count p → LeadTo why p w → AreSmall w }
{}
