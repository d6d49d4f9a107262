//! Literals and the answers to them.
ghost use Rattle.std.specs.Prelude.{◌≡◌, ℕ, ℤ, ◌↔◌};
ghost use Rattle.diff_graph.specs.Literals.{negated, answered_of, Meets};

use crate::lit::Lit;

/// The literal that is true exactly where `lit` is false: `y <= x - k - 1`.
pub fn negate(lit: Lit) -> Lit
    ensures exact { result ≡ negated lit }
    ensures opposite { (v : ℕ → ℤ) → Meets v result ↔ ¬ Meets v lit }
{
    Lit {
        x: lit.y,
        y: lit.x,
        k: -1 - lit.k,
    }
}

/// The literal that an answer stands for: `lit` itself at yes, its negation at no.
pub fn answered(lit: Lit, yes: bool) -> Lit
    ensures { result ≡ answered_of lit yes }
{
    if yes { lit } else { negate(lit) }
}
