//! Cycles in one pass.
ghost use Rattle.std.specs.Prelude.{◌≡◌, ◌≤◌, ℕ, true, List, [], ◌∷◌, ◌++◌, length, slice_get, Some, Ok, IfSome};
ghost use Rattle.diff_graph.specs.declared.lit.Lit.{Lit};
ghost use Rattle.ask_core.specs.declared.picks.TheConstants.{MAX_PICKS};
ghost use Rattle.diff_graph.specs.Cycles.{pick_verdict};
ghost use Rattle.cert_check.specs.Walks.{IsWalkOf};

use diff_graph::Lit;

/// Whether the picks name a negative cycle of the literals. Where it is not known, `is_negative_cycle` says why.
#[inline(always)]
pub(crate) fn is_plain_cycle(lits: &[Lit], picks: &[u32]) -> bool
    requires few { length picks.now ≤ MAX_PICKS }
    ensures { result ≡ true → pick_verdict lits.now picks.now ≡ Ok tt }
{
    let Some((first, rest)) = picks.split_first() else {
        return false;
    };
    let Some(lit) = lits.get(*first as usize) else {
        return false;
    };
    let Lit { x: start, y, k } = *lit;
    let mut name = y;
    let mut sum = i64::from(k);
    for pick in rest {
        let Some(lit) = lits.get(*pick as usize) else {
            return false;
        };
        let Lit { x, y, k } = *lit;
        if x != name {
            return false;
        }
        name = y;
        sum += i64::from(k);
    }
    name == start && sum < 0
}

/// Where a sum is further from 0, a walk is not gone on. Offsets of literals that are asked are far smaller.
const MOST_SUM: i64 = 1_000_000_000;

/// A walk along literals, of which picks named some: it needs no list of them.
#[derive(Clone, Copy, PartialEq, Eq)]
pub struct Walk {
    start: u8,
    name: u8,
    sum: i64,
}

impl Walk {
    /// The walk along a literal that a pick names.
    #[inline(always)]
    pub fn along(lit: Lit) -> Walk
        ensures { (lits : List Lit) (pick : ℕ) → slice_get lits pick ≡ Some lit → IsWalkOf lits (pick ∷ []) result }
    {
        let Lit {
            x: start,
            y: name,
            k,
        } = lit;
        let sum = i64::from(k);
        Walk { start, name, sum }
    }

    /// The walk with one more literal, if that begins where the walk ends and its sum is not too far from 0.
    #[inline(always)]
    pub fn further(self, lit: Lit) -> Option<Walk>
        ensures { (lits : List Lit) (picks : List ℕ) (pick : ℕ) → IsWalkOf lits picks self
            → slice_get lits pick ≡ Some lit → IfSome result (IsWalkOf lits (picks ++ pick ∷ [])) }
    {
        let Lit { x, y: name, k } = lit;
        if x != self.name {
            return None;
        }
        if self.sum < -MOST_SUM || MOST_SUM < self.sum {
            return None;
        }
        let sum = self.sum + i64::from(k);
        let start = self.start;
        Some(Walk { start, name, sum })
    }

    /// Whether it ends where it began, below 0.
    #[inline(always)]
    pub fn is_negative_cycle(self) -> bool
        ensures { (lits : List Lit) (picks : List ℕ) → IsWalkOf lits picks self → result ≡ true
            → pick_verdict lits picks ≡ Ok tt }
    {
        self.name == self.start && self.sum < 0
    }
}
