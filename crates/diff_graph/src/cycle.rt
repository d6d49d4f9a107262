//! The test for a negative cycle.
ghost use Rattle.std.specs.Prelude.{◌≡◌, ℕ, ℤ, pos, ◌<ℤ◌, ◌↔◌, IsTrue, is_some, Ok};
ghost use Rattle.diff_graph.specs.Literals.{AreMet};
ghost use Rattle.diff_graph.specs.Cycles.{picked, named_by, is_closed_walk, weight, pick_verdict};

use crate::lit::{Lit, PickError};

/// Whether the literals that `picks` names, in their order, are a negative cycle: each begins where
/// the one before it ends, the last ends where the first begins, there is at least one, and their
/// offsets sum to less than 0. The error is the first of `PickError` that applies.
pub fn is_negative_cycle(lits: &[Lit], picks: &[u32]) -> Result<(), PickError>
    ensures verdict { result ≡ pick_verdict lits.now picks.now }
    ensures sound { result ≡ Ok tt → (v : ℕ → ℤ) → ¬ AreMet v lits.now }
{
    if !are_places(lits, picks) {
        return Err(PickError::BadPick);
    }
    if !chain_into_a_cycle(lits, picks) {
        return Err(PickError::NotACycle);
    }
    if sum_of(lits, picks) >= 0 {
        return Err(PickError::NotNegative);
    }
    Ok(())
}

/// Whether each pick is below the number of literals.
fn are_places(lits: &[Lit], picks: &[u32]) -> bool
    ensures { result ≡ is_some (picked lits.now picks.now) }
{
    for pick in picks {
        if *pick as usize >= lits.len() {
            return false;
        }
    }
    true
}

/// Whether the picked literals are a closed walk.
fn chain_into_a_cycle(lits: &[Lit], picks: &[u32]) -> bool
    requires { IsTrue (is_some (picked lits.now picks.now)) }
    ensures { result ≡ is_closed_walk (named_by lits.now picks.now) }
{
    if picks.is_empty() {
        return false;
    }
    let first = lits[picks[0] as usize].x;
    let mut name = first;
    for pick in picks {
        let lit = lits[*pick as usize];
        if lit.x != name {
            return false;
        }
        name = lit.y;
    }
    name == first
}

/// The sum of the offsets of the picked literals. Any number of picks fits.
fn sum_of(lits: &[Lit], picks: &[u32]) -> i128
    requires { IsTrue (is_some (picked lits.now picks.now)) }
    ensures { result ≡ weight (named_by lits.now picks.now) }
{
    let mut sum: i128 = 0;
    for pick in picks {
        sum += i128::from(lits[*pick as usize].k);
    }
    sum
}
