//! The limits of functions, and the tests for them.
ghost use Rattle.std.specs.Prelude.{◌≡◌, ◌^◌, ◌-◌, min, map};
ghost use Rattle.std.specs.List.{list_all};
ghost use Rattle.fn_rules.specs.Formulas.{formula_of};
ghost use Rattle.fn_rules.specs.Functions.{case_of};
ghost use Rattle.fn_rules.specs.Validity.{is_offset, is_offset_for, has_valid_atoms, atoms_of, nesting_of};
ghost use Rattle.fn_rules.specs.Validity.{is_valid_res, is_valid_case, are_valid_cases};

use crate::function::{Case, Res};
use crate::guard::{Atom, Guard, Sort, Tightness};

/// The greatest number of cases of a block.
pub const MAX_CASES: usize = 64;

/// The greatest number of atoms and `true` of a case, counted together.
pub const MAX_ATOMS: u64 = 16;

/// The greatest number of `(` and `not` around one place of a guard's canonical print.
pub const MAX_NESTING: u64 = 32;

/// The greatest offset; the least is its negative.
pub const MAX_OFFSET: i32 = 99;

/// The greatest number that a workload is generated from: its function has so many cases more than it needs, and the
/// sites of its session make operations in so many rounds.
pub const MOST_ROUNDS: u32 = 16;

// The atoms of a guard and its `true`, as far as they can be counted.
fn atoms(guard: &Guard) -> u64
    ensures { result ≡ min (atoms_of (formula_of guard.now)) (2 ^ 64 - 1) }
{
    match guard {
        Guard::True | Guard::Atom(_) => 1,
        Guard::And(g, h) | Guard::Or(g, h) => atoms(g).saturating_add(atoms(h)),
        Guard::Not(g) => atoms(g),
    }
}

// The nesting of a guard at a place, as far as it can be counted.
fn nesting(place: Tightness, guard: &Guard) -> u64
    ensures { result ≡ min (nesting_of place (formula_of guard.now)) (2 ^ 64 - 1) }
{
    match guard {
        Guard::True | Guard::Atom(_) => 0,
        Guard::And(g, h) => {
            let inner = nesting(Tightness::Joined, g).max(nesting(Tightness::Tight, h));
            match place {
                Tightness::Loose | Tightness::Joined => inner,
                Tightness::Tight => inner.saturating_add(1),
            }
        }
        Guard::Or(g, h) => {
            let inner = nesting(Tightness::Loose, g).max(nesting(Tightness::Joined, h));
            match place {
                Tightness::Loose => inner,
                Tightness::Joined | Tightness::Tight => inner.saturating_add(1),
            }
        }
        Guard::Not(g) => nesting(Tightness::Tight, g).saturating_add(1),
    }
}

fn is_small(k: i32) -> bool
    ensures { result ≡ is_offset k }
{
    -MAX_OFFSET <= k && k <= MAX_OFFSET
}

fn fits_sort(chars: bool, atom: &Atom) -> bool
    ensures { result ≡ is_offset_for chars atom.now.sort atom.now.k }
{
    match atom.sort {
        Sort::Pos => is_small(atom.k),
        Sort::Site => atom.k == 0,
        Sort::Char => chars && atom.k == 0,
    }
}

fn fit_sorts(chars: bool, guard: &Guard) -> bool
    ensures { result ≡ has_valid_atoms chars (formula_of guard.now) }
{
    match guard {
        Guard::True => true,
        Guard::Atom(atom) => fits_sort(chars, atom),
        Guard::And(g, h) | Guard::Or(g, h) => fit_sorts(chars, g) && fit_sorts(chars, h),
        Guard::Not(g) => fit_sorts(chars, g),
    }
}

fn stays_near(res: &Res) -> bool
    ensures { result ≡ is_valid_res res.now }
{
    match *res {
        Res::Keep { k, .. } => is_small(k),
        Res::Nop => true,
    }
}

fn case_fits(chars: bool, case: &Case) -> bool
    ensures { result ≡ is_valid_case chars (case_of case.now) }
{
    fit_sorts(chars, &case.guard)
        && atoms(&case.guard) <= MAX_ATOMS
        && nesting(Tightness::Loose, &case.guard) <= MAX_NESTING
        && stays_near(&case.res)
}

fn all_fit(chars: bool, cases: &[Case]) -> bool
    ensures { result ≡ list_all (λ c. is_valid_case chars (case_of c)) cases.now }
{
    cases.iter().all(|case| case_fits(chars, case))
}

// Whether these cases may stand in a block that may compare characters or may not.
pub(crate) fn cases_fit(chars: bool, cases: &[Case]) -> bool
    ensures { result ≡ are_valid_cases chars (map case_of cases.now) }
{
    cases.len() <= MAX_CASES && all_fit(chars, cases)
}
