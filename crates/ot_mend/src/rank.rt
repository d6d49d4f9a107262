//! The order of the functions that edits lead to.
ghost use Rattle.std.specs.Prelude.{◌≡◌, ◌≤◌, ◌∷◌, [], count_by, map};
ghost use Rattle.std.specs.List.{sum_by};
ghost use Rattle.fn_rules.specs.Formulas.{formula_of};
ghost use Rattle.fn_rules.specs.Functions.{case_of};
ghost use Rattle.fn_rules.specs.Rules.{function_of};
ghost use Rattle.fn_rules.specs.Validity.{atoms_of};
ghost use Rattle.ot_mend.specs.Offers.{is_same_side};
ghost use Rattle.ot_mend.specs.Ranks.{block_size, change_weight, comes_before, counted, function_size};
ghost use Rattle.ot_mend.specs.Ranks.{is_against_convention, is_assumption, is_nop, is_of_higher, is_of_lower};
ghost use Rattle.ot_mend.specs.Ranks.{is_staying, new_case_weight};
ghost use Rattle.ot_mend.specs.Ranks.{nop_weight, pair_size, rank_of, result_weight, weight_of};

use crate::change::{Change, NewGuard};
use crate::edit::Edit;
use fn_rules::{Atom, Case, Cmp, Guard, Res, Rules, Side};
use ot_model::Kind;

/// The rank of a function that edits lead to: what comes first of two that as many edits lead to.
#[derive(Clone, Copy)]
pub struct Rank {
    /// How many of the edits put an assumption in.
    pub assumed: usize,

    /// How many cases and atoms the function has.
    pub size: u64,

    /// What the edits weigh together.
    pub weight: u64,
}

fn count_atoms(guard: &Guard) -> u64
    ensures { result ≡ counted (atoms_of (formula_of guard.now)) }
{
    match guard {
        Guard::True | Guard::Atom(_) => 1,
        Guard::And(g, h) | Guard::Or(g, h) => count_atoms(g).saturating_add(count_atoms(h)),
        Guard::Not(g) => count_atoms(g),
    }
}

fn size_of_block(cases: &[Case]) -> u64
    ensures { result ≡ counted (block_size (map case_of cases.now)) }
{
    match cases {
        [] => 0,
        [case, others @ ..] => count_atoms(&case.guard)
            .saturating_add(1)
            .saturating_add(size_of_block(others)),
    }
}

fn size_of_pair(rules: &Rules, first: Kind, second: Kind) -> u64
    ensures { result ≡ counted (pair_size (function_of rules.now) (first, second)) }
{
    if rules.head().declares_pair(first, second) {
        size_of_block(rules.cases(first, second))
    } else {
        0
    }
}

fn size_of_first(rules: &Rules, first: Kind) -> u64
    ensures { result ≡ counted (sum_by (pair_size (function_of rules.now))
        ((first, Kind.Ins) ∷ (first, Kind.Del) ∷ (first, Kind.Upd) ∷ [])) }
{
    size_of_pair(rules, first, Kind::Ins)
        .saturating_add(size_of_pair(rules, first, Kind::Del))
        .saturating_add(size_of_pair(rules, first, Kind::Upd))
}

fn size(rules: &Rules) -> u64
    ensures { result ≡ counted (function_size (function_of rules.now)) }
{
    size_of_first(rules, Kind::Ins)
        .saturating_add(size_of_first(rules, Kind::Del))
        .saturating_add(size_of_first(rules, Kind::Upd))
}

fn is_nop(res: Res) -> bool
    ensures { result ≡ is_nop res }
{
    match res {
        Res::Keep { .. } => false,
        Res::Nop => true,
    }
}

fn is_first(side: Side) -> bool
    ensures { result ≡ is_same_side side Side.First }
{
    match side {
        Side::First => true,
        Side::Second => false,
    }
}

fn is_staying(res: Res) -> bool
    ensures { result ≡ is_staying res }
{
    match res {
        Res::Keep { base, k } => is_first(base) && k == 0,
        Res::Nop => false,
    }
}

fn is_of_lower(left: Side, cmp: Cmp) -> bool
    ensures { result ≡ is_of_lower left cmp }
{
    match (left, cmp) {
        (Side::First, Cmp::Lt) => true,
        (Side::First, Cmp::Le) => true,
        (Side::First, Cmp::Eq) => false,
        (Side::Second, Cmp::Lt) => false,
        (Side::Second, Cmp::Le) => false,
        (Side::Second, Cmp::Eq) => false,
    }
}

fn is_of_higher(left: Side, cmp: Cmp) -> bool
    ensures { result ≡ is_of_higher left cmp }
{
    match (left, cmp) {
        (Side::First, Cmp::Lt) => false,
        (Side::First, Cmp::Le) => false,
        (Side::First, Cmp::Eq) => false,
        (Side::Second, Cmp::Lt) => true,
        (Side::Second, Cmp::Le) => true,
        (Side::Second, Cmp::Eq) => false,
    }
}

fn is_against_convention(tie: &Atom, res: Res) -> bool
    ensures { result ≡ is_against_convention tie.now res }
{
    is_of_lower(tie.left, tie.cmp) && !is_staying(res)
        || is_of_higher(tie.left, tie.cmp) && is_staying(res)
}

// The weight of a case that is put in.
fn new_case_weight(guard: NewGuard, res: Res) -> u64
    ensures weight { result ≡ new_case_weight guard res }
    ensures small { result ≤ 4 }
{
    match guard {
        NewGuard::Tie(tie) => {
            if is_against_convention(&tie, res) {
                4
            } else if is_staying(res) {
                2
            } else {
                3
            }
        }
        NewGuard::Compare(_) => 4,
        NewGuard::Always => 4,
    }
}

// What it weighs more that an operation becomes nop because of one of another kind.
fn nop_weight(one_kind: bool, res: Res) -> u64
    ensures weight { result ≡ nop_weight one_kind res }
    ensures small { result ≤ 4 }
{
    if is_nop(res) && !one_kind { 4 } else { 0 }
}

// The weight of another result, where the kinds do not matter.
fn result_weight(from: Res, to: Res) -> u64
    ensures weight { result ≡ result_weight from to }
    ensures small { result ≤ 3 }
{
    if is_nop(from) || is_nop(to) { 3 } else { 1 }
}

fn change_weight(one_kind: bool, change: &Change) -> u64
    ensures { result ≡ change_weight one_kind change.now }
{
    match *change {
        Change::NewAtom { .. } => 1,
        Change::NewResult { from, to, .. } => result_weight(from, to) + nop_weight(one_kind, to),
        Change::TakeOut { .. } => 1,
        Change::Exchange { .. } => 2,
        Change::PutIn { guard, res, .. } => new_case_weight(guard, res) + nop_weight(one_kind, res),
    }
}

fn weight_of(edit: &Edit) -> u64
    ensures { result ≡ weight_of edit.now }
{
    match edit {
        Edit::InBlock {
            first,
            second,
            change,
        } => change_weight(first.same(*second), change),
        Edit::AssumeSites | Edit::AssumeChars => 0,
    }
}

fn is_assumption(edit: &Edit) -> bool
    ensures { result ≡ is_assumption edit.now }
{
    match edit {
        Edit::InBlock { .. } => false,
        Edit::AssumeSites | Edit::AssumeChars => true,
    }
}

fn assumed(edits: &[Edit]) -> usize
    ensures { result ≡ count_by is_assumption edits.now }
{
    edits.iter().filter(|edit| is_assumption(edit)).count()
}

fn weight(edits: &[Edit]) -> u64
    ensures { result ≡ counted (sum_by weight_of edits.now) }
{
    match edits {
        [] => 0,
        [edit, others @ ..] => weight_of(edit).saturating_add(weight(others)),
    }
}

/// The rank of a function that these edits lead to.
pub fn rank_after(edits: &[Edit], rules: &Rules) -> Rank
    ensures { result ≡ rank_of edits.now (function_of rules.now) }
{
    Rank {
        assumed: assumed(edits),
        size: size(rules),
        weight: weight(edits),
    }
}

/// Whether the one rank comes before the other.
pub fn comes_before(rank: &Rank, other: &Rank) -> bool
    ensures { result ≡ comes_before rank.now other.now }
{
    rank.assumed < other.assumed
        || rank.assumed == other.assumed
            && (rank.size < other.size || rank.size == other.size && rank.weight < other.weight)
}
