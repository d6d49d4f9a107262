//! What has to be shown of a function.
ghost use Rattle.std.specs.Prelude.{◌≡◌, ◌++◌, map, filter, OnOk, IfOk};
ghost use Rattle.std.specs.List.{flat_map};
ghost use Rattle.fn_rules.specs.Functions.{is_declared_of};
ghost use Rattle.fn_rules.specs.declared.function.ObName.TheVariants.{Pair};
ghost use Rattle.fn_rules.specs.Obligations.{declared_kinds, declared_pairs, pairs_of, with_third, with_thirds};
ghost use Rattle.fn_rules.specs.Obligations.{triples_of, obligations_of};

use crate::NoMemory;
use crate::function::{Head, Level, ObName};
use ot_model::{KINDS, Kind};
use std::alloc::Global;

// The kinds that the function is for, in canonical order.
fn kinds_of(alloc: Global, head: &Head) -> Result<Vec<Kind>, NoMemory>
    ensures { IfOk result (λ v. v.items ≡ declared_kinds head.now) }
{
    KINDS
        .iter()
        .copied()
        .filter(|kind| head.declares(*kind))
        .collect(alloc)
}

// Puts the declared pairs of a kind with each of these kinds at the end.
fn push_blocks_of(
    head: &Head,
    first: Kind,
    kinds: &[Kind],
    blocks: &mut Vec<(Kind, Kind)>,
) -> Result<(), NoMemory>
    ensures { OnOk result (blocks.new.items ≡ blocks.old.items
        ++ filter (is_declared_of head.now) (map (λ l. (first, l)) kinds.now)) }
{
    for second in kinds {
        if head.declares_pair(first, *second) {
            blocks.push((first, *second))?;
        }
    }
    Ok(())
}

// Puts the declared pairs with these first kinds at the end.
fn push_blocks(head: &Head, firsts: &[Kind], blocks: &mut Vec<(Kind, Kind)>) -> Result<(), NoMemory>
    ensures { OnOk result (blocks.new.items ≡ blocks.old.items
        ++ filter (is_declared_of head.now) (flat_map (λ k. map (λ l. (k, l)) KINDS) firsts.now)) }
{
    match firsts {
        [] => Ok(()),
        [first, others @ ..] => {
            push_blocks_of(head, *first, &KINDS, blocks)?;
            push_blocks(head, others, blocks)
        }
    }
}

/// The ordered pairs of the function's kinds, for each of which it has a block, in canonical order: by the
/// first kind, and then by the second.
pub fn blocks(alloc: Global, head: &Head) -> Result<Vec<(Kind, Kind)>, NoMemory>
    ensures { IfOk result (λ v. v.items ≡ declared_pairs head.now) }
{
    let mut blocks = Vec::new(alloc);
    push_blocks(head, &KINDS, &mut blocks)?;
    Ok(blocks)
}

// Puts the pairs of a kind with each of these kinds at the end.
fn push_pairs(first: Kind, kinds: &[Kind], names: &mut Vec<ObName>) -> Result<(), NoMemory>
    ensures { OnOk result (names.new.items ≡ names.old.items ++ map (Pair first) kinds.now) }
{
    for second in kinds {
        names.push(ObName::Pair(first, *second))?;
    }
    Ok(())
}

// Puts the pairs of kinds at the end: each kind with itself and with those behind it.
fn push_all_pairs(kinds: &[Kind], names: &mut Vec<ObName>) -> Result<(), NoMemory>
    ensures { OnOk result (names.new.items ≡ names.old.items ++ pairs_of kinds.now) }
{
    match kinds {
        [] => Ok(()),
        [first, others @ ..] => {
            push_pairs(*first, kinds, names)?;
            push_all_pairs(others, names)
        }
    }
}

// A pair with a third kind.
fn triple(pair: ObName, third: Kind) -> ObName
    ensures { result ≡ with_third third pair }
{
    match pair {
        ObName::Pair(k, l) | ObName::Triple(k, l, _) => ObName::Triple(k, l, third),
    }
}

// Puts each of the pairs with a third kind at the end.
fn push_triples(third: Kind, pairs: &[ObName], names: &mut Vec<ObName>) -> Result<(), NoMemory>
    ensures { OnOk result (names.new.items ≡ names.old.items ++ map (with_third third) pairs.now) }
{
    for pair in pairs {
        names.push(triple(*pair, third))?;
    }
    Ok(())
}

// Puts the triples at the end: each third kind in order, with each of the pairs before it.
fn push_all_triples(
    kinds: &[Kind],
    pairs: &[ObName],
    names: &mut Vec<ObName>,
) -> Result<(), NoMemory>
    ensures { OnOk result (names.new.items ≡ names.old.items ++ with_thirds pairs.now kinds.now) }
{
    match kinds {
        [] => Ok(()),
        [third, others @ ..] => {
            push_triples(*third, pairs, names)?;
            push_all_triples(others, pairs, names)
        }
    }
}

/// The pairs of the function's kinds, of which TP1 has to be shown: each kind with itself and with those
/// behind it.
pub fn pairs(alloc: Global, head: &Head) -> Result<Vec<ObName>, NoMemory>
    ensures { IfOk result (λ v. v.items ≡ pairs_of (declared_kinds head.now)) }
{
    let kinds = kinds_of(alloc, head)?;
    let mut names = Vec::new(alloc);
    push_all_pairs(&kinds, &mut names)?;
    Ok(names)
}

/// The triples of the function's kinds, of which TP2 has to be shown: each third kind in order, with each
/// pair before it.
pub fn triples(alloc: Global, head: &Head) -> Result<Vec<ObName>, NoMemory>
    ensures { IfOk result (λ v. v.items ≡ triples_of (declared_kinds head.now)) }
{
    let kinds = kinds_of(alloc, head)?;
    let pairs = pairs(alloc, head)?;
    let mut names = Vec::new(alloc);
    push_all_triples(&kinds, &pairs, &mut names)?;
    Ok(names)
}

/// What has to be shown of a function at a level, in the order in which certificates have it: the
/// pairs of its kinds, and at level TP2 the triples behind them.
pub fn obligations(alloc: Global, head: &Head, level: Level) -> Result<Vec<ObName>, NoMemory>
    ensures { IfOk result (λ v. v.items ≡ obligations_of head.now level) }
{
    let mut names = pairs(alloc, head)?;
    match level {
        Level::Tp1 => Ok(names),
        Level::Tp2 => {
            let mut behind = triples(alloc, head)?;
            names.append(&mut behind)?;
            Ok(names)
        }
    }
}
