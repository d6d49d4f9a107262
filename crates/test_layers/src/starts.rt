//! Where the transformations of a pair begin.
ghost use Rattle.std.specs.Prelude.{IfOk, IfSome, IsTrue};
ghost use Rattle.fn_rules.specs.Obligations.{is_obligation};
ghost use Rattle.fn_rules.specs.Rules.{function_of};

use crate::functions::asking;
use ask_core::{NoMemory, Turn};
use bumpalo::Bump;
use fn_rules::{ObName, Rules};
use ot_model::Kind;
use ot_starts::StartAsker;
use proof_trees::Starter;
use std::alloc::Global;
use std::process::Abort;

// The node after answers, a `y` for each yes, or none where the plan ends before.
fn node_after<A: Starter>(asker: &mut A, answers: &str) -> Result<Option<A::Node>, NoMemory>
    ensures own { IfOk result (λ found. IfSome found (λ n. A.is_own asker.new n)) }
    ensures kept { (n : A.Node) → A.is_own asker.old n → A.is_own asker.new n }
{
    let mut node = asker.first()?;
    for answer in answers.as_bytes() {
        match asker.follow(node)? {
            Turn::Ask { yes, no, .. } => {
                node = if *answer == b'y' { yes } else { no };
            }
            _ => return Ok(None),
        }
    }
    Ok(Some(node))
}

fn begins_after<A: Starter>(asker: &mut A, answers: &str) -> Result<Option<bool>, NoMemory> {
    match node_after(asker, answers)? {
        Some(node) => Ok(Some(asker.begins(node))),
        None => Ok(None),
    }
}

// How many conditions there are for a lemma of what follows some answers to serve after other ones.
fn conditions_after<A: Starter>(
    alloc: Global,
    asker: &mut A,
    lemma: &str,
    here: &str,
) -> Result<Option<usize>, NoMemory> {
    let Some(lemma) = node_after(asker, lemma)? else {
        return Ok(None);
    };
    let Some(here) = node_after(asker, here)? else {
        return Ok(None);
    };
    Ok(
        asker
            .compare(alloc, lemma, here)?
            .map(|conditions| conditions.len()),
    )
}

// Past the length and the places of both deletions the first transformation begins, and the second one behind both of
// its answers.
const BEGINNINGS: &[(&str, bool)] = &[
    ("", false),
    ("yyyy", false),
    ("yyyyy", true),
    ("yyyyyy", true),
    ("yyyyyn", true),
    ("yyyyyyy", false),
];

fn begins_as_told<A: Starter>(asker: &mut A) -> Result<bool, NoMemory> {
    for (answers, want) in BEGINNINGS {
        if begins_after(asker, answers)? != Some(*want) {
            return Ok(false);
        }
    }
    Ok(true)
}

// Whatever the first transformation is answered, its result is the same one, so both places behind it are one start.
fn compares_as_told<A: Starter>(alloc: Global, asker: &mut A) -> Result<bool, NoMemory> {
    let same = conditions_after(alloc, asker, "yyyyyy", "yyyyyn")?;
    let other = conditions_after(alloc, asker, "yyyyy", "yyyyyy")?;
    Ok(same == Some(0) && other.is_none())
}

fn is_as_told<A: Starter>(alloc: Global, asker: &mut A) -> Result<bool, NoMemory> {
    Ok(begins_as_told(asker)? && compares_as_told(alloc, asker)?)
}

fn starts_as_told(alloc: Global, rules: &Rules) -> Result<bool, NoMemory>
    requires { IsTrue (is_obligation (function_of rules.now).head (ObName.Pair Kind.Del Kind.Del)) }
{
    let bump = Bump::new(alloc);
    let mut asker = StartAsker::new(&bump, rules, ObName::Pair(Kind::Del, Kind::Del));
    is_as_told(alloc, &mut asker)
}

fn begin_at_starts(rt: &impl Abort, alloc: Global) -> Result<bool, NoMemory> {
    let rules = asking(rt, alloc)?;
    assert!(rt; rules.head().declares_pair(Kind::Del, Kind::Del));
    starts_as_told(alloc, &rules)
}

#[test]
fn both_transformations_of_a_pair_begin_at_starts(rt: HostRuntime) {
    assert!(rt; begin_at_starts(&rt, rt.alloc()) == Ok(true));
}
