//! The conditions under which two starts have one value.
ghost use Rattle.std.specs.Prelude.{◌≡◌, ◌≤◌, ◌-ℤ◌, IfOk, IsTrue, Some, None, false, ◌&&◌, nat_eq, length};
ghost use Rattle.std.specs.List.{AllByRecursion};
ghost use Rattle.std.specs.Cmp.Lexicographic.{pointwise};
ghost use Rattle.ot_questions.specs.Nears.{IsNear, IsNearOp};
ghost use Rattle.start_laws.specs.Begun.{IsBegunProgress, start_after};
ghost use Rattle.start_laws.specs.Starts as starts;

use crate::start::StartAt;
use ask_core::NoMemory;
use diff_graph::Lit;
use fn_rules::ObName;
use ot_terms::{Place, SymOp};
use plain_list::List;
use std::alloc::Global;

fn is_same_ob(left: ObName, right: ObName) -> bool
    ensures { result ≡ starts.is_same_ob left right }
{
    match (left, right) {
        (ObName::Pair(j, k), ObName::Pair(l, m)) => j.same(l) && k.same(m),
        (ObName::Triple(i, j, k), ObName::Triple(l, m, n)) => i.same(l) && j.same(m) && k.same(n),
        _ => false,
    }
}

fn is_same_but_position(left: SymOp, right: SymOp) -> bool
    ensures { result ≡ starts.is_same_but_position left right }
{
    match left {
        SymOp::Ins { ch, site, .. } => match right {
            SymOp::Ins {
                ch: other,
                site: there,
                ..
            } => site == there && ch == other,
            _ => false,
        },
        SymOp::Del { site, .. } => match right {
            SymOp::Del { site: there, .. } => site == there,
            _ => false,
        },
        SymOp::Upd { ch, site, .. } => match right {
            SymOp::Upd {
                ch: other,
                site: there,
                ..
            } => site == there && ch == other,
            _ => false,
        },
        SymOp::Nop => match right {
            SymOp::Nop => true,
            _ => false,
        },
    }
}

fn is_same_op(left: SymOp, right: SymOp) -> bool
    ensures { result ≡ starts.is_same_op left right }
{
    is_same_but_position(left, right) && left.at() == right.at()
}

fn are_same_ops(left: &[SymOp], right: &[SymOp]) -> bool
    ensures { result ≡ pointwise starts.is_same_op left.now right.now }
{
    match (left, right) {
        ([], []) => true,
        ([first, others @ ..], [other, rest @ ..]) => is_same_op(*first, *other)
            && are_same_ops(others, rest),
        _ => false,
    }
}

/// The results of an obligation that are read from here on.
pub fn still_read(ob: ObName, got: &[SymOp]) -> &[SymOp]
    ensures { result.now ≡ starts.still_read ob got.now }
{
    match ob {
        ObName::Pair(..) => got,
        ObName::Triple(..) => match got {
            [_, _, rest @ ..] if !rest.is_empty() => rest,
            _ => got,
        },
    }
}

// The first place is at most the second one.
fn at_most(x: Place, y: Place) -> Lit
    requires x_near { IsNear 1000 x.off }
    requires y_near { IsNear 1000 y.off }
    ensures { result ≡ record { x = x.var; y = y.var; k = y.off -ℤ x.off } }
{
    Lit {
        x: x.var,
        y: y.var,
        k: y.off - x.off,
    }
}

// Puts the conditions under which the two places are one behind those so far: whether they can be.
fn with_places(found: &mut List<Lit>, there: Place, here: Place) -> Result<bool, NoMemory>
    requires there_near { IsNear 1000 there.off }
    requires here_near { IsNear 1000 here.off }
    ensures yes { IfOk result (λ can. IsTrue can
        → Some found.new ≡ starts.all_conditions (Some found.old) (starts.conditions_at there here)) }
    ensures no { IfOk result (λ can. can ≡ false → starts.conditions_at there here ≡ None) }
{
    if there.var == here.var {
        return Ok(there.off == here.off);
    }
    found.push(at_most(here, there))?;
    found.push(at_most(there, here))?;
    Ok(true)
}

// The same of two results.
fn with_results(found: &mut List<Lit>, there: SymOp, here: SymOp) -> Result<bool, NoMemory>
    requires there_near { IsNearOp 1000 there }
    requires here_near { IsNearOp 1000 here }
    ensures yes { IfOk result (λ can. IsTrue can
        → Some found.new ≡ starts.all_conditions (Some found.old) (starts.conditions_of there here)) }
    ensures no { IfOk result (λ can. can ≡ false → starts.conditions_of there here ≡ None) }
{
    if is_same_but_position(there, here) {
        return with_places(found, there.at(), here.at());
    }
    Ok(false)
}

// The same of each result and the one beside it.
fn with_each(found: &mut List<Lit>, there: &[SymOp], here: &[SymOp]) -> Result<bool, NoMemory>
    requires there_near { AllByRecursion (IsNearOp 1000) there.now }
    requires here_near { AllByRecursion (IsNearOp 1000) here.now }
    ensures yes { IfOk result (λ can. IsTrue can
        → Some found.new ≡ starts.all_conditions (Some found.old) (starts.conditions_of_each there.now here.now)) }
    ensures no { IfOk result (λ can. can ≡ false → starts.conditions_of_each there.now here.now ≡ None) }
{
    match there {
        [] => Ok(here.is_empty()),
        [first, others @ ..] => match here {
            [] => Ok(false),
            [other, rest @ ..] => {
                if !with_results(found, *first, *other)? {
                    return Ok(false);
                }
                with_each(found, others, rest)
            }
        },
    }
}

fn conditions(
    alloc: Global,
    lemma: &StartAt<'_>,
    there: &[SymOp],
    here: &StartAt<'_>,
    got: &[SymOp],
) -> Result<Option<List<Lit>>, NoMemory>
    requires there_near { AllByRecursion (IsNearOp 1000) there.now }
    requires here_near { AllByRecursion (IsNearOp 1000) got.now }
    ensures { IfOk result (λ r. r ≡ starts.compare_starts
        (record { ob = lemma.now.progress.now.ob; ops = lemma.now.progress.now.ops; got = there.now })
        (record { ob = here.now.progress.now.ob; ops = here.now.progress.now.ops; got = got.now })) }
{
    if there.len() == got.len()
        && is_same_ob(lemma.progress.ob, here.progress.ob)
        && are_same_ops(&lemma.progress.ops, &here.progress.ops)
    {
        let mut found = List::new(alloc);
        let read = still_read(lemma.progress.ob, there);
        if with_each(&mut found, read, still_read(here.progress.ob, got))? {
            return Ok(Some(found));
        }
    }
    Ok(None)
}

/// The conditions under which a lemma of the one start serves at the other one, or none where the starts do not
/// compare. It takes memory for conditions alone.
pub fn compare(
    alloc: Global,
    lemma: &StartAt<'_>,
    here: &StartAt<'_>,
) -> Result<Option<List<Lit>>, NoMemory>
    requires lemma_begun { IsBegunProgress lemma.now.progress.now lemma.now.last }
    requires here_begun { IsBegunProgress here.now.progress.now here.now.last }
    ensures { IfOk result (λ found. found
        ≡ starts.compare_starts (start_after lemma.now.progress.now lemma.now.last)
        (start_after here.now.progress.now here.now.last)) }
{
    let there = lemma.results();
    let got = here.results();
    conditions(alloc, lemma, there.as_slice(), here, got.as_slice())
}
