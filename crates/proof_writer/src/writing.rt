//! The call that writes a tree.
ghost use Rattle.std.specs.Prelude.{◌≡◌, ◌+◌, ◌≤◌, IfOk, IfSome, OnOk, length};
ghost use Rattle.proof_trees.specs.Starters.{HasCounted, KeepsStarts};
ghost use Rattle.proof_search.specs.Owning.{AreOwnLemmas};
ghost use Rattle.proof_writer.specs.Counting.{HasTaken, IsOfLength, unasked, unasked_after, unasked_at};
ghost use Rattle.proof_writer.specs.declared.place.TreeEnd.TheVariants.{Spent};
ghost use Rattle.proof_writer.specs.Nodes.{AreOwnNodes};
ghost use Rattle.proof_writer.specs.Texts.{ExtendsText};

use crate::place::{TreeEnd, TreePlace, TreeWritten, WriterStep};
use crate::walk::PlanWalk;
use crate::written::Unbegun;
use ask_core::{NoMemory, Turn};
use proof_search::{Choice, Finder, Lemmas, serving, serving_of};
use std::alloc::Global;

/// Appends the text of a tree that shows an asker's own plan, by the lemmas that a search of it showed, each of which
/// is begun at most once. By any end but that of the tree some front of a tree was appended, as after want of memory.
pub fn write_tree<A: Finder>(
    alloc: Global,
    asker: &mut A,
    lemmas: &Lemmas<A::Node>,
    questions: u64,
    most: usize,
    out: &mut Vec<u8>,
) -> Result<TreeWritten, NoMemory>
    requires { AreOwnLemmas (A.is_own asker.old) lemmas.now }

    // What stood there stands in front of the tree.
    ensures front { ExtendsText out.old.items out.new.items }
    ensures room { IfOk result (λ w. IsOfLength most w.ending (length out.new.items)) }

    // The asker told the questions that were asked, and, where no more might be, the one that is one more.
    ensures within { IfOk result (λ w. w.asked ≤ questions) }
    ensures told { IfOk result (λ w. HasCounted (A.told asker.old) (w.asked + unasked w.ending) (A.told asker.new)) }
    ensures spent { IfOk result (λ w. w.ending ≡ Spent → w.asked ≡ questions) }

    // The asker is as it was, but for its count.
    ensures same { KeepsStarts (A.is_own asker.old) (A.is_own asker.new) (A.starts asker.old) (A.starts asker.new) }
    ensures root { A.root asker.new ≡ A.root asker.old }
{
    walk_through(alloc, asker, lemmas, questions, most, out)
}

// The same, but for the asker's own plan.
fn walk_through<A: Finder>(
    alloc: Global,
    asker: &mut A,
    lemmas: &Lemmas<A::Node>,
    questions: u64,
    most: usize,
    out: &mut Vec<u8>,
) -> Result<TreeWritten, NoMemory>
    requires { AreOwnLemmas (A.is_own asker.old) lemmas.now }
    ensures front { ExtendsText out.old.items out.new.items }
    ensures within { IfOk result (λ w. w.asked ≤ questions) }
    ensures room { IfOk result (λ w. IsOfLength most w.ending (length out.new.items)) }
    ensures told { IfOk result (λ w. HasCounted (A.told asker.old) (w.asked + unasked w.ending) (A.told asker.new)) }
    ensures spent { IfOk result (λ w. w.ending ≡ Spent → w.asked ≡ questions) }
    ensures same { KeepsStarts (A.is_own asker.old) (A.is_own asker.new) (A.starts asker.old) (A.starts asker.new) }
{
    let first = asker.first()?;
    let mut walk = PlanWalk::begin(alloc, first, lemmas.len(), questions)?;
    'turns: for _ in 0..turns_of(questions, lemmas.len()) {
        if let Some(ending) = turn(alloc, asker, lemmas, most, &mut walk, out)? {
            let asked = questions - walk.left;
            return Ok(TreeWritten { ending, asked });
        }
    }
    let asked = questions - walk.left;
    let ending = TreeEnd::Stuck;
    Ok(TreeWritten { ending, asked })
}

// One step, and how the tree ends if it was the last one.
fn turn<A: Finder>(
    alloc: Global,
    asker: &mut A,
    lemmas: &Lemmas<A::Node>,
    most: usize,
    walk: &mut PlanWalk<A::Node>,
    out: &mut Vec<u8>,
) -> Result<Option<TreeEnd>, NoMemory>
    requires lemmas { AreOwnLemmas (A.is_own asker.old) lemmas.now }
    requires nodes { AreOwnNodes (A.is_own asker.old) walk.old }
    ensures front { ExtendsText out.old.items out.new.items }
    ensures room { IfOk result (λ last. IfSome last (λ ending. IsOfLength most ending (length out.new.items))) }
    ensures nodes { OnOk result (AreOwnNodes (A.is_own asker.new) walk.new) }
    ensures same { KeepsStarts (A.is_own asker.old) (A.is_own asker.new) (A.starts asker.old) (A.starts asker.new) }
    ensures taken { IfOk result (λ last. HasTaken walk.old.left walk.new.left (A.told asker.old) (A.told asker.new)
        (unasked_after last)) }
{
    let step = step(alloc, asker, lemmas, walk, out)?;
    Ok(end_after(step, out.len(), most))
}

// How a tree ends with a step after which the text has so many bytes, if it does.
fn end_after(step: WriterStep, bytes: usize, most: usize) -> Option<TreeEnd>
    ensures room { IfSome result (λ ending. IsOfLength most ending bytes) }
    ensures unasked { unasked_after result ≡ unasked_at step }
{
    match step {
        WriterStep::Spent => Some(TreeEnd::Spent),
        WriterStep::Stuck => Some(TreeEnd::Stuck),
        _ if bytes > most => Some(TreeEnd::TooLong),
        WriterStep::Done => Some(TreeEnd::Whole),
        WriterStep::More => None,
    }
}

// More steps than a walk can take: each question and each lemma leaves at most three parts more, and each part takes
// one step to be taken up and one to be closed.
fn turns_of(questions: u64, lemmas: usize) -> u64 {
    questions
        .saturating_add(lemmas as u64)
        .saturating_add(1)
        .saturating_mul(8)
}

// Writes what stands at the present place, or goes on with what waits.
fn step<A: Finder>(
    alloc: Global,
    asker: &mut A,
    lemmas: &Lemmas<A::Node>,
    walk: &mut PlanWalk<A::Node>,
    out: &mut Vec<u8>,
) -> Result<WriterStep, NoMemory>
    requires lemmas { AreOwnLemmas (A.is_own asker.old) lemmas.now }
    requires nodes { AreOwnNodes (A.is_own asker.old) walk.old }
    ensures front { ExtendsText out.old.items out.new.items }
    ensures nodes { OnOk result (AreOwnNodes (A.is_own asker.new) walk.new) }
    ensures same { KeepsStarts (A.is_own asker.old) (A.is_own asker.new) (A.starts asker.old) (A.starts asker.new) }
    ensures taken { IfOk result (λ step. HasTaken walk.old.left walk.new.left (A.told asker.old) (A.told asker.new)
        (unasked_at step)) }
{
    let Some(place) = walk.present else {
        return walk.next(out);
    };
    if !is_start(asker, place) {
        return follow(asker, walk, place, out);
    }
    use_lemma(alloc, asker, lemmas, walk, place, out)
}

// Whether a start is at a place where no lemma was just begun.
#[inline]
fn is_start<A: Finder>(asker: &A, place: TreePlace<A::Node>) -> bool
    requires { A.is_own asker.now place.node }
{
    !place.begun && asker.begins(place.node)
}

// Writes a question, or that the plan holds, at the present place.
fn follow<A: Finder>(
    asker: &mut A,
    walk: &mut PlanWalk<A::Node>,
    place: TreePlace<A::Node>,
    out: &mut Vec<u8>,
) -> Result<WriterStep, NoMemory>
    requires here { A.is_own asker.old place.node }
    requires nodes { AreOwnNodes (A.is_own asker.old) walk.old }
    ensures front { ExtendsText out.old.items out.new.items }
    ensures nodes { OnOk result (AreOwnNodes (A.is_own asker.new) walk.new) }
    ensures same { KeepsStarts (A.is_own asker.old) (A.is_own asker.new) (A.starts asker.old) (A.starts asker.new) }
    ensures taken { IfOk result (λ step. HasTaken walk.old.left walk.new.left (A.told asker.old) (A.told asker.new)
        (unasked_at step)) }
{
    match asker.follow(place.node)? {
        Turn::Ask { lit, yes, no } => walk.ask(place.length, lit, yes, no, out),
        Turn::Holds => walk.hold(out),
        Turn::Fails(_) => Ok(WriterStep::Stuck),
    }
}

// At a start: cites the newest lemma that is written and serves, or else begins one.
fn use_lemma<A: Finder>(
    alloc: Global,
    asker: &mut A,
    lemmas: &Lemmas<A::Node>,
    walk: &mut PlanWalk<A::Node>,
    place: TreePlace<A::Node>,
    out: &mut Vec<u8>,
) -> Result<WriterStep, NoMemory>
    requires lemmas { AreOwnLemmas (A.is_own asker.old) lemmas.now }
    requires here { A.is_own asker.old place.node }
    requires nodes { AreOwnNodes (A.is_own asker.old) walk.old }
    ensures front { ExtendsText out.old.items out.new.items }
    ensures nodes { OnOk result (AreOwnNodes (A.is_own asker.new) walk.new) }
    ensures same { KeepsStarts (A.is_own asker.old) (A.is_own asker.new) (A.starts asker.old) (A.starts asker.new) }
    ensures taken { IfOk result (λ step. HasTaken walk.old.left walk.new.left (A.told asker.old) (A.told asker.new)
        (unasked_at step)) }
{
    let facts = &walk.facts;
    let numbers = &walk.numbers;
    if let Some(found) = serving(alloc, asker, lemmas, place.node, facts, facts, numbers)? {
        return walk.cite(lemmas, &found, place.length, out);
    }
    begin_lemma(alloc, asker, lemmas, walk, place, out)
}

// Begins the first lemma of a scout of the start that was not begun, or else the newest one of the start that was not
// begun and serves. Where there is none, the walk goes on without one.
fn begin_lemma<A: Finder>(
    alloc: Global,
    asker: &mut A,
    lemmas: &Lemmas<A::Node>,
    walk: &mut PlanWalk<A::Node>,
    place: TreePlace<A::Node>,
    out: &mut Vec<u8>,
) -> Result<WriterStep, NoMemory>
    requires lemmas { AreOwnLemmas (A.is_own asker.old) lemmas.now }
    requires here { A.is_own asker.old place.node }
    requires nodes { AreOwnNodes (A.is_own asker.old) walk.old }
    ensures front { ExtendsText out.old.items out.new.items }
    ensures nodes { OnOk result (AreOwnNodes (A.is_own asker.new) walk.new) }
    ensures same { KeepsStarts (A.is_own asker.old) (A.is_own asker.new) (A.starts asker.old) (A.starts asker.new) }
    ensures taken { IfOk result (λ step. HasTaken walk.old.left walk.new.left (A.told asker.old) (A.told asker.new)
        (unasked_at step)) }
{
    match unbegun_at(alloc, asker, lemmas, walk, place.node)? {
        Some(lemma) => walk.learn(lemmas, lemma, place, out),
        None => follow(asker, walk, place, out),
    }
}

// The first of the lemmas at these places that was not begun.
fn first_unbegun(unbegun: &Unbegun, places: &[usize]) -> Option<usize> {
    for place in places {
        if unbegun.takes(*place) {
            return Some(*place);
        }
    }
    None
}

// The first lemma of a scout of the start at a node that was not begun, or else the newest one of the start that was not
// begun and serves there.
fn unbegun_at<A: Finder>(
    alloc: Global,
    asker: &mut A,
    lemmas: &Lemmas<A::Node>,
    walk: &PlanWalk<A::Node>,
    here: A::Node,
) -> Result<Option<usize>, NoMemory>
    requires lemmas { AreOwnLemmas (A.is_own asker.old) lemmas.now }
    requires here { A.is_own asker.old here }
    ensures same { KeepsStarts (A.is_own asker.old) (A.is_own asker.new) (A.starts asker.old) (A.starts asker.new) }
    ensures told { A.told asker.new ≡ A.told asker.old }
{
    let number = asker.number(here)?;
    let scout = first_unbegun(&walk.unbegun, lemmas.scouts(number));
    if scout.is_some() {
        return Ok(scout);
    }
    let found = serving_of(
        alloc,
        asker,
        lemmas,
        number,
        here,
        &walk.facts,
        &walk.unbegun,
    )?;
    Ok(found.map(|lemma| lemma.place))
}
