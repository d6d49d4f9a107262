//! The turns of a search: each goes on at the open place, or to the next one where that was closed.
ghost use Rattle.std.specs.Prelude.{◌≡◌, ◌≤◌, IfOk, None, OnOk};
ghost use Rattle.proof_trees.specs.Starters.{KeepsStarts};
ghost use Rattle.proof_search.specs.Counting.{HasAsked, unasked_after};
ghost use Rattle.proof_search.specs.Owning.{AddsLemma, AreOwnLemmas, IsOwnSearch, KeepsPlaces, OpensPart, closed_search};
ghost use Rattle.proof_search.specs.Scouts.{GoesBack, MayGoBack, MayRenewLevel};

use crate::adopt::adopt;
use crate::blame::{Blamed, blame};
use crate::finder::Finder;
use crate::levels::waiting_before;
use crate::open::{answer, ask_at};
use crate::scouts::{give_up, scout};
use crate::service::{Any, serving};
use crate::{Distances, Lemma, LemmaLevel, NoMemory, Search, Sent};
use ask_core::Turn;
use diff_graph::Lit;
use plain_list::List;
use proof_trees::MAX_LITERALS;
use std::alloc::Global;

/// How a search ended.
#[derive(Clone, Copy)]
pub(crate) enum SearchEnd {
    /// No place is left.
    Shown,

    /// The answers lead to an end that fails.
    Failing,

    /// The budget is spent: a question was met that is one more.
    Spent,

    /// A lemma could not be mended.
    Stuck,
}

/// Whether a lemma serves at a node, if a start is there: by what is known since the innermost level was begun, or else
/// by what is known around it too.
#[tactic(auto, using(crate::proofs::Owning::keeping))]
fn is_shown<A: Finder>(
    alloc: Global,
    asker: &mut A,
    search: &mut Search<A::Node>,
    node: A::Node,
    begins: bool,
) -> Result<bool, NoMemory>
    requires lemmas { AreOwnLemmas (A.is_own asker.old) search.old.lemmas }
    requires node { A.is_own asker.old node }
    ensures places { OnOk result (KeepsPlaces search.old search.new) }
    ensures same { KeepsStarts (A.is_own asker.old) (A.is_own asker.new) (A.starts asker.old) (A.starts asker.new) }
    ensures told { A.told asker.new ≡ A.told asker.old }
{
    if !begins {
        return Ok(false);
    }
    let facts = &search.facts;
    if serving(alloc, asker, &search.lemmas, node, facts, facts, &Any)?.is_some() {
        return Ok(true);
    }
    adopt(alloc, asker, search, node)
}

/// How the search has ended by an end that fails. It has not where a scout came to it, which is given up, so that the
/// first such end is found.
fn ending_of<N: Copy>(search: &mut Search<N>, blamed: Blamed) -> Option<SearchEnd>
    ensures back { GoesBack search.old search.new }
    ensures all_asked { unasked_after result ≡ 0 }
{
    match blamed {
        Blamed::ShutOut => None,
        Blamed::Real => {
            if give_up(search) {
                return None;
            }
            Some(SearchEnd::Failing)
        }
        Blamed::Unexplained => Some(SearchEnd::Stuck),
    }
}

/// Closes the open place, whose end fails, where a level shuts it out.
fn fail<N: Copy>(search: &mut Search<N>) -> Result<Option<SearchEnd>, NoMemory>
    ensures gone { OnOk result (MayGoBack (closed_search search.old) search.new) }
    ensures all_asked { IfOk result (λ ending. unasked_after ending ≡ 0) }
{
    search.at = None;
    let blamed = blame(search)?;
    Ok(ending_of(search, blamed))
}

/// Whether a start is at the open place. The start of a scout is none, since what is asked there is asked next.
#[inline(always)]
fn is_start<A: Finder>(asker: &A, begun: bool, node: A::Node) -> bool
    requires { A.is_own asker.now node }
{
    !begun && asker.begins(node)
}

/// Sends a scout from the innermost level, if a start is at the node of the open place and one is due there.
fn send<A: Finder>(
    alloc: Global,
    asker: &A,
    search: &mut Search<A::Node>,
    node: A::Node,
    begins: bool,
) -> Result<bool, NoMemory>
    requires { A.is_own asker.now node }
    ensures { OnOk result (MayRenewLevel search.old search.new) }
{
    if !begins {
        return Ok(false);
    }
    match asker.told_otherwise(node) {
        None => Ok(false),
        Some(told) => scout(search, alloc, told),
    }
}

/// Leaves the open place, where a lemma serves there, or a scout is sent from around it.
#[tactic(auto, using(crate::proofs::Owning::keeping))]
fn is_left<A: Finder>(
    alloc: Global,
    asker: &mut A,
    search: &mut Search<A::Node>,
    node: A::Node,
    begins: bool,
) -> Result<bool, NoMemory>
    requires own { IsOwnSearch (A.is_own asker.old) search.old }
    requires node { A.is_own asker.old node }
    ensures own { OnOk result (IsOwnSearch (A.is_own asker.new) search.new) }
    ensures asked { OnOk result (search.new.asked ≡ search.old.asked) }
    ensures same { KeepsStarts (A.is_own asker.old) (A.is_own asker.new) (A.starts asker.old) (A.starts asker.new) }
    ensures told { A.told asker.new ≡ A.told asker.old }
{
    if is_shown(alloc, asker, search, node, begins)? {
        search.at = None;
        return Ok(true);
    }
    send(alloc, asker, search, node, begins)
}

/// Goes on at the node of the open place. A level is begun only where a question is asked.
#[tactic(auto, using(crate::proofs::Owning::keeping))]
fn arrive<A: Finder>(
    alloc: Global,
    asker: &mut A,
    search: &mut Search<A::Node>,
    node: A::Node,
    budget: u64,
) -> Result<Option<SearchEnd>, NoMemory>
    requires within { search.old.asked ≤ budget }
    requires own { IsOwnSearch (A.is_own asker.old) search.old }
    requires node { A.is_own asker.old node }
    ensures within { OnOk result (search.new.asked ≤ budget) }
    ensures own { OnOk result (IsOwnSearch (A.is_own asker.new) search.new) }
    ensures same { KeepsStarts (A.is_own asker.old) (A.is_own asker.new) (A.starts asker.old) (A.starts asker.new) }
    ensures asked { IfOk result (λ ending. HasAsked budget search.old.asked search.new.asked (A.told asker.old)
        (A.told asker.new) (unasked_after ending)) }
{
    let begins = is_start(asker, search.begun, node);
    if is_left(alloc, asker, search, node, begins)? {
        return Ok(None);
    }
    match asker.follow(node)? {
        Turn::Ask { lit, yes, no } => {
            if search.asked == budget {
                return Ok(Some(SearchEnd::Spent));
            }
            ask_at(search, alloc, node, begins, lit, yes, no)?;
            Ok(None)
        }
        Turn::Holds => {
            search.at = None;
            Ok(None)
        }
        Turn::Fails(_) => fail(search),
    }
}

/// Opens the innermost part that waits, if some integers lead there. The search has not ended.
fn go_on<N: Copy>(search: &mut Search<N>) -> Result<Option<SearchEnd>, NoMemory>
    ensures opens { OnOk result (OpensPart search.old search.new) }
    ensures goes_on { IfOk result (λ ending. ending ≡ None) }
{
    search.sent = Sent::none();
    let Some(part) = search.waiting.pop() else {
        return Ok(None);
    };
    if answer(search, part.answers, part.answer)? {
        search.at = Some(part.node);
        return Ok(None);
    }
    Ok(None)
}

/// Whether a lemma of these literals can be written, and some integers meet them.
fn is_useful(literals: &[Lit]) -> bool {
    literals.len() <= MAX_LITERALS && Distances::new().add_up_to_excluded(literals).is_none()
}

/// Keeps the lemma of a scout, and goes back to its start.
fn come_back<N: Copy>(
    search: &mut Search<N>,
    level: LemmaLevel<N>,
    number: usize,
) -> Result<Option<SearchEnd>, NoMemory>
    ensures adds { OnOk result (AddsLemma level.node search.old search.new) }
    ensures goes_on { IfOk result (λ ending. ending ≡ None) }
{
    search.answers.truncate(level.answers);
    search.at = Some(level.node);
    search.facts = level.outer;
    search.sent = level.sent;
    if !is_useful(&level.literals) {
        return Ok(None);
    }
    let lemma = Lemma {
        node: level.node,
        literals: List::from_vec(level.literals),
    };
    search.lemmas.add_scout(number, lemma)?;
    Ok(None)
}

/// Keeps the lemma that a level has shown.
fn keep<N: Copy>(
    search: &mut Search<N>,
    level: LemmaLevel<N>,
    number: usize,
) -> Result<Option<SearchEnd>, NoMemory>
    ensures adds { OnOk result (AddsLemma level.node search.old search.new) }
    ensures goes_on { IfOk result (λ ending. ending ≡ None) }
{
    search.answers.truncate(level.answers);
    search.sent = Sent::none();
    let lemma = Lemma {
        node: level.node,
        literals: List::from_vec(level.literals),
    };
    search.lemmas.add(number, lemma)?;
    Ok(None)
}

/// Adds the lemma that a level has shown, and drops the answers since it was begun. The search has not ended.
fn end_level<N: Copy>(
    search: &mut Search<N>,
    level: LemmaLevel<N>,
    number: usize,
) -> Result<Option<SearchEnd>, NoMemory>
    ensures adds { OnOk result (AddsLemma level.node search.old search.new) }
    ensures goes_on { IfOk result (λ ending. ending ≡ None) }
{
    if level.scout {
        return come_back(search, level, number);
    }
    keep(search, level, number)
}

/// Goes on where the open place was closed: to the next part that waits within the innermost level, if some integers
/// lead there. A level in which none waits has shown its lemma.
#[tactic(auto, using(crate::proofs::Owning::keeping))]
fn close<A: Finder>(
    asker: &mut A,
    search: &mut Search<A::Node>,
) -> Result<Option<SearchEnd>, NoMemory>
    requires { IsOwnSearch (A.is_own asker.old) search.old }
    ensures asked { OnOk result (search.new.asked ≡ search.old.asked) }
    ensures all_asked { IfOk result (λ ending. unasked_after ending ≡ 0) }
    ensures own { OnOk result (IsOwnSearch (A.is_own asker.new) search.new) }
    ensures same { KeepsStarts (A.is_own asker.old) (A.is_own asker.new) (A.starts asker.old) (A.starts asker.new) }
    ensures told { A.told asker.new ≡ A.told asker.old }
{
    if search.waiting.len() > waiting_before(&search.levels) {
        return go_on(search);
    }
    match search.levels.pop() {
        None => Ok(Some(SearchEnd::Shown)),
        Some(level) => {
            let number = asker.number(level.node)?;
            end_level(search, level, number)
        }
    }
}

/// Takes a turn.
#[tactic(auto, using(crate::proofs::Owning::keeping))]
#[inline(always)]
pub(crate) fn step<A: Finder>(
    alloc: Global,
    asker: &mut A,
    search: &mut Search<A::Node>,
    budget: u64,
) -> Result<Option<SearchEnd>, NoMemory>
    requires within { search.old.asked ≤ budget }
    requires own { IsOwnSearch (A.is_own asker.old) search.old }
    ensures within { OnOk result (search.new.asked ≤ budget) }
    ensures own { OnOk result (IsOwnSearch (A.is_own asker.new) search.new) }
    ensures same { KeepsStarts (A.is_own asker.old) (A.is_own asker.new) (A.starts asker.old) (A.starts asker.new) }
    ensures asked { IfOk result (λ ending. HasAsked budget search.old.asked search.new.asked (A.told asker.old)
        (A.told asker.new) (unasked_after ending)) }
{
    match search.at {
        Some(node) => arrive(alloc, asker, search, node, budget),
        None => close(asker, search),
    }
}
