//! The call that searches a plan.
ghost use Rattle.std.specs.Prelude.{◌≡◌, ◌+◌, ◌≤◌, IfOk, OnOk};
ghost use Rattle.proof_trees.specs.Starters.{HasCounted, KeepsStarts};
ghost use Rattle.proof_search.specs.Counting.{HasAsked, unasked, unasked_at};
ghost use Rattle.proof_search.specs.declared.seeking.SearchOutcome.TheVariants.{Spent};
ghost use Rattle.proof_search.specs.Owning.{AreOwnLemmas, IsOwnSearch};

use crate::finder::Finder;
use crate::turns::{SearchEnd, step};
use crate::{Lemmas, NoMemory, Search};
use diff_graph::Lit;
use std::alloc::Global;

/// What a search came to.
#[derive(Drop)]
pub enum SearchOutcome {
    /// Each end of the plan that some integers lead to holds.
    Shown,

    /// An end fails to which these answers lead, and some integers meet them. Answers that followed from others are
    /// left out.
    Failing(Vec<Lit>),

    /// The budget is spent: a question was met that is one more.
    Spent,

    /// The search found no way on: a lemma could not be mended.
    Stuck,
}

/// What a search came to, the lemmas that it showed, and how many questions it asked.
#[derive(Drop)]
pub struct SearchResult<N: Copy> {
    pub outcome: SearchOutcome,
    pub lemmas: Lemmas<N>,
    pub asked: u64,
}

/// What a search that has ended came to, with these answers.
fn outcome_of(ending: SearchEnd, answers: Vec<Lit>) -> SearchOutcome
    ensures { unasked result ≡ unasked_at ending }
{
    match ending {
        SearchEnd::Shown => SearchOutcome::Shown,
        SearchEnd::Failing => SearchOutcome::Failing(answers),
        SearchEnd::Spent => SearchOutcome::Spent,
        SearchEnd::Stuck => SearchOutcome::Stuck,
    }
}

/// What is left of a search that has ended.
fn ended<N: Copy>(search: Search<N>, ending: SearchEnd) -> SearchResult<N>
    ensures lemmas { result.lemmas ≡ search.lemmas }
    ensures asked { result.asked ≡ search.asked }
    ensures unasked { unasked result.outcome ≡ unasked_at ending }
{
    let asked = search.asked;
    let answers = search.answers;
    let lemmas = search.lemmas;
    SearchResult {
        outcome: outcome_of(ending, answers),
        lemmas,
        asked,
    }
}

/// Takes turns until the search ends.
#[inline(always)]
fn take_turns<A: Finder>(
    alloc: Global,
    asker: &mut A,
    search: &mut Search<A::Node>,
    budget: u64,
) -> Result<SearchEnd, NoMemory>
    requires within { search.old.asked ≤ budget }
    requires own { IsOwnSearch (A.is_own asker.old) search.old }
    ensures within { OnOk result (search.new.asked ≤ budget) }
    ensures own { OnOk result (IsOwnSearch (A.is_own asker.new) search.new) }
    ensures same { KeepsStarts (A.is_own asker.old) (A.is_own asker.new) (A.starts asker.old) (A.starts asker.new) }
    ensures asked { IfOk result (λ ending. HasAsked budget search.old.asked search.new.asked (A.told asker.old)
        (A.told asker.new) (unasked_at ending)) }
{
    // A turn asks, or closes a place or a level, or goes on to a part that waits; each question opens two places, of
    // which one may wait, and a level, which may be begun anew twice and given up.
    let turns = budget.saturating_mul(8).saturating_add(8);
    'turns: for _turn in 0..turns {
        if let Some(ending) = step(alloc, asker, search, budget)? {
            return Ok(ending);
        }
    }
    Ok(SearchEnd::Stuck)
}

/// Searches from the first place on.
fn seek<A: Finder>(
    alloc: Global,
    asker: &mut A,
    budget: u64,
) -> Result<SearchResult<A::Node>, NoMemory>
    ensures within { IfOk result (λ s. s.asked ≤ budget) }
    ensures own { IfOk result (λ s. AreOwnLemmas (A.is_own asker.new) s.lemmas) }
    ensures same { KeepsStarts (A.is_own asker.old) (A.is_own asker.new) (A.starts asker.old) (A.starts asker.new) }
    ensures asked { IfOk result (λ s. HasAsked budget 0 s.asked (A.told asker.old) (A.told asker.new)
        (unasked s.outcome)) }
{
    let first = asker.first()?;
    let mut search = Search::begin(alloc, first);
    let ending = take_turns(alloc, asker, &mut search, budget)?;
    Ok(ended(search, ending))
}

/// Searches an asker's own plan for an end that fails, by at most `budget` questions, and keeps as lemmas what it
/// showed on the way. Nothing is promised of what it finds, which is to be judged. The error is want of memory.
pub fn search<A: Finder>(
    alloc: Global,
    asker: &mut A,
    budget: u64,
) -> Result<SearchResult<A::Node>, NoMemory>
    ensures within { IfOk result (λ s. s.asked ≤ budget) }
    ensures own { IfOk result (λ s. AreOwnLemmas (A.is_own asker.new) s.lemmas) }

    // The asker told the questions that were asked, and, where the budget is spent, the one that is one more.
    ensures asked { IfOk result (λ s. HasCounted (A.told asker.old) (s.asked + unasked s.outcome) (A.told asker.new)) }
    ensures spent { IfOk result (λ s. s.outcome ≡ Spent → s.asked ≡ budget) }

    // The asker is as it was, but for its count.
    ensures same { KeepsStarts (A.is_own asker.old) (A.is_own asker.new) (A.starts asker.old) (A.starts asker.new) }
    ensures root { A.root asker.new ≡ A.root asker.old }
{
    seek(alloc, asker, budget)
}
