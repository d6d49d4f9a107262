//! The search of one plan, by any asker that numbers its starts.
ghost use Rattle.std.specs.Prelude.{◌≡◌, ◌+◌, ◌≤◌, false, IsTrue, IfOk, length};
ghost use Rattle.proof_trees.specs.Starters.{HasCounted, KeepsStarts};
ghost use Rattle.proof_search.specs.Owning.{AreOwnLemmas};
ghost use Rattle.plan_proofs.specs.declared.ended.Ended.TheVariants.{Spent};
ghost use Rattle.plan_proofs.specs.declared.ended.SpentCause.TheVariants.{Budget};
ghost use Rattle.plan_proofs.specs.Searching.{IsWithin, MaySpend, SpendsOnlySo, unasked};

use crate::ended::{Ended, Questions, Searched, SpentCause};
use ask_core::NoMemory;
use diff_graph::Lit;
use proof_search::{Finder, Lemmas, SearchOutcome, SearchResult, search};
use proof_writer::{TreeEnd, write_tree};
use std::alloc::Global;

/// The most bytes of the text of a proof.
pub const MAX_BYTES: usize = 83_886_080;

// Appends the tree of an asker's plan, of which a search that asked so many questions showed these lemmas.
fn write_shown<A: Finder>(
    alloc: Global,
    asker: &mut A,
    lemmas: &Lemmas<A::Node>,
    asked: u64,
    budget: Questions,
    bytes: &mut Vec<u8>,
) -> Result<Searched<Vec<Lit>>, NoMemory>
    requires own { AreOwnLemmas (A.is_own asker.old) lemmas.now }
    ensures asked { IfOk result (λ r. r.asked.asked ≡ asked) }
    ensures again { IfOk result (λ r. r.asked.again ≤ budget.again) }
    ensures cause { IfOk result (λ r. SpendsOnlySo (MaySpend budget r.asked r.over (length bytes.new.items)) r.ended) }
    ensures told { IfOk result (λ r. HasCounted (A.told asker.old) (r.asked.again + unasked r.ended)
        (A.told asker.new)) }
    ensures same { KeepsStarts (A.is_own asker.old) (A.is_own asker.new) (A.starts asker.old) (A.starts asker.new) }
    ensures root { A.root asker.new ≡ A.root asker.old }
{
    let tree = write_tree(alloc, asker, lemmas, budget.again, MAX_BYTES, bytes)?;
    let asked = Questions {
        asked,
        again: tree.asked,
    };
    match tree.ending {
        TreeEnd::Whole => Ok(searched(Ended::Shown, asked)),
        TreeEnd::Spent => Ok(over_budget(asked)),
        TreeEnd::TooLong => Ok(searched(Ended::Spent(SpentCause::Bytes), asked)),
        TreeEnd::Stuck => Ok(searched(Ended::Spent(SpentCause::NoWay), asked)),
    }
}

// What a search came to that asked so many questions and met none that is one more than it may.
fn searched(ended: Ended<Vec<Lit>>, asked: Questions) -> Searched<Vec<Lit>>
    ensures ended { result.ended ≡ ended }
    ensures asked { result.asked ≡ asked }
    ensures over { result.over ≡ false }
{
    Searched {
        ended,
        asked,
        over: false,
    }
}

// What a search came to that asked so many questions and met one more.
fn over_budget(asked: Questions) -> Searched<Vec<Lit>>
    ensures ended { result.ended ≡ Spent Budget }
    ensures asked { result.asked ≡ asked }
    ensures over { IsTrue result.over }
{
    Searched {
        ended: Ended::Spent(SpentCause::Budget),
        asked,
        over: true,
    }
}

/// Searches an asker's plan within a budget, and appends a tree that shows it. Where it fails, the answers lead to an
/// end that fails; nothing is promised of them.
pub fn search_plan<A: Finder>(
    alloc: Global,
    asker: &mut A,
    budget: Questions,
    bytes: &mut Vec<u8>,
) -> Result<Searched<Vec<Lit>>, NoMemory>
    ensures within { IfOk result (λ r. IsWithin r.asked budget) }
    ensures cause { IfOk result (λ r. SpendsOnlySo (MaySpend budget r.asked r.over (length bytes.new.items)) r.ended) }

    // The asker told the questions that were asked, and, where the budget is spent, the one that is one more.
    ensures told { IfOk result (λ r. HasCounted (A.told asker.old) (r.asked.asked + r.asked.again + unasked r.ended)
        (A.told asker.new)) }

    // The asker is as it was, but for its count.
    ensures same { KeepsStarts (A.is_own asker.old) (A.is_own asker.new) (A.starts asker.old) (A.starts asker.new) }
    ensures root { A.root asker.new ≡ A.root asker.old }
{
    let SearchResult {
        outcome,
        lemmas,
        asked,
    } = search(alloc, asker, budget.asked)?;
    let only_asked = Questions { asked, again: 0 };
    match outcome {
        SearchOutcome::Shown => write_shown(alloc, asker, &lemmas, asked, budget, bytes),
        SearchOutcome::Failing(answers) => Ok(searched(Ended::Fails(answers), only_asked)),
        SearchOutcome::Spent => Ok(over_budget(only_asked)),
        SearchOutcome::Stuck => Ok(searched(Ended::Spent(SpentCause::NoWay), only_asked)),
    }
}
