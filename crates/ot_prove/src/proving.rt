//! The calls that search a plan.
ghost use Rattle.std.specs.Prelude.{◌≡◌, ℕ, ◌≤◌, [], IfOk, OnOk};
ghost use Rattle.ask_core.specs.Askers.{SamePlans};
ghost use Rattle.ask_core.specs.declared.asker.TheConstants.{MAX_NAMES};
ghost use Rattle.ot_prove.specs.Outcomes.{IsDecided, StandsBehind};
ghost use Rattle.ot_prove.specs.Searching.{AgreesWithLists, HasEnded, IsAsBefore, IsSearchUnderWay};

use crate::NoMemory;
use crate::answers::answers_along;
use crate::laws::{plans_have_one_question_list, question_lists_are_possible};
use crate::outcome::Outcome;
use crate::search::{Stepped, step};
use ask_core::Asker;
use cert_text::Tree;
use search_places::PlanSearch;
use std::alloc::Global;

/// Decides an asker's own plan by at most `budget` questions, before each of which some integers meet the
/// answers: the one question list of the plan, yes before no, up to the first failing end. `Spent` comes
/// exactly where it is longer, `No` exactly where it is not and has a failing end, and else `Yes`. The
/// error is want of memory.
pub fn prove<A: Asker>(
    alloc: Global,
    asker: &mut A,
    budget: u64,
) -> Result<Outcome<A::Why>, NoMemory>
    requires { A.name_count asker.old ≤ MAX_NAMES }
    ensures decides { IfOk result (λ o. IsDecided (A.root asker.old) budget o) }

    // The asker is as it was.
    ensures same { SamePlans (A.is_own asker.old) (A.is_own asker.new) (A.plan asker.old) (A.plan asker.new) }
    ensures root_kept { A.root asker.new ≡ A.root asker.old }
    ensures count_kept { A.name_count asker.new ≡ A.name_count asker.old }
{
    prove_behind(alloc, asker, budget, Tree::new(alloc))
}

/// The same, where the tree is written behind the bytes of an empty one.
pub fn prove_behind<A: Asker>(
    alloc: Global,
    asker: &mut A,
    budget: u64,
    tree: Tree,
) -> Result<Outcome<A::Why>, NoMemory>
    requires names { A.name_count asker.old ≤ MAX_NAMES }
    requires empty { tree.tokens ≡ [] }
    ensures decides { IfOk result (IsDecided (A.root asker.old) budget) }
    ensures front { IfOk result (StandsBehind tree.front) }

    // The asker is as it was.
    ensures same { SamePlans (A.is_own asker.old) (A.is_own asker.new) (A.plan asker.old) (A.plan asker.new) }
    ensures root_kept { A.root asker.new ≡ A.root asker.old }
    ensures count_kept { A.name_count asker.new ≡ A.name_count asker.old }
{
    question_lists_are_possible::<A::Why>();
    let first = asker.start()?;
    let mut search = PlanSearch::begin(alloc, first, tree)?;
    plans_have_one_question_list::<A::Why>();
    let ended = search_through(asker, &mut search, budget)?;
    outcome_of(alloc, asker, search, ended)
}

/// Takes steps until no place is open, or one ends the search.
#[inline(always)]
fn search_through<A: Asker>(
    asker: &mut A,
    search: &mut PlanSearch<A::Node>,
    budget: u64,
) -> Result<Stepped<A::Why>, NoMemory>
    requires names { A.name_count asker.old ≤ MAX_NAMES }
    requires searching { IsSearchUnderWay (A.is_own asker.old) (A.plan asker.old) (A.root asker.old) budget search.old }
    ensures ended { IfOk result (HasEnded (A.root asker.new) budget search.new) }
    ensures front { OnOk result (search.new.tree.front ≡ search.old.tree.front) }
    ensures kept { IsAsBefore (A.is_own asker.old) (A.is_own asker.new) (A.plan asker.old) (A.plan asker.new)
        (A.root asker.old) (A.root asker.new) (A.name_count asker.old) (A.name_count asker.new) }
{
    'places: while search.path.is_open() {
        match step(asker, search, budget)? {
            Stepped::GoesOn => {}
            ended => return Ok(ended),
        }
    }
    Ok(Stepped::GoesOn)
}

/// What a search came to that has ended so.
fn outcome_of<A: Asker>(
    alloc: Global,
    asker: &mut A,
    search: PlanSearch<A::Node>,
    ended: Stepped<A::Why>,
) -> Result<Outcome<A::Why>, NoMemory>
    requires { (budget : ℕ) × HasEnded (A.root asker.old) budget search ended }
    ensures agrees { IfOk result (λ o. (budget : ℕ) → HasEnded (A.root asker.old) budget search ended
        → AgreesWithLists (A.root asker.old) budget o) }
    ensures front { IfOk result (StandsBehind search.tree.front) }
    ensures kept { IsAsBefore (A.is_own asker.old) (A.is_own asker.new) (A.plan asker.old) (A.plan asker.new)
        (A.root asker.old) (A.root asker.new) (A.name_count asker.old) (A.name_count asker.new) }
{
    match ended {
        Stepped::GoesOn => Ok(Outcome::Yes {
            tree: search.tree,
            asked: search.asked,
        }),
        Stepped::Spent => Ok(Outcome::Spent),
        Stepped::Fails(why) => {
            let answers = answers_along(alloc, asker, search.path.answers())?;
            Ok(Outcome::No { answers, why })
        }
    }
}
