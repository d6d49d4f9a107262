//! The search of a goal of two operations.
ghost use Rattle.std.specs.Prelude.{◌≡◌, ◌<◌, ◌^◌, ◌≤ℤ◌, pos, length, IfOk};
ghost use Rattle.diff_tables.specs.Solutions.{valuation_of};
ghost use Rattle.diff_graph.specs.Limits.{AreNamed, AreSmall};
ghost use Rattle.fn_rules.specs.declared.function.ObName.TheVariants as obligations;
ghost use Rattle.fn_rules.specs.Rules.{function_of};
ghost use Rattle.ot_questions.specs.Names.{length_name, name_count};
ghost use Rattle.ot_questions.specs.Sorts.{AreLike};
ghost use Rattle.ot_terms.specs.Goals.{goal_tree};
ghost use Rattle.ot_values.specs.Values.{IsPossibleAtPositions};
ghost use Rattle.ot_audit.specs.Findings.{IsAtLeast, IsFoundIn, IsNearFound, IsNearSought, IsSoughtIn};
ghost use Rattle.ot_audit.specs.Searchable.{IsSearchable};

use crate::found::{Found, Sought};
use ask_core::{NoMemory, answers_lead_to_ends};
use bumpalo::Bump;
use diff_graph::Lit;
use fn_rules::{ObName, Rules};
use ot_model::Kind;
use ot_paths::PathAsker;
use ot_prove::{Outcome, literals_of, prove};
use ot_questions::{Who, Why, plans_compare_like_with_like};
use ot_terms::Goal;
use ot_values::{least_values, op_at};
use std::alloc::Global;

// The length that values name.
fn cells_at(values: &[i32]) -> u32
    requires there { 1 < length values.now }
    requires low { pos 0 ≤ℤ valuation_of values.now length_name }
    ensures { pos result ≡ valuation_of values.now length_name }
{
    values[1] as u32
}

// The operations and the length that the least values name which meet the answers.
fn least_instance(
    alloc: Global,
    first: Kind,
    second: Kind,
    answers: &[Lit],
) -> Result<Sought, NoMemory>
    requires like { AreLike answers.now }
    requires named { AreNamed (name_count (obligations.Pair first second)) answers.now }
    requires small { AreSmall answers.now }
    requires few { length answers.now < 2 ^ 32 }
    requires possible { IsPossibleAtPositions answers.now }
    ensures least { IfOk result (IsAtLeast first second answers.now) }
    ensures near { IfOk result IsNearSought }
{
    let values = least_values(alloc, ObName::Pair(first, second), answers)?;
    Ok(Sought::At {
        cells: cells_at(&values),
        a: op_at(&values, first, Who::A),
        b: op_at(&values, second, Who::B),
    })
}

/// What the search of a goal comes to, by at most `budget` questions.
///
/// `Nowhere` comes exactly where no end of the goal's plan fails, `At` exactly where one does, both where there are no
/// more questions; and `Spent` exactly where there are more. The error is want of memory.
pub fn seek<'a>(
    alloc: Global,
    bump: &'a Bump,
    rules: &'a Rules,
    first: Kind,
    second: Kind,
    goal: &'a Goal<'a>,
    budget: u64,
) -> Result<Sought, NoMemory>
    requires { IsSearchable (function_of rules.now) first second (goal_tree goal.now) }
    ensures sought { IfOk result (IsSoughtIn (function_of rules.now) first second (goal_tree goal.now) budget) }
    ensures near { IfOk result IsNearSought }
{
    answers_lead_to_ends::<Why>();
    plans_compare_like_with_like();
    let mut asker = PathAsker::over(bump, rules, ObName::Pair(first, second), goal);
    match prove(alloc, &mut asker, budget)? {
        Outcome::Yes { .. } => Ok(Sought::Nowhere),
        Outcome::No { answers, .. } => {
            let literals = literals_of(alloc, &answers)?;
            least_instance(alloc, first, second, &literals)
        }
        Outcome::Spent => Ok(Sought::Spent),
    }
}

/// What the search of a goal finds, by at most `budget` questions.
pub(crate) fn find<'a>(
    alloc: Global,
    bump: &'a Bump,
    rules: &'a Rules,
    first: Kind,
    second: Kind,
    goal: &'a Goal<'a>,
    budget: u64,
) -> Result<Found, NoMemory>
    requires { IsSearchable (function_of rules.now) first second (goal_tree goal.now) }
    ensures found { IfOk result (IsFoundIn (function_of rules.now) first second (goal_tree goal.now) budget) }
    ensures near { IfOk result IsNearFound }
{
    match seek(alloc, bump, rules, first, second, goal, budget)? {
        Sought::Nowhere => Ok(Found::Never),
        Sought::At { a, b, .. } => Ok(Found::Pair(a, b)),
        Sought::Spent => Ok(Found::Spent),
    }
}
