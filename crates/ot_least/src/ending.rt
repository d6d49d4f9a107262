//! Failing ends, and how many cells their documents have.
ghost use Rattle.std.specs.Prelude.{◌≡◌, ◌<◌, ◌≤ℤ◌, pos, drop, length, Some, IfOk, IsTrue};
ghost use Rattle.diff_graph.specs.Literals.{IsPossible};
ghost use Rattle.diff_tables.specs.Solutions.{valuation_of};
ghost use Rattle.fn_rules.specs.Obligations.{is_obligation};
ghost use Rattle.fn_rules.specs.Rules.{function_of};
ghost use Rattle.ask_core.specs.Leading.{LeadTo};
ghost use Rattle.ask_core.specs.Plans.{Fails};
ghost use Rattle.ot_prove.specs.Outcomes.{AreAnswersTo, answered_by};
ghost use Rattle.ot_questions.specs.Obligation.{plan_below, plan_of};
ghost use Rattle.ot_least.specs.Endings.{IsEnding};
ghost use Rattle.ot_least.specs.Shortest.{HasCells};

use crate::laws::failing_ends_below_a_bound_are_shorter;
use ask_core::{NoMemory, answers_lead_to_ends};
use diff_graph::Lit;
use fn_rules::{ObName, Rules, rules_are_valid};
use ot_prove::{Answer, literals_of};
use ot_questions::{LENGTH, Why, plans_compare_like_with_like, plans_keep_limits};
use ot_values::least_values;
use std::alloc::Global;

/// A failing end of an obligation, and how many cells the document of its least values has.
#[derive(Drop)]
pub(crate) struct Ending {
    pub(crate) ob: ObName,
    pub(crate) answers: Vec<Answer>,
    pub(crate) why: Why,
    pub(crate) cells: u32,
}

// The length among values.
fn length_in(values: &[i32]) -> u32
    requires within { 1 < length values.now }
    requires cells { pos 0 ≤ℤ valuation_of values.now 1 }
    ensures { valuation_of values.now 1 ≡ pos result }
{
    values[LENGTH as usize] as u32
}

// How many cells the least values give that meet the answers.
fn cells_of(
    alloc: Global,
    rules: &Rules,
    ob: ObName,
    answers: &[Lit],
    why: Why,
) -> Result<u32, NoMemory>
    requires leads { LeadTo why (plan_of (function_of rules.now) ob) answers.now }
    requires possible { IsPossible answers.now }
    ensures { IfOk result (λ cells. HasCells ob answers.now cells) }
{
    rules_are_valid(rules);
    plans_keep_limits();
    plans_compare_like_with_like();
    answers_lead_to_ends::<Why>();
    let values = least_values(alloc, ob, answers)?;
    Ok(length_in(&values))
}

/// The failing end to which the answers lead.
pub(crate) fn ending_at(
    alloc: Global,
    rules: &Rules,
    ob: ObName,
    answers: Vec<Answer>,
    why: Why,
) -> Result<Ending, NoMemory>
    requires listed { IsTrue (is_obligation (function_of rules.now).head ob) }
    requires way { AreAnswersTo (plan_of (function_of rules.now) ob) answers.items (Fails why) }
    requires possible { IsPossible (answered_by answers.items) }
    ensures ending { IfOk result (IsEnding (function_of rules.now)) }
    ensures cells { IfOk result (λ e. HasCells ob (answered_by answers.items) e.cells) }
    ensures ob { IfOk result (λ e. e.ob ≡ ob) }
    ensures answers { IfOk result (λ e. e.answers.items ≡ answers.items) }
    ensures why { IfOk result (λ e. e.why ≡ why) }
{
    let literals = literals_of(alloc, &answers)?;
    let cells = cells_of(alloc, rules, ob, &literals, why)?;
    Ok(Ending {
        ob,
        answers,
        why,
        cells,
    })
}

/// The failing end to which answers lead on the documents of fewer cells than the bound. It has fewer cells itself, so
/// it goes without the answer to the question whether the document is short.
pub(crate) fn shorter_ending(
    alloc: Global,
    rules: &Rules,
    bound: u32,
    ob: ObName,
    mut answers: Vec<Answer>,
    why: Why,
) -> Result<Ending, NoMemory>
    requires listed { IsTrue (is_obligation (function_of rules.now).head ob) }
    requires way { AreAnswersTo (plan_below (function_of rules.now) (Some bound) ob) answers.items (Fails why) }
    requires possible { IsPossible (answered_by answers.items) }
    ensures ending { IfOk result (IsEnding (function_of rules.now)) }
    ensures fewer { IfOk result (λ e. e.cells < bound) }
    ensures ob { IfOk result (λ e. e.ob ≡ ob) }
    ensures answers { IfOk result (λ e. e.answers.items ≡ drop 1 answers.items) }
    ensures why { IfOk result (λ e. e.why ≡ why) }
{
    failing_ends_below_a_bound_are_shorter();
    rules_are_valid(rules);
    answers.remove(0);
    ending_at(alloc, rules, ob, answers, why)
}
