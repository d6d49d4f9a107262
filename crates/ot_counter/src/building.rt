//! The counterexample that answers give.
ghost use Rattle.std.specs.Prelude.{◌≡◌, ◌<◌, ◌≤ℤ◌, pos, length, IsTrue, IfOk};
ghost use Rattle.fn_rules.specs.declared.function.ObName.TheVariants.{Pair, Triple};
ghost use Rattle.ot_questions.specs.declared.name.Who.{Who};
ghost use Rattle.ot_questions.specs.declared.name.Who.TheVariants.{A, B, C};
ghost use Rattle.ot_questions.specs.Names.{char_name};
ghost use Rattle.diff_tables.specs.Solutions.{valuation_of};
ghost use Rattle.ot_values.specs.Values.{floors_of, ops_at, IsSmallAt};
ghost use Rattle.ot_counter.specs.Documents.{document_at as document_read};
ghost use Rattle.fn_rules.specs.Obligations.{is_obligation};
ghost use Rattle.fn_rules.specs.Properties.{AreConcurrent};
ghost use Rattle.fn_rules.specs.Rules.{function_of};
ghost use Rattle.diff_graph.specs.Literals.{IsPossible};
ghost use Rattle.ot_questions.specs.Obligation.{plan_of};
ghost use Rattle.ask_core.specs.Leading.{LeadTo};
ghost use Rattle.ot_counter.specs.Counters.{IsReadOff, IsCounter, Breaks, BreaksBy};

use crate::NoMemory;
use crate::counter::Counter;
use crate::document::document_at;
use crate::laws::failing_ends_have_counterexamples;
use crate::ways::{document_way, operation_way};
use ask_core::answers_lead_to_ends;
use diff_graph::Lit;
use fn_rules::{Level, ObName, Rules, rules_are_valid};
use ot_model::{Kind, Op};
use ot_questions::{Who, Why, plans_compare_like_with_like, plans_keep_limits};
use ot_values::{least_values, op_at};
use plain_list::List;
use std::alloc::Global;

/// The counterexample of answers that lead to an end of the obligation that fails with the cause: each
/// stands for the literal that is asked there or for its negation, and some integers meet them all. The
/// operations are those that the least such integers name, and the document is the one that shows the
/// cause. The error is want of memory.
pub fn build(
    alloc: Global,
    rules: &Rules,
    ob: ObName,
    answers: &[Lit],
    why: Why,
) -> Result<Counter, NoMemory>
    requires declared { IsTrue (is_obligation (function_of rules.now).head ob) }
    requires leads { LeadTo why (plan_of (function_of rules.now) ob) answers.now }
    requires possible { IsPossible answers.now }
    ensures counter { IfOk result (λ counter. IsCounter (function_of rules.now) ob answers.now why counter) }
    ensures breaks { IfOk result (λ counter. Breaks (function_of rules.now) counter.level counter.doc counter.ops) }
    ensures by_the_cause { IfOk result (λ counter. BreaksBy (function_of rules.now) counter.level counter.doc
        counter.ops why) }
{
    rules_are_valid(rules);
    plans_keep_limits();
    plans_compare_like_with_like();
    answers_lead_to_ends::<Why>();
    failing_ends_have_counterexamples();
    let values = least_values(alloc, ob, answers)?;
    let counter = read_off(alloc, rules, ob, &values, why)?;
    Ok(counter)
}

// What the values say.
fn read_off(
    alloc: Global,
    rules: &Rules,
    ob: ObName,
    values: &[i32],
    why: Why,
) -> Result<Counter, NoMemory>
    requires declared { IsTrue (is_obligation (function_of rules.now).head ob) }
    requires concurrent { AreConcurrent (function_of rules.now) (document_read (valuation_of values.now) why)
        (ops_at (valuation_of values.now) ob) }
    requires parts { (who : Who) → char_name who < length (floors_of ob) → IsSmallAt values.now who }
    requires cells { pos 0 ≤ℤ valuation_of values.now 1 }
    ensures { IfOk result (λ counter. IsReadOff (function_of rules.now) ob (valuation_of values.now) why counter) }
{
    match ob {
        ObName::Pair(k, l) => of_pair(alloc, rules, k, l, values, why),
        ObName::Triple(k, l, m) => of_triple(alloc, rules, k, l, m, values, why),
    }
}

// The operations as a list.
fn list_of(alloc: Global, ops: &[Op]) -> Result<List<Op>, NoMemory>
    ensures { IfOk result (λ list. list ≡ ops.now) }
{
    Ok(List::from_vec(Vec::from_slice(alloc, ops)?))
}

fn of_pair(
    alloc: Global,
    rules: &Rules,
    k: Kind,
    l: Kind,
    values: &[i32],
    why: Why,
) -> Result<Counter, NoMemory>
    requires declared { IsTrue (is_obligation (function_of rules.now).head (Pair k l)) }
    requires concurrent { AreConcurrent (function_of rules.now) (document_read (valuation_of values.now) why)
        (ops_at (valuation_of values.now) (Pair k l)) }
    requires first { IsSmallAt values.now A }
    requires second { IsSmallAt values.now B }
    requires cells { pos 0 ≤ℤ valuation_of values.now 1 }
    ensures { IfOk result (λ counter. IsReadOff (function_of rules.now) (Pair k l) (valuation_of values.now) why
        counter) }
{
    let doc = document_at(alloc, values, why)?;
    let a = op_at(values, k, Who::A);
    let b = op_at(values, l, Who::B);
    let left = document_way(rules, &doc, &a, &b)?;
    let right = document_way(rules, &doc, &b, &a)?;
    let ops = list_of(alloc, &[a, b])?;
    Ok(Counter {
        level: Level::Tp1,
        doc,
        ops,
        why,
        left,
        right,
    })
}

fn of_triple(
    alloc: Global,
    rules: &Rules,
    k: Kind,
    l: Kind,
    m: Kind,
    values: &[i32],
    why: Why,
) -> Result<Counter, NoMemory>
    requires declared { IsTrue (is_obligation (function_of rules.now).head (Triple k l m)) }
    requires first { IsSmallAt values.now A }
    requires second { IsSmallAt values.now B }
    requires third { IsSmallAt values.now C }
    requires cells { pos 0 ≤ℤ valuation_of values.now 1 }
    ensures { IfOk result (λ counter. IsReadOff (function_of rules.now) (Triple k l m) (valuation_of values.now) why
        counter) }
{
    let doc = document_at(alloc, values, why)?;
    let a = op_at(values, k, Who::A);
    let b = op_at(values, l, Who::B);
    let c = op_at(values, m, Who::C);
    let left = operation_way(rules, &a, &b, &c);
    let right = operation_way(rules, &b, &a, &c);
    let ops = list_of(alloc, &[a, b, c])?;
    Ok(Counter {
        level: Level::Tp2,
        doc,
        ops,
        why,
        left,
        right,
    })
}
