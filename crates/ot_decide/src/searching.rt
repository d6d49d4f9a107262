//! The search of a list of obligations.
ghost use Rattle.std.specs.Prelude.{◌≡◌, ◌≤◌, [], true, IfOk, IsTrue};
ghost use Rattle.std.specs.List.{list_all};
ghost use Rattle.fn_rules.specs.Obligations.{is_obligation};
ghost use Rattle.fn_rules.specs.Rules.{function_of};
ghost use Rattle.ask_core.specs.declared.asker.TheConstants.{MAX_QUESTIONS};
ghost use Rattle.ask_core.specs.Askers.{IsFine, longest_path};
ghost use Rattle.ot_questions.specs.Obligation.{plan_below};
ghost use Rattle.ot_sections.specs.Stands.{plan_behind};
ghost use Rattle.ask_core.specs.declared.asker.TheConstants.{MAX_NAMES};
ghost use Rattle.ot_prove.specs.Outcomes.{IsDecided, StandsBehind};
ghost use Rattle.ot_decide.specs.Below.{IsBound};
ghost use Rattle.ot_decide.specs.Proving.{AreSettled};

use crate::below::shorter_plans_keep_limits;
use crate::verdict::SearchVerdict;
use crate::verdicts::obligations_have_one_question_list;
use ask_core::{Asker, NoMemory, Premised};
use bumpalo::Bump;
use cert_text::{Tree, begin_ob, end_ob};
use diff_graph::Lit;
use fn_rules::{ObName, Rules, rules_are_valid};
use ot_paths::PathAsker;
use ot_prove::{Outcome, prove_behind};
use ot_questions::Why;
use ot_sections::premise_below;
use std::alloc::Global;
use std::mem;

// Searches an asker's plan, behind a premise if there is one.
fn search_behind<A: Asker>(
    alloc: Global,
    premise: Option<Lit>,
    inner: A,
    budget: u64,
    tree: Tree,
) -> Result<Outcome<A::Why>, NoMemory>
    requires few { A.name_count inner ≤ MAX_NAMES }
    requires fine { IsFine (A.name_count inner) (plan_behind premise (A.root inner)) }
    requires empty { tree.tokens ≡ [] }
    ensures decides { IfOk result (λ o. IsDecided (plan_behind premise (A.root inner)) budget o) }
    ensures front { IfOk result (StandsBehind tree.front) }
{
    match premise {
        None => {
            let mut asker = inner;
            prove_behind(alloc, &mut asker, budget, tree)
        }
        Some(lit) => {
            let mut asker = Premised::new(lit, inner);
            prove_behind(alloc, &mut asker, budget, tree)
        }
    }
}

// Searches the plan of an obligation, whose goals stand in the arena.
fn search_in<'a>(
    alloc: Global,
    bump: &'a Bump,
    rules: &'a Rules,
    below: Option<u32>,
    ob: ObName,
    budget: u64,
    tree: Tree,
) -> Result<Outcome<Why>, NoMemory>
    requires listed { IsTrue (is_obligation (function_of rules.now).head ob) }
    requires bounded { IsBound below }
    requires empty { tree.tokens ≡ [] }
    ensures decides { IfOk result (IsDecided (plan_below (function_of rules.now) below ob) budget) }
    ensures front { IfOk result (StandsBehind tree.front) }
{
    shorter_plans_keep_limits();
    rules_are_valid(rules);
    let asker = PathAsker::new(bump, rules, ob);
    search_behind(alloc, premise_below(below), asker, budget, tree)
}

// Searches the plan of an obligation in an arena of its own.
fn search_ob(
    alloc: Global,
    rules: &Rules,
    below: Option<u32>,
    ob: ObName,
    budget: u64,
    tree: Tree,
) -> Result<Outcome<Why>, NoMemory>
    requires listed { IsTrue (is_obligation (function_of rules.now).head ob) }
    requires bounded { IsBound below }
    requires empty { tree.tokens ≡ [] }
    ensures decides { IfOk result (IsDecided (plan_below (function_of rules.now) below ob) budget) }
    ensures short { longest_path (plan_below (function_of rules.now) below ob) ≤ MAX_QUESTIONS }
    ensures front { IfOk result (StandsBehind tree.front) }
{
    shorter_plans_keep_limits();
    rules_are_valid(rules);
    let bump = Bump::new(alloc);
    search_in(alloc, &bump, rules, below, ob, budget, tree)
}

/// Searches obligations in order by at most `budget` questions of all of them together, and appends the section of each
/// while it is searched. With `below` they are searched on the documents of fewer cells than that alone.
///
/// `Spent` comes exactly where there are more questions, `Fails` exactly where there are not and one of the obligations
/// fails, and else `AllHold`, with sections that have exactly these questions, and how many the
/// budget still allows. The error is want of memory.
pub fn search_all(
    alloc: Global,
    rules: &Rules,
    below: Option<u32>,
    names: &[ObName],
    budget: u64,
    bytes: &mut Vec<u8>,
) -> Result<SearchVerdict, NoMemory>
    requires listed { list_all (is_obligation (function_of rules.now).head) names.now ≡ true }
    requires bounded { IsBound below }
    ensures settled { IfOk result (AreSettled (function_of rules.now).head (plan_below (function_of rules.now) below)
        names.now budget
        bytes.old.items bytes.new.items) }
{
    obligations_have_one_question_list();
    rules_are_valid(rules);
    let Some((ob, others)) = names.split_first() else {
        return Ok(SearchVerdict::AllHold { left: budget });
    };
    let tree = begin_ob(*ob, mem::replace(bytes, Vec::new(alloc)))?;
    match search_ob(alloc, rules, below, *ob, budget, tree)? {
        Outcome::Yes { tree, asked } => {
            *bytes = end_ob(tree)?;
            search_all(alloc, rules, below, others, budget - asked, bytes)
        }
        Outcome::No { answers, why } => Ok(SearchVerdict::Fails {
            ob: *ob,
            answers,
            why,
        }),
        Outcome::Spent => Ok(SearchVerdict::Spent),
    }
}
