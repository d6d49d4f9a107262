//! The search of the shortest document, from failing end to shorter failing end.
ghost use Rattle.std.specs.Prelude.{◌≡◌, ◌≤◌, ℕ, List, [], IfOk};
ghost use Rattle.fn_rules.specs.Obligations.{level_of as part_level};
ghost use Rattle.fn_rules.specs.Rules.{function_of};
ghost use Rattle.ot_questions.specs.declared.why.Why.{Why};
ghost use Rattle.ot_sections.specs.declared.premise.TheConstants.{MAX_BOUND};
ghost use Rattle.ot_decide.specs.Verdicts.{ObQuestions};
ghost use Rattle.ot_least.specs.Endings.{IsEndedBy, IsEnding, IsTurn, failing_end_of};
ghost use Rattle.ot_least.specs.Shortest.{BeginsTurns, Falls, IsBroken, IsShort, IsShortWithin, IsTrueOf};

use crate::ending::{Ending, ending_at, shorter_ending};
use crate::laws::failing_ends_break_at_their_length;
use crate::short::Short;
use ask_core::{NoMemory, fitting_trees_hold};
use cert_text::write_end;
use fn_rules::{Level, ObName, Rules, rules_are_valid};
use ot_bound::{
    low_certificates_show_shorter_documents, parts, parts_are_obligations, write_low_header,
};
use ot_decide::{SearchVerdict, Verdict, failing_triples_show_tp1, prove_all, search_all};
use ot_questions::{Why, triple_plans_mean_tp2};
use ot_sections::MAX_BOUND;
use std::alloc::Global;

// The level whose property an obligation is a part of.
fn level_of(ob: ObName) -> Level
    ensures { result ≡ part_level ob }
{
    match ob {
        ObName::Pair(_, _) => Level::Tp1,
        ObName::Triple(_, _, _) => Level::Tp2,
    }
}

// Searches the obligations of a failing end's property on the documents of fewer cells. The bytes are then the first
// line of a low certificate, and where all hold the sections behind it.
fn search_shorter(
    alloc: Global,
    rules: &Rules,
    budget: u64,
    end: &Ending,
    cert: &mut Vec<u8>,
) -> Result<SearchVerdict, NoMemory>
    requires empty { cert.old.items ≡ [] }
    requires bounded { end.now.cells ≤ MAX_BOUND }
    ensures { IfOk result (IsTurn (function_of rules.now) budget end.now cert.new.items) }
{
    parts_are_obligations();
    let level = level_of(end.ob);
    let names = parts(alloc, &rules.head(), level)?;
    write_low_header(level, end.cells, cert)?;
    search_all(alloc, rules, Some(end.cells), &names, budget, cert)
}

// The answer of a failing end below which nothing fails: the last line makes the certificate whole.
fn least(end: Ending, mut cert: Vec<u8>) -> Result<Short, NoMemory>
    ensures { IfOk result (IsEndedBy end cert.items) }
{
    write_end(&mut cert)?;
    let Ending {
        ob,
        answers,
        why,
        cells,
    } = end;
    Ok(Short::Least {
        ob,
        answers,
        why,
        cells,
        cert,
    })
}

// Goes on from a failing end: searches the documents of fewer cells, and where one breaks the property too, goes on
// from there.
fn descend(alloc: Global, rules: &Rules, budget: u64, end: Ending) -> Result<Short, NoMemory>
    requires ending { IsEnding (function_of rules.now) end }
    requires broken { IsBroken (function_of rules.now) (part_level end.ob) }
    requires bounded { end.cells ≤ MAX_BOUND }
    ensures falls { IfOk result (λ short. (turns : List (List (ObQuestions Why)))
        × Falls (function_of rules.now) budget (failing_end_of end) end.cells turns short) }
    ensures holds { IfOk result (IsTrueOf (function_of rules.now)) }
    ensures within { budget ≤ 1000000 → IfOk result (IsShortWithin 83886080) }
{
    parts_are_obligations();
    let mut cert = Vec::new(alloc);
    match search_shorter(alloc, rules, budget, &end, &mut cert)? {
        SearchVerdict::AllHold { .. } => {
            low_certificates_show_shorter_documents();
            failing_ends_break_at_their_length();
            rules_are_valid(rules);
            least(end, cert)
        }
        SearchVerdict::Fails { ob, answers, why } => {
            let next = shorter_ending(alloc, rules, end.cells, ob, answers, why)?;
            descend(alloc, rules, budget, next)
        }
        SearchVerdict::Spent => Ok(Short::Spent),
    }
}

// Begins at the first failing end.
fn descend_from(alloc: Global, rules: &Rules, budget: u64, end: Ending) -> Result<Short, NoMemory>
    requires ending { IsEnding (function_of rules.now) end }
    requires broken { IsBroken (function_of rules.now) (part_level end.ob) }
    ensures begins { IfOk result (BeginsTurns (function_of rules.now) budget (failing_end_of end) end.cells) }
    ensures holds { IfOk result (IsTrueOf (function_of rules.now)) }
    ensures within { budget ≤ 1000000 → IfOk result (IsShortWithin 83886080) }
{
    if end.cells > MAX_BOUND {
        return Ok(Short::TooLong);
    }
    descend(alloc, rules, budget, end)
}

/// The shortest document on which a function breaks a property, by at most `budget` questions of each search. The
/// property is the first, or else the second.
///
/// All obligations are searched first. From the failing end on, whose least values give the document so many cells, the
/// obligations of its property are searched on the documents of fewer cells, and so on from each failing end, until
/// none fails.
///
/// `Spent` comes exactly where one of the searches has more questions, `Fine` exactly where the first has no failing
/// end, `TooLong` exactly where the document there has more than 1,000 cells, and else `Least`. The error is want of
/// memory.
pub fn shortest(alloc: Global, rules: &Rules, budget: u64) -> Result<Short, NoMemory>
    ensures decides { IfOk result (IsShort (function_of rules.now) budget) }

    // At `Least` the property is broken on a document of so many cells and on none of fewer, as the bytes certify.
    ensures holds { IfOk result (IsTrueOf (function_of rules.now)) }

    // A certificate keeps the limit of a file.
    ensures within { budget ≤ 1000000 → IfOk result (IsShortWithin 83886080) }
{
    failing_triples_show_tp1();
    failing_ends_break_at_their_length();
    fitting_trees_hold::<Why>();
    triple_plans_mean_tp2();
    rules_are_valid(rules);
    match prove_all(alloc, rules, Level::Tp2, budget)? {
        Verdict::Yes { .. } => Ok(Short::Fine),
        Verdict::No { ob, answers, why } => {
            let end = ending_at(alloc, rules, ob, answers, why)?;
            descend_from(alloc, rules, budget, end)
        }
        Verdict::Spent => Ok(Short::Spent),
    }
}
