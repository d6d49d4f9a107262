//! The search of obligations one after another.
ghost use Rattle.std.specs.Prelude.{◌≡◌, ℕ, ◌+◌, ◌<◌, ◌^◌, true, IsTrue, IfOk, length};
ghost use Rattle.std.specs.List.{list_all};
ghost use Rattle.fn_rules.specs.Obligations.{is_obligation};
ghost use Rattle.fn_rules.specs.Rules.{function_of};
ghost use Rattle.ot_questions.specs.Obligation.{plan_of};
ghost use Rattle.ot_settle.specs.Searching.{FailsAmong};
ghost use Rattle.plan_proofs.specs.Searching.{FailsOnlySo, IsWithin, MaySpend, SpendsOnlySo};
ghost use Rattle.ot_settle.specs.Endings.{IsFailingEnd};

use crate::ended::FailingOb;
use crate::text::Text;
use crate::{FailingEnd, failing_end};
use ask_core::{Asker, NoMemory};
use bumpalo::Bump;
use diff_graph::Lit;
use fn_rules::{ObName, Rules};
use ot_questions::Why;
use plan_proofs::{Ended, FindingStarts, Questions, Searched, SpentCause, search_plan};
use proof_search::Finder;
use std::alloc::Global;

// Searches the plan of an obligation, whose goals stand in the arena.
fn search_in<'a>(
    alloc: Global,
    bump: &'a Bump,
    rules: &'a Rules,
    ob: ObName,
    budget: Questions,
    bytes: &mut Vec<u8>,
) -> Result<Searched<FailingEnd<Why>>, NoMemory>
    requires listed { IsTrue (is_obligation (function_of rules.now).head ob) }
    ensures ended { IfOk result (λ r. FailsOnlySo (IsFailingEnd (plan_of (function_of rules.now) ob)) r.ended) }
    ensures within { IfOk result (λ r. IsWithin r.asked budget) }
    ensures cause { IfOk result (λ r. SpendsOnlySo (MaySpend budget r.asked r.over (length bytes.new.items)) r.ended) }
{
    search_by(
        alloc,
        FindingStarts::new(alloc, bump, rules, ob),
        budget,
        bytes,
    )
}

// Searches the plan of an asker.
fn search_by<A: Finder>(
    alloc: Global,
    asker: A,
    budget: Questions,
    bytes: &mut Vec<u8>,
) -> Result<Searched<FailingEnd<A::Why>>, NoMemory>
    ensures ended { IfOk result (λ r. FailsOnlySo (IsFailingEnd (A.root asker)) r.ended) }
    ensures within { IfOk result (λ r. IsWithin r.asked budget) }
    ensures cause { IfOk result (λ r. SpendsOnlySo (MaySpend budget r.asked r.over (length bytes.new.items)) r.ended) }
{
    let mut asker = asker;
    let found = search_plan(alloc, &mut asker, budget, bytes)?;
    let asked = found.asked;
    let over = found.over;
    let ended = found.ended;
    match ended {
        Ended::Shown => Ok(searched(Ended::Shown, asked, over)),
        Ended::Fails(answers) => failed(alloc, &mut asker, &answers, asked, over),
        Ended::Spent(cause) => Ok(searched(Ended::Spent(cause), asked, over)),
    }
}

// What a search came to that found answers. Where these lead to no end that fails, they are no way on.
fn failed<A: Asker>(
    alloc: Global,
    asker: &mut A,
    answers: &[Lit],
    asked: Questions,
    over: bool,
) -> Result<Searched<FailingEnd<A::Why>>, NoMemory>
    ensures ended { IfOk result (λ r. FailsOnlySo (IsFailingEnd (A.root asker.old)) r.ended) }
    ensures asked { IfOk result (λ r. r.asked ≡ asked) }
    ensures cause { (budget : Questions) (count : ℕ) → IfOk result (λ r.
        SpendsOnlySo (MaySpend budget r.asked r.over count) r.ended) }
{
    match failing_end(alloc, asker, answers)? {
        Some(end) => Ok(searched(Ended::Fails(end), asked, over)),
        None => Ok(searched(Ended::Spent(SpentCause::NoWay), asked, false)),
    }
}

// What a search came to that asked so many questions, and whether it met one more than it may ask.
fn searched<E: Drop>(ended: Ended<E>, asked: Questions, over: bool) -> Searched<E>
    ensures ended { result.ended ≡ ended }
    ensures asked { result.asked ≡ asked }
    ensures over { result.over ≡ over }
{
    Searched { ended, asked, over }
}

// Searches an obligation in an arena of its own, and appends its section where it is shown.
fn search_ob(
    alloc: Global,
    rules: &Rules,
    ob: ObName,
    budget: Questions,
    text: &mut Text,
) -> Result<Searched<FailingEnd<Why>>, NoMemory>
    requires listed { IsTrue (is_obligation (function_of rules.now).head ob) }
    ensures ended { IfOk result (λ r. FailsOnlySo (IsFailingEnd (plan_of (function_of rules.now) ob)) r.ended) }
    ensures within { IfOk result (λ r. IsWithin r.asked budget) }
    ensures cause { IfOk result (λ r.
        SpendsOnlySo (MaySpend budget r.asked r.over (length text.new.bytes.items)) r.ended) }
{
    text.begin_section(ob)?;
    let bump = Bump::new(alloc);
    let searched = search_in(alloc, &bump, rules, ob, budget, &mut text.bytes)?;
    text.end_section(ob)?;
    Ok(searched)
}

// What may still be asked after so many questions.
fn left_of(budget: Questions, asked: Questions) -> Questions
    requires { IsWithin asked budget }
    ensures asked { result.asked + asked.asked ≡ budget.asked }
    ensures again { result.again + asked.again ≡ budget.again }
{
    Questions {
        asked: budget.asked - asked.asked,
        again: budget.again - asked.again,
    }
}

// So many questions and so many more.
fn sum_of(one: Questions, more: Questions) -> Questions
    requires asked { one.asked + more.asked < 2 ^ 64 }
    requires again { one.again + more.again < 2 ^ 64 }
    ensures asked { result.asked ≡ one.asked + more.asked }
    ensures again { result.again ≡ one.again + more.again }
{
    Questions {
        asked: one.asked + more.asked,
        again: one.again + more.again,
    }
}

/// Searches obligations in order, with one budget for all of them together, and appends the section of each that is
/// shown, up to the first that is not.
pub(crate) fn search_all(
    alloc: Global,
    rules: &Rules,
    names: &[ObName],
    budget: Questions,
    text: &mut Text,
) -> Result<Searched<FailingOb>, NoMemory>
    requires listed { list_all (is_obligation (function_of rules.now).head) names.now ≡ true }
    ensures ended { IfOk result (λ r. FailsOnlySo (FailsAmong (function_of rules.now) names.now) r.ended) }
    ensures within { IfOk result (λ r. IsWithin r.asked budget) }
    ensures cause { IfOk result (λ r.
        SpendsOnlySo (MaySpend budget r.asked r.over (length text.new.bytes.items)) r.ended) }
{
    let Some((ob, others)) = names.split_first() else {
        return Ok(searched(Ended::Shown, Questions { asked: 0, again: 0 }, false));
    };
    let first = search_ob(alloc, rules, *ob, budget, text)?;
    let asked = first.asked;
    let over = first.over;
    let ended = first.ended;
    match ended {
        Ended::Shown => {
            let rest = search_all(alloc, rules, others, left_of(budget, asked), text)?;
            let all = sum_of(asked, rest.asked);
            Ok(searched(rest.ended, all, rest.over))
        }
        Ended::Fails(end) => {
            let failing = FailingOb { ob: *ob, end };
            Ok(searched(Ended::Fails(failing), asked, over))
        }
        Ended::Spent(cause) => Ok(searched(Ended::Spent(cause), asked, over)),
    }
}
