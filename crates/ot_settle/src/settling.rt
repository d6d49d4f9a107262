//! The search of all obligations of a function for a proof with lemmas.
ghost use Rattle.std.specs.Prelude.{◌≡◌, ℕ, ◌≤◌, false, IfOk, length};
ghost use Rattle.fn_rules.specs.Obligations.{obligations_of};
ghost use Rattle.fn_rules.specs.Rules.{function_of};
ghost use Rattle.plan_proofs.specs.Searching.{MaySpend};
ghost use Rattle.ot_settle.specs.declared.settled.Settled.TheVariants.{No};
ghost use Rattle.ot_settle.specs.Outcomes.{HasCause, IsCause, IsSettled};
ghost use Rattle.ot_settle.specs.Searching.{FailsAmong};

use crate::ended::FailingOb;
use crate::judging::{is_proof, pairs_hold};
use crate::searching::search_all;
use crate::settled::{Settled, Settlement};
use crate::text::Text;
use ask_core::NoMemory;
use fn_rules::{Level, ObName, Rules, obligations, obligations_are_those_of_the_kinds};
use plan_proofs::{Ended, MAX_BYTES, Questions, SpentCause};
use std::alloc::Global;

// Why nothing is said where so many bytes are no proof.
fn cause_of(written: usize) -> SpentCause
    ensures { (budget : ℕ) (asked : Questions) → IsCause budget asked false written result }
{
    if written > MAX_BYTES {
        return SpentCause::Bytes;
    }
    SpentCause::NoWay
}

// Why nothing is said where a search of obligations says nothing. Where it found no way on and its text is too long
// already, it is the text.
fn cause_after(
    found: SpentCause,
    written: usize,
    asked: Questions,
    over: bool,
    budget: Questions,
) -> SpentCause
    requires { MaySpend budget asked over written found }
    ensures { budget.asked ≡ budget.again → IsCause budget.asked asked over written result }
{
    match found {
        SpentCause::Budget => SpentCause::Budget,
        SpentCause::Bytes => SpentCause::Bytes,
        SpentCause::NoWay => cause_of(written),
    }
}

// What is told where the text of all obligations was written.
fn shown(
    alloc: Global,
    rules: &Rules,
    level: Level,
    text: Text,
    asked: Questions,
) -> Result<Settlement, NoMemory>
    ensures settled { IfOk result (λ r. IsSettled (function_of rules.now) level r.settled) }
    ensures asked { IfOk result (λ r. r.asked ≡ asked) }
    ensures spent { IfOk result (λ r. (budget : ℕ) → HasCause budget r.asked r.over r.written r.settled) }
{
    let bytes = text.whole()?;
    let written = bytes.len();
    if !is_proof(alloc, rules, level, &bytes)? {
        return Ok(settlement(Settled::Spent(cause_of(written)), asked, written));
    }
    Ok(settlement(Settled::Yes(bytes), asked, written))
}

// What the obligations came to, by so many questions, with none met that is more than may be asked, and with so many
// bytes written.
fn settlement(settled: Settled, asked: Questions, written: usize) -> Settlement
    ensures settled { result.settled ≡ settled }
    ensures asked { result.asked ≡ asked }
    ensures over { result.over ≡ false }
    ensures written { result.written ≡ written }
{
    Settlement {
        settled,
        asked,
        over: false,
        written,
    }
}

// The no to a failing obligation.
fn no_to(failing: FailingOb) -> Settled
    ensures { result ≡ No failing.ob failing.end.answers failing.end.why }
{
    Settled::No {
        ob: failing.ob,
        answers: failing.end.answers,
        why: failing.end.why,
    }
}

// What is told where an obligation fails: nothing where it is a triple and the text does not show that the pairs hold.
fn refuted(
    alloc: Global,
    rules: &Rules,
    level: Level,
    failing: FailingOb,
    text: &Text,
    asked: Questions,
) -> Result<Settlement, NoMemory>
    requires fails { FailsAmong (function_of rules.now) (obligations_of (function_of rules.now).head level) failing }
    ensures settled { IfOk result (λ r. IsSettled (function_of rules.now) level r.settled) }
    ensures asked { IfOk result (λ r. r.asked ≡ asked) }
    ensures spent { IfOk result (λ r. (budget : ℕ) → HasCause budget r.asked r.over r.written r.settled) }
{
    let written = text.bytes.len();
    match failing.ob {
        ObName::Pair(..) => Ok(settlement(no_to(failing), asked, written)),
        ObName::Triple(..) => {
            if !pairs_hold(alloc, rules, text.pairs())? {
                return Ok(settlement(Settled::Spent(cause_of(written)), asked, written));
            }
            Ok(settlement(no_to(failing), asked, written))
        }
    }
}

/// Decides whether a function has the properties of a level, by a proof with lemmas or by answers that some integers
/// meet, with at most `budget` questions of the searches of all its obligations together, and as many again of the
/// walks that write what they showed.
///
/// `Spent` says nothing of the function, and its cause. The error is want of memory.
pub fn settle_all(
    alloc: Global,
    rules: &Rules,
    level: Level,
    budget: u64,
) -> Result<Settlement, NoMemory>
    ensures settled { IfOk result (λ r. IsSettled (function_of rules.now) level r.settled) }

    // The budget is kept, by the searches and by the walks that write.
    ensures asked { IfOk result (λ r. r.asked.asked ≤ budget) }
    ensures again { IfOk result (λ r. r.asked.again ≤ budget) }

    // Nothing is said only for a cause that is so.
    ensures spent { IfOk result (λ r. HasCause budget r.asked r.over r.written r.settled) }
{
    obligations_are_those_of_the_kinds();
    let head = rules.head();
    let names = obligations(alloc, &head, level)?;
    let mut text = Text::new(alloc, level)?;
    let whole = Questions {
        asked: budget,
        again: budget,
    };
    let searched = search_all(alloc, rules, &names, whole, &mut text)?;
    let asked = searched.asked;
    match searched.ended {
        Ended::Shown => shown(alloc, rules, level, text, asked),
        Ended::Fails(failing) => refuted(alloc, rules, level, failing, &text, asked),
        Ended::Spent(found) => {
            let over = searched.over;
            let written = text.bytes.len();
            let cause = cause_after(found, written, asked, over, whole);
            Ok(Settlement {
                settled: Settled::Spent(cause),
                asked,
                over,
                written,
            })
        }
    }
}
