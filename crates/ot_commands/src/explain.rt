//! `explain [--tp1] FUNCTION`: why the function has the properties of a level, or where it breaks one.
ghost use Rattle.std.specs.Prelude.{◌≡◌, ◌≤◌, length, IfOk, IsErrOf, IsTrue};
ghost use Rattle.ask_core.specs.Plans.{Fails};
ghost use Rattle.diff_graph.specs.Literals.{IsPossible};
ghost use Rattle.fn_rules.specs.Obligations.{is_obligation};
ghost use Rattle.fn_rules.specs.Rules.{function_of};
ghost use Rattle.ot_outside.specs.Faults.{Rose};
ghost use Rattle.ot_outside.specs.Unchanged.{Unchanged};
ghost use Rattle.ot_prove.specs.Outcomes.{AreAnswersTo, answered_by};
ghost use Rattle.ot_questions.specs.Obligation.{plan_of};
ghost use Rattle.ot_replies.specs.Limits.{limit_of};
ghost use Rattle.ot_replies.specs.declared.reply.Explanation.TheVariants.{Open};
ghost use Rattle.ot_replies.specs.declared.reply.FileKind.TheVariants as files;
ghost use Rattle.ot_replies.specs.declared.reply.Reply.TheVariants.{Explained};
ghost use Rattle.ot_words.specs.Commands.{Explain};
ghost use Rattle.ot_words.specs.Words.{most_questions};
ghost use Rattle.ot_settle.specs.Outcomes.{IsSettled};
ghost use Rattle.ot_commands.specs.Explain.{ExplainsCounter, ExplainsSettled, IsReplyToExplained, IsReplyToText};
ghost use Rattle.ot_commands.specs.Explain.{IsReplyToUnproved, attempt_of, help_of, unsettled_by};
ghost use Rattle.ot_commands.specs.Given.{IsReplyOfGiven};
ghost use Rattle.ot_commands.specs.Replies.{IsReplyTo};

use crate::load::{Stop, read_file, reply_or_stop};
use crate::prove::counter_of;
use fn_hints::{find_hint, write_hint};
use fn_rules::{Level, ObName, Rules, rules_are_valid};
use fn_text::{TextError, read};
use ot_counter::failing_ends_have_counterexamples;
use ot_decide::{Verdict, prove_all};
use ot_model::NoMemory;
use ot_outside::Shelf;
use ot_prove::Answer;
use ot_questions::Why;
use ot_replies::{Attempt, Explanation, FileKind, Ground, Reply, Unsettled};
use ot_settle::{MAX_BYTES, Questions, Settled, SpentCause, settle_all};
use ot_steps::write_explained;
use ot_words::{MOST_QUESTIONS, SETTLING_QUESTIONS};
use plain_list::List;
use std::alloc::Global;

// The reply that shows the counterexample of answers that lead to a failing end, and what became of its operations.
fn breaks(
    alloc: Global,
    rules: &Rules,
    ob: ObName,
    answers: &[Answer],
    why: Why,
) -> Result<Reply, NoMemory>
    requires declared { IsTrue (is_obligation (function_of rules.now).head ob) }
    requires leads { AreAnswersTo (plan_of (function_of rules.now) ob) answers.now (Fails why) }
    requires possible { IsPossible (answered_by answers.now) }
    ensures { IfOk result (ExplainsCounter (function_of rules.now) ob answers.now why) }
{
    failing_ends_have_counterexamples();
    rules_are_valid(rules);
    let counter = counter_of(alloc, rules, ob, answers, why)?;
    let mut steps = Vec::new(alloc);
    write_explained(alloc, rules, &counter, &mut steps)?;
    Ok(Reply::Explained(Explanation::Breaks(counter, List::from_vec(steps))))
}

// Why `settle` says nothing.
fn unsettled_by(cause: SpentCause) -> Unsettled
    ensures { result ≡ unsettled_by cause }
{
    match cause {
        SpentCause::Budget => Unsettled::Questions(SETTLING_QUESTIONS),
        SpentCause::Bytes => Unsettled::Bytes(MAX_BYTES as u64),
        SpentCause::NoWay => Unsettled::NoProof,
    }
}

// The reply that says why nothing is said, and how far the search came.
fn undecided(cause: SpentCause, asked: Questions, written: usize) -> Reply
    ensures { result ≡ Explained (Open most_questions (attempt_of cause asked written)) }
{
    let attempt = Attempt {
        cause: unsettled_by(cause),
        asked: asked.asked,
        again: asked.again,
        bytes: written as u64,
    };
    Reply::Explained(Explanation::Open(MOST_QUESTIONS, attempt))
}

// The reply that explains what settling came to, by so many questions and with so many bytes written.
fn explain_settled(
    alloc: Global,
    rules: &Rules,
    level: Level,
    settled: Settled,
    asked: Questions,
    written: usize,
) -> Result<Reply, NoMemory>
    requires { IsSettled (function_of rules.now) level settled }
    ensures { IfOk result (ExplainsSettled (function_of rules.now) level asked written settled) }
{
    match settled {
        Settled::Yes(bytes) => {
            let basis = Ground::Proof(bytes.len() as u64);
            Ok(Reply::Explained(Explanation::Holds(level, basis)))
        }
        Settled::No { ob, answers, why } => breaks(alloc, rules, ob, &answers, why),
        Settled::Spent(cause) => Ok(undecided(cause, asked, written)),
    }
}

// The reply to a function of which `prove` says nothing.
fn settled(alloc: Global, rules: &Rules, level: Level) -> Result<Reply, NoMemory>
    ensures { IfOk result (IsReplyToUnproved (function_of rules.now) level) }
{
    let settlement = settle_all(alloc, rules, level, SETTLING_QUESTIONS)?;
    let asked = settlement.asked;
    let written = settlement.written;
    explain_settled(alloc, rules, level, settlement.settled, asked, written)
}

// The reply to a function.
fn explained(alloc: Global, rules: &Rules, level: Level) -> Result<Reply, NoMemory>
    ensures { IfOk result (IsReplyToExplained (function_of rules.now) level) }
{
    match prove_all(alloc, rules, level, MOST_QUESTIONS)? {
        Verdict::Yes { asked, .. } => {
            let basis = Ground::Questions(asked);
            Ok(Reply::Explained(Explanation::Holds(level, basis)))
        }
        Verdict::No { ob, answers, why } => breaks(alloc, rules, ob, &answers, why),
        Verdict::Spent => settled(alloc, rules, level),
    }
}

// What helps to mend the text of a function that is refused.
fn help_of(alloc: Global, bytes: &[u8]) -> Result<List<u8>, NoMemory>
    requires { length bytes.now ≤ limit_of files.Function }
    ensures { IfOk result (λ help. help ≡ help_of bytes.now) }
{
    let mut help = Vec::new(alloc);
    if let Some(hint) = find_hint(alloc, bytes)? {
        write_hint(alloc, &hint, &mut help)?;
    }
    Ok(List::from_vec(help))
}

// The reply to the text of a function.
#[tactic(auto, unfolding(crate::specs::Explain::IsReplyToText))]
fn reply_to_text(alloc: Global, level: Level, bytes: &[u8]) -> Result<Reply, NoMemory>
    requires { length bytes.now ≤ limit_of files.Function }
    ensures { IfOk result (IsReplyToText level bytes.now) }
{
    match read(alloc, bytes) {
        Ok(rules) => explained(alloc, &rules, level),
        Err(TextError::Fault(fault)) => {
            let help = help_of(alloc, bytes)?;
            Ok(Reply::Explained(Explanation::Misread(fault, help)))
        }
        Err(TextError::NoMemory) => Err(NoMemory),
    }
}

/// The reply to the command.
pub fn explain<H: Shelf>(
    alloc: Global,
    shelf: &mut H,
    level: Level,
    function: &str,
) -> Result<Reply, Stop>
    requires { H.offered shelf.old function.now }

    ensures ok { IfOk result (λ reply. IsReplyTo (H.holds shelf.old) (Explain level function.now) reply) }
    ensures given { IfOk result (IsReplyOfGiven (H.reads shelf.old) (H.reads shelf.new) (Explain level function.now)) }
    ensures shelf { IsErrOf result Stop.Shelf → Rose (H.faults shelf.old) (H.faults shelf.new) }
    ensures unchanged { Unchanged H.holds H.offered H.faults shelf.old shelf.new }
{
    match read_file(alloc, shelf, function, FileKind::Function)? {
        Ok(bytes) => reply_or_stop(reply_to_text(alloc, level, &bytes)),
        Err(reply) => Ok(reply),
    }
}
