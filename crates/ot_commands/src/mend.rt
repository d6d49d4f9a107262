//! `mend [--tp1] [--edits N] [--budget M] FUNCTION`: the fewest edits that make a function right.
ghost use Rattle.std.specs.Prelude.{◌≡◌, IfOk, IsErrOf};
ghost use Rattle.fn_grammar.specs.Grammar.{IsTextOf};
ghost use Rattle.fn_grammar.specs.Print.{printed};
ghost use Rattle.fn_rules.specs.Rules.{function_of};
ghost use Rattle.mend_texts.specs.Made.{AreMade};
ghost use Rattle.ot_mend.specs.Members.{function_after};
ghost use Rattle.ot_outside.specs.Faults.{Rose};
ghost use Rattle.ot_outside.specs.Unchanged.{Unchanged};
ghost use Rattle.ot_words.specs.Commands.{Mend};
ghost use Rattle.mend_texts.specs.Texts.{mended_text};
ghost use Rattle.ot_commands.specs.Given.{IsReplyOfGiven};
ghost use Rattle.ot_commands.specs.Mend.{IsDecidedSo, IsReplyToMending, TellsMending, decision_of};
ghost use Rattle.ot_commands.specs.Replies.{IsReplyTo};
ghost use Rattle.fewest_edits.specs.Mendings.{IsMendedBy};
ghost use Rattle.ot_decide.specs.Verdicts.{IsDecidedAs};
ghost use Rattle.ot_words.specs.Words.{most_questions};

use crate::found::Found;
use crate::load::Stop;
use crate::one_file::{FunctionCommand, reply_to_one};
use crate::prove::counter_of;
use crate::template::has_none;
use fewest_edits::{Decider, Decision, Mending, mend_by};
use fn_rules::{Level, Rules};
use mend_texts::{members_are_made, mended_text};
use ot_decide::{Verdict, prove_all};
use ot_mend::Edit;
use ot_model::NoMemory;
use ot_outside::Shelf;
use ot_replies::Reply;
use ot_words::MOST_QUESTIONS;
use plain_list::List;
use std::alloc::Global;

// What a verdict says of the level.
fn decision_of(verdict: &Verdict) -> Decision
    ensures { result ≡ decision_of verdict.now }
{
    match verdict {
        Verdict::Yes { .. } => Decision::Yes,
        Verdict::No { .. } => Decision::No,
        Verdict::Spent => Decision::Spent,
    }
}

// Functions are decided as `prove` decides them. Where one of them lacked TP1, a later one is tried first.
#[derive(Drop)]
struct Prover {
    found: Found,
}

impl Prover {
    // Keeps the counterexample of a verdict.
    fn note(
        &mut self,
        alloc: Global,
        rules: &Rules,
        level: Level,
        verdict: &Verdict,
    ) -> Result<(), NoMemory>
        requires { IsDecidedAs (function_of rules.now) level most_questions verdict.now }
    {
        match verdict {
            Verdict::No { ob, answers, why } => {
                let counter = counter_of(alloc, rules, *ob, answers, *why)?;
                self.found.keep(counter)
            }
            _ => Ok(()),
        }
    }

    // Decides a function by its obligations.
    fn prove(&mut self, alloc: Global, rules: &Rules, level: Level) -> Result<Decision, NoMemory>
        ensures { IfOk result (IsDecidedSo level (function_of rules.now)) }
    {
        let verdict = prove_all(alloc, rules, level, MOST_QUESTIONS)?;
        self.note(alloc, rules, level, &verdict)?;
        Ok(decision_of(&verdict))
    }
}

impl Decider for Prover {
    ghost use Rattle.ot_commands.specs.Mend.{IsDecidedSo};

    ghost decides = { IsDecidedSo };

    fn decide(&mut self, alloc: Global, rules: &Rules, level: Level) -> Result<Decision, NoMemory> {
        if self.found.is_broken(alloc, rules)? {
            return Ok(Decision::No);
        }
        self.prove(alloc, rules, level)
    }
}

// The text of the function that edits lead to.
fn text_of(alloc: Global, rules: &Rules, edits: &[Edit]) -> Result<List<u8>, NoMemory>
    requires { AreMade (function_of rules.now) edits.now }
    ensures text { IfOk result (λ text. text ≡ mended_text (function_of rules.now) edits.now) }
    ensures of_function { IfOk result (λ _. IsTextOf (printed (function_after edits.now (function_of rules.now)))
        (function_after edits.now (function_of rules.now))) }
{
    let text = mended_text(alloc, rules, edits)?;
    Ok(List::from_vec(text))
}

// The reply that tells what mending a function came to.
fn told(
    alloc: Global,
    rules: &Rules,
    level: Level,
    most: u32,
    budget: u64,
    mending: Mending,
) -> Result<Reply, NoMemory>
    requires { IsMendedBy (IsDecidedSo level) (function_of rules.now) most budget mending }
    ensures { IfOk result (TellsMending (function_of rules.now) most mending) }
{
    members_are_made();
    match mending {
        Mending::Found { edits, .. } => {
            let text = text_of(alloc, rules, &edits)?;
            Ok(Reply::Mended(text))
        }
        Mending::None => Ok(Reply::NotMended(Some(most))),
        Mending::Spent => Ok(Reply::Spent),
    }
}

// The reply to a function of whose head some function has the level.
fn mended(
    alloc: Global,
    rules: &Rules,
    level: Level,
    most: u32,
    budget: u64,
) -> Result<Reply, NoMemory>
    ensures { IfOk result (IsReplyToMending level most budget (function_of rules.now)) }
{
    let mut prover = Prover {
        found: Found::new(alloc),
    };
    let mending = mend_by(alloc, &mut prover, rules, level, most, budget)?;
    told(alloc, rules, level, most, budget, mending)
}

// A function is mended at a level, by so many edits at the most, with a budget.
#[derive(Drop)]
struct Mender {
    level: Level,
    most: u32,
    budget: u64,
}

impl FunctionCommand for Mender {
    ghost use Rattle.ot_commands.specs.Mend.{IsReplyToMend};

    ghost gets = { λ s. IsReplyToMend s.level s.most s.budget };

    fn reply(&self, alloc: Global, rules: &Rules) -> Result<Reply, NoMemory> {
        if has_none(self.level, &rules.head()) {
            return Ok(Reply::NotMended(None));
        }
        mended(alloc, rules, self.level, self.most, self.budget)
    }
}

/// The reply to the command.
pub fn mend<H: Shelf>(
    alloc: Global,
    shelf: &mut H,
    level: Level,
    edits: u32,
    budget: u64,
    function: &str,
) -> Result<Reply, Stop>
    requires { H.offered shelf.old function.now }

    ensures ok { IfOk result (λ reply. IsReplyTo (H.holds shelf.old) (Mend level edits budget function.now) reply) }
    ensures given { IfOk result (IsReplyOfGiven (H.reads shelf.old) (H.reads shelf.new)
        (Mend level edits budget function.now)) }
    ensures shelf { IsErrOf result Stop.Shelf → Rose (H.faults shelf.old) (H.faults shelf.new) }
    ensures unchanged { Unchanged H.holds H.offered H.faults shelf.old shelf.new }
{
    let command = Mender {
        level,
        most: edits,
        budget,
    };
    reply_to_one(alloc, shelf, function, &command)
}
