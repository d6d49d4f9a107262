//! `prove [--tp1] [--budget N] FUNCTION`: a certificate of the function, or a counterexample.
ghost use Rattle.std.specs.Prelude.{IfOk, IsErrOf, IsTrue};
ghost use Rattle.ask_core.specs.Plans.{Fails};
ghost use Rattle.diff_graph.specs.Literals.{IsPossible};
ghost use Rattle.fn_rules.specs.Obligations.{is_obligation};
ghost use Rattle.fn_rules.specs.Rules.{function_of};
ghost use Rattle.ot_counter.specs.Counters.{IsCounter};
ghost use Rattle.ot_outside.specs.Faults.{Rose};
ghost use Rattle.ot_outside.specs.Unchanged.{Unchanged};
ghost use Rattle.ot_prove.specs.Outcomes.{AreAnswersTo, answered_by};
ghost use Rattle.ot_questions.specs.Obligation.{plan_of};
ghost use Rattle.ot_words.specs.Commands.{Prove};
ghost use Rattle.ot_commands.specs.Given.{IsReplyOfGiven};
ghost use Rattle.ot_commands.specs.Prove.{TellsCounter};
ghost use Rattle.ot_commands.specs.Replies.{IsReplyTo};

use crate::load::Stop;
use crate::one_file::{FunctionCommand, reply_to_one};
use fn_rules::{Level, ObName, Rules};
use ot_counter::{Counter, build};
use ot_decide::{Verdict, prove_all};
use ot_model::NoMemory;
use ot_outside::Shelf;
use ot_prove::{Answer, literals_of};
use ot_questions::Why;
use ot_replies::Reply;
use plain_list::List;
use std::alloc::Global;

/// The counterexample of answers that lead to a failing end.
pub(crate) fn counter_of(
    alloc: Global,
    rules: &Rules,
    ob: ObName,
    answers: &[Answer],
    why: Why,
) -> Result<Counter, NoMemory>
    requires declared { IsTrue (is_obligation (function_of rules.now).head ob) }
    requires leads { AreAnswersTo (plan_of (function_of rules.now) ob) answers.now (Fails why) }
    requires possible { IsPossible (answered_by answers.now) }
    ensures { IfOk result (λ counter. IsCounter (function_of rules.now) ob (answered_by answers.now) why counter) }
{
    let literals = literals_of(alloc, answers)?;
    build(alloc, rules, ob, &literals, why)
}

/// The reply that shows such a counterexample.
pub(crate) fn broken_by(
    alloc: Global,
    rules: &Rules,
    ob: ObName,
    answers: &[Answer],
    why: Why,
) -> Result<Reply, NoMemory>
    requires declared { IsTrue (is_obligation (function_of rules.now).head ob) }
    requires leads { AreAnswersTo (plan_of (function_of rules.now) ob) answers.now (Fails why) }
    requires possible { IsPossible (answered_by answers.now) }
    ensures { IfOk result (TellsCounter (function_of rules.now) ob answers.now why) }
{
    let counter = counter_of(alloc, rules, ob, answers, why)?;
    Ok(Reply::Broken(counter))
}

/// A proof of a function at a level, by so many questions at the most.
#[derive(Drop)]
pub(crate) struct Proving {
    pub(crate) level: Level,
    pub(crate) budget: u64,
}

impl FunctionCommand for Proving {
    ghost use Rattle.ot_commands.specs.Prove.{IsReplyToProof};

    ghost gets = { λ s f. IsReplyToProof f s.level s.budget };

    fn reply(&self, alloc: Global, rules: &Rules) -> Result<Reply, NoMemory> {
        match prove_all(alloc, rules, self.level, self.budget)? {
            Verdict::Yes { bytes, .. } => Ok(Reply::Proved(List::from_vec(bytes))),
            Verdict::No { ob, answers, why } => broken_by(alloc, rules, ob, &answers, why),
            Verdict::Spent => Ok(Reply::Spent),
        }
    }
}

/// The reply to the command.
pub fn prove<H: Shelf>(
    alloc: Global,
    shelf: &mut H,
    level: Level,
    budget: u64,
    function: &str,
) -> Result<Reply, Stop>
    requires { H.offered shelf.old function.now }

    ensures ok { IfOk result (λ reply. IsReplyTo (H.holds shelf.old) (Prove level budget function.now) reply) }
    ensures given { IfOk result (IsReplyOfGiven (H.reads shelf.old) (H.reads shelf.new)
        (Prove level budget function.now)) }
    ensures shelf { IsErrOf result Stop.Shelf → Rose (H.faults shelf.old) (H.faults shelf.new) }
    ensures unchanged { Unchanged H.holds H.offered H.faults shelf.old shelf.new }
{
    reply_to_one(alloc, shelf, function, &Proving { level, budget })
}
