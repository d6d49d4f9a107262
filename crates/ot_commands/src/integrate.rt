//! `integrate FUNCTION CASE`: the operations of the case, integrated in each of its orders.
ghost use Rattle.std.specs.Prelude.{◌≡◌, ◌≤◌, ◌↔◌, Some, IfOk, IsErrOf, IsTrue, All, length, map};
ghost use Rattle.case_json.specs.Tests.{IsReadyTrial};
ghost use Rattle.fn_rules.specs.Orders.{integrated, Document};
ghost use Rattle.fn_rules.specs.Rules.{function_of};
ghost use Rattle.ot_integrate.specs.Ends.{outcome_of};
ghost use Rattle.ot_outside.specs.Faults.{Rose};
ghost use Rattle.ot_outside.specs.Unchanged.{Unchanged};
ghost use Rattle.ot_words.specs.Commands.{Integrate};
ghost use Rattle.ot_commands.specs.Given.{IsReplyOfGiven};
ghost use Rattle.ot_commands.specs.Integrate.{HaveOneEnd, TellsOutcomes, outcomes_of};
ghost use Rattle.ot_commands.specs.Load.{GoesOnBehind};
ghost use Rattle.ot_commands.specs.Replies.{IsReplyTo};

use crate::case_file::{ByCase, CaseCommand};
use crate::load::Stop;
use crate::two_files::reply_to_both;
use case_json::{CaseError, Trial, trial_read};
use fn_rules::Rules;
use ot_integrate::End;
use ot_model::{Doc, NoMemory};
use ot_outside::Shelf;
use ot_replies::Reply;
use plain_list::List;
use std::alloc::Global;

// The end of an order is this document.
fn is_document(end: &End, doc: &Doc) -> bool
    ensures { IsTrue result ↔ (outcome_of end.now ≡ Document doc.now) }
{
    match end {
        End::Doc(other) => other.same(doc),
        End::Stuck(_) => false,
    }
}

// All ends are this document.
fn are_document(ends: &[End], doc: &Doc) -> bool
    ensures { IsTrue result ↔ All (λ end. outcome_of end ≡ Document doc.now) ends.now }
{
    ends.iter().all(|end| is_document(end, doc))
}

// Whether all ends are one document.
fn have_one_end(ends: &[End]) -> bool
    ensures { IsTrue result ↔ HaveOneEnd (map outcome_of ends.now) }
{
    match ends.first() {
        None => true,
        Some(End::Stuck(_)) => false,
        Some(End::Doc(doc)) => are_document(ends, doc),
    }
}

// How an order of a case ends.
fn end_of(alloc: Global, rules: &Rules, trial: &Trial, order: &[u32]) -> Result<End, NoMemory>
    requires ready { IsReadyTrial (function_of rules.now) trial.now }
    requires places { length order.now ≤ 1000 }
    ensures { IfOk result (λ end. outcome_of end ≡ integrated (function_of rules.now) trial.now.doc trial.now.ops
        order.now) }
{
    ot_integrate::integrate(alloc, rules, &trial.doc, trial.ops.as_slice(), order)
}

// How each order of a case ends.
fn ends_of(alloc: Global, rules: &Rules, trial: &Trial) -> Result<List<End>, NoMemory>
    requires { IsReadyTrial (function_of rules.now) trial.now }
    ensures { IfOk result (λ ends. map outcome_of ends ≡ outcomes_of (function_of rules.now) trial.now) }
{
    let mut ends = List::new(alloc);
    for order in trial.orders.as_slice() {
        ends.push(end_of(alloc, rules, trial, order.as_slice())?)?;
    }
    Ok(ends)
}

/// How the orders of a case end, as a reply.
pub(crate) fn outcomes(alloc: Global, rules: &Rules, trial: &Trial) -> Result<Reply, NoMemory>
    requires { IsReadyTrial (function_of rules.now) trial.now }
    ensures { IfOk result (TellsOutcomes (outcomes_of (function_of rules.now) trial.now)) }
{
    let ends = ends_of(alloc, rules, trial)?;
    let same = have_one_end(ends.as_slice());
    Ok(Reply::Integrated(ends, same))
}

// A case is integrated in each of its orders.
struct Integrating;

impl CaseCommand for Integrating {
    ghost use Rattle.ot_commands.specs.Integrate.{IsReplyToCase};

    ghost gets = { IsReplyToCase };

    ghost agrees = { λ f. ⊥ };

    #[tactic(auto, unfolding(crate::specs::Integrate::IsReplyToCase))]
    fn reply(alloc: Global, rules: &Rules, bytes: &[u8]) -> Result<Reply, NoMemory> {
        match trial_read(alloc, rules, bytes) {
            Ok(trial) => outcomes(alloc, rules, &trial),
            Err(CaseError::Fault(fault)) => Ok(Reply::CaseRefused(fault)),
            Err(CaseError::NoMemory) => Err(NoMemory),
        }
    }
}

/// The reply to the command.
pub fn integrate<H: Shelf>(
    alloc: Global,
    shelf: &mut H,
    function: &str,
    case: &str,
) -> Result<Reply, Stop>
    requires function { H.offered shelf.old function.now }
    requires case { GoesOnBehind (H.holds shelf.old function.now) → H.offered shelf.old case.now }

    ensures ok { IfOk result (λ reply. IsReplyTo (H.holds shelf.old) (Integrate function.now case.now) reply) }
    ensures given { IfOk result (IsReplyOfGiven (H.reads shelf.old) (H.reads shelf.new)
        (Integrate function.now case.now)) }
    ensures shelf { IsErrOf result Stop.Shelf → Rose (H.faults shelf.old) (H.faults shelf.new) }
    ensures unchanged { Unchanged H.holds H.offered H.faults shelf.old shelf.new }
{
    reply_to_both::<ByCase<Integrating>, H>(alloc, shelf, function, case)
}
