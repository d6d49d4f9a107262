//! `confirm FUNCTION PROOF`: whether the proof with lemmas is one of the function.
ghost use Rattle.std.specs.Prelude.{◌≡◌, Err, Some, IfOk, IsErrOf};
ghost use Rattle.ot_outside.specs.Faults.{Rose};
ghost use Rattle.ot_outside.specs.Unchanged.{Unchanged};
ghost use Rattle.ot_words.specs.Commands.{Confirm};
ghost use Rattle.ot_commands.specs.Confirm.{IsReplyBy, TellsJudgement, ends_early, rests_on_more};
ghost use Rattle.ot_commands.specs.Given.{IsReplyOfGiven};
ghost use Rattle.ot_commands.specs.Load.{GoesOnBehind};
ghost use Rattle.ot_commands.specs.Replies.{IsReplyTo};

use crate::load::{Stop, limit};
use crate::two_files::{FileCommand, reply_to_both};
use fn_rules::{Level, Rules};
use ot_confirm::{judge_proof, refusals_stand};
use ot_outside::{ReadError, Shelf, read_all};
use ot_replies::{FileKind, Reply};
use proof_sections::{ConfirmError, ProofRefusal};
use std::alloc::Global;

fn ends_early(why: ProofRefusal) -> bool
    ensures { result ≡ ends_early why }
{
    match why {
        ProofRefusal::Truncated => true,
        _ => false,
    }
}

// Whether more bytes could change the judgement.
fn rests_on_more(judgement: &Result<Level, ConfirmError>) -> bool
    ensures { result ≡ rests_on_more judgement.now }
{
    match judgement {
        Ok(_) => true,
        Err(ConfirmError::Refused { why, .. }) => ends_early(*why),
        Err(ConfirmError::NoMemory) => false,
    }
}

// The reply that tells a judgement.
fn told(judgement: Result<Level, ConfirmError>) -> Result<Reply, Stop>
    ensures ok { IfOk result (λ reply. TellsJudgement judgement reply) }
    ensures no_shelf { IsErrOf result Stop.Shelf → ⊥ }
{
    match judgement {
        Ok(level) => Ok(Reply::Confirmed(level)),
        Err(ConfirmError::Refused { offset, why }) => Ok(Reply::ProofRefused { offset, why }),
        Err(ConfirmError::NoMemory) => Err(Stop::NoMemory),
    }
}

// The reply to what was read of a proof's file, by how reading ended: a refusal that no further byte can change comes
// first.
fn reply_by(
    read: Result<(), ReadError>,
    judgement: Result<Level, ConfirmError>,
) -> Result<Reply, Stop>
    ensures ok { IfOk result (IsReplyBy read judgement) }
    ensures shelf { IsErrOf result Stop.Shelf → read ≡ Err ReadError.Failed }
{
    let rests = rests_on_more(&judgement);
    match read {
        Ok(()) => told(judgement),
        Err(ReadError::TooLong) if rests => Ok(Reply::TooLong(FileKind::Proof)),
        Err(ReadError::TooLong) => told(judgement),
        Err(ReadError::Failed) if rests => Err(Stop::Shelf),
        Err(ReadError::Failed) => told(judgement),
        Err(ReadError::NoMemory) => Err(Stop::NoMemory),
    }
}

// A proof is judged: no more bytes of its file than it may have. Where it is too long, or a read fails, what was read
// of it is judged: a refusal that no further byte can change comes first.
struct Confirming;

impl FileCommand for Confirming {
    ghost use Rattle.ot_commands.specs.Confirm.{IsReplyToConfirmed};

    ghost gets = { IsReplyToConfirmed };

    ghost agrees = { λ f. ⊥ };

    fn reply<H: Shelf>(
        alloc: Global,
        shelf: &mut H,
        rules: &Rules,
        name: &str,
    ) -> Result<Reply, Stop> {
        refusals_stand();
        let mut bytes = Vec::new(alloc);
        let read = read_all(shelf, name, limit(FileKind::Proof), &mut bytes);
        let judgement = judge_proof(alloc, rules, &bytes);
        reply_by(read, judgement)
    }
}

/// The reply to the command.
pub fn confirm<H: Shelf>(
    alloc: Global,
    shelf: &mut H,
    function: &str,
    proof: &str,
) -> Result<Reply, Stop>
    requires function { H.offered shelf.old function.now }
    requires proof { GoesOnBehind (H.holds shelf.old function.now) → H.offered shelf.old proof.now }

    ensures ok { IfOk result (λ reply. IsReplyTo (H.holds shelf.old) (Confirm function.now proof.now) reply) }
    ensures given { IfOk result (IsReplyOfGiven (H.reads shelf.old) (H.reads shelf.new)
        (Confirm function.now proof.now)) }
    ensures shelf { IsErrOf result Stop.Shelf → Rose (H.faults shelf.old) (H.faults shelf.new) }
    ensures unchanged { Unchanged H.holds H.offered H.faults shelf.old shelf.new }
{
    reply_to_both::<Confirming, H>(alloc, shelf, function, proof)
}
