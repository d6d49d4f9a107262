//! `audit FUNCTION`: what the guards of a function reach.
ghost use Rattle.std.specs.Prelude.{IfOk, IsErrOf};
ghost use Rattle.ot_outside.specs.Faults.{Rose};
ghost use Rattle.ot_outside.specs.Unchanged.{Unchanged};
ghost use Rattle.ot_words.specs.Commands.{Audit};
ghost use Rattle.ot_commands.specs.Given.{IsReplyOfGiven};
ghost use Rattle.ot_commands.specs.Replies.{IsReplyTo};

use crate::load::Stop;
use crate::one_file::{FunctionCommand, reply_to_one};
use fn_rules::Rules;
use ot_audit::audit_all;
use ot_model::NoMemory;
use ot_outside::Shelf;
use ot_replies::Reply;
use ot_words::MOST_QUESTIONS;
use std::alloc::Global;

// The guards of a function are looked at, with so many questions as are allowed.
#[derive(Drop)]
struct Auditing;

impl FunctionCommand for Auditing {
    ghost use Rattle.ot_commands.specs.Audit.{IsReplyToAudit};

    ghost gets = { λ _. IsReplyToAudit };

    fn reply(&self, alloc: Global, rules: &Rules) -> Result<Reply, NoMemory> {
        let audit = audit_all(alloc, rules, MOST_QUESTIONS)?;
        Ok(Reply::Audited(audit))
    }
}

/// The reply to the command.
pub fn audit<H: Shelf>(alloc: Global, shelf: &mut H, function: &str) -> Result<Reply, Stop>
    requires { H.offered shelf.old function.now }

    ensures ok { IfOk result (λ reply. IsReplyTo (H.holds shelf.old) (Audit function.now) reply) }
    ensures given { IfOk result (IsReplyOfGiven (H.reads shelf.old) (H.reads shelf.new) (Audit function.now)) }
    ensures shelf { IsErrOf result Stop.Shelf → Rose (H.faults shelf.old) (H.faults shelf.new) }
    ensures unchanged { Unchanged H.holds H.offered H.faults shelf.old shelf.new }
{
    reply_to_one(alloc, shelf, function, &Auditing)
}
