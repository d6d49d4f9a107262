//! `same FUNCTION OTHER`: whether two functions agree.
ghost use Rattle.std.specs.Prelude.{IfOk, IsErrOf};
ghost use Rattle.ot_outside.specs.Faults.{Rose};
ghost use Rattle.ot_outside.specs.Unchanged.{Unchanged};
ghost use Rattle.ot_words.specs.Commands as commands;
ghost use Rattle.ot_commands.specs.Given.{IsReplyOfGiven};
ghost use Rattle.ot_commands.specs.Load.{GoesOnBehind};
ghost use Rattle.ot_commands.specs.Replies.{IsReplyTo};

use crate::load::Stop;
use crate::two_files::reply_to_both;
use crate::two_functions::{ByPair, PairCommand};
use fn_rules::Rules;
use ot_audit::same_all;
use ot_model::NoMemory;
use ot_outside::Shelf;
use ot_replies::Reply;
use ot_words::MOST_QUESTIONS;
use std::alloc::Global;

// Two functions are compared, with so many questions as are allowed.
struct Comparing;

impl PairCommand for Comparing {
    ghost use Rattle.ot_commands.specs.Same.{IsReplyToTwo};

    ghost gets = { IsReplyToTwo };

    fn reply(alloc: Global, rules: &Rules, others: &Rules) -> Result<Reply, NoMemory> {
        let same = same_all(alloc, rules, others, MOST_QUESTIONS)?;
        Ok(Reply::Compared(same))
    }
}

/// The reply to the command. The second function's file is opened only behind a first one that is read.
pub fn same<H: Shelf>(
    alloc: Global,
    shelf: &mut H,
    function: &str,
    other: &str,
) -> Result<Reply, Stop>
    requires function { H.offered shelf.old function.now }
    requires other { GoesOnBehind (H.holds shelf.old function.now) → H.offered shelf.old other.now }

    ensures ok { IfOk result (λ reply. IsReplyTo (H.holds shelf.old) (commands.Same function.now other.now) reply) }
    ensures given { IfOk result (IsReplyOfGiven (H.reads shelf.old) (H.reads shelf.new)
        (commands.Same function.now other.now)) }
    ensures shelf { IsErrOf result Stop.Shelf → Rose (H.faults shelf.old) (H.faults shelf.new) }
    ensures unchanged { Unchanged H.holds H.offered H.faults shelf.old shelf.new }
{
    reply_to_both::<ByPair<Comparing>, H>(alloc, shelf, function, other)
}
