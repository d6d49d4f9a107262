//! `reverse FUNCTION OTHER`: whether a second function takes back what the first one makes.
ghost use Rattle.std.specs.Prelude.{IfOk, IsErrOf};
ghost use Rattle.ot_outside.specs.Faults.{Rose};
ghost use Rattle.ot_outside.specs.Unchanged.{Unchanged};
ghost use Rattle.ot_words.specs.Commands as commands;
ghost use Rattle.ot_commands.specs.Given.{IsReplyOfGiven};
ghost use Rattle.ot_commands.specs.Load.{GoesOnBehind};
ghost use Rattle.ot_commands.specs.Replies.{IsReplyTo};

use crate::load::Stop;
use crate::two_files::reply_to_both;
use crate::two_functions::{ByPair, PairCommand};
use fn_rules::Rules;
use ot_model::NoMemory;
use ot_outside::Shelf;
use ot_replies::Reply;
use ot_reverse::{are_alike, reverses};
use ot_words::MOST_QUESTIONS;
use std::alloc::Global;

// A second function takes back what the first one makes, or does not.
struct Reversing;

impl PairCommand for Reversing {
    ghost use Rattle.ot_commands.specs.Reverse.{IsReplyToReversal};

    ghost gets = { IsReplyToReversal };

    fn reply(alloc: Global, rules: &Rules, others: &Rules) -> Result<Reply, NoMemory> {
        if are_alike(rules, others) {
            let back = reverses(alloc, rules, others, MOST_QUESTIONS)?;
            return Ok(Reply::Reversed(back));
        }
        Ok(Reply::Unlike)
    }
}

/// The reply to the command. The second function's file is opened only behind a first one that is read.
pub fn reverse<H: Shelf>(
    alloc: Global,
    shelf: &mut H,
    function: &str,
    other: &str,
) -> Result<Reply, Stop>
    requires function { H.offered shelf.old function.now }
    requires other { GoesOnBehind (H.holds shelf.old function.now) → H.offered shelf.old other.now }

    ensures ok { IfOk result (λ reply. IsReplyTo (H.holds shelf.old) (commands.Reverse function.now other.now) reply) }
    ensures given { IfOk result (IsReplyOfGiven (H.reads shelf.old) (H.reads shelf.new)
        (commands.Reverse function.now other.now)) }
    ensures shelf { IsErrOf result Stop.Shelf → Rose (H.faults shelf.old) (H.faults shelf.new) }
    ensures unchanged { Unchanged H.holds H.offered H.faults shelf.old shelf.new }
{
    reply_to_both::<ByPair<Reversing>, H>(alloc, shelf, function, other)
}
