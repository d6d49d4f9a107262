//! `settle [--tp1] [--budget N] FUNCTION`: a proof with lemmas of the function, or a counterexample.
ghost use Rattle.std.specs.Prelude.{IfOk, IsErrOf};
ghost use Rattle.ot_outside.specs.Faults.{Rose};
ghost use Rattle.ot_outside.specs.Unchanged.{Unchanged};
ghost use Rattle.ot_words.specs.Commands.{Settle};
ghost use Rattle.ot_commands.specs.Given.{IsReplyOfGiven};
ghost use Rattle.ot_commands.specs.Replies.{IsReplyTo};

use crate::load::Stop;
use crate::one_file::{FunctionCommand, reply_to_one};
use crate::prove::broken_by;
use fn_rules::{Level, Rules};
use ot_model::NoMemory;
use ot_outside::Shelf;
use ot_replies::Reply;
use ot_settle::{Settled, settle_all};
use plain_list::List;
use std::alloc::Global;

// A function is settled at a level, by so many questions at the most.
#[derive(Drop)]
struct Settling {
    level: Level,
    budget: u64,
}

impl FunctionCommand for Settling {
    ghost use Rattle.ot_commands.specs.Settle.{IsReplyToSettle};

    ghost gets = { λ s f. IsReplyToSettle f s.level };

    fn reply(&self, alloc: Global, rules: &Rules) -> Result<Reply, NoMemory> {
        match settle_all(alloc, rules, self.level, self.budget)?.settled {
            Settled::Yes(bytes) => Ok(Reply::Proved(List::from_vec(bytes))),
            Settled::No { ob, answers, why } => broken_by(alloc, rules, ob, &answers, why),
            Settled::Spent(_) => Ok(Reply::Spent),
        }
    }
}

/// The reply to the command.
pub fn settle<H: Shelf>(
    alloc: Global,
    shelf: &mut H,
    level: Level,
    budget: u64,
    function: &str,
) -> Result<Reply, Stop>
    requires { H.offered shelf.old function.now }

    ensures ok { IfOk result (λ reply. IsReplyTo (H.holds shelf.old) (Settle level budget function.now) reply) }
    ensures given { IfOk result (IsReplyOfGiven (H.reads shelf.old) (H.reads shelf.new)
        (Settle level budget function.now)) }
    ensures shelf { IsErrOf result Stop.Shelf → Rose (H.faults shelf.old) (H.faults shelf.new) }
    ensures unchanged { Unchanged H.holds H.offered H.faults shelf.old shelf.new }
{
    reply_to_one(alloc, shelf, function, &Settling { level, budget })
}
