//! `least [--cert] FUNCTION`: the shortest document on which a function breaks a property.
ghost use Rattle.std.specs.Prelude.{IfOk, IsErrOf};
ghost use Rattle.ot_outside.specs.Faults.{Rose};
ghost use Rattle.ot_outside.specs.Unchanged.{Unchanged};
ghost use Rattle.ot_words.specs.Commands.{Least};
ghost use Rattle.ot_commands.specs.Given.{IsReplyOfGiven};
ghost use Rattle.ot_commands.specs.Replies.{IsReplyTo};

use crate::load::Stop;
use crate::one_file::{FunctionCommand, reply_to_one};
use crate::prove::counter_of;
use fn_rules::Rules;
use ot_least::{Short, shortest};
use ot_model::NoMemory;
use ot_outside::Shelf;
use ot_replies::Reply;
use ot_words::MOST_QUESTIONS;
use plain_list::List;
use std::alloc::Global;

// The shortest document is looked for: whether its certificate is asked for, or else its counterexample.
#[derive(Drop)]
struct Shortening {
    cert: bool,
}

impl FunctionCommand for Shortening {
    ghost use Rattle.ot_commands.specs.Least.{IsReplyToLeast};

    ghost gets = { λ s f. IsReplyToLeast f s.cert };

    fn reply(&self, alloc: Global, rules: &Rules) -> Result<Reply, NoMemory> {
        match shortest(alloc, rules, MOST_QUESTIONS)? {
            Short::Fine => Ok(Reply::Unbroken),
            Short::Least {
                ob,
                answers,
                why,
                cells,
                cert: bytes,
            } => {
                if self.cert {
                    return Ok(Reply::Certified(List::from_vec(bytes)));
                }
                let counter = counter_of(alloc, rules, ob, &answers, why)?;
                Ok(Reply::Shortest(counter, cells))
            }
            Short::TooLong => Ok(Reply::BoundTooLong),
            Short::Spent => Ok(Reply::Spent),
        }
    }
}

/// The reply to the command.
pub fn least<H: Shelf>(
    alloc: Global,
    shelf: &mut H,
    cert: bool,
    function: &str,
) -> Result<Reply, Stop>
    requires { H.offered shelf.old function.now }

    ensures ok { IfOk result (λ reply. IsReplyTo (H.holds shelf.old) (Least cert function.now) reply) }
    ensures given { IfOk result (IsReplyOfGiven (H.reads shelf.old) (H.reads shelf.new) (Least cert function.now)) }
    ensures shelf { IsErrOf result Stop.Shelf → Rose (H.faults shelf.old) (H.faults shelf.new) }
    ensures unchanged { Unchanged H.holds H.offered H.faults shelf.old shelf.new }
{
    reply_to_one(alloc, shelf, function, &Shortening { cert })
}
