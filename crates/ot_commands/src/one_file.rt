//! Commands that open one file: that of a function.
ghost use Rattle.std.specs.Prelude.{IfOk, IsErrOf};
ghost use Rattle.fn_rules.specs.Rules.{function_of};
ghost use Rattle.ot_outside.specs.Faults.{Rose};
ghost use Rattle.ot_outside.specs.Unchanged.{Unchanged};
ghost use Rattle.ot_commands.specs.Facts.{NothingMore, OneFunction};
ghost use Rattle.ot_commands.specs.Given.{IsReplyOfOpened};
ghost use Rattle.ot_commands.specs.Replies.{IsReplyToOpened};

use crate::load::{Stop, load_function, reply_or_stop};
use fn_rules::Rules;
use ot_model::NoMemory;
use ot_outside::Shelf;
use ot_replies::{Reply, Subject};
use std::alloc::Global;

/// A command on a function, with what else its words say.
pub(crate) trait FunctionCommand: Drop {
    ghost use Rattle.fn_rules.specs.Functions.{Function};
    ghost use Rattle.ot_replies.specs.declared.reply.Reply.{Reply};

    /// The reply that a function gets.
    ghost gets: { Self → Function → Reply → Type 0 };

    /// The reply to a function.
    fn reply(&self, alloc: Global, rules: &Rules) -> Result<Reply, NoMemory>
        ensures { IfOk result (gets self.now (function_of rules.now)) };
}

/// The reply to a function's file, and then the one that its function gets.
pub(crate) fn reply_to_one<C: FunctionCommand, H: Shelf>(
    alloc: Global,
    shelf: &mut H,
    function: &str,
    command: &C,
) -> Result<Reply, Stop>
    requires { H.offered shelf.old function.now }

    ensures ok { IfOk result (IsReplyToOpened (H.holds shelf.old) (OneFunction function.now (C.gets command.now))) }
    ensures given { IfOk result (IsReplyOfOpened (H.reads shelf.old) (H.reads shelf.new)
        (OneFunction function.now (C.gets command.now)) NothingMore) }
    ensures shelf { IsErrOf result Stop.Shelf → Rose (H.faults shelf.old) (H.faults shelf.new) }
    ensures unchanged { Unchanged H.holds H.offered H.faults shelf.old shelf.new }
{
    match load_function(alloc, shelf, Subject::First, function)? {
        Ok(rules) => reply_or_stop(command.reply(alloc, &rules)),
        Err(reply) => Ok(reply),
    }
}
