//! Commands that open a function's file, and behind a function that is read another one.
ghost use Rattle.std.specs.Prelude.{IfOk, IsErrOf};
ghost use Rattle.fn_rules.specs.Rules.{function_of};
ghost use Rattle.ot_outside.specs.Faults.{Rose};
ghost use Rattle.ot_outside.specs.Unchanged.{Unchanged};
ghost use Rattle.ot_commands.specs.Facts.{FunctionAnd, IsSteadyUnder};
ghost use Rattle.ot_commands.specs.Given.{IsReplyOfOpened};
ghost use Rattle.ot_commands.specs.Load.{GoesOnBehind};
ghost use Rattle.ot_commands.specs.Replies.{IsReplyToOpened};

use crate::load::{Stop, load_function};
use fn_rules::Rules;
use ot_outside::Shelf;
use ot_replies::{Reply, Subject};
use std::alloc::Global;

/// A command on a function and another file.
pub(crate) trait FileCommand {
    ghost use Rattle.std.specs.Prelude.{◌≡◌, ◌≢◌, ℕ, List, Option};
    ghost use Rattle.fn_rules.specs.Functions.{Function};
    ghost use Rattle.ot_outside.specs.Reads.{after_reading};
    ghost use Rattle.ot_replies.specs.declared.reply.Reply.{Reply};
    ghost use Rattle.ot_replies.specs.Texts.{status_of};
    ghost use Rattle.ot_commands.specs.Given.{ForTold};

    /// The reply that a function gets, of what is told of the other file.
    ghost gets: { Function → Option (List ℕ) → Reply → Type 0 };

    /// Under such a function the status is not 1.
    ghost agrees: { Function → Type 0 };

    /// The reply to the other file.
    fn reply<H: Shelf>(
        alloc: Global,
        shelf: &mut H,
        rules: &Rules,
        name: &str,
    ) -> Result<Reply, Stop>
        requires { H.offered shelf.old name.now }
        ensures ok { IfOk result (gets (function_of rules.now) (H.holds shelf.old name.now)) }
        ensures steady { agrees (function_of rules.now) → IfOk result (λ reply. status_of reply ≢ 1) }
        ensures given { IfOk result (λ reply. ForTold (H.reads shelf.new).bytes
            (λ told. gets (function_of rules.now) told reply)) }
        ensures read { H.reads shelf.new ≡ after_reading name.now (H.reads shelf.new).bytes (H.reads shelf.old) }
        ensures shelf { IsErrOf result Stop.Shelf → Rose (H.faults shelf.old) (H.faults shelf.new) }
        ensures unchanged { Unchanged H.holds H.offered H.faults shelf.old shelf.new };
}

/// The reply to a function's file, and then to the other one, which is opened only behind a function that is read.
pub(crate) fn reply_to_both<C: FileCommand, H: Shelf>(
    alloc: Global,
    shelf: &mut H,
    function: &str,
    other: &str,
) -> Result<Reply, Stop>
    requires function { H.offered shelf.old function.now }
    requires other { GoesOnBehind (H.holds shelf.old function.now) → H.offered shelf.old other.now }

    ensures ok { IfOk result (IsReplyToOpened (H.holds shelf.old) (FunctionAnd function.now other.now C.gets)) }
    ensures steady { IfOk result (IsSteadyUnder C.agrees function.now (H.holds shelf.old)) }
    ensures given { IfOk result (IsReplyOfOpened (H.reads shelf.old) (H.reads shelf.new)
        (FunctionAnd function.now other.now C.gets) (IsSteadyUnder C.agrees function.now)) }
    ensures shelf { IsErrOf result Stop.Shelf → Rose (H.faults shelf.old) (H.faults shelf.new) }
    ensures unchanged { Unchanged H.holds H.offered H.faults shelf.old shelf.new }
{
    match load_function(alloc, shelf, Subject::First, function)? {
        Ok(rules) => C::reply(alloc, shelf, &rules, other),
        Err(reply) => Ok(reply),
    }
}
