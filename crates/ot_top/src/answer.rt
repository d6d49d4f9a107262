//! From words and files to a reply.
ghost use Rattle.std.specs.Prelude.{◌≡◌, map, Err, IfOk, IfSome, IsErrOf, string_bytes};
ghost use Rattle.ot_outside.specs.Faults.{Rose};
ghost use Rattle.ot_outside.specs.Unchanged.{Unchanged};
ghost use Rattle.ot_words.specs.Commands.{asked_of};
ghost use Rattle.ot_commands.specs.Given.{IsAnswerOfGiven, IsReplyOfGiven};
ghost use Rattle.ot_commands.specs.Replies.{AreOffered, IsReply, IsReplyTo};
ghost use Rattle.ot_commands.specs.Steady.{AreSteady, IsSteadyReply};
ghost use Rattle.ot_words.specs.Words.{IsWithinBounds, asked_by};

use ot_commands::audit::audit;
use ot_commands::bound::bound;
use ot_commands::check::check;
use ot_commands::confirm::confirm;
use ot_commands::drill::drill;
use ot_commands::explain::explain;
use ot_commands::hub::hub;
use ot_commands::integrate::integrate;
use ot_commands::least::least;
use ot_commands::load::Stop;
use ot_commands::mend::mend;
use ot_commands::prove::prove;
use ot_commands::replay::replay;
use ot_commands::reverse::reverse;
use ot_commands::same::same;
use ot_commands::settle::settle;
use ot_commands::template::template;
use ot_commands::trace::trace;
use ot_outside::Shelf;
use ot_replies::Reply;
use ot_words::{Command, read_words};
use std::alloc::Global;

// The reply to a command.
fn reply_to<H: Shelf>(alloc: Global, shelf: &mut H, command: &Command<'_>) -> Result<Reply, Stop>
    requires offered { AreOffered (H.holds shelf.old) (H.offered shelf.old) (asked_of command.now) }
    requires within { IsWithinBounds (asked_of command.now) }

    ensures ok { IfOk result (λ reply. IsReplyTo (H.holds shelf.old) (asked_of command.now) reply) }
    ensures steady { IfOk result (λ reply. IsSteadyReply (H.holds shelf.old) (asked_of command.now) reply) }
    ensures given { IfOk result (IsReplyOfGiven (H.reads shelf.old) (H.reads shelf.new) (asked_of command.now)) }
    ensures shelf { IsErrOf result Stop.Shelf → Rose (H.faults shelf.old) (H.faults shelf.new) }
    ensures unchanged { Unchanged H.holds H.offered H.faults shelf.old shelf.new }
{
    match *command {
        Command::Prove {
            level,
            budget,
            function,
        } => prove(alloc, shelf, level, budget, function),
        Command::Settle {
            level,
            budget,
            function,
        } => settle(alloc, shelf, level, budget, function),
        Command::Mend {
            level,
            edits,
            budget,
            function,
        } => mend(alloc, shelf, level, edits, budget, function),
        Command::Explain { level, function } => explain(alloc, shelf, level, function),
        Command::Check {
            function,
            certificate,
        } => check(alloc, shelf, function, certificate),
        Command::Integrate { function, case } => integrate(alloc, shelf, function, case),
        Command::Replay { function, session } => replay(alloc, shelf, function, session),
        Command::Hub {
            function,
            hub: name,
        } => hub(alloc, shelf, function, name),
        Command::Trace {
            events,
            function,
            file,
        } => trace(alloc, shelf, events, function, file),
        Command::Audit { function } => audit(alloc, shelf, function),
        Command::Same { function, other } => same(alloc, shelf, function, other),
        Command::Reverse { function, other } => reverse(alloc, shelf, function, other),
        Command::Least { cert, function } => least(alloc, shelf, cert, function),
        Command::Bound {
            function,
            certificate,
        } => bound(alloc, shelf, function, certificate),
        Command::Confirm { function, proof } => confirm(alloc, shelf, function, proof),
        Command::Template { level, head } => Ok(template(alloc, level, head)?),
        Command::Drill { number } => Ok(drill(alloc, number)?),
    }
}

/// The reply to words, in the order of refusals: the words, the function's file, the other file.
pub(crate) fn answer<H: Shelf>(
    alloc: Global,
    words: &[String],
    shelf: &mut H,
) -> Result<Reply, Stop>
    requires { IfSome (asked_by (map string_bytes words.now)) (AreOffered (H.holds shelf.old) (H.offered shelf.old)) }

    ensures ok { IfOk result (λ reply. IsReply (map string_bytes words.now) (H.holds shelf.old) reply) }
    ensures steady { IfOk result (λ reply. AreSteady (map string_bytes words.now) (H.holds shelf.old) reply) }
    ensures given { IfOk result (IsAnswerOfGiven (map string_bytes words.now) (H.reads shelf.old) (H.reads shelf.new)) }
    ensures shelf { IsErrOf result Stop.Shelf → Rose (H.faults shelf.old) (H.faults shelf.new) }
    ensures unchanged { Unchanged H.holds H.offered H.faults shelf.old shelf.new }
{
    match read_words(alloc, words)? {
        Some(command) => reply_to(alloc, shelf, &command),
        None => Ok(Reply::Usage),
    }
}
