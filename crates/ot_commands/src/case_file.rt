//! Commands whose other file is a case, a session or a hub, which is read as a whole.
ghost use Rattle.std.specs.Prelude.{◌≢◌, ◌≤◌, length, IfOk};
ghost use Rattle.fn_rules.specs.Rules.{function_of};
ghost use Rattle.ot_replies.specs.Limits.{limit_of};
ghost use Rattle.ot_replies.specs.Texts.{status_of};
ghost use Rattle.ot_replies.specs.declared.reply.FileKind.TheVariants as files;

use crate::load::{Stop, read_file, reply_or_stop};
use crate::two_files::FileCommand;
use fn_rules::Rules;
use ot_model::NoMemory;
use ot_outside::Shelf;
use ot_replies::{FileKind, Reply};
use std::alloc::Global;
use std::marker::PhantomData;

/// A command on a function and the bytes of a case.
pub(crate) trait CaseCommand {
    ghost use Rattle.std.specs.Prelude.{ℕ, List};
    ghost use Rattle.fn_rules.specs.Functions.{Function};
    ghost use Rattle.ot_replies.specs.declared.reply.Reply.{Reply};

    /// The reply that a function and bytes get.
    ghost gets: { Function → List ℕ → Reply → Type 0 };

    /// Under such a function the status is not 1.
    ghost agrees: { Function → Type 0 };

    /// The reply to the bytes.
    fn reply(alloc: Global, rules: &Rules, bytes: &[u8]) -> Result<Reply, NoMemory>
        requires { length bytes.now ≤ limit_of files.Case }
        ensures reply { IfOk result (gets (function_of rules.now) bytes.now) }
        ensures steady { agrees (function_of rules.now) → IfOk result (λ reply. status_of reply ≢ 1) };
}

/// The command on the file of a case.
pub(crate) struct ByCase<C>(PhantomData<C>);

impl<C: CaseCommand> FileCommand for ByCase<C> {
    ghost use Rattle.ot_commands.specs.Load.{IsReplyToFile};

    ghost gets = { λ f told r. IsReplyToFile files.Case told (λ bytes. C.gets f bytes r) r };

    ghost agrees = { C.agrees };

    fn reply<H: Shelf>(
        alloc: Global,
        shelf: &mut H,
        rules: &Rules,
        name: &str,
    ) -> Result<Reply, Stop> {
        match read_file(alloc, shelf, name, FileKind::Case)? {
            Ok(bytes) => reply_or_stop(C::reply(alloc, rules, &bytes)),
            Err(reply) => Ok(reply),
        }
    }
}
