//! Commands on two functions, whose other file is that of the second one.
ghost use Rattle.std.specs.Prelude.{IfOk};
ghost use Rattle.fn_rules.specs.Rules.{function_of};

use crate::load::{Stop, load_function, reply_or_stop};
use crate::two_files::FileCommand;
use fn_rules::Rules;
use ot_model::NoMemory;
use ot_outside::Shelf;
use ot_replies::{Reply, Subject};
use std::alloc::Global;
use std::marker::PhantomData;

/// A command on two functions.
pub(crate) trait PairCommand {
    ghost use Rattle.fn_rules.specs.Functions.{Function};
    ghost use Rattle.ot_replies.specs.declared.reply.Reply.{Reply};

    /// The reply that two functions get.
    ghost gets: { Function → Function → Reply → Type 0 };

    /// The reply to the functions.
    fn reply(alloc: Global, rules: &Rules, others: &Rules) -> Result<Reply, NoMemory>
        ensures { IfOk result (gets (function_of rules.now) (function_of others.now)) };
}

/// The command on the file of a second function.
pub(crate) struct ByPair<C>(PhantomData<C>);

impl<C: PairCommand> FileCommand for ByPair<C> {
    ghost use Rattle.ot_commands.specs.Load.{IsReplyToFunction};
    ghost use Rattle.ot_replies.specs.declared.reply.Subject.TheVariants.{Second};

    ghost gets = { λ f told r. IsReplyToFunction Second told (λ g. C.gets f g r) r };

    ghost agrees = { λ f. ⊥ };

    fn reply<H: Shelf>(
        alloc: Global,
        shelf: &mut H,
        rules: &Rules,
        name: &str,
    ) -> Result<Reply, Stop> {
        match load_function(alloc, shelf, Subject::Second, name)? {
            Ok(others) => reply_or_stop(C::reply(alloc, rules, &others)),
            Err(reply) => Ok(reply),
        }
    }
}
