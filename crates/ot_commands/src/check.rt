//! `check FUNCTION CERTIFICATE`: whether the certificate is one of the function.
ghost use Rattle.std.specs.Prelude.{IfOk, IsErrOf};
ghost use Rattle.ot_outside.specs.Faults.{Rose};
ghost use Rattle.ot_outside.specs.Unchanged.{Unchanged};
ghost use Rattle.ot_words.specs.Commands.{Check};
ghost use Rattle.ot_commands.specs.Given.{IsReplyOfGiven};
ghost use Rattle.ot_commands.specs.Load.{GoesOnBehind};
ghost use Rattle.ot_commands.specs.Replies.{IsReplyTo};

use crate::certificate::ByCertificate;
use crate::load::Stop;
use crate::two_files::reply_to_both;
use fn_rules::Level;
use ot_outside::Shelf;
use ot_replies::Reply;
use std::alloc::Global;

/// The reply to the command.
pub fn check<H: Shelf>(
    alloc: Global,
    shelf: &mut H,
    function: &str,
    certificate: &str,
) -> Result<Reply, Stop>
    requires function { H.offered shelf.old function.now }
    requires certificate { GoesOnBehind (H.holds shelf.old function.now) → H.offered shelf.old certificate.now }

    ensures ok { IfOk result (λ reply. IsReplyTo (H.holds shelf.old) (Check function.now certificate.now) reply) }
    ensures given { IfOk result (IsReplyOfGiven (H.reads shelf.old) (H.reads shelf.new)
        (Check function.now certificate.now)) }
    ensures shelf { IsErrOf result Stop.Shelf → Rose (H.faults shelf.old) (H.faults shelf.new) }
    ensures unchanged { Unchanged H.holds H.offered H.faults shelf.old shelf.new }
{
    reply_to_both::<ByCertificate<Level>, H>(alloc, shelf, function, certificate)
}
