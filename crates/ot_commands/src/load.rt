//! Files as they are read, and why a command gets no reply.
ghost use Rattle.std.specs.Prelude.{◌≡◌, ◌≤◌, length, Some, Ok, IfErr, IfOk, IsErrOf};
ghost use Rattle.fn_rules.specs.Rules.{function_of};
ghost use Rattle.ot_outside.specs.Faults.{Rose};
ghost use Rattle.ot_outside.specs.Reads.{after_reading};
ghost use Rattle.ot_outside.specs.Unchanged.{Unchanged};
ghost use Rattle.ot_replies.specs.Limits.{limit_of, IsTooLong};
ghost use Rattle.ot_replies.specs.declared.reply.FileKind.TheVariants as files;
ghost use Rattle.ot_commands.specs.Load.{Holds, IsFunctionRefusal, IsReadAs};

use fn_rules::Rules;
use fn_text::{TextError, read};
use ot_model::NoMemory;
use ot_outside::{Failed, ReadError, Shelf, read_all};
use ot_replies::{FileKind, Reply, Subject};
use std::alloc::Global;

/// Why a command gets no reply.
#[derive(Clone, Copy)]
pub enum Stop {
    /// The shelf failed; its count of faults rose.
    Shelf,

    /// The allocator refused memory.
    NoMemory,
}

impl From<NoMemory> for Stop {
    ghost use Rattle.ot_commands.specs.declared.load.Stop.TheVariants as stop;

    ghost from_gives = { λ _ e. e ≡ stop.NoMemory };

    fn from(_: NoMemory) -> Stop {
        Stop::NoMemory
    }
}

impl From<Failed> for Stop {
    ghost use Rattle.ot_commands.specs.declared.load.Stop.TheVariants as stop;

    ghost from_gives = { λ _ e. e ≡ stop.Shelf };

    fn from(_: Failed) -> Stop {
        Stop::Shelf
    }
}

/// A reply, unless memory was refused.
pub(crate) fn reply_or_stop(reply: Result<Reply, NoMemory>) -> Result<Reply, Stop>
    ensures ok { IfOk result (λ r. reply ≡ Ok r) }
    ensures no_shelf { IsErrOf result Stop.Shelf → ⊥ }
{
    Ok(reply?)
}

/// The most bytes of a file.
pub(crate) fn limit(kind: FileKind) -> usize
    ensures { result ≡ limit_of kind }
{
    match kind {
        FileKind::Function => 1_048_576,
        FileKind::Certificate => 83_886_080,
        FileKind::Proof => 83_886_080,
        FileKind::Case => 16_777_216,
    }
}

/// The bytes of a file within its limit, or the reply to a file that is longer.
pub(crate) fn read_file<H: Shelf>(
    alloc: Global,
    shelf: &mut H,
    name: &str,
    kind: FileKind,
) -> Result<Result<Vec<u8>, Reply>, Stop>
    requires { H.offered shelf.old name.now }

    ensures ok { IfOk result (λ answer. IfOk answer (λ bytes. Holds kind bytes.items (H.holds shelf.old name.now))) }
    ensures replied { IfOk result (λ answer. IfErr answer (IsTooLong kind (H.holds shelf.old name.now))) }

    // Of what the calls gave, whether or not the shelf tells what the name holds.
    ensures read { H.reads shelf.new ≡ after_reading name.now (H.reads shelf.new).bytes (H.reads shelf.old) }
    ensures given { IfOk result (λ answer. IfOk answer
        (λ bytes. Holds kind bytes.items (Some (H.reads shelf.new).bytes))) }
    ensures given_replied { IfOk result (λ answer. IfErr answer (IsTooLong kind (Some (H.reads shelf.new).bytes))) }

    ensures shelf { IsErrOf result Stop.Shelf → Rose (H.faults shelf.old) (H.faults shelf.new) }
    ensures unchanged { Unchanged H.holds H.offered H.faults shelf.old shelf.new }
{
    let mut bytes = Vec::new(alloc);
    match read_all(shelf, name, limit(kind), &mut bytes) {
        Ok(()) => Ok(Ok(bytes)),
        Err(ReadError::TooLong) => Ok(Err(Reply::TooLong(kind))),
        Err(ReadError::Failed) => Err(Stop::Shelf),
        Err(ReadError::NoMemory) => Err(Stop::NoMemory),
    }
}

// The function of a file's bytes, or the reply to bytes that are refused.
fn function_in(alloc: Global, subject: Subject, bytes: &[u8]) -> Result<Result<Rules, Reply>, Stop>
    requires { length bytes.now ≤ limit_of files.Function }
    ensures ok { IfOk result (λ answer. IfOk answer (λ rules. IsReadAs (Ok (function_of rules)) (Some bytes.now))) }
    ensures replied { IfOk result (λ answer. IfErr answer (IsFunctionRefusal subject (Some bytes.now))) }
    ensures no_shelf { IsErrOf result Stop.Shelf → ⊥ }
{
    match read(alloc, bytes) {
        Ok(rules) => Ok(Ok(rules)),
        Err(TextError::Fault(fault)) => Ok(Err(Reply::FunctionRefused(subject, fault))),
        Err(TextError::NoMemory) => Err(Stop::NoMemory),
    }
}

/// The function of a file, or the reply to a file that is refused, which says which of the functions is meant.
pub(crate) fn load_function<H: Shelf>(
    alloc: Global,
    shelf: &mut H,
    subject: Subject,
    name: &str,
) -> Result<Result<Rules, Reply>, Stop>
    requires { H.offered shelf.old name.now }

    ensures ok { IfOk result (λ answer. IfOk answer (λ rules. IsReadAs (Ok (function_of rules))
        (H.holds shelf.old name.now))) }
    ensures replied { IfOk result (λ answer. IfErr answer (IsFunctionRefusal subject (H.holds shelf.old name.now))) }

    // Of what the calls gave, whether or not the shelf tells what the name holds.
    ensures read { H.reads shelf.new ≡ after_reading name.now (H.reads shelf.new).bytes (H.reads shelf.old) }
    ensures given { IfOk result (λ answer. IfOk answer
        (λ rules. IsReadAs (Ok (function_of rules)) (Some (H.reads shelf.new).bytes))) }
    ensures given_replied { IfOk result (λ answer. IfErr answer
        (IsFunctionRefusal subject (Some (H.reads shelf.new).bytes))) }

    ensures shelf { IsErrOf result Stop.Shelf → Rose (H.faults shelf.old) (H.faults shelf.new) }
    ensures unchanged { Unchanged H.holds H.offered H.faults shelf.old shelf.new }
{
    match read_file(alloc, shelf, name, FileKind::Function)? {
        Ok(bytes) => function_in(alloc, subject, &bytes),
        Err(reply) => Ok(Err(reply)),
    }
}
