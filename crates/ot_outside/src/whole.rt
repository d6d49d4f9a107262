// A whole file, and all of some bytes.
ghost use Rattle.std.specs.Prelude.{◌≡◌, ◌<◌, ◌≤◌, ◌+◌, ◌++◌, ◌↔◌, ℕ, List, [], length, OnOk, OnErr, IsErrOf};
ghost use Rattle.std.specs.Option.{ForSome};
ghost use Rattle.ot_outside.specs.Faults.{Rose};
ghost use Rattle.ot_outside.specs.Reads.{after_reading};
ghost use Rattle.ot_outside.specs.Whole.{AppendsFront, IsFront};
ghost use Rattle.ot_outside.specs.declared.whole.ReadError.TheVariants as end;

use crate::shelf::PIECE;
use crate::{Failed, NoMemory, Shelf, Sink};

/// How many bytes a file has room for from the first on. Pages of it that nobody writes to take no memory, and a file
/// that fits is not moved while it grows.
const ROOM: usize = 1_048_576;

/// Why a file was not read to its end.
#[derive(Clone, Copy, PartialEq, Eq)]
pub enum ReadError {
    /// The shelf failed; its count of faults rose.
    Failed,

    /// The file has more bytes than the limit.
    TooLong,

    /// The allocator refused memory.
    NoMemory,
}

impl From<Failed> for ReadError {
    ghost from_gives = { λ _ e. e ≡ end.Failed };

    fn from(_: Failed) -> ReadError {
        ReadError::Failed
    }
}

impl From<NoMemory> for ReadError {
    ghost from_gives = { λ _ e. e ≡ end.NoMemory };

    fn from(_: NoMemory) -> ReadError {
        ReadError::NoMemory
    }
}

/// Reads a file of at most `limit` bytes into `into`.
///
/// At `TooLong`, exactly where the file has more bytes, `into` holds its first `limit` bytes. At
/// `Failed`, only where the shelf's faults rose, and at `NoMemory` it holds a front of the file.
/// The shelf is asked to read at most `limit + 1` times: each time gives at least a byte, or is the last.
pub fn read_all<H: Shelf>(
    shelf: &mut H,
    name: &str,
    limit: usize,
    into: &mut Vec<u8>,
) -> Result<(), ReadError>
    requires empty { into.old.items ≡ [] }
    requires offered { H.offered shelf.old name.now }

    ensures ok { OnOk result (ForSome (H.holds shelf.old name.now) (λ contents. into.new.items ≡ contents)) }
    ensures front { ForSome (H.holds shelf.old name.now) (IsFront into.new.items) }

    // Whether or not the shelf tells what the name holds: what its calls gave is what `into` holds, or goes on behind
    // it.
    ensures read { H.reads shelf.new ≡ after_reading name.now (H.reads shelf.new).bytes (H.reads shelf.old) }
    ensures given { OnOk result ((H.reads shelf.new).bytes ≡ into.new.items) }
    ensures given_front { IsFront into.new.items (H.reads shelf.new).bytes }
    ensures given_more { IsErrOf result ReadError.TooLong → limit < length (H.reads shelf.new).bytes }
    ensures within { length into.new.items ≤ limit }

    ensures holds { (n : List ℕ) → H.holds shelf.new n ≡ H.holds shelf.old n }
    ensures offered { (n : List ℕ) → H.offered shelf.old n ↔ H.offered shelf.new n }
    ensures faults { H.faults shelf.old ≤ H.faults shelf.new }

    // One call to open the file, and those to read it.
    ensures called { H.calls shelf.new ≤ H.calls shelf.old + limit + 2 }

    ensures failed { IsErrOf result ReadError.Failed → Rose (H.faults shelf.old) (H.faults shelf.new) }
    ensures too_long { IsErrOf result ReadError.TooLong
        → ForSome (H.holds shelf.old name.now) (λ contents. limit < length contents) }
    ensures full { IsErrOf result ReadError.TooLong → length into.new.items ≡ limit }
{
    shelf.open(name)?;
    into.reserve(limit.min(ROOM))?;
    let mut piece = [0u8; PIECE];
    'turns: loop {
        let count = shelf.read(&mut piece)?;
        if count == 0 {
            return Ok(());
        }
        let kept = count.min(limit - into.len());
        into.extend_from_slice(&piece[..kept])?;
        if kept < count {
            return Err(ReadError::TooLong);
        }
    }
}

/// Writes all the bytes. After `Failed` a front of them was taken. It takes no memory.
pub fn write_all<S: Sink>(sink: &mut S, bytes: &[u8]) -> Result<(), Failed>
    ensures ok { OnOk result (S.took sink.new ≡ S.took sink.old ++ bytes.now) }
    ensures err { OnErr result (AppendsFront (S.took sink.old) bytes.now (S.took sink.new)) }
    ensures faults { S.faults sink.old ≤ S.faults sink.new }

    ensures failed { OnErr result (Rose (S.faults sink.old) (S.faults sink.new)) }
{
    let mut done = 0;
    while done < bytes.len() {
        done += sink.write(&bytes[done..])?;
    }
    Ok(())
}
