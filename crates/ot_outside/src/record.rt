//! What was read, which only clauses see. It takes no memory, and its calls do nothing at run time.
ghost use Rattle.std.specs.Prelude.{◌≡◌, ℕ, List, [], if◌then◌else◌};
ghost use Rattle.std.specs.Borrow.{ftrue};

use std::marker::{Model, PhantomData};

/// What was given of files. Nothing ties it to the machine: who reads must note it.
#[derive(Drop)]
pub(crate) struct Record {
    marker: PhantomData<u8>,

    // The name that was opened last, what was given of it, and the same of each earlier opening.
    pub(crate) ghost name: { List ℕ },
    pub(crate) ghost bytes: { List ℕ },
    pub(crate) ghost before: { List (List ℕ × List ℕ) },
}

impl Model for Record {
    ghost also_owns = { λ _. ftrue };
}

impl Record {
    ghost use Rattle.ot_outside.specs.Reads.{after_reading, gone_on, no_reads, reads_of};

    pub(crate) fn new() -> Record
        ensures { reads_of result ≡ no_reads }
    {
        Record {
            marker: PhantomData,
        }
    }

    // Notes that a name is opened.
    pub(crate) fn begin(&mut self, name: &[u8])
        ensures { reads_of self.new ≡ after_reading name.now [] (reads_of self.old) }
    {
        self.add(true, name)
    }

    // Notes bytes that were given of it.
    pub(crate) fn note(&mut self, piece: &[u8])
        ensures { reads_of self.new ≡ gone_on piece.now (reads_of self.old) }
    {
        self.add(false, piece)
    }

    // Notes the bytes of a name that is opened, or else bytes that were given of the name before.
    fn add(&mut self, _is_name: bool, _bytes: &[u8])
        ensures { reads_of self.new ≡ (if _is_name then after_reading _bytes.now [] (reads_of self.old)
            else gone_on _bytes.now (reads_of self.old)) }
    {}
}
