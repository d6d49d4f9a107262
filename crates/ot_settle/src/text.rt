//! The text of a proof, section by section.
ghost use Rattle.std.specs.Prelude.{◌≤◌, OnOk, length};

use ask_core::NoMemory;
use fn_rules::{Level, ObName};
use proof_text::{write_end, write_header, write_line_end, write_ob_line};
use std::alloc::Global;

/// How many bytes a proof has room for from the first on. Pages of it that nobody writes to take no memory, and a proof
/// that fits is not moved while it grows.
const ROOM: usize = 2_097_152;

/// The text of a proof so far.
#[derive(Drop)]
pub(crate) struct Text {
    pub bytes: Vec<u8>,

    /// How many bytes stand before the sections.
    begun: usize,

    /// How many bytes stand before what comes after the sections of the pairs.
    pairs: usize,
}

impl Text {
    /// The first line of a proof of a level.
    pub(crate) fn new(alloc: Global, level: Level) -> Result<Text, NoMemory> {
        let mut bytes = Vec::with_capacity(alloc, ROOM)?;
        write_header(level, &mut bytes)?;
        let begun = bytes.len();
        Ok(Text {
            bytes,
            begun,
            pairs: begun,
        })
    }

    /// Begins the section of an obligation.
    pub(crate) fn begin_section(&mut self, ob: ObName) -> Result<(), NoMemory> {
        write_ob_line(ob, &mut self.bytes)
    }

    /// Ends the section of an obligation.
    pub(crate) fn end_section(&mut self, ob: ObName) -> Result<(), NoMemory>
        ensures { OnOk result (length self.old.bytes.items ≤ length self.new.bytes.items) }
    {
        write_line_end(&mut self.bytes)?;
        if let ObName::Pair(..) = ob {
            self.pairs = self.bytes.len();
        }
        Ok(())
    }

    /// The whole text.
    pub(crate) fn whole(self) -> Result<Vec<u8>, NoMemory> {
        let mut bytes = self.bytes;
        write_end(&mut bytes)?;
        Ok(bytes)
    }

    /// The sections of the pairs.
    pub(crate) fn pairs(&self) -> &[u8] {
        match self.bytes.get(self.begun..self.pairs) {
            Some(sections) => sections,
            None => &[],
        }
    }
}
