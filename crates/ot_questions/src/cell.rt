//! What a cell of a final document is made of.
ghost use Rattle.std.specs.Prelude.{◌≡◌};
ghost use Rattle.ot_questions.specs.Reading as readings;

use crate::why::Why;

/// Where the character of a cell comes from.
#[derive(Clone, Copy, PartialEq, Eq)]
pub enum Source {
    /// The document that both sides come from, at the index plus this offset.
    Base(i32),

    /// An insertion or an update whose character has this name.
    Named(u8),
}

/// Whether a cell is live.
#[derive(Clone, Copy, PartialEq, Eq)]
pub enum Flag {
    Live,
    Dead,

    /// As the cell at the index plus this offset of the document that both sides come from.
    From(i32),
}

/// A cell that has been read through all operations, down to what it is made of.
#[derive(Clone, Copy, PartialEq, Eq)]
pub struct Finished {
    pub source: Source,
    pub flag: Flag,
}

impl Finished {
    /// The cell of the base document at the index plus an offset.
    pub fn base(off: i32) -> Finished
        ensures { result ≡ readings.base_cell off }
    {
        Finished {
            source: Source::Base(off),
            flag: Flag::From(off),
        }
    }

    /// A character that an insertion put.
    pub fn put(ch: u8) -> Finished
        ensures { result ≡ readings.put_cell ch }
    {
        Finished {
            source: Source::Named(ch),
            flag: Flag::Live,
        }
    }

    /// The tombstone of a cell.
    pub fn buried(self) -> Finished
        ensures { result ≡ readings.buried_cell self }
    {
        Finished {
            source: self.source,
            flag: Flag::Dead,
        }
    }

    /// The cell with the character of an update.
    pub fn replaced(self, ch: u8) -> Finished
        ensures { result ≡ readings.replaced_cell ch self }
    {
        Finished {
            source: Source::Named(ch),
            flag: self.flag,
        }
    }

    /// The cause where two cells differ.
    pub fn cause_beside(self, right: Finished) -> Why
        ensures { result ≡ readings.cells_cause self right }
    {
        let dead = match (self.source, right.source) {
            (Source::Named(_), Source::Named(_)) => dead_of_half(self.flag, right.flag),
            _ => None,
        };
        Why::Cells {
            left: base_read(self),
            dead,
        }
    }
}

impl Flag {
    /// Whether two flags are the same for every base document.
    pub fn is_same(self, other: Flag) -> bool
        ensures { result ≡ readings.is_same_flag self other }
    {
        match (self, other) {
            (Flag::Live, Flag::Live) | (Flag::Dead, Flag::Dead) => true,
            (Flag::From(j), Flag::From(k)) => j == k,
            _ => false,
        }
    }
}

// The offset of the base cell that the character or the flag comes from.
fn base_read(cell: Finished) -> Option<i32>
    ensures { result ≡ readings.base_read cell.source cell.flag }
{
    match (cell.source, cell.flag) {
        (Source::Base(off), _) | (Source::Named(_), Flag::From(off)) => Some(off),
        _ => None,
    }
}

// The offset of the base cell that is to be dead for two cells with characters that were put to differ:
// that of a half one, whose flag comes from the base.
fn dead_of_half(left: Flag, right: Flag) -> Option<i32>
    ensures { result ≡ readings.dead_of_half left right }
{
    match (left, right) {
        (Flag::From(off), Flag::Live) | (Flag::Live, Flag::From(off)) => Some(off),
        (Flag::From(j), Flag::From(k)) => {
            if j == k {
                return None;
            }
            Some(j)
        }
        _ => None,
    }
}
