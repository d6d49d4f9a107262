//! Operations, their kinds, the two modes of a document, and the refusals of `apply`.
ghost use Rattle.std.specs.Prelude.{◌≡◌};
ghost use Rattle.ot_model.specs.declared.op.Apply.TheVariants.{NoMemory};
ghost use Rattle.ot_model.specs.Kinds.{kind_rank, is_same_kind, has_char};
ghost use Rattle.ot_model.specs.Operations.{kind_of, at_of, site_of, char_of, placed};

use std::alloc::AllocError;

/// What a deletion leaves.
#[derive(Clone, Copy, PartialEq, Eq)]
pub enum Mode {
    /// The cell is taken out of the document.
    Plain,

    /// The cell stays in its place and is dead: a tombstone.
    Tomb,
}

/// The kinds of operations that change a document.
#[derive(Clone, Copy, PartialEq, Eq)]
pub enum Kind {
    /// An insertion of one character.
    Ins,

    /// A deletion of one character.
    Del,

    /// An update: one character takes the place of another.
    Upd,
}

/// All kinds, each once, in canonical order.
pub const KINDS: [Kind; 3] = [Kind::Ins, Kind::Del, Kind::Upd];

impl Kind {
    /// The place of the kind in `KINDS`.
    pub fn rank(self) -> usize
        ensures { result ≡ kind_rank self }
    {
        match self {
            Kind::Ins => 0,
            Kind::Del => 1,
            Kind::Upd => 2,
        }
    }

    /// Whether the two kinds are one.
    pub fn same(self, other: Kind) -> bool
        ensures { result ≡ is_same_kind self other }
    {
        self.rank() == other.rank()
    }

    /// Whether an operation of this kind has a character.
    pub fn has_char(self) -> bool
        ensures { result ≡ has_char self }
    {
        match self {
            Kind::Ins | Kind::Upd => true,
            Kind::Del => false,
        }
    }
}

/// An operation that some site made.
#[derive(Clone, Copy, PartialEq, Eq)]
pub enum Op {
    /// Puts a live cell with `ch` at position `at`; cells from `at` on move up by one.
    Ins { at: i64, ch: char, site: u32 },

    /// Deletes the cell at position `at`.
    Del { at: i64, site: u32 },

    /// Replaces the character of the cell at position `at` by `ch`. The cell stays live or dead, as it is.
    Upd { at: i64, ch: char, site: u32 },

    /// Changes nothing.
    Nop,
}

impl Op {
    /// The kind, which nop has not.
    pub fn kind(&self) -> Option<Kind>
        ensures { result ≡ kind_of self.now }
    {
        match *self {
            Op::Ins { .. } => Some(Kind::Ins),
            Op::Del { .. } => Some(Kind::Del),
            Op::Upd { .. } => Some(Kind::Upd),
            Op::Nop => None,
        }
    }

    /// The position, counted in cells from 0; 0 for nop.
    pub fn position(&self) -> i64
        ensures { result ≡ at_of self.now }
    {
        match *self {
            Op::Ins { at, .. } | Op::Del { at, .. } | Op::Upd { at, .. } => at,
            Op::Nop => 0,
        }
    }

    /// The site that made the operation, which nop has not.
    pub fn site(&self) -> Option<u32>
        ensures { result ≡ site_of self.now }
    {
        match *self {
            Op::Ins { site, .. } | Op::Del { site, .. } | Op::Upd { site, .. } => Some(site),
            Op::Nop => None,
        }
    }

    /// The character that the operation puts into the document.
    pub fn ch(&self) -> Option<char>
        ensures { result ≡ char_of self.now }
    {
        match *self {
            Op::Ins { ch, .. } | Op::Upd { ch, .. } => Some(ch),
            Op::Del { .. } | Op::Nop => None,
        }
    }

    /// The same operation at another position. Nop stays nop.
    pub fn placed(&self, to: i64) -> Op
        ensures { result ≡ placed self.now to }
    {
        match *self {
            Op::Ins { ch, site, .. } => Op::Ins { at: to, ch, site },
            Op::Del { site, .. } => Op::Del { at: to, site },
            Op::Upd { ch, site, .. } => Op::Upd { at: to, ch, site },
            Op::Nop => Op::Nop,
        }
    }
}

/// Why an operation wasn't applied, in the order of the tests.
#[derive(Clone, Copy, PartialEq, Eq)]
pub enum Apply {
    /// The document has no such position for the operation.
    NotEnabled,

    /// There was no memory for the cell of an insertion.
    NoMemory,
}

impl From<AllocError> for Apply {
    ghost from_gives = { λ _ e. e ≡ NoMemory };

    fn from(_: AllocError) -> Apply {
        Apply::NoMemory
    }
}
