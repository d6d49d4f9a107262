//! What the reader keeps of the tokens that it has read, but for the guards and cases themselves.

ghost use Rattle.std.specs.Prelude.{◌≡◌};
ghost use Rattle.fn_tokens.specs.Kinds.{has_second, with_second, seconds_of, with_seconds, has_seen, with_pair};

use crate::Sign;
use crate::language::Language;
use fn_rules::{Cmp, Head, Side, Sort};
use ot_model::{Kind, Mode};

/// A result as it is written.
#[derive(Clone, Copy)]
pub enum Written {
    Nop,

    /// A position without an offset.
    At(Side),

    /// A position with an offset of two digits at most.
    Moved(Side, Sign, u8),
}

/// What follows the end of a line.
#[derive(Clone, Copy)]
pub enum AfterLine {
    Text,
    Kinds,
    Line,
    File,
}

/// What may come next.
#[derive(Clone, Copy)]
pub enum Want {
    /// The word `otfn`.
    Otfn,

    /// The number of the language.
    Version,

    /// The word `text`.
    Text,

    /// The word `plain` or `tomb`.
    Mode,

    /// The word `kinds`.
    Kinds,

    /// A kind behind those that are declared, or the end of the line.
    NextKind,

    /// The end of the line.
    LineEnd(AfterLine),

    /// The first word of a line behind the kinds.
    Line,

    /// The word `sites` or `chars`.
    Assumed,

    /// The word `differ`.
    Differ,

    /// The first kind of a block.
    BlockFirst,

    /// The second kind of a block.
    BlockSecond(Kind),

    /// The end of a block's line.
    BlockEnd,

    /// An operand of a guard.
    Operand,

    /// A comparison sign.
    Comparison(Sort, Side),

    /// The second side of an atom.
    Right(Sort, Side, Cmp),

    /// An offset of an atom over positions, or what may follow an operand.
    Offset(Side, Cmp),

    /// The number of an offset of an atom.
    Number(Side, Cmp, Sign),

    /// What may follow an operand.
    Operator,

    /// A result.
    Result,

    /// The position of a result.
    ResultPosition,

    /// An offset of a result, or the line's end.
    ResultOffset(Side),

    /// The number of an offset of a result.
    ResultNumber(Side, Sign),

    /// The line's end behind a result.
    ResultEnd(Written),

    /// The end of the file.
    FileEnd,

    /// Nothing: the file has ended.
    Nothing,
}

/// Where a token stands, as far as the cause of a fault asks.
#[derive(Clone, Copy)]
pub enum Region {
    Elsewhere,
    AtVersion,

    /// The first token of a line behind the kinds.
    AtLine,
    AtBlockFirst,
    AtBlockSecond,
    AtBlockEnd,
    AtOperand,

    /// At a comparison sign.
    InAtom,
    AtRight,
    AtNumber,
    BehindOperand,

    /// At a result or at its position.
    InResult,
    AtResultNumber,
    BehindResult,
}

/// The second kinds of the blocks with one first kind.
#[derive(Clone, Copy)]
pub struct Seconds {
    pub ins: bool,
    pub del: bool,
    pub upd: bool,
}

/// The pairs of kinds that have a block, by their first kind.
#[derive(Clone, Copy)]
pub struct Pairs {
    pub ins: Seconds,
    pub del: Seconds,
    pub upd: Seconds,
}

/// What the next token is judged by.
#[derive(Clone, Copy)]
pub struct Control {
    pub want: Want,

    /// The first one until the number was read.
    pub language: Language,
    pub head: Head,

    /// The place of the last word `block`.
    pub line: u32,
    pub column: u32,

    /// Whether a block was begun, and its kinds.
    pub begun: bool,
    pub first: Kind,
    pub second: Kind,
    pub seen: Pairs,

    /// The cases of this block that were begun.
    pub cases: usize,

    /// The atoms and `true` of this case that were begun.
    pub atoms: u64,

    /// The innermost parentheses that are open and the `(` and `not` around them, and the `not` before
    /// the next operand there.
    pub outside: u64,
    pub nots: u64,
}

/// What a token does that can go on.
#[derive(Clone, Copy)]
pub enum TokenMove {
    /// Nothing is kept of it.
    Skip(Want),

    SetLanguage(Language),
    SetMode(Mode),
    Declare(Kind),
    AssumeSites,
    AssumeChars,

    /// The word `block` at this line and column.
    BlockWord(u32, u32),

    /// The second kind of a block.
    BeginBlock(Kind, Kind),

    BeginCase,
    Open,
    Negate,
    Always,

    /// The first side of an atom.
    BeginAtom(Sort, Side),

    /// The second side of an atom.
    Compare(Sort, Side, Cmp),

    /// The number of an offset of an atom.
    Shift(Side, Cmp, Sign, u8),

    And,
    Or,
    Close,
    Colon,

    /// The end of a case's line.
    EndCase(Written),

    /// The word `end`.
    End,
}

impl Seconds {
    const NONE: Seconds = Seconds {
        ins: false,
        del: false,
        upd: false,
    };

    fn has(self, kind: Kind) -> bool
        ensures { result ≡ has_second self kind }
    {
        match kind {
            Kind::Ins => self.ins,
            Kind::Del => self.del,
            Kind::Upd => self.upd,
        }
    }

    fn with(self, kind: Kind) -> Seconds
        ensures { result ≡ with_second self kind }
    {
        match kind {
            Kind::Ins => Seconds { ins: true, ..self },
            Kind::Del => Seconds { del: true, ..self },
            Kind::Upd => Seconds { upd: true, ..self },
        }
    }
}

impl Pairs {
    const NONE: Pairs = Pairs {
        ins: Seconds::NONE,
        del: Seconds::NONE,
        upd: Seconds::NONE,
    };

    fn seconds(self, first: Kind) -> Seconds
        ensures { result ≡ seconds_of self first }
    {
        match first {
            Kind::Ins => self.ins,
            Kind::Del => self.del,
            Kind::Upd => self.upd,
        }
    }

    fn with_seconds(self, first: Kind, seconds: Seconds) -> Pairs
        ensures { result ≡ with_seconds self first seconds }
    {
        match first {
            Kind::Ins => Pairs {
                ins: seconds,
                ..self
            },
            Kind::Del => Pairs {
                del: seconds,
                ..self
            },
            Kind::Upd => Pairs {
                upd: seconds,
                ..self
            },
        }
    }

    /// Whether the pair has a block.
    #[tactic(auto, unfolding(crate::specs::Kinds::has_seen))]
    pub fn has(self, first: Kind, second: Kind) -> bool
        ensures { result ≡ has_seen self first second }
    {
        self.seconds(first).has(second)
    }

    /// These pairs and one more.
    pub fn with(self, first: Kind, second: Kind) -> Pairs
        ensures { result ≡ with_pair self first second }
    {
        self.with_seconds(first, self.seconds(first).with(second))
    }
}

impl Control {
    /// Before the first token.
    pub const FIRST: Control = Control {
        want: Want::Otfn,
        language: Language::One,
        head: Head {
            mode: Mode::Plain,
            ins: false,
            del: false,
            upd: false,
            sites_differ: false,
            chars_differ: false,
        },
        line: 0,
        column: 0,
        begun: false,
        first: Kind::Ins,
        second: Kind::Ins,
        seen: Pairs::NONE,
        cases: 0,
        atoms: 0,
        outside: 0,
        nots: 0,
    };
}
