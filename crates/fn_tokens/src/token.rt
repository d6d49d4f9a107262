//! The tokens of function files.

ghost use Rattle.std.specs.Prelude.{◌≡◌};
ghost use Rattle.fn_tokens.specs.Words.{spelling_of, known_among, word_token};

use fn_rules::{Cmp, Side, Sort};
use ot_model::{Kind, Mode};

/// A word of one of the languages.
#[derive(Clone, Copy, PartialEq, Eq)]
pub enum Word {
    Otfn,
    Text,

    /// `plain` or `tomb`.
    Mode(Mode),

    Kinds,

    /// `ins`, `del` or `upd`.
    Kind(Kind),

    Assume,
    Sites,
    Chars,
    Differ,
    Block,
    Case,
    And,
    Or,
    Not,
    True,

    /// `p1`, `p2`, `s1`, `s2`, `c1` or `c2`: what an atom compares, of the operation on that side.
    Thing(Sort, Side),

    Nop,
    End,
}

/// The words of the languages, first those that a function has most of.
const WORDS: [Word; 26] = [
    Word::Thing(Sort::Pos, Side::First),
    Word::Thing(Sort::Pos, Side::Second),
    Word::And,
    Word::Or,
    Word::Thing(Sort::Site, Side::First),
    Word::Thing(Sort::Site, Side::Second),
    Word::Case,
    Word::Thing(Sort::Char, Side::First),
    Word::Thing(Sort::Char, Side::Second),
    Word::Not,
    Word::Nop,
    Word::True,
    Word::Block,
    Word::Kind(Kind::Ins),
    Word::Kind(Kind::Del),
    Word::Kind(Kind::Upd),
    Word::Otfn,
    Word::Text,
    Word::Mode(Mode::Plain),
    Word::Mode(Mode::Tomb),
    Word::Kinds,
    Word::Assume,
    Word::Sites,
    Word::Chars,
    Word::Differ,
    Word::End,
];

impl Word {
    /// The letters of the word.
    pub fn spelling(self) -> &'static [u8]
        ensures { result.now ≡ spelling_of self }
    {
        match self {
            Word::Otfn => b"otfn",
            Word::Text => b"text",
            Word::Mode(Mode::Plain) => b"plain",
            Word::Mode(Mode::Tomb) => b"tomb",
            Word::Kinds => b"kinds",
            Word::Kind(Kind::Ins) => b"ins",
            Word::Kind(Kind::Del) => b"del",
            Word::Kind(Kind::Upd) => b"upd",
            Word::Assume => b"assume",
            Word::Sites => b"sites",
            Word::Chars => b"chars",
            Word::Differ => b"differ",
            Word::Block => b"block",
            Word::Case => b"case",
            Word::And => b"and",
            Word::Or => b"or",
            Word::Not => b"not",
            Word::True => b"true",
            Word::Thing(Sort::Pos, Side::First) => b"p1",
            Word::Thing(Sort::Pos, Side::Second) => b"p2",
            Word::Thing(Sort::Site, Side::First) => b"s1",
            Word::Thing(Sort::Site, Side::Second) => b"s2",
            Word::Thing(Sort::Char, Side::First) => b"c1",
            Word::Thing(Sort::Char, Side::Second) => b"c2",
            Word::Nop => b"nop",
            Word::End => b"end",
        }
    }
}

/// The first of some words that is spelled so, as a token.
fn known(words: &[Word], letters: &[u8]) -> Token
    ensures { result ≡ known_among words.now letters.now }
{
    for word in words {
        if word.spelling() == letters {
            return Token::Known(*word);
        }
    }
    Token::Unknown
}

/// The token that a letter and the letters and digits behind it make. The words that a great function has most of are
/// told at once.
#[tactic(auto, unfolding(crate::specs::Words::word_token))]
pub(crate) fn word_of(letters: &[u8]) -> Token
    ensures { result ≡ word_token letters.now }
{
    match letters {
        [b'p', b'1'] => Token::Known(Word::Thing(Sort::Pos, Side::First)),
        [b'p', b'2'] => Token::Known(Word::Thing(Sort::Pos, Side::Second)),
        [b's', b'1'] => Token::Known(Word::Thing(Sort::Site, Side::First)),
        [b's', b'2'] => Token::Known(Word::Thing(Sort::Site, Side::Second)),
        [b'o', b'r'] => Token::Known(Word::Or),
        [b'a', b'n', b'd'] => Token::Known(Word::And),
        _ => known(&WORDS, letters),
    }
}

/// The sign of an offset.
#[derive(Clone, Copy, PartialEq, Eq)]
pub enum Sign {
    Plus,
    Minus,
}

/// A token: the longest that begins at its place.
#[derive(Clone, Copy, PartialEq, Eq)]
pub enum Token {
    /// A byte that begins no token.
    Byte,

    /// A word that is no word of any language.
    Unknown,

    /// A word of one of the languages.
    Known(Word),

    /// A number, where each one above 99 is told as 100.
    Number(u8),

    /// `<`, `<=` or `=`.
    Comparison(Cmp),

    /// `+` or `-`.
    Sign(Sign),

    Open,
    Close,
    Colon,

    /// The end of a line that has a token.
    LineEnd,

    /// The end of the file.
    FileEnd,
}

/// A token with the place of its first byte. The two ends stand just after the last byte of their line.
#[derive(Clone, Copy, PartialEq, Eq)]
pub struct Placed {
    pub token: Token,

    /// The line, counted from 1.
    pub line: u32,

    /// The byte of that line, counted from 1.
    pub column: u32,
}
