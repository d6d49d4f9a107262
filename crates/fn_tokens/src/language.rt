//! The two languages of function files.

ghost use Rattle.std.specs.Prelude.{◌≡◌};
ghost use Rattle.fn_tokens.specs.Languages.{language_numbered, number_of, has_word, has_words, language_for};

use fn_rules::Head;
use ot_model::{KINDS, Kind};

/// The language that a file is written in, which its first line tells.
#[derive(Clone, Copy, PartialEq, Eq)]
pub enum Language {
    /// Insertions and deletions.
    One,

    /// All kinds.
    Two,
}

impl Language {
    /// The language with this number.
    pub fn numbered(number: u8) -> Option<Language>
        ensures { result ≡ language_numbered number }
    {
        match number {
            1 => Some(Language::One),
            2 => Some(Language::Two),
            _ => None,
        }
    }

    /// Its number in the first line of a file.
    pub fn number(self) -> u8
        ensures { result ≡ number_of self }
    {
        match self {
            Language::One => 1,
            Language::Two => 2,
        }
    }

    /// Whether it has a word for the kind.
    pub fn has_word(self, kind: Kind) -> bool
        ensures { result ≡ has_word self kind }
    {
        match self {
            Language::One => !kind.same(Kind::Upd),
            Language::Two => true,
        }
    }

    /// Whether it has a word for each kind that is declared.
    fn has_words(self, head: Head) -> bool
        ensures { result ≡ has_words self head }
    {
        KINDS
            .iter()
            .all(|kind| !head.declares(*kind) || self.has_word(*kind))
    }

    /// The language of a function's canonical text.
    pub fn of(head: Head) -> Language
        ensures { result ≡ language_for head }
    {
        if Language::One.has_words(head) {
            Language::One
        } else {
            Language::Two
        }
    }
}
