//! The parts of a certificate, and why a reader refuses.
use ask_core::Tok;
use fn_rules::Level;

/// A part of a certificate.
#[derive(Debug, Drop)]
pub enum Part {
    /// The first line, with its newline.
    Header(Level),

    /// The line before the tree of the obligation with this number, counted from 0, with its newline.
    Ob(u32),

    /// A token of a tree.
    Tok(Tok),

    /// The newline behind a tree.
    LineEnd,

    /// The last line, with its newline.
    End,
}

/// A part, and how many bytes of the file stand before it.
#[derive(Debug, Drop)]
pub struct Item {
    /// How many bytes stand before the part.
    pub offset: u64,

    /// The part.
    pub part: Part,
}

/// Why bytes are no certificate by their spelling.
#[derive(Clone, Copy, Debug, PartialEq, Eq)]
pub enum CertError {
    /// No part that may stand behind so many bytes goes on so.
    BadToken(u64),

    /// The file ends after so many bytes, before its last part does.
    Truncated(u64),

    /// Bytes follow the last line, which ends after so many bytes.
    Trailing(u64),
}
