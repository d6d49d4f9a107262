//! Why a text is refused.

/// The cause of the first token that cannot go on, in the order in which causes are tried.
#[derive(Clone, Copy, PartialEq, Eq)]
pub enum FaultKind {
    /// A byte outside comments that begins no token.
    Byte,

    /// A word that is no word of the language.
    Word,

    /// A token, a line's end or the file's end where the grammar wants something else, and no other
    /// cause fits.
    Expected,

    /// The second side of an atom that has another sort or names the same operation; a character in a
    /// block where characters may not be compared.
    Sort,

    /// A number above 99 behind `+` or `-`.
    Offset,

    /// `end` as the first token of a line while a block is missing.
    Missing,

    /// The word `block` of a block that is there already.
    Double,

    /// A kind in a `block` line that is not declared.
    Kind,

    /// The word `case` of a 65th case in a block.
    Cases,

    /// The first token of what would be the 17th atom or `true` of a case.
    Atoms,

    /// A `(` or `not` inside 32 others.
    Nesting,

    /// A kind in a result that is not the first kind of the block.
    Outcome,

    /// A number behind `otfn` that no language has.
    Version,
}

/// The first token that cannot go on, with its place and its cause.
#[derive(Clone, Copy, PartialEq, Eq)]
pub struct TextFault {
    /// The line, counted from 1.
    pub line: u32,

    /// The byte of that line, counted from 1.
    pub column: u32,

    /// The cause.
    pub kind: FaultKind,
}
