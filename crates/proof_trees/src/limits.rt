//! How much a proof may have.

/// The most literals of a lemma.
pub const MAX_LITERALS: usize = 24;

/// The most lemmas that are known when one is begun.
pub const MAX_LEMMAS: usize = 1_000_000;
