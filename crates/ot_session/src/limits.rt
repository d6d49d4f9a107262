//! The limits of a session.

/// The greatest number of sites.
pub const MAX_SITES: usize = 16;

/// The greatest number of operations that are made.
pub const MAX_MADE: usize = 1_024;

/// The greatest number of forms that are counted.
pub const MAX_FORMS: u64 = 500_000;
