//! The limits of a hub.

/// The greatest number of clients.
pub const MAX_CLIENTS: usize = 16;

/// The greatest number of operations that all clients together make.
pub const MAX_EDITS: usize = 1_024;
