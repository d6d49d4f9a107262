//! The limits of what is read; those of cells and operations stand in `ot_model`.

/// The greatest number of orders of a case.
pub const MAX_ORDERS: usize = 16;

/// The greatest position of an operation.
pub const MAX_POSITION: u32 = 2_147_483_647;

/// The greatest site, and the greatest number that names an operation.
pub const MAX_NUMBER: u32 = 4_294_967_295;

/// The greatest number of sites of a session.
pub const MAX_SITES: u32 = 16;

/// The greatest number of events of a session.
pub const MAX_EVENTS: usize = 65_536;
