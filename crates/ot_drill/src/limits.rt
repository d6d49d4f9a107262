//! The limits of workloads.
pub use fn_rules::MOST_ROUNDS;

/// The sites of a workload's session.
pub const SITES: u32 = 3;
