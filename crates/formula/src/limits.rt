//! The limits of the numbers in queries, and of how many stay.

/// The largest size that the value of a dynamic attribute has, in thousandths.
pub const DYNAMIC_BOUND: u64 = 1_001_000_000_000_000;

/// The largest tick, in thousandths.
pub const TIME_BOUND: u64 = 1_000_000_000_000;

/// The most queries that may be registered.
pub const QUERY_LIMIT: usize = 256;
