//! The range of a number that commands alone have.

/// The most objects that `nearest` looks for.
pub const NEAREST_LIMIT: u32 = 100;
