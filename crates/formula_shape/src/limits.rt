//! The limits of queries, with everything by its name and by its number alike.

/// The most object variables of a query, and the most names of a circle.
pub const OBJECT_LIMIT: usize = 4;

/// The most assignments around one formula.
pub const NESTING_LIMIT: usize = 2;

/// The most factors of a term.
pub const FACTOR_LIMIT: usize = 16;

/// The largest multiplier of a factor.
pub const TIMES_LIMIT: u32 = 1_000_000;

/// The most operators, assignments and atoms of a formula.
pub const NODE_LIMIT: usize = 256;

/// The most levels of a formula.
pub const DEPTH_LIMIT: usize = 32;
