//! The limits of a class, of which the store and the reader of commands both speak.

/// The largest capacity of a class.
pub const CAPACITY_LIMIT: u32 = 100_000;

/// The most attributes that are written of a class. A point class has two more, `x` and `y`.
pub const ATTRIBUTE_LIMIT: usize = 16;
