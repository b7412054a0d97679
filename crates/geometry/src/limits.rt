//! The limits of regions and circles.

/// The fewest vertices of a region.
pub const LEAST_VERTICES: usize = 3;

/// The most vertices of a region.
pub const VERTEX_LIMIT: usize = 64;

/// The largest radius of a circle, in thousandths.
pub const RADIUS_LIMIT: u64 = 1_000_000;
