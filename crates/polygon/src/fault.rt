//! Why points are no polygon.

use thiserror::Error;

/// Why a list of points makes no polygon.
#[derive(Clone, Copy, Debug, PartialEq, Eq, Error)]
pub enum PolygonFault {
    /// There are fewer than three points.
    #[error("fewer than 3 points")]
    TooFew,
    /// There are more than 64 points.
    #[error("more than 64 points")]
    TooMany,
    /// The points bound no convex polygon, in neither direction.
    #[error("the points bound no convex polygon")]
    NotConvex,
    /// There is no memory for the points.
    #[error("out of memory")]
    NoMemory,
}
