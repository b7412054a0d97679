//! Closed convex polygons: which points bound one, which places are inside, and at which ticks a moving point
//! is. Regions are polygons with names. Everything is whole numbers: nothing is rounded, and no window is
//! walked.
#![tactic(auto)]

mod bounds;
mod crossing;
mod fault;
mod laws;
mod margin;
mod named;
mod shape;
mod sides;

pub use fault::PolygonFault;
pub use laws::{
    corners_stand_together, limits_in_numbers, near_places_stand_together,
    polygons_lie_among_their_vertices,
};
pub use margin::Margin;
pub use named::{REGION_LIMIT, Regions};
pub use shape::Polygon;
