//! The rows of the distance of two objects: for each two objects of two variables the ticks at which it is at most a
//! number.
//!
//! Each object is looked at once. Two that move along a line each are told apart by these lines, for a few nanoseconds:
//! most of all pairs are never near. The others are judged as any atom is.
#![tactic(auto)]

mod distance;
mod leading;
mod movers;
mod reach;
mod rows;

pub use distance::{Distance, distance_of};
pub use rows::{Scene, rows_of_pairs};
