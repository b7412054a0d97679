//! The courses of objects: the motion of a point object while an epoch is in force, and the common parts
//! of up to four timelines.
//!
//! No window is walked tick by tick, and nothing takes memory: one call gives the part that begins at a
//! tick, and a caller goes from part to part.
#![tactic(auto)]

mod laws;
mod lines;
mod parts;

pub use laws::{limits_in_numbers, pieces_are_counted};
pub use lines::{line_from, place_line, straight_line};
pub use parts::{Common, MOST_TIMELINES, begun_by, common_for, common_from};
