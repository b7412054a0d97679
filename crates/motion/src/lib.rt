//! Motions: how the attributes of an object move between updates.
//!
//! A dynamic attribute is a value, the tick of its last update and a function that is 0 at 0, as in
//! MOST. The function is a list of linear legs. Until the next update the attribute at a tick is the
//! value plus the function of the ticks since the update. All numbers are whole thousandths.
//!
//! The timeline of an object keeps what it had from each of its writes on, so that the recorded past
//! stays. Its pieces are the ticks in which each dynamic attribute moves by one slope.
#![tactic(auto)]

mod asked;
mod cell;
mod change;
mod epoch;
mod laws;
mod legs;
mod limits;
mod pieces;
mod range;
mod straight;
mod timeline;
mod vector;

pub use asked::Asked;
pub use cell::{AttrKind, Cell, Given, NamedSet, Place};
pub use change::write_cells;
pub use epoch::Epoch;
pub use laws::{
    a_value_alone_keeps_the_motion, a_write_changes_no_earlier_state, legs_alone_make_no_jump,
    limits_in_numbers, the_function_is_0_at_0, the_slope_is_the_change_of_the_value,
    what_is_left_goes_on,
};
pub use legs::{LONGEST_LEG, Legs, MOST_FIRSTS};
pub use limits::{ATTRIBUTE_LIMIT, CAPACITY_LIMIT};
pub use pieces::Piece;
pub use straight::Straight;
pub use timeline::Timeline;
pub use vector::Vector;
