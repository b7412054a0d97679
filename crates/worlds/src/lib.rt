//! Definitions and their law: what surely holds of a query and what possibly does, where each position of an object may be
//! off by an error. The calls have no result: the contract of each is a law, or what the definitions give for a small
//! history.
#![tactic(auto)]

mod examples;
mod laws;

pub use examples::{
    a_car_drives_through, a_car_jumps, a_car_passes_by, a_car_stands_beyond_a_corner,
    comparisons_are_worked_out,
};
pub use laws::{without_error_all_is_told, worlds_lie_between};
