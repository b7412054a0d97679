//! Definitions alone: the index of the values of a dynamic attribute over time. It covers some slices of time and tells
//! of each object the strips of values in which its last state lies there: so which objects may have a value between two
//! bounds. The calls have no body: their contracts work out small histories, and say what the index is good for.
#![tactic(auto)]

mod examples;
mod laws;
mod limits;

pub use examples::{boxes_are_worked_out, candidates_are_worked_out, rows_are_worked_out};
pub use laws::{
    other_objects_are_in_no_range, the_rows_are_those_of_a_query, the_rows_are_told_by_candidates,
};
pub use limits::{SLICE_TICKS, SLICES, limits_in_numbers};
