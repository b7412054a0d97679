//! Sets of ticks: what a set can be asked and how sets are put together, with the plain implementation, a list
//! of ticks. The definitions of the temporal operators stand beside it, in specs/.
//!
//! A tick is a `u32` from 0 to [`LAST_TICK`].
#![tactic(auto)]

mod laws;
mod operation;
mod parts;
mod runs;
mod set;
mod spans;
mod tick_list;

pub use laws::{
    all_in_says_that_each_tick_passes, bounded_operators_see_so_far_ahead_alone,
    derived_operators_are_derived, limits_in_numbers, listed_ticks_are_those_that_pass,
    operators_see_the_ticks_ahead_alone, runs_are_those_of_the_list, same_ticks_have_the_same_runs,
    some_in_says_that_there_is_a_tick, until_holds_where_a_goal_is_led_to,
};
pub use operation::SetOperation;
pub use runs::Runs;
pub use set::TickSet;
pub use spans::{LAST_TICK, SPAN_LIMIT, Span, Window};
pub use tick_list::TickList;
