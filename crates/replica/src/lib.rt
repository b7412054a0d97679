//! The copy of one query's answer, made from the lines that one user hears.
#![tactic(auto)]

mod copied;
mod examples;
mod fronts;
mod laws;
mod line;
mod replica;
mod rows;
mod text;

pub use examples::{feeds_are_followed, feeds_are_refused};
pub use laws::{
    a_change_makes_one_row, a_feed_is_bad_by_its_first_bad_line, changes_are_made_tick_by_tick,
    rows_stand_in_the_order_of_bytes, what_is_printed_is_read,
};
pub use replica::Replica;
