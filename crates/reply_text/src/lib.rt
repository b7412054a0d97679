//! The text of replies, written to the end of a buffer. What stood there stays in front, also after an error.
#![tactic(auto)]

mod buffer;
mod changes;
mod listing;
mod rows;

pub use buffer::push_ok;
pub use changes::{push_change, push_query};
pub use listing::{push_class, push_clock, push_region};
pub use rows::push_row;
