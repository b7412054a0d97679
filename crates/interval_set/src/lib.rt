//! The fast set of ticks: its maximal runs, kept as spans.
#![tactic(auto)]

mod cursor;
mod gaps;
mod merge;
mod overlap;
mod set;
mod splice;
mod stretch;

pub use cursor::past;
pub use set::IntervalSet;
