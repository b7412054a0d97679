//! An index of the values of a dynamic attribute over time, for the objects of a class of a store: which of them have a
//! value between two bounds within some ticks, and when.
//!
//! Of each object it keeps the last state, and for those of 64 slices of 1,000 ticks that were asked for the strips of
//! values that this covers: so objects far from the bounds aren't looked at. Who was written since is stale, and is looked
//! at anew before the next question.
#![tactic(auto)]

mod column;
mod cover;
mod finding;
mod grid;
mod index;
mod line;
mod looking;
mod renewing;
mod rows;
mod runs;
mod state;
mod states;
mod ticks;

pub use grid::Grid;
pub use index::PlaneIndex;
pub use rows::RangeRow;
pub use ticks::Ticks;
