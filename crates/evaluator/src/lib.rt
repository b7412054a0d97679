//! From a formula to its relation: for each binding of objects to variables the ticks at which the formula holds, by
//! whatever tells the ticks of atoms and the values of terms.
#![tactic(auto)]

mod alone;
mod assignment;
mod by_key;
mod column;
mod full;
mod gathering;
mod here;
mod keys;
mod laws;
mod naming;
mod narrowing;
mod node;
mod operators;
mod over;
mod rows;
mod section;
mod sets;
mod stretches;
mod ticks;
mod variables;

pub use alone::ticks_alone;
pub use full::full_rows;
pub use laws::both_kinds_of_sets_have_the_same_runs;
pub use rows::{Asking, rows_of};
