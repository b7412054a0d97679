//! Atoms and terms of formulas over the objects of a store: the ticks of a window at which an atom holds,
//! the maximal runs of equal value of a term, and the ticks at which an object is present, or not.
//!
//! No window is walked. Each call looks up the timeline of each variable once, and goes over the common
//! parts of these timelines. In a part no object is written, and each number moves along a line or rests. So
//! an atom holds there at up to three runs of ticks, which are told by the lines alone.
#![tactic(auto)]

mod attributes;
mod circles;
mod comparisons;
mod distances;
mod found;
mod judged;
mod laws;
mod lines;
mod naming;
mod parts;
mod positions;
mod present;
mod routes;
mod straight;
mod straight_terms;
mod terms;
mod ticks;
mod trends;
mod value_list;
mod values;
mod variables;
mod world;

pub use laws::resolved_atoms_and_terms_are_sized;
pub use present::{absence, presence};
pub use ticks::atom_ticks;
pub use values::value_runs;
pub use world::StoredWorld;
