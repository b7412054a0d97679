//! Convex functions of the whole numbers: the numbers at which one is at most a limit are one stretch.
//!
//! Where the opposite of a function is convex, the numbers at which it is at least a limit are one stretch, and those
//! at which it is below are all others.
#![tactic(auto)]

mod ends;
mod function;
mod stretch;

pub use function::Convex;
pub use stretch::at_most;
