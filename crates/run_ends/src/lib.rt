//! How a run over an outside ends, which is the same of each program that answers the lines of an input over a shelf of
//! texts, or says something in their place: its statuses, and what each of them tells of what was read, written and kept.
#![tactic(auto)]

mod around;
mod saying;
mod status;

pub use around::Outside;
pub use saying::say;
pub use status::{Status, status_of};
