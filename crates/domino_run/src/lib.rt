//! A run of DOMINO over an outside: what the words of the program ask for, and the database as a line machine. A program
//! gives it the source, the sink and the shelf, and ends with the status.
#![tactic(auto)]

mod laws;
mod machine;
mod opening;
mod running;
mod summary;
mod tally;
mod words;

pub use laws::{a_run_without_faults_is_whole, limits_in_numbers};
pub use machine::Counters;
pub use running::{INPUT_LIMIT, Ran, run, run_limited};
