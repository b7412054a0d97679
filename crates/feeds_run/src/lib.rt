//! A run of DOMINO for several users, or of a replica: what the words of the program ask for, and how it ends. A program gives
//! it the source and the sink, and ends with the status.
#![tactic(auto)]

mod examples;
mod follower;
mod following;
mod laws;
mod running;
mod sharing;
mod status;
mod telling;
mod words;

pub use examples::{runs_are_worked_out, words_are_told};
pub use laws::a_run_without_faults_is_whole;
pub use running::{run_feeds, run_feeds_limited};
pub use status::FeedStatus;
