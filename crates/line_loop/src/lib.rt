//! The read loop of a program that answers lines.
//!
//! A line machine takes a line at a time, replies to it, and may be done. `run_lines` reads a source piece by piece,
//! answers each line as soon as it has ended, and writes the replies to a sink before the next read. It proves once what all such programs
//! share: how bytes fall into lines in whatever pieces they come, the limit on the input, what was written when a read,
//! a write or the context failed, and the end by a last line.
#![tactic(auto)]

mod buffer;
mod ending;
mod handler;
mod laws;
mod lines;
mod replies;
mod run;
mod stop;

pub use ending::Ending;
pub use handler::Handler;
pub use laws::{limits_in_numbers, lines_are_those_of_a_text};
pub use replies::{GATHERED, write_all};
pub use run::{PIECE, run_lines};
