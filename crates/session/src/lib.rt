//! One line of input, one step: the state of the database, and `apply`, which answers a line.
//!
//! A session is seen as what it holds: its journal, the commands that it has accepted. Beside the journal it
//! keeps the database that the journal tells, the rows of the registered queries, and the indexes. Several users may share a
//! database, each with a desk for all else.
#![tactic(auto)]

mod answer;
mod entering;
mod filing;
mod importing;
mod indexing;
mod keeping;
mod laws;
mod loading;
mod next;
mod session;
mod sharing;
mod state;
mod trying;

pub use laws::{loaded_sessions_are_reached, read_commands_are_legible};
pub use loading::{LoadFault, load};
pub use next::{ApplyFault, Next};
pub use session::Session;
pub use sharing::{Desk, Shared};
pub use state::Printed;
