//! The database below its journal: objects, regions and the clock. It carries out the commands that a journal
//! keeps, each so that it can be taken back, and answers those that change nothing.
#![tactic(auto)]

mod asking;
mod blurred;
mod change;
mod database;
mod files;
mod listing;
mod near;
mod objects;
mod rows;
mod telling;

pub use asking::{is_past_span, most_bindings, refusal_by_type};
pub use change::Change;
pub use database::Database;
pub use rows::set_names;
