//! The text of a session: what `save` stores, and the commands that are read from it again.
//!
//! A text is written in format 2 and read in formats 1 and 2. It is read a command at a time, so that
//! who goes over a large text twice, first for its faults, never holds the trees of all its commands.
#![tactic(auto)]

mod counts;
mod fault;
mod kept;
mod laws;
mod lines;
mod loading;
mod reader;
mod save;

pub use fault::FileFault;
pub use kept::SESSION_LINE_LIMIT;
pub use laws::{cut_texts_are_bad, saved_texts_are_loaded};
pub use lines::line_count;
pub use loading::{check, load};
pub use reader::{Loaded, SessionReader};
pub use save::save_text;
