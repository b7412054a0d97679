//! Commands: their trees, the grammar by which lines spell them, their canonical lines, and the journal
//! of what was accepted.
#![tactic(auto)]

mod at;
mod command;
mod end;
mod fault;
mod forms;
mod journal;
mod kinds;
mod laws;
mod legs;
mod line;
mod lists;
mod numbers;
mod parts;
mod placement;
mod printing;
mod queries;
mod ranges;
mod reading;
mod refusal;
mod settings;
mod text_laws;

pub use command::Command;
pub use fault::CommandFault;
pub use journal::{Journal, MOST_BYTES, MOST_ENTRIES};
pub use laws::{
    limits_in_numbers, lines_are_read_by_the_grammar, lines_are_refused_by_the_grammar,
    lines_begin_with_their_words, tokens_are_read_by_the_grammar,
};
pub use lists::{Attributes, Points, Settings};
pub use placement::{Moving, Placement};
pub use printing::{print, print_into};
pub use ranges::NEAREST_LIMIT;
pub use reading::{LINE_LIMIT, LineReader, read};
pub use refusal::{Refusal, RefusalText, refusals_are_named};
pub use text_laws::{
    canonical_lines_are_read_back, canonical_lines_are_short, read_commands_are_printable,
};
