//! The objects of a class as csv text, both ways.
//!
//! A text that is read is judged by its format alone. Its rows are objects with their settings, in order;
//! each makes an insert or an update, which is judged when its turn comes.
#![tactic(auto)]

mod columns;
mod commands;
mod export;
mod fault;
mod fields;
mod laws;
mod reading;
mod rows;

pub use columns::{Column, Form};
pub use export::export_text;
pub use fault::CsvFault;
pub use laws::{
    commands_are_printable, objects_are_exported, row_lines_are_short, texts_are_read,
    texts_are_refused,
};
pub use reading::import_rows;
pub use rows::ObjectRow;
