//! The outside of a program: where its input comes from, where its output goes and where its named texts lie.
//!
//! Each is a trait with two ghost members. One is a count of faults that never falls: a call fails by the
//! outside only where that count rises in the call, and every other answer leaves it. The other is the content,
//! which an object may tell: the bytes that are left, the bytes that were written, the texts by their names.
//! An object that tells nothing, as a file or a terminal, still counts its faults.
//!
//! `MemSource`, `MemSink` and `MemShelf` are in memory, tell their content and fail at chosen calls.
//! `SureSource`, `SureSink` and `SureShelf` are in memory and never fail by the outside.
//! `StdSource`, `StdSink` and `DirShelf` are over the real world, and tell nothing.
#![tactic(auto)]

mod dir_shelf;
mod fault;
mod laws;
mod mem;
mod plan;
mod shelf;
mod sink;
mod source;
mod std_streams;
mod sure;
mod text;

pub use dir_shelf::{DirShelf, MAX_LEN};
pub use fault::{Failed, OutFail};
pub use laws::limits_in_numbers;
pub use mem::{MemShelf, MemSink, MemSource};
pub use shelf::Shelf;
pub use sink::Sink;
pub use source::Source;
pub use std_streams::{StdSink, StdSource};
pub use sure::{SureShelf, SureSink, SureSource};
