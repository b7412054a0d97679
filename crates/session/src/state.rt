//! What the lines before left.
ghost use Rattle.std.specs.Prelude.{◌≡◌, []};
ghost use Rattle.kept_indexes.specs.Kept.{AreIndexes};
ghost use Rattle.session.specs.State.{IsState};

use command_text::{Command, Journal};
use database::{Change, Database};
use kept_indexes::Indexes;
use live_queries::Live;
use std::alloc::Global;

/// The journal, the database that it tells, the registered queries with their rows, and the indexes.
#[derive(Drop)]
pub(crate) struct State {
    pub(crate) journal: Journal,
    pub(crate) database: Database,
    pub(crate) live: Live,
    pub(crate) indexes: Indexes,
    // The canonical line of the last command that the journal was to keep.
    pub(crate) line: Vec<u8>,
}

impl State {
    /// Nothing was accepted yet. It takes no memory.
    pub(crate) fn new(alloc: Global) -> State
        ensures state { IsState [] result }
        ensures none { result.indexes ≡ [] }
        ensures indexed { AreIndexes result.journal result.database.store result.indexes }
    {
        State {
            journal: Journal::new(alloc),
            database: Database::new(alloc),
            live: Live::new(alloc),
            indexes: Indexes::new(alloc),
            line: Vec::new(alloc),
        }
    }
}

/// A command for a journal, with its canonical line where that was printed before.
#[derive(Clone, Copy)]
pub struct Printed<'a> {
    pub command: &'a Command,
    pub line: Option<&'a [u8]>,
}

/// What a command changed of the database, and the tick from before it.
#[derive(Drop)]
pub(crate) struct Changed {
    pub(crate) change: Change,
    pub(crate) before: u32,
}
