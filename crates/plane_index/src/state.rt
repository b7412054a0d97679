//! The last state of an object, as far as an index asks.
use motion::Cell;

/// What is in the attribute's cell from a tick on. None where the object is absent, or was never there.
#[derive(Clone, Copy)]
pub struct State {
    pub from: u32,
    pub cell: Option<Cell>,
}
