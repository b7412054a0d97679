//! What a hub is made of.
ghost use Rattle.std.specs.Prelude.{◌≡◌};
ghost use Rattle.feeds_meaning.specs.Hub.{empty_hub};

use crate::seat::Seat;
use command_text::LineReader;
use session::Shared;
use std::alloc::Global;

/// The users, in the order of their first lines, and what serves all of them.
#[derive(Drop)]
pub(crate) struct Parts {
    pub(crate) alloc: Global,
    pub(crate) reader: LineReader,
    pub(crate) shared: Shared,
    pub(crate) seats: Vec<Seat>,
    // How many data commands were accepted, of whomever.
    pub(crate) data_lines: u32,
    // The canonical line of the last data command that several users were told of.
    pub(crate) line: Vec<u8>,
    // The text for the sender of a line, and that for another user.
    pub(crate) own: Vec<u8>,
    pub(crate) other: Vec<u8>,
}

impl Parts {
    ghost use Rattle.hub.specs.Told.{AreRightParts, hub_of};

    /// No users. It takes no memory.
    pub(crate) fn new(alloc: Global) -> Parts
        ensures empty { hub_of result ≡ empty_hub }
        ensures parts { AreRightParts result }
    {
        Parts {
            alloc,
            reader: LineReader::new(alloc),
            shared: Shared::new(alloc),
            seats: Vec::new(alloc),
            data_lines: 0,
            line: Vec::new(alloc),
            own: Vec::new(alloc),
            other: Vec::new(alloc),
        }
    }
}
