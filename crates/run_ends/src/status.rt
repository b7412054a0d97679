//! How a run ends.
ghost use Rattle.std.specs.Prelude.{◌≡◌};
ghost use Rattle.run_ends.specs.Status.{status_number, status_of};

use line_loop::Ending;

/// How a run ends, and with it the program.
#[derive(Clone, Copy, Debug, PartialEq, Eq)]
pub enum Status {
    /// The input was read to its end or to a `quit`, and every reply was written.
    Done,
    /// The words of the program are of none of its forms.
    BadWords,
    /// There is no text of the session's name, or it is no session.
    BadSession,
    /// A read of the input failed.
    ReadFault,
    /// A write of a reply failed.
    WriteFault,
    /// The shelf failed.
    ShelfFault,
    /// There was no memory.
    NoMemory,
    /// The limit of bytes was taken, and the next read gave another byte.
    InputLimit,
}

impl Status {
    /// The exit status of the program.
    pub fn code(self) -> u8
        ensures { result ≡ status_number self }
    {
        match self {
            Status::Done => 0,
            Status::BadWords => 1,
            Status::BadSession => 2,
            Status::ReadFault => 3,
            Status::WriteFault => 4,
            Status::ShelfFault => 5,
            Status::NoMemory => 6,
            Status::InputLimit => 7,
        }
    }
}

/// The status that an ending of the read loop leads to.
pub fn status_of(ending: Ending) -> Status
    ensures { result ≡ status_of ending }
{
    match ending {
        Ending::Done => Status::Done,
        Ending::ReadFault => Status::ReadFault,
        Ending::WriteFault => Status::WriteFault,
        Ending::ContextFault => Status::ShelfFault,
        Ending::NoMemory => Status::NoMemory,
        Ending::InputLimit => Status::InputLimit,
    }
}
