//! How a run ends.
ghost use Rattle.std.specs.Prelude.{◌≡◌, ◌≢◌};
ghost use Rattle.line_loop.specs.declared.ending.Ending.TheVariants.{ContextFault};
ghost use Rattle.run_ends.specs.Status.{status_number};
ghost use Rattle.feeds_run.specs.Status.{feed_status, run_status, said_as};

use line_loop::Ending;
use run_ends::Status;

/// How a run ends, and with it the program.
#[derive(Clone, Copy, Debug, PartialEq, Eq)]
pub enum FeedStatus {
    /// The input was read to its end, and all that is to be said of it was written.
    Done,
    /// The words of the program are of none of its forms.
    BadWords,
    /// A line that a replica heard hasn't its form.
    BadFeed,
    /// A read of the input failed.
    ReadFault,
    /// A write failed.
    WriteFault,
    /// There was no memory.
    NoMemory,
    /// The limit of bytes was taken, and the next read gave another byte.
    InputLimit,
}

impl FeedStatus {
    /// The exit status of the program, from 0 to 7. None is 5, which tells of a file where DOMINO serves one user.
    pub fn code(self) -> u8
        ensures { result ≡ status_number (run_status self) }
    {
        self.run_status().code()
    }

    /// The status of a run for one user that it is like.
    fn run_status(self) -> Status
        ensures { result ≡ run_status self }
    {
        match self {
            FeedStatus::Done => Status::Done,
            FeedStatus::BadWords => Status::BadWords,
            FeedStatus::BadFeed => Status::BadSession,
            FeedStatus::ReadFault => Status::ReadFault,
            FeedStatus::WriteFault => Status::WriteFault,
            FeedStatus::NoMemory => Status::NoMemory,
            FeedStatus::InputLimit => Status::InputLimit,
        }
    }
}

/// The status that an ending of the read loop leads to, where no context could fail.
pub(crate) fn feed_status(ending: Ending) -> FeedStatus
    requires { ending ≢ ContextFault }
    ensures { result ≡ feed_status ending }
{
    match ending {
        Ending::Done => FeedStatus::Done,
        Ending::ReadFault => FeedStatus::ReadFault,
        Ending::WriteFault => FeedStatus::WriteFault,
        Ending::ContextFault => unreachable!(),
        Ending::NoMemory => FeedStatus::NoMemory,
        Ending::InputLimit => FeedStatus::InputLimit,
    }
}

/// The status of a run that says something, by how that was written.
pub(crate) fn said_as(end: FeedStatus, written: Status) -> FeedStatus
    ensures { result ≡ said_as end written }
{
    match written {
        Status::Done => end,
        Status::WriteFault => FeedStatus::WriteFault,
        _ => FeedStatus::NoMemory,
    }
}
