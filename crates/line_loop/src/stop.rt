// What stops a run while lines are answered.
use crate::Ending;

/// The failure that stops a run while lines are answered.
#[derive(Clone, Copy, Debug, PartialEq, Eq)]
pub enum Stop {
    /// A write failed.
    Write,
    /// The context failed.
    Context,
    /// There was no memory.
    NoMemory,
}

impl From<Stop> for Ending {
    ghost use Rattle.std.specs.Prelude.{◌≡◌};
    ghost use Rattle.line_loop.specs.Ending.{ending_of};

    ghost from_gives = { λ stop ending. ending ≡ ending_of stop };

    fn from(stop: Stop) -> Ending {
        match stop {
            Stop::Write => Ending::WriteFault,
            Stop::Context => Ending::ContextFault,
            Stop::NoMemory => Ending::NoMemory,
        }
    }
}
