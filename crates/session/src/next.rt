//! What is answered of a line.
use command_text::Refusal;
use std::alloc::AllocError;
use thiserror::Error;

/// What was done with a line.
#[derive(Clone, Copy, Debug, PartialEq, Eq)]
pub enum Next {
    /// A blank line or a comment, which has no reply.
    Silent,
    /// The line was accepted, and its reply written.
    Accepted,
    /// The line was refused, and nothing changed.
    Refused(Refusal),
    /// The line ends the run. Its reply is written.
    Quit,
}

/// Why a line wasn't answered.
#[derive(Clone, Copy, Debug, PartialEq, Eq, Error)]
pub enum ApplyFault {
    /// The shelf failed, and counted it.
    #[error("the shelf failed")]
    ShelfFault,
    #[error("no memory")]
    NoMemory,
}

impl From<AllocError> for ApplyFault {
    ghost use Rattle.std.specs.Prelude.{◌≡◌};
    ghost use Rattle.session.specs.declared.next.ApplyFault.TheVariants.{NoMemory};

    ghost from_gives = { λ _ fault. fault ≡ NoMemory };

    fn from(_: AllocError) -> ApplyFault {
        ApplyFault::NoMemory
    }
}
