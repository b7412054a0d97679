//! Why a line is no command.
ghost use Rattle.std.specs.Prelude.{◌≡◌};
ghost use Rattle.command_text.specs.declared.refusal.Refusal.TheVariants as refusals;

use crate::Refusal;
use std::alloc::{AllocError, AllocFailed};
use thiserror::Error;

/// Why a line isn't read.
#[derive(Debug, Drop, Error)]
pub enum CommandFault {
    /// The line is refused. What reads it answers one of the first six.
    #[error("the line is refused: {0:?}")]
    Refused(Refusal),
    /// There is no memory for the command.
    #[error("out of memory")]
    NoMemory,
}

impl From<AllocError> for CommandFault {
    ghost use Rattle.command_text.specs.declared.fault.CommandFault.TheVariants.{NoMemory};

    ghost from_gives = { λ _ fault. fault ≡ NoMemory };

    fn from(_: AllocError) -> CommandFault {
        CommandFault::NoMemory
    }
}

impl<T: Drop> From<AllocFailed<T>> for CommandFault {
    ghost use Rattle.command_text.specs.declared.fault.CommandFault.TheVariants.{NoMemory};

    ghost from_gives = { λ _ fault. fault ≡ NoMemory };

    fn from(_failed: AllocFailed<T>) -> CommandFault {
        CommandFault::NoMemory
    }
}

/// The tokens are no such part.
#[inline]
pub(crate) fn bad_syntax() -> CommandFault
    ensures { result ≡ CommandFault.Refused refusals.BadSyntax }
{
    CommandFault::Refused(Refusal::BadSyntax)
}
