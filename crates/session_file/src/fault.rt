//! Why a text is no session.

use std::alloc::{AllocError, AllocFailed};
use thiserror::Error;

/// Why a text isn't loaded: its first fault by place, or want of memory.
#[derive(Clone, Copy, Debug, PartialEq, Eq, Error)]
pub enum FileFault {
    /// There is no first line, or it is no header.
    #[error("the text does not begin as a session")]
    BadHeader,
    /// The line of this number, counted from 1, has no place in a session.
    #[error("line {0} has no place in a session")]
    BadLine(u64),
    /// No line is faulty, and there is no end.
    #[error("the text has no end")]
    NoEnd,
    /// There is no memory. The text may be a session or not.
    #[error("out of memory")]
    NoMemory,
}

impl From<AllocError> for FileFault {
    ghost use Rattle.std.specs.Prelude.{◌≡◌};
    ghost use Rattle.session_file.specs.declared.fault.FileFault.TheVariants.{NoMemory};

    ghost from_gives = { λ _ fault. fault ≡ NoMemory };

    fn from(_: AllocError) -> FileFault {
        FileFault::NoMemory
    }
}

impl<T: Drop> From<AllocFailed<T>> for FileFault {
    ghost use Rattle.std.specs.Prelude.{◌≡◌};
    ghost use Rattle.session_file.specs.declared.fault.FileFault.TheVariants.{NoMemory};

    ghost from_gives = { λ _ fault. fault ≡ NoMemory };

    fn from(_failed: AllocFailed<T>) -> FileFault {
        FileFault::NoMemory
    }
}
