//! Why a query has no numbers for its names.
ghost use Rattle.std.specs.Prelude.{◌≡◌};
ghost use Rattle.ftl_typer.specs.declared.fault.TypeFault.TheVariants.{NoMemory};

use std::alloc::{AllocError, AllocFailed};
use thiserror::Error;

/// Why a query isn't resolved. The kinds come in this order, and within a kind the least place is told. The
/// place of a name is its index in the order of writing, from 0.
#[derive(Clone, Copy, Debug, PartialEq, Eq, Error)]
pub enum TypeFault {
    /// The name of this index is of no class, variable, attribute or region that there is.
    #[error("name {0} isn't known")]
    UnknownName(usize),
    /// The name of this index is given a second time, as a target, as a variable of FROM or by an assignment.
    #[error("name {0} is taken")]
    NameTaken(usize),
    /// The name of this index, or the term or the comparison before which so many names stand, is of a kind
    /// that its place doesn't take.
    #[error("name {0} is of a kind that its place doesn't take")]
    WrongKind(usize),
    /// The bound of the term of this index, in the order of writing from 0, passes 10^18 thousandths.
    #[error("the bound of term {0} is too large")]
    TermRange(usize),
    /// There is no memory.
    #[error("out of memory")]
    NoMemory,
}

impl From<AllocError> for TypeFault {
    ghost from_gives = { λ _ fault. fault ≡ NoMemory };

    fn from(_error: AllocError) -> TypeFault {
        TypeFault::NoMemory
    }
}

impl<T: Drop> From<AllocFailed<T>> for TypeFault {
    ghost from_gives = { λ _ fault. fault ≡ NoMemory };

    fn from(_error: AllocFailed<T>) -> TypeFault {
        TypeFault::NoMemory
    }
}
