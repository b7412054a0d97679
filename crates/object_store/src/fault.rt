//! Why a writing call is refused.
ghost use Rattle.std.specs.Prelude.{◌≡◌};
ghost use Rattle.object_store.specs.declared.fault.StoreFault.TheVariants.{NoMemory};

use std::alloc::{AllocError, AllocFailed};
use thiserror::Error;

/// Why a writing call is refused. The first condition that holds, in this order, is the fault, and
/// want of memory comes only where none holds. The store is as before.
#[derive(Clone, Copy, Debug, PartialEq, Eq, Error)]
pub enum StoreFault {
    /// The class, object or attribute isn't known.
    #[error("a name isn't known")]
    UnknownName,
    /// A class of that name is there; the inserted name belongs to another class; or a name is given
    /// twice, as `x` or `y` beside `at` or `move` too.
    #[error("a name is taken")]
    NameTaken,
    /// A value is of a kind that its attribute doesn't take, or `at` or `move` is given for a class
    /// without positions.
    #[error("a value is of a kind that its place doesn't take")]
    WrongKind,
    /// An insert of a present object, or an update or removal of an absent one.
    #[error("the object is present, or absent")]
    Presence,
    /// A new name for a class that has had as many names as its capacity.
    #[error("the class has had as many names as its capacity")]
    ClassFull,
    /// A class past 64.
    #[error("there are as many classes as the store takes")]
    StoreFull,
    /// There is no memory.
    #[error("out of memory")]
    NoMemory,
}

impl From<AllocError> for StoreFault {
    ghost from_gives = { λ _ fault. fault ≡ NoMemory };

    fn from(_error: AllocError) -> StoreFault {
        StoreFault::NoMemory
    }
}

impl<T: Drop> From<AllocFailed<T>> for StoreFault {
    ghost from_gives = { λ _ fault. fault ≡ NoMemory };

    fn from(_error: AllocFailed<T>) -> StoreFault {
        StoreFault::NoMemory
    }
}
