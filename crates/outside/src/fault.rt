// How a call of the outside fails.
ghost use Rattle.std.specs.Prelude.{◌≡◌, is_some, Some, None, MatchResult, if◌then◌else◌};
ghost use Rattle.outside.specs.Faults.{one_more};

use std::alloc::{AllocError, AllocFailed};
use thiserror::Error;

/// A call of the outside failed, and its object's count of faults rose.
#[derive(Clone, Copy, Debug, PartialEq, Eq, Error)]
#[error("a call of the outside failed")]
pub struct Failed;

/// Why a call that takes memory failed.
#[derive(Clone, Copy, Debug, PartialEq, Eq, Error)]
pub enum OutFail {
    /// The outside failed, and the object's count of faults rose.
    #[error("a call of the outside failed")]
    Failed,
    /// There was no memory. The count is as it was.
    #[error("out of memory")]
    NoMemory,
}

impl From<AllocError> for OutFail {
    ghost use Rattle.std.specs.Prelude.{◌≡◌};
    ghost use Rattle.outside.specs.declared.fault.OutFail.TheVariants.{NoMemory};

    ghost from_gives = { λ _ e. e ≡ NoMemory };

    fn from(_: AllocError) -> OutFail {
        OutFail::NoMemory
    }
}

impl From<Failed> for OutFail {
    ghost use Rattle.std.specs.Prelude.{◌≡◌};
    ghost use Rattle.outside.specs.declared.fault.OutFail.TheVariants as fails;

    ghost from_gives = { λ _ e. e ≡ fails.Failed };

    fn from(_: Failed) -> OutFail {
        OutFail::Failed
    }
}

// What a call of the outside gave, or its failure, which is counted.
pub(crate) fn counted<T>(faults: &mut u64, given: Option<T>) -> Result<T, Failed>
    ensures answer { MatchResult result (λ moved. given ≡ Some moved) (λ _. given ≡ None) }
    ensures count { faults.new ≡ (if is_some given then faults.old else one_more faults.old) }
{
    if given.is_none() {
        *faults = faults.saturating_add(1);
    }
    given.ok_or(Failed)
}
