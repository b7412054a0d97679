//! The ways to put two sets together.
ghost use Rattle.std.specs.Prelude.{◌≡◌};
ghost use Rattle.tick_set.specs.SetOperation.{kept};

/// How two sets of ticks are put together, tick by tick.
#[derive(Clone, Copy, Debug, PartialEq, Eq)]
pub enum SetOperation {
    /// The ticks of either.
    Union,
    /// The ticks of both.
    Meet,
    /// The ticks of the first that are not in the second.
    Without,
}

impl SetOperation {
    /// Whether a tick is kept, by whether it is in the first set and in the second.
    #[inline]
    pub fn keeps(self, first: bool, second: bool) -> bool
        ensures { result ≡ kept self first second }
    {
        match self {
            SetOperation::Union => first || second,
            SetOperation::Meet => first && second,
            SetOperation::Without => first && !second,
        }
    }
}
