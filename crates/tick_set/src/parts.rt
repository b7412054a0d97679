//! Parts of spans, which may be without a tick.
ghost use Rattle.std.specs.Prelude.{◌≡◌, ◌≤◌, ◌<◌, ◌+◌, ◌&&◌, ◌↔◌, ℕ, false, nat_le, nat_lt, option_to_list, IsSome, IsNone};
ghost use Rattle.tick_set.specs.Runs.{IsRuns};
ghost use Rattle.tick_set.specs.Ticks.{within};

use crate::{LAST_TICK, Span};

impl Span {
    /// The ticks from `from` up to `until`, without `until`, which is at most one past [`LAST_TICK`].
    /// None exactly where there are none.
    #[inline]
    pub fn stretch(from: u32, until: u32) -> Option<Span>
        requires { until ≤ LAST_TICK + 1 }
        ensures some { IsSome result ↔ (from < until) }
        ensures ticks { IsRuns (λ t. nat_le from t && nat_lt t until) (option_to_list result) }
    {
        if from < until {
            Some(Span {
                lo: from,
                hi: until - 1,
            })
        } else {
            None
        }
    }

    /// The ticks of both spans. None exactly where they share none.
    #[inline]
    pub fn meet(self, other: Span) -> Option<Span>
        ensures none { IsNone result
            ↔ ((t : ℕ) → (within self.lo self.hi t && within other.lo other.hi t) ≡ false) }
        ensures ticks { IsRuns (λ t. within self.lo self.hi t && within other.lo other.hi t)
            (option_to_list result) }
    {
        Span::new(self.lo.max(other.lo), self.hi.min(other.hi))
    }
}
