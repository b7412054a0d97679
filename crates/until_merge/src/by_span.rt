//! The operators on spans, each in time linear in the spans of both sets.
ghost use Rattle.tick_set.specs.Runs.{spans_have};

use crate::Temporal;
use crate::shapes::{held, moved};
use crate::until::until_within;
use interval_set::IntervalSet;
use std::alloc::{AllocError, Global};
use tick_set::{LAST_TICK, Span, TickSet, Window};

// `c` is never added to a tick. Where it is subtracted, the difference ends at 0.
impl Temporal for IntervalSet {
    fn next(&self, alloc: Global, w: Window) -> Result<Self, AllocError> {
        Ok(IntervalSet::from_runs(moved(alloc, self.spans(), 1, w.lo)?))
    }

    fn until(&self, alloc: Global, h: &Self, _w: Window) -> Result<Self, AllocError> {
        // No goal is further off than the last tick.
        Ok(IntervalSet::from_runs(until_within(alloc, self.spans(), h.spans(), LAST_TICK)?))
    }

    fn until_within(
        &self,
        alloc: Global,
        h: &Self,
        c: u32,
        _w: Window,
    ) -> Result<Self, AllocError> {
        Ok(IntervalSet::from_runs(until_within(alloc, self.spans(), h.spans(), c)?))
    }

    fn until_after(&self, alloc: Global, h: &Self, c: u32, w: Window) -> Result<Self, AllocError> {
        if c == 0 {
            return self.until(alloc, h, w);
        }
        // From t on the guard has c ticks, and t + c leads to a goal.
        let guarded = IntervalSet::from_runs(held(alloc, self.spans(), c - 1, LAST_TICK + 1)?);
        let leading = until_within(alloc, self.spans(), h.spans(), LAST_TICK)?;
        let reached = IntervalSet::from_runs(moved(alloc, &leading, c, w.lo)?);
        let both = guarded.meet(alloc, &reached)?;
        Ok(both)
    }

    fn eventually_within(&self, alloc: Global, c: u32, w: Window) -> Result<Self, AllocError> {
        Ok(IntervalSet::from_runs(until_within(alloc, &[w.span()], self.spans(), c)?))
    }

    fn eventually_after(&self, alloc: Global, c: u32, w: Window) -> Result<Self, AllocError> {
        let Some((s, _)) = self.spans().split_last() else {
            return Ok(IntervalSet::empty(alloc));
        };
        if s.hi < c || s.hi - c < w.lo {
            return Ok(IntervalSet::empty(alloc));
        }
        let hi = s.hi - c;
        let early = IntervalSet::of_span(alloc, Span { lo: w.lo, hi })?;
        Ok(early)
    }

    fn always_for(&self, alloc: Global, c: u32, w: Window) -> Result<Self, AllocError> {
        Ok(IntervalSet::from_runs(held(alloc, self.spans(), c, w.hi)?))
    }
}
