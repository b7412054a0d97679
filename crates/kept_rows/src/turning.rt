//! Sets of ticks that tell how long they stay as they are, and in which slots they have ticks.
ghost use Rattle.std.specs.Prelude.{◌≡◌, ◌<◌, ◌≤◌, ℕ, true, false, IfNone, IfSome};
ghost use Rattle.tick_set.specs.Ticks.{within};
ghost use Rattle.kept_rows.specs.Slots.{AreIn};
ghost use Rattle.tick_set.specs.Runs.{IsNormal, spans_have};
ghost use Rattle.kept_rows.specs.Turning.{AreSpansFrom, IsSteady};

use crate::near::Ends;
use crate::slots::Slots;
use interval_set::IntervalSet;
use tick_set::{Span, TickSet};

/// A set of ticks that tells how long it stays as it is and in which slots it has ticks, so that a table of many can pass
/// over those that stay, and over those that have none of some ticks.
pub trait Turning: TickSet {
    /// A tick up to which, from `t` on and without it, nothing turns: each has what `t` has.
    fn steady_until(&self, t: u32) -> u32
        ensures { (u : ℕ) → t ≤ u → u < result → Self.member self.now u ≡ Self.member self.now t };

    /// The slots of its ticks.
    fn slots(&self) -> Slots
        ensures { AreIn (Self.member self.now) result };

    /// Its first and its last tick. None where it has none.
    fn ends(&self) -> Option<Ends>
        ensures some { IfSome result (λ ends. (t : ℕ) → Self.member self.now t ≡ true → within ends.lo ends.hi t ≡ true) }
        ensures none { IfNone result ((t : ℕ) → Self.member self.now t ≡ false) };
}

impl Turning for IntervalSet {
    /// The first tick after `t` that turns, or `u32::MAX` where none does.
    fn steady_until(&self, t: u32) -> u32 {
        first_turn(self.spans(), t)
    }

    fn slots(&self) -> Slots {
        slots_of(self.spans())
    }

    fn ends(&self) -> Option<Ends> {
        ends_of(self.spans())
    }
}

// The first tick after `t` where a span begins or has ended; `u32::MAX` where there is none.
fn first_turn(spans: &[Span], t: u32) -> u32
    requires { IsNormal spans.now }
    ensures { IsSteady (spans_have spans.now) t result }
{
    match from_tick(spans, t).split_first() {
        Some((s, _)) if s.lo <= t => s.hi + 1,
        Some((s, _)) => s.lo,
        None => u32::MAX,
    }
}

// The spans without those that end before the tick, by a binary search.
fn from_tick(spans: &[Span], t: u32) -> &[Span]
    requires { IsNormal spans.now }
    ensures { AreSpansFrom t spans.now result.now }
{
    match spans.binary_search_by_key(&t, |s| s.hi) {
        Ok(at) => spans.split_at(at).1,
        Err(at) => spans.split_at(at).1,
    }
}

// The first and the last tick of spans.
fn ends_of(spans: &[Span]) -> Option<Ends>
    requires { IsNormal spans.now }
    ensures some { IfSome result (λ ends. (t : ℕ) → spans_have spans.now t ≡ true → within ends.lo ends.hi t ≡ true) }
    ensures none { IfNone result ((t : ℕ) → spans_have spans.now t ≡ false) }
{
    let Some((first, _)) = spans.split_first() else {
        return None;
    };
    let Some((last, _)) = spans.split_last() else {
        return None;
    };
    Some(Ends {
        lo: first.lo,
        hi: last.hi,
    })
}

// The slots of the ticks of spans.
fn slots_of(spans: &[Span]) -> Slots
    ensures { AreIn (spans_have spans.now) result }
{
    let mut slots = Slots::none();
    let mut rest = spans;
    'spans: while let Some((s, later)) = rest.split_first() {
        slots = slots.with_span(*s);
        rest = later;
    }
    slots
}
