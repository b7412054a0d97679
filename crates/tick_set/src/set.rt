//! What a set of ticks is.
ghost use Rattle.std.specs.Prelude.{◌≡◌, ◌≤◌, ◌↔◌, ℕ, Bool, true, false, not, ◌&&◌, ◌||◌, nat_lt, if◌then◌else◌, IsTrue, IsOk, IfOk};
ghost use Rattle.std.specs.List.{list_any};
ghost use Rattle.tick_set.specs.Ticks.{within};
ghost use Rattle.tick_set.specs.Runs.{IsNormal, IsRuns, spans_have};

use crate::{LAST_TICK, Span, Window};
use std::alloc::{AllocError, Global};

/// A set of ticks, each from 0 to [`LAST_TICK`](crate::LAST_TICK).
///
/// A call that makes a set fails only where memory is out, and changes none of its arguments.
pub trait TickSet: Drop {
    /// Whether a tick is in the set.
    ghost member: { Self → ℕ → Bool };

    /// The set without a tick. It takes no memory; `alloc` serves what is put into it.
    fn empty(alloc: Global) -> Self
        ensures { (t : ℕ) → member result t ≡ false };

    /// The ticks of one span.
    fn of_span(alloc: Global, s: Span) -> Result<Self, AllocError>
        ensures { IfOk result (λ r. (t : ℕ) → member r t ≡ within s.lo s.hi t) };

    /// The set whose maximal runs these are, ascending.
    fn of_runs(alloc: Global, runs: &[Span]) -> Result<Self, AllocError>
        requires { IsNormal runs.now }
        ensures { IfOk result (λ s. (t : ℕ) → member s t ≡ spans_have runs.now t) };

    /// Whether the tick is in the set.
    fn has(&self, t: u32) -> bool
        ensures has { result ≡ member self.now t }
        ensures in_range { (u : ℕ) → member self.now u ≡ true → u ≤ LAST_TICK };

    /// Whether there is no tick.
    fn is_empty(&self) -> bool
        ensures { IsTrue result ↔ ((t : ℕ) → member self.now t ≡ false) };

    /// Whether both sets have the same ticks.
    fn equal(&self, other: &Self) -> bool
        ensures { IsTrue result ↔ ((t : ℕ) → member self.now t ≡ member other.now t) };

    /// Whether both sets have a tick in common. It takes no memory.
    fn shares_tick(&self, other: &Self) -> bool
        ensures some { IsTrue result
            → (t : ℕ) × ((member self.now t && member other.now t) ≡ true) }
        ensures none { result ≡ false
            → (t : ℕ) → (member self.now t && member other.now t) ≡ false };

    /// The same ticks.
    fn copy(&self, alloc: Global) -> Result<Self, AllocError>
        ensures { IfOk result (λ r. (t : ℕ) → member r t ≡ member self.now t) };

    /// The ticks of either set.
    fn union(&self, alloc: Global, other: &Self) -> Result<Self, AllocError>
        ensures { IfOk result
            (λ r. (t : ℕ) → member r t ≡ (member self.now t || member other.now t)) };

    /// The ticks of any of the sets.
    fn union_all(alloc: Global, sets: &[&Self]) -> Result<Self, AllocError>
        ensures { IfOk result
            (λ r. (t : ℕ) → member r t ≡ list_any (λ s. member s.now t) sets.now) };

    /// The ticks of both sets. It takes no memory where one of them has no tick.
    fn meet(&self, alloc: Global, other: &Self) -> Result<Self, AllocError>
        ensures ticks { IfOk result
            (λ r. (t : ℕ) → member r t ≡ (member self.now t && member other.now t)) }
        ensures none_here { ((t : ℕ) → member self.now t ≡ false) → IsOk result }
        ensures none_there { ((t : ℕ) → member other.now t ≡ false) → IsOk result };

    /// The ticks of this set that are not in the other.
    fn without(&self, alloc: Global, other: &Self) -> Result<Self, AllocError>
        ensures { IfOk result
            (λ r. (t : ℕ) → member r t ≡ (member self.now t && not (member other.now t))) };

    /// The ticks of the window that are not in this set.
    fn complement(&self, alloc: Global, w: Window) -> Result<Self, AllocError>
        ensures { IfOk result
            (λ r. (t : ℕ) → member r t ≡ (within w.lo w.hi t && not (member self.now t))) };

    /// The ticks of this set that are in the window.
    fn clip(&self, alloc: Global, w: Window) -> Result<Self, AllocError>
        ensures { IfOk result
            (λ r. (t : ℕ) → member r t ≡ (within w.lo w.hi t && member self.now t)) };

    /// The ticks of this set before the tick `at`, and those of the later set from it on.
    fn splice(&self, alloc: Global, at: u32, later: &Self) -> Result<Self, AllocError>
        ensures { IfOk result (λ r. (t : ℕ) → member r t
            ≡ (if nat_lt t at then member self.now t else member later.now t)) };

    /// The maximal runs of consecutive ticks, ascending. Sets with the same ticks have the same runs.
    fn runs(&self, alloc: Global) -> Result<Vec<Span>, AllocError>
        ensures { IfOk result (λ spans. IsRuns (member self.now) spans.items) };
}
