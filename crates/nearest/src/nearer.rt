//! The ticks at which one of two objects is nearer than another.
ghost use Rattle.std.specs.Prelude.{◌≡◌, ◌-◌, ◌≤◌, ◌&&◌, not, ℕ, pos, negsuc, true, option_to_list, unsigned_abs, if◌then◌else◌};
ghost use Rattle.linear_crossing.specs.Zones.{spans_of};
ghost use Rattle.tick_set.specs.Runs.{IsRuns, spans_have};
ghost use Rattle.tick_set.specs.Ticks.{within};
ghost use Rattle.nearest.specs.Depth.{depth_at, one_if};
ghost use Rattle.nearest.specs.Order.{is_below, separation_after};

use crate::low::low_ticks;
use crate::order::Difference;
use crate::squares::Separation;
use linear_crossing::Pair;
use tick_set::{Span, Window};

/// The ticks of the window at which the first separation is less than the second, or as much where ties are asked for
/// too. Both are by the ticks since the window's first.
pub fn nearer(first: &Separation, second: &Separation, ties: bool, w: Window) -> Pair
    ensures { (t : ℕ) → depth_at (spans_of result) t ≡ one_if (within w.lo w.hi t
        && is_below ties (separation_after first.now (t - w.lo)) (separation_after second.now (t - w.lo))) }
{
    if second.quadratic <= first.quadratic {
        Pair::single(low_run(first, second, ties, w))
    } else {
        // Where the first is not less, the second is, or is as much where that is no tie that is asked for.
        all_but(w, low_run(second, first, !ties, w))
    }
}

// The same where the difference is convex.
fn low_run(first: &Separation, second: &Separation, ties: bool, w: Window) -> Option<Span>
    requires { second.now.quadratic ≤ first.now.quadratic }
    ensures { IsRuns (λ t. within w.lo w.hi t
        && is_below ties (separation_after first.now (t - w.lo)) (separation_after second.now (t - w.lo)))
        (option_to_list result) }
{
    let limit = limit_for(ties);
    low_ticks(&Difference::of(first, second), limit, w)
}

// How much the first may be more than the second: where ties aren't asked for it must be less.
fn limit_for(ties: bool) -> i128
    ensures value { result ≡ (if ties then pos 0 else negsuc 0) }
    ensures size { unsigned_abs result ≤ 1 }
{
    if ties { 0 } else { -1 }
}

// The ticks of the window that are not in the run, which has no others.
fn all_but(w: Window, run: Option<Span>) -> Pair
    requires { (t : ℕ) → spans_have (option_to_list run) t ≡ true → within w.lo w.hi t ≡ true }
    ensures { (t : ℕ) → depth_at (spans_of result) t
        ≡ one_if (within w.lo w.hi t && not (spans_have (option_to_list run) t)) }
{
    match run {
        Some(inner) => Pair {
            first: Span::stretch(w.lo, inner.lo),
            second: Span::stretch(inner.hi + 1, w.hi + 1),
        },
        None => Pair::single(Some(w.span())),
    }
}
