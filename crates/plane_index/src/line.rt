//! A value that moves along a line, and the ticks at which it lies between two bounds.
ghost use Rattle.std.specs.Prelude.{◌≡◌, ◌≤◌, ◌+◌, ◌-◌, ◌*◌, ℕ, pos, IfSome, ◌+ℤ◌, ◌*ℤ◌, ◌&&◌, int_le, nat_le, option_to_list, unsigned_abs};
ghost use Rattle.fixed_point.specs.declared.number.TheConstants.{FIX_LIMIT, SLOPE_LIMIT};
ghost use Rattle.fixed_point.specs.Sizes.{IsFix, IsFixDifference, IsSlope};
ghost use Rattle.tick_set.specs.Runs.{IsRuns};
ghost use Rattle.tick_set.specs.Ticks.{IsTick, within};
ghost use Rattle.plane.specs.Rows.{is_between};

use fixed_point::{Fix, Slope};
use tick_set::{Span, Window};

/// A value, in thousandths, that changes by the same at each tick.
#[derive(Clone, Copy)]
pub struct Line {
    pub start: i64,
    pub slope: i64,
    pub ghost start_size: { unsigned_abs start ≤ FIX_LIMIT },
    pub ghost slope_size: { unsigned_abs slope ≤ SLOPE_LIMIT },
}

impl Line {
    ghost use Rattle.plane_index.specs.Lines.{line_after};

    /// That of a value which has moved by one slope for so many ticks.
    pub fn after(value: Fix, slope: Slope, past: u32) -> Option<Line>
        ensures { IfSome result (λ line. (k : ℕ) → line_after line k ≡ value +ℤ slope *ℤ pos (past + k)) }
    {
        let start = Fix::of(moved(value.raw(), slope.raw(), past))?;
        Some(Line {
            start: start.raw(),
            slope: slope.raw(),
        })
    }

    /// The ticks of the window, at whose first tick the line begins, at which it lies between two bounds.
    pub fn between(&self, lo: Fix, hi: Fix, w: Window) -> Option<Span>
        ensures { IsRuns (λ t. within w.lo w.hi t && is_between lo hi (line_after self.now (t - w.lo))) (option_to_list result) }
    {
        let rise = self.slope.unsigned_abs();
        if self.slope >= 0 {
            rising_between(rise, lo.raw() - self.start, hi.raw() - self.start, w)
        } else {
            rising_between(rise, self.start - hi.raw(), self.start - lo.raw(), w)
        }
    }
}

// A value after `k` ticks.
fn moved(start: i64, slope: i64, k: u32) -> i64
    requires start_size { IsFix start }
    requires slope_size { IsSlope slope }
    ensures { result ≡ start +ℤ slope *ℤ pos k }
{
    start + slope * i64::from(k)
}

// The ticks of the window at which what is 0 at its first tick and rises by so much at each lies between two bounds.
fn rising_between(rise: u64, low: i64, high: i64, w: Window) -> Option<Span>
    requires rise { rise ≤ SLOPE_LIMIT }
    requires size { IsFixDifference high }
    ensures { IsRuns (λ t. within w.lo w.hi t && is_between low high (pos (rise * (t - w.lo)))) (option_to_list result) }
{
    let past = w.hi - w.lo;
    let first = first_reached(rise, low, past);
    let end = first_reached(rise, high + 1, past);
    Span::stretch(w.lo + first, w.lo + end)
}

// The first number up to the last one at which what is 0 at first and rises by so much reaches a bound. The next one after the
// last where there is none.
fn first_reached(rise: u64, bound: i64, last: u32) -> u32
    requires rise { rise ≤ SLOPE_LIMIT }
    requires last { IsTick last }
    ensures bound { result ≤ last + 1 }
    ensures first { (k : ℕ) → k ≤ last → int_le bound (pos (rise * k)) ≡ nat_le result k }
{
    if bound <= 0 {
        return 0;
    }
    let height = bound.unsigned_abs();
    // A product tells without a division that it isn't reached.
    if rise * u64::from(last) < height {
        return last + 1;
    }
    height.div_ceil(rise) as u32
}
