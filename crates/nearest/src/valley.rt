//! Where a parabola that opens upwards falls and rises.
ghost use Rattle.std.specs.Prelude.{◌≡◌, ◌*◌, ◌^◌, ◌≤◌, ℤ, true, unsigned_abs};
ghost use Rattle.convex.specs.Parabola.{parabola};
ghost use Rattle.exact.specs.Rising.{FallsTo, RisesIn};
ghost use Rattle.tick_set.specs.Ticks.{IsTick};
ghost use Rattle.nearest.specs.Order.{IsTurn};

use crate::parabola::rise_at;
use crate::roots::lowest;

/// How a parabola rises from one tick to the next: what it is but for its constant.
#[derive(Clone, Copy)]
pub struct Rise {
    pub quadratic: u64,
    pub linear: i128,
    pub ghost quadratic_size: { quadratic ≤ 8 * 10 ^ 12 },
    pub ghost linear_size: { unsigned_abs linear ≤ 4 * 10 ^ 22 },
}

/// The number of `0..=last` up to which the parabola falls, and from which on it rises.
pub fn turn(rise: &Rise, last: u32) -> u32
    requires { IsTick last }
    ensures { IsTurn rise.now.quadratic rise.now.linear last result }
{
    let guess = lowest(rise.quadratic, rise.linear, last);
    if falls_to(rise, guess) && rises_from(rise, guess, last) {
        return guess;
    }
    bisected(rise, last)
}

// Whether it falls up to a number; false tells nothing.
#[inline]
fn falls_to(rise: &Rise, k: u32) -> bool
    requires { IsTick k }
    ensures { result ≡ true → (constant : ℤ) → FallsTo (parabola rise.now.quadratic rise.now.linear constant) k }
{
    if k == 0 {
        return true;
    }
    if rise_at(rise.quadratic, rise.linear, k - 1) < 0 {
        return true;
    }
    false
}

// Whether it rises from a number up to `last`; false tells nothing.
#[inline]
fn rises_from(rise: &Rise, k: u32, last: u32) -> bool
    requires { IsTick k }
    ensures { result ≡ true → (constant : ℤ) → RisesIn (parabola rise.now.quadratic rise.now.linear constant) k last }
{
    if k == last {
        return true;
    }
    if rise_at(rise.quadratic, rise.linear, k) < 0 {
        return false;
    }
    true
}

// The same number as `turn` tells, without a guess.
fn bisected(rise: &Rise, last: u32) -> u32
    requires { IsTick last }
    ensures { IsTurn rise.now.quadratic rise.now.linear last result }
{
    let mut low = 0;
    let mut high = last;
    // The parabola falls up to `low`, and rises from `high` on.
    'halves: while low < high {
        let middle = low + (high - low) / 2;
        if rise_at(rise.quadratic, rise.linear, middle) < 0 {
            low = middle + 1;
        } else {
            high = middle;
        }
    }
    low
}
