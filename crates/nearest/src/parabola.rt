//! The values of a parabola.
ghost use Rattle.std.specs.Prelude.{◌≡◌, ◌*◌, ◌^◌, ◌≤◌, unsigned_abs};
ghost use Rattle.convex.specs.Parabola.{parabola};
ghost use Rattle.nearest.specs.Order.{rise_after};
ghost use Rattle.tick_set.specs.Ticks.{IsTick};

use exact::{plus, times};

/// The value of a parabola so many ticks after its first.
pub fn parabola_at(quadratic: u64, linear: i128, constant: i128, k: u32) -> i128
    requires ticks { IsTick k }
    requires quadratic_size { quadratic ≤ 8 * 10 ^ 12 }
    requires linear_size { unsigned_abs linear ≤ 4 * 10 ^ 22 }
    requires constant_size { unsigned_abs constant ≤ 18 * 10 ^ 30 }
    ensures { result ≡ parabola quadratic linear constant k }
{
    let ticks = i128::from(k);
    let squared = times(ticks, ticks);
    let bend = times(i128::from(quadratic), squared);
    let line = times(linear, ticks);
    let rise = plus(bend, line);
    plus(rise, constant)
}

/// How much it rises from that tick to the next.
pub fn rise_at(quadratic: u64, linear: i128, k: u32) -> i128
    requires ticks { IsTick k }
    requires quadratic_size { quadratic ≤ 8 * 10 ^ 12 }
    requires linear_size { unsigned_abs linear ≤ 4 * 10 ^ 22 }
    ensures { result ≡ rise_after quadratic linear k }
{
    let ticks = u64::from(k);
    let steps = i128::from(2 * ticks + 1);
    let bend = times(i128::from(quadratic), steps);
    plus(bend, linear)
}
