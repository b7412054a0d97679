//! Motions along lines of which one, as the other sees it, leads past this one.
ghost use Rattle.std.specs.Prelude.{◌≡◌, ◌+◌, ◌*◌, ◌≤◌, ℕ, true, pos, ◌-ℤ◌, ◌*ℤ◌, ◌≤ℤ◌, ◌<ℤ◌, unsigned_abs};
ghost use Rattle.fixed_point.specs.declared.number.TheConstants.{FIX_LIMIT, SLOPE_LIMIT};
ghost use Rattle.fixed_point.specs.Sizes.{IsFixDifference, IsSlopeDifference};
ghost use Rattle.geometry.specs.Plane.{square};
ghost use Rattle.linear_crossing.specs.Moving.{distance_after};

use exact::{minus, times};
use fixed_point::{Fix, Slope};
use geometry::apart;
use linear_crossing::Line;

/// Whether the second motion, as the first one sees it, goes along a line that misses the square round it whose sides are
/// `c` away. The cross product of its place and its step is the same at all ticks, and in the square at most `c` times the
/// step along both axes.
#[inline]
pub(crate) fn leads_past(p: &Line, q: &Line, c: Fix) -> bool
    ensures { result ≡ true → pos 0 ≤ℤ c → (k : ℕ) → square c <ℤ distance_after p.now q.now k }
{
    let (x, y) = (apart(q.at.x, p.at.x), apart(q.at.y, p.at.y));
    let (dx, dy) = (step_apart(q.dx, p.dx), step_apart(q.dy, p.dy));
    width(c, dx, dy) < turn(x, y, dx, dy)
}

// The first slope less the second.
#[inline]
fn step_apart(a: Slope, b: Slope) -> i64
    ensures value { result ≡ a -ℤ b }
    ensures size { IsSlopeDifference result }
{
    i64::from(a.raw()) - i64::from(b.raw())
}

// The size of the cross product of a place and a step.
#[inline]
fn turn(x: i64, y: i64, dx: i64, dy: i64) -> u128
    requires x_size { IsFixDifference x }
    requires y_size { IsFixDifference y }
    requires dx_size { IsSlopeDifference dx }
    requires dy_size { IsSlopeDifference dy }
    ensures { result ≡ unsigned_abs (x *ℤ dy -ℤ y *ℤ dx) }
{
    let left = crossed(x, dy);
    let right = crossed(y, dx);
    minus(left, right).unsigned_abs()
}

// The product of a coordinate of a place and one of a step.
#[inline]
fn crossed(a: i64, step: i64) -> i128
    requires a_size { IsFixDifference a }
    requires step_size { IsSlopeDifference step }
    ensures value { result ≡ a *ℤ step }
    ensures size { unsigned_abs result ≤ 4 * FIX_LIMIT * SLOPE_LIMIT }
{
    times(i128::from(a), i128::from(step))
}

// The size of `c` times that of a step along both axes.
#[inline]
fn width(c: Fix, dx: i64, dy: i64) -> u128
    requires dx_size { IsSlopeDifference dx }
    requires dy_size { IsSlopeDifference dy }
    ensures { result ≡ unsigned_abs c * (unsigned_abs dx + unsigned_abs dy) }
{
    u128::from(c.raw().unsigned_abs()) * u128::from(dx.unsigned_abs() + dy.unsigned_abs())
}
