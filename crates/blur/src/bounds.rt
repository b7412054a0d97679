//! The squares of the least and of the greatest distance of two objects that move along lines.
ghost use Rattle.std.specs.Prelude.{◌≡◌, ◌+◌, ◌*◌, ◌^◌, ◌≤◌, ℕ, ℤ, pos, ◌+ℤ◌, ◌-ℤ◌, ◌*ℤ◌, ◌≤ℤ◌, unsigned_abs};
ghost use Rattle.fixed_point.specs.declared.number.TheConstants.{SLOPE_LIMIT};
ghost use Rattle.fixed_point.specs.Sizes.{IsSlopeDifference};
ghost use Rattle.linear_crossing.specs.declared.quad.TheConstants.{COORDINATE_LIMIT};
ghost use Rattle.linear_crossing.specs.Moving.{IsCoordinateDifference};
ghost use Rattle.tick_set.specs.declared.spans.TheConstants.{LAST_TICK};
ghost use Rattle.tick_set.specs.Ticks.{IsTick};
ghost use Rattle.blur.specs.Widened.{IsBetween, widened};

use convex::Convex;
use exact::{plus, times};
use fixed_point::Slope;
use geometry::apart;
use linear_crossing::Line;

/// A bound of the square of the distance of two objects that move along lines, by the ticks that have passed since a
/// first one: on each axis their difference counts as so much more, and so much less, as far as that goes.
#[derive(Clone, Copy)]
pub struct SquareBound {
    pub x: i64,
    pub y: i64,
    pub dx: i64,
    pub dy: i64,
    pub more: u64,
    pub less: u64,
    pub ghost x_size: { unsigned_abs x ≤ 2 * COORDINATE_LIMIT },
    pub ghost y_size: { unsigned_abs y ≤ 2 * COORDINATE_LIMIT },
    pub ghost dx_size: { unsigned_abs dx ≤ 2 * SLOPE_LIMIT },
    pub ghost dy_size: { unsigned_abs dy ≤ 2 * SLOPE_LIMIT },
    pub ghost more_size: { more ≤ 10 ^ 10 },
}

impl SquareBound {
    ghost use Rattle.linear_crossing.specs.Moving.{IsInReach, position_after};
    ghost use Rattle.worlds.specs.Apart.{farthest_square, nearest_square};
    ghost use Rattle.blur.specs.Bounds.{bound_after};
    ghost use Rattle.blur.specs.Widened.{widened_square};

    /// The square of the least distance, where both objects may be off.
    pub fn least(from: &Line, to: &Line, error: u32) -> SquareBound
        requires from_in_reach { IsInReach from.now }
        requires to_in_reach { IsInReach to.now }
        ensures { (k : ℕ) → bound_after result k ≡ nearest_square error (position_after from.now k) (position_after to.now k) }
    {
        SquareBound::between(from, to, 0, 2 * u64::from(error))
    }

    /// The square of the greatest distance.
    pub fn greatest(from: &Line, to: &Line, error: u32) -> SquareBound
        requires from_in_reach { IsInReach from.now }
        requires to_in_reach { IsInReach to.now }
        ensures { (k : ℕ) → bound_after result k ≡ farthest_square error (position_after from.now k) (position_after to.now k) }
    {
        SquareBound::between(from, to, 2 * u64::from(error), 0)
    }

    /// A number that the bound is at least at each tick up to `last`: the sum of the squares of what it is at least on each
    /// axis by itself. The two ends tell it where the objects stay on one side of each other on the axis.
    pub fn floor(&self, last: u32) -> i128
        requires { IsTick last }
        ensures { (k : ℕ) → k ≤ last → result ≤ℤ bound_after self.now k }
    {
        let x = least_size(self.x, self.dx, last, self.more, self.less);
        let y = least_size(self.y, self.dy, last, self.more, self.less);
        sum_of_squares(x, y)
    }

    // The bound for two motions, by how much more and how much less their differences count.
    fn between(from: &Line, to: &Line, more: u64, less: u64) -> SquareBound
        requires from_in_reach { IsInReach from.now }
        requires to_in_reach { IsInReach to.now }
        requires few { more ≤ 10 ^ 10 }
        ensures { (k : ℕ) → bound_after result k ≡ widened_square more less (position_after from.now k) (position_after to.now k) }
    {
        let x = apart(to.at.x, from.at.x);
        let y = apart(to.at.y, from.at.y);
        let dx = slope_apart(to.dx, from.dx);
        let dy = slope_apart(to.dy, from.dy);
        SquareBound {
            x,
            y,
            dx,
            dy,
            more,
            less,
        }
    }
}

impl Convex for SquareBound {
    ghost use Rattle.worlds.proofs.CallerLemmas.{squares_bend};
    ghost use Rattle.blur.specs.Bounds.{bound_after};
    ghost use Rattle.tick_set.specs.declared.spans.TheConstants.{LAST_TICK};

    ghost value = { bound_after };

    ghost reach = { λ _. LAST_TICK };

    fn at(&self, k: u32) -> i128 {
        let x = size_after(self.x, self.dx, k, self.more, self.less);
        let y = size_after(self.y, self.dy, k, self.more, self.less);
        sum_of_squares(x, y)
    }

    ghost bends = { λ b. squares_bend b.more b.less b.x b.y b.dx b.dy };
}

// The first slope less the second.
fn slope_apart(a: Slope, b: Slope) -> i64
    ensures value { result ≡ a -ℤ b }
    ensures size { IsSlopeDifference result }
{
    a.raw() - b.raw()
}

// What the size of a number, with so much more and so much less, is at least while some ticks pass.
fn least_size(start: i64, step: i64, last: u32, more: u64, less: u64) -> u64
    requires start_size { IsCoordinateDifference start }
    requires step_size { IsSlopeDifference step }
    requires tick { IsTick last }
    requires more_size { more ≤ 10 ^ 10 }
    ensures least { (k : ℕ) → k ≤ last → result ≤ widened more less (start +ℤ step *ℤ pos k) }
    ensures size { result ≤ 10 ^ 16 }
{
    let size = nearest_size(start, place_after(start, step, last));
    (size + more).saturating_sub(less)
}

// What the sizes of two numbers, and of each number between them, are at least.
fn nearest_size(first: i64, end: i64) -> u64
    ensures least { (x : ℤ) → IsBetween first end x → result ≤ unsigned_abs x }
    ensures size { result ≤ unsigned_abs first }
{
    if (first < 0) == (end < 0) {
        first.unsigned_abs().min(end.unsigned_abs())
    } else {
        0
    }
}

// The size of a number after some ticks, with so much more and so much less.
fn size_after(start: i64, step: i64, ticks: u32, more: u64, less: u64) -> u64
    requires start_size { IsCoordinateDifference start }
    requires step_size { IsSlopeDifference step }
    requires tick { IsTick ticks }
    requires more_size { more ≤ 10 ^ 10 }
    ensures value { result ≡ widened more less (start +ℤ step *ℤ pos ticks) }
    ensures size { result ≤ 10 ^ 16 }
{
    let size = place_after(start, step, ticks).unsigned_abs();
    (size + more).saturating_sub(less)
}

// A number that changes by so much at each tick, after some ticks.
fn place_after(start: i64, step: i64, ticks: u32) -> i64
    requires start_size { IsCoordinateDifference start }
    requires step_size { IsSlopeDifference step }
    requires tick { IsTick ticks }
    ensures value { result ≡ start +ℤ step *ℤ pos ticks }
    ensures size { unsigned_abs result ≤ 2 * COORDINATE_LIMIT + 2 * SLOPE_LIMIT * LAST_TICK }
{
    start + way(step, ticks)
}

// How far something comes by a step at each of these ticks.
fn way(step: i64, ticks: u32) -> i64
    requires step_size { IsSlopeDifference step }
    requires tick { IsTick ticks }
    ensures value { result ≡ step *ℤ pos ticks }
    ensures size { unsigned_abs result ≤ 2 * SLOPE_LIMIT * LAST_TICK }
{
    step * i64::from(ticks)
}

// The sum of the squares of two sizes.
fn sum_of_squares(x: u64, y: u64) -> i128
    requires x_size { x ≤ 10 ^ 16 }
    requires y_size { y ≤ 10 ^ 16 }
    ensures { result ≡ pos x *ℤ pos x +ℤ pos y *ℤ pos y }
{
    let of_x = times(i128::from(x), i128::from(x));
    let of_y = times(i128::from(y), i128::from(y));
    plus(of_x, of_y)
}
