//! Two motions along lines, and the square of their distance.
ghost use Rattle.std.specs.Prelude.{◌≡◌, ℕ, ◌+◌, ◌*◌, ◌^◌, ◌<◌, ◌≤◌, pos, ◌+ℤ◌, ◌-ℤ◌, ◌*ℤ◌, ◌≤ℤ◌, ◌<ℤ◌, unsigned_abs};
ghost use Rattle.exact.specs.Rising.{DropsTo, RisesIn};
ghost use Rattle.linear_crossing.specs.Moving.{IsCoordinateDifference};
ghost use Rattle.fixed_point.specs.Sizes.{IsSlopeDifference};

use crate::linear::first_reached;
use exact::{plus, times};
use fixed_point::{Fix, Point, SLOPE_LIMIT, Slope};
use geometry::apart;
use std::marker::Model;
use std::num::{nearest_u64_to_f64, saturating_f64_to_u32};
use std::sync::ledger::Ledger;
use steps::Steps;

/// The largest size of a coordinate of a motion's first position, in thousandths: no stored motion is
/// further away.
pub const COORDINATE_LIMIT: u64 = 1_001_000_000_000_000;

/// A motion along a line, from its position at a window's first tick on, by the same way at each tick.
#[derive(Clone, Copy, Debug, PartialEq, Eq)]
pub struct Line {
    pub at: Point,
    pub dx: Slope,
    pub dy: Slope,
}

impl Line {
    ghost use Rattle.linear_crossing.specs.Moving.{IsInReach, position_after};

    /// The position `k` ticks after the window's first. The coordinates of the first position are within
    /// [`COORDINATE_LIMIT`] of 0.
    pub fn position(&self, k: u32) -> Point
        requires { IsInReach self.now }
        ensures { result ≡ position_after self.now k }
    {
        Point {
            x: coordinate(self.at.x, self.dx, k),
            y: coordinate(self.at.y, self.dy, k),
        }
    }
}

/// The squared distance of two motions, by the ticks since a window's first. It falls to its least value
/// and rises from there.
#[derive(Clone, Copy, Debug)]
pub struct Quad {
    x: i64,
    y: i64,
    dx: i64,
    dy: i64,
}

impl Model for Quad {
    ghost use Rattle.std.specs.Prelude.{◌*◌, ◌≤◌, unsigned_abs};
    ghost use Rattle.fixed_point.specs.declared.number.TheConstants.{SLOPE_LIMIT};
    ghost use Rattle.linear_crossing.specs.Relative.{Relative};
    ghost use Rattle.linear_crossing.specs.declared.quad.TheConstants.{COORDINATE_LIMIT};

    ghost Value = { Relative };

    ghost view = { λ q. record { x = q.x; y = q.y; dx = q.dx; dy = q.dy } };

    ghost invariant = { λ q. (unsigned_abs q.x ≤ 2 * COORDINATE_LIMIT) × (unsigned_abs q.y ≤ 2 * COORDINATE_LIMIT)
        × (unsigned_abs q.dx ≤ 2 * SLOPE_LIMIT) × (unsigned_abs q.dy ≤ 2 * SLOPE_LIMIT) };

    ghost inverse = { λ m. record { x = m.x; y = m.y; dx = m.dx; dy = m.dy } };
}

impl Quad {
    ghost use Rattle.linear_crossing.specs.Moving.{distance_after, IsInReach};
    ghost use Rattle.linear_crossing.specs.Relative.{squared_distance_at};

    /// The squared distance of two motions. The coordinates of their first positions are within
    /// [`COORDINATE_LIMIT`] of 0.
    pub fn between(p: &Line, q: &Line) -> Quad
        requires p_in_reach { IsInReach p.now }
        requires q_in_reach { IsInReach q.now }
        ensures { (k : ℕ) → squared_distance_at result k ≡ distance_after p.now q.now k }
    {
        Quad {
            x: apart(q.at.x, p.at.x),
            y: apart(q.at.y, p.at.y),
            dx: q.dx.raw() - p.dx.raw(),
            dy: q.dy.raw() - p.dy.raw(),
        }
    }

    /// The squared distance `k` ticks after the window's first. It is the one way to a value, and takes one
    /// step.
    #[inline]
    pub fn at<M: Ledger>(&self, k: u32, probes: &mut Steps<M>) -> i128
        ensures value { result ≡ squared_distance_at self.now k }
        // Twice the square of the size of a difference.
        ensures size { unsigned_abs result ≤ 8 * 10 ^ 32 }
        ensures least { pos 0 ≤ℤ result }
        ensures cost { probes.new ≡ probes.old + 1 }
    {
        probes.step();
        let x = i128::from(moved(self.x, self.dx, k));
        let y = i128::from(moved(self.y, self.dy, k));
        plus(times(x, x), times(y, y))
    }

    /// The first number of `0..=last` at which the value is least. The value falls at each step up to there,
    /// and does not fall from there on.
    pub fn valley(&self, last: u32) -> u32
        ensures bound { result ≤ last }
        ensures falls { DropsTo (squared_distance_at self.now) result }
        ensures rises { RisesIn (squared_distance_at self.now) result last }
        ensures least { (k : ℕ) → k ≤ last → squared_distance_at self.now result ≤ℤ squared_distance_at self.now k }
        ensures first { (k : ℕ) → k < result → squared_distance_at self.now result <ℤ squared_distance_at self.now k }
    {
        let (x, y) = (i128::from(self.x), i128::from(self.y));
        let (dx, dy) = (i128::from(self.dx), i128::from(self.dy));
        let speed = plus(times(dx, dx), times(dy, dy));
        let drift = plus(times(x, dx), times(y, dy));
        let start = plus(speed, times(2, drift));
        first_reached(2 * speed.unsigned_abs(), start, last)
    }

    /// A guess, by floating point, of the first and the last number of `0..=last` at which the value is at most
    /// `limit`. Mostly the number that is sought is the guess, or the next one towards the valley. Nothing but the
    /// range is promised: who uses a guess probes the values there.
    pub fn reach(&self, limit: i128, last: u32) -> (u32, u32)
        ensures first { result.0 ≤ last }
        ensures end { result.1 ≤ last }
    {
        let (x, y) = (self.x as f64, self.y as f64);
        let (dx, dy) = (self.dx as f64, self.dy as f64);
        let speed = dx * dx + dy * dy;
        if speed == 0.0 {
            return (0, last);
        }
        let cross = x * dy - y * dx;
        let middle = -(x * dx + y * dy);
        // Where the least value is close to the limit, rounding can take the difference below 0.
        let half = (rounded(limit) * speed - cross * cross).max(0.0).sqrt();
        (
            closest((middle - half) / speed, last),
            closest((middle + half) / speed, last),
        )
    }
}

// The number of `0..=last` that is closest to a root.
fn closest(root: f64, last: u32) -> u32
    ensures { result ≤ last }
{
    saturating_f64_to_u32(root + 0.5).min(last)
}

// A number as a float, by its two halves; 0 for a negative one.
fn rounded(number: i128) -> f64 {
    let size = number.max(0).unsigned_abs();
    let high = (size >> 64) as u64;
    let low = (size & 0xffff_ffff_ffff_ffff) as u64;
    nearest_u64_to_f64(high) * 18446744073709551616.0 + nearest_u64_to_f64(low)
}

// A coordinate after `k` ticks.
fn coordinate(start: Fix, step: Slope, k: u32) -> Fix
    requires { unsigned_abs start ≤ COORDINATE_LIMIT }
    ensures { result ≡ start +ℤ step *ℤ pos k }
{
    Fix::of(moved(start.raw(), i64::from(step.raw()), k)).unwrap()
}

// A difference of coordinates, or a coordinate, after `k` ticks.
#[inline]
fn moved(start: i64, step: i64, k: u32) -> i64
    requires start_size { IsCoordinateDifference start }
    requires step_size { IsSlopeDifference step }
    ensures value { result ≡ start +ℤ step *ℤ pos k }
    // Rounded up from 2 * COORDINATE_LIMIT + 2 * SLOPE_LIMIT * (2 ^ 32 - 1), whatever the number of ticks.
    ensures size { unsigned_abs result ≤ 2 * 10 ^ 16 }
{
    start + step * i64::from(k)
}
