//! The square of the distance of two objects that move along lines.
ghost use Rattle.std.specs.Prelude.{◌≡◌, ◌+◌, ◌*◌, ◌^◌, ◌≤◌, ℕ, pos, ◌+ℤ◌, ◌-ℤ◌, ◌*ℤ◌, unsigned_abs};
ghost use Rattle.fixed_point.specs.Sizes.{IsSlopeDifference};
ghost use Rattle.linear_crossing.specs.Moving.{IsCoordinateDifference};

use exact::{plus, times};
use fixed_point::Slope;
use geometry::apart;
use linear_crossing::Line;

/// The square of the distance of two objects that move along lines, by the ticks that have passed since a first one: it
/// is a parabola of these.
#[derive(Clone, Copy)]
pub struct Separation {
    pub quadratic: u64,
    pub linear: i128,
    pub constant: i128,
    pub ghost quadratic_size: { quadratic ≤ 8 * 10 ^ 12 },
    pub ghost linear_size: { unsigned_abs linear ≤ 2 * 10 ^ 22 },
    pub ghost constant_size: { unsigned_abs constant ≤ 9 * 10 ^ 30 },
}

impl Separation {
    ghost use Rattle.linear_crossing.specs.Moving.{IsInReach, distance_after};
    ghost use Rattle.nearest.specs.Order.{separation_after};

    /// The separation of two motions from their lines' first tick on.
    pub fn between(from: &Line, to: &Line) -> Separation
        requires from_in_reach { IsInReach from.now }
        requires to_in_reach { IsInReach to.now }
        ensures { (k : ℕ) → separation_after result k ≡ distance_after from.now to.now k }
    {
        let x = apart(to.at.x, from.at.x);
        let y = apart(to.at.y, from.at.y);
        let dx = slope_apart(to.dx, from.dx);
        let dy = slope_apart(to.dy, from.dy);
        Separation {
            quadratic: squared(dx) + squared(dy),
            linear: drift(x, y, dx, dy),
            constant: start(x, y),
        }
    }
}

// The first slope less the second.
fn slope_apart(a: Slope, b: Slope) -> i64
    ensures value { result ≡ a -ℤ b }
    ensures size { IsSlopeDifference result }
{
    a.raw() - b.raw()
}

// The square of a slope as another motion sees it.
fn squared(step: i64) -> u64
    requires { IsSlopeDifference step }
    ensures value { pos result ≡ step *ℤ step }
    ensures size { result ≤ 4 * 10 ^ 12 }
{
    let size = step.unsigned_abs();
    size * size
}

// How the square changes by each tick at first.
fn drift(x: i64, y: i64, dx: i64, dy: i64) -> i128
    requires x_size { IsCoordinateDifference x }
    requires y_size { IsCoordinateDifference y }
    requires dx_size { IsSlopeDifference dx }
    requires dy_size { IsSlopeDifference dy }
    ensures value { result ≡ pos 2 *ℤ (x *ℤ dx +ℤ y *ℤ dy) }
    ensures size { unsigned_abs result ≤ 2 * 10 ^ 22 }
{
    let along_x = times(i128::from(x), i128::from(dx));
    let along_y = times(i128::from(y), i128::from(dy));
    let along = plus(along_x, along_y);
    times(2, along)
}

// The square at first.
fn start(x: i64, y: i64) -> i128
    requires x_size { IsCoordinateDifference x }
    requires y_size { IsCoordinateDifference y }
    ensures value { result ≡ x *ℤ x +ℤ y *ℤ y }
    ensures size { unsigned_abs result ≤ 9 * 10 ^ 30 }
{
    let of_x = times(i128::from(x), i128::from(x));
    let of_y = times(i128::from(y), i128::from(y));
    plus(of_x, of_y)
}
