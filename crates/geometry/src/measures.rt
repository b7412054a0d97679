//! Distances and sides of points, computed.
ghost use Rattle.std.specs.Prelude.{◌≡◌, ◌*◌, ◌^◌, ◌≤◌, ◌-ℤ◌, ◌*ℤ◌, unsigned_abs};
ghost use Rattle.geometry.specs.Plane.{cross, squared_distance};
ghost use Rattle.fixed_point.specs.Sizes.{IsFixDifference};

use exact::{minus, plus, times};
use fixed_point::{FIX_LIMIT, Fix, Point};

/// The square of the distance of two points, in square thousandths.
#[inline]
#[tactic(auto, using(exact::proofs::Sizes::steps))]
pub fn squared_distance(p: Point, q: Point) -> i128
    ensures value { result ≡ squared_distance p q }
    ensures size { unsigned_abs result ≤ 8 * FIX_LIMIT ^ 2 }
{
    let x = apart(q.x, p.x);
    let y = apart(q.y, p.y);
    plus(product(x, x), product(y, y))
}

/// The cross product of the ways from `p` to `q` and from `p` to `r`, in square thousandths: above 0 where
/// `r` is on the left of the way from `p` to `q`, below 0 where it is on the right, and 0 where the three
/// points are on one line.
#[inline]
#[tactic(auto, using(exact::proofs::Sizes::steps))]
pub fn cross(p: Point, q: Point, r: Point) -> i128
    ensures value { result ≡ cross p q r }
    ensures size { unsigned_abs result ≤ 8 * FIX_LIMIT ^ 2 }
{
    let along = product(apart(q.x, p.x), apart(r.y, p.y));
    let back = product(apart(q.y, p.y), apart(r.x, p.x));
    minus(along, back)
}

/// The first coordinate less the second, in thousandths.
#[inline]
pub fn apart(a: Fix, b: Fix) -> i64
    ensures value { result ≡ a -ℤ b }
    ensures size { IsFixDifference result }
{
    a.raw() - b.raw()
}

// The product of two differences of coordinates.
#[inline]
fn product(a: i64, b: i64) -> i128
    requires a_size { IsFixDifference a }
    requires b_size { IsFixDifference b }
    ensures value { result ≡ a *ℤ b }
    ensures size { unsigned_abs result ≤ 4 * FIX_LIMIT ^ 2 }
{
    times(i128::from(a), i128::from(b))
}
