//! The square of the diameter of the least circle round three points.
ghost use Rattle.std.specs.Prelude.{◌≡◌, ◌*◌, ◌^◌, ◌<◌, ◌≤◌, pos, ◌≤ℤ◌, ◌↔◌, unsigned_abs, IsTrue};
ghost use Rattle.geometry.specs.Plane.{squared_distance};
ghost use Rattle.geometry.specs.declared.limits.TheConstants.{RADIUS_LIMIT};
ghost use Rattle.distance_crossing.specs.LeastCircle.{least_over, least_under, over_of, under_of};
ghost use Rattle.distance_crossing.specs.Sizes.{AreSquares, AreSquaresUpTo, IsAreaWithin};

use crate::circle::is_wide;
use exact::times;
use fixed_point::Point;
use geometry::{RADIUS_LIMIT, cross, squared_distance};

/// A fraction: the square of a diameter, in square thousandths.
#[derive(Clone, Copy, Debug)]
pub struct Fraction {
    pub over: u128,
    pub under: u128,
    pub ghost short: { under ≤ 16 * RADIUS_LIMIT ^ 4 },
}

impl Fraction {
    /// Whether the fraction is at most a whole number, which is at most the square of the largest diameter.
    pub fn is_at_most(&self, width: u128) -> bool
        requires { width ≤ 4 * RADIUS_LIMIT ^ 2 }
        ensures { IsTrue result ↔ (self.now.over ≤ width * self.now.under) }
    {
        self.over <= width * self.under
    }

    /// Whether the fraction is below another.
    pub fn is_below(&self, other: &Fraction) -> bool
        ensures { IsTrue result ↔ (self.now.over * other.now.under < other.now.over * self.now.under) }
    {
        let (low, high) = self.over.carrying_mul(other.under, 0);
        let (other_low, other_high) = other.over.carrying_mul(self.under, 0);
        high < other_high || (high == other_high && low < other_low)
    }
}

/// The square of the diameter of the least circle round three points. The squares of their sides are at most
/// 4 * 10^12.
pub fn least_circle(p: &Point, q: &Point, s: &Point) -> Fraction
    requires a_most { squared_distance p.now q.now ≤ℤ pos (4 * RADIUS_LIMIT ^ 2) }
    requires b_most { squared_distance q.now s.now ≤ℤ pos (4 * RADIUS_LIMIT ^ 2) }
    requires c_most { squared_distance s.now p.now ≤ℤ pos (4 * RADIUS_LIMIT ^ 2) }
    ensures over { pos result.over ≡ least_over p.now q.now s.now }
    ensures under { pos result.under ≡ least_under p.now q.now s.now }
{
    let a = squared_distance(*p, *q);
    let b = squared_distance(*q, *s);
    let c = squared_distance(*s, *p);
    by_sides(a, b, c, cross(*p, *q, *s))
}

// The same by the squares of the sides and the cross product of two of them.
fn by_sides(a: i128, b: i128, c: i128, area: i128) -> Fraction
    requires squares { AreSquares a b c }
    requires sizes { AreSquaresUpTo (4 * RADIUS_LIMIT ^ 2) a b c }
    requires a_and_b { IsAreaWithin area a b }
    ensures over { pos result.over ≡ over_of a b c }
    ensures under { pos result.under ≡ under_of a b c area }
{
    let longest = a.max(b.max(c));
    if is_wide(a, b, c, longest) {
        return Fraction {
            over: longest.unsigned_abs(),
            under: 1,
        };
    }
    Fraction {
        over: times(times(a, b), c).unsigned_abs(),
        under: times(area, area).unsigned_abs(),
    }
}
