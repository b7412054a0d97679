//! Whether up to four points fit a circle.
ghost use Rattle.std.specs.Prelude.{◌≡◌, ◌*◌, ◌^◌, ◌≤◌, ◌+ℤ◌, ◌-ℤ◌, ◌*ℤ◌, int_le, unsigned_abs, length};
ghost use Rattle.geometry.specs.Plane.{square};
ghost use Rattle.geometry.specs.Circle.{IsRadius, fits, sides_fit, squared_width, three_fit, two_fit};
ghost use Rattle.distance_crossing.specs.Sizes.{AreSquares, AreSquaresUpTo, IsAreaWithin};

use exact::{minus, plus, times};
use fixed_point::{FIX_LIMIT, Fix, Point};
use geometry::{RADIUS_LIMIT, cross, squared_distance};

/// Whether one to four points fit a circle of radius `r`, from 0 to 10^6 thousandths. One point always fits.
/// Two fit where their distance is at most the diameter. Three fit where their longest side is at most the
/// diameter, if the angle opposite to it is 90 degrees or more or they are on a line; any others fit where the
/// circle through all three is small enough. Four fit where each three of them do.
///
/// It takes no memory.
pub fn fits(r: Fix, points: &[Point]) -> bool
    requires radius { IsRadius r }
    requires count { length points.now ≤ 4 }
    ensures { result ≡ fits r points.now }
{
    match points {
        [p, q] => two_fit(r, p, q),
        [p, q, s] => three_fit(r, p, q, s),
        [p, q, s, u] => {
            three_fit(r, p, q, s)
                && three_fit(r, p, q, u)
                && three_fit(r, p, s, u)
                && three_fit(r, q, s, u)
        }
        _ => true,
    }
}

// The square of the diameter of a circle of radius `r`.
#[inline]
pub(crate) fn squared_width(r: Fix) -> i128
    requires { IsRadius r }
    ensures value { result ≡ squared_width r }
    ensures size { unsigned_abs result ≤ 4 * RADIUS_LIMIT ^ 2 }
{
    let radius = i128::from(r.raw());
    times(4, times(radius, radius))
}

fn two_fit(r: Fix, p: &Point, q: &Point) -> bool
    requires { IsRadius r }
    ensures { result ≡ two_fit r p.now q.now }
{
    squared_distance(*p, *q) <= squared_width(r)
}

fn three_fit(r: Fix, p: &Point, q: &Point, s: &Point) -> bool
    requires { IsRadius r }
    ensures { result ≡ three_fit r p.now q.now s.now }
{
    let a = squared_distance(*p, *q);
    let b = squared_distance(*q, *s);
    let c = squared_distance(*s, *p);
    let area = cross(*p, *q, *s);
    sides_fit(r, a, b, c, area)
}

// Whether a triangle fits, by its squared sides and the cross product of two of them. A side longer than the
// diameter is refused first, also where all angles are sharp: no side is longer than the diameter of the
// circle through the corners. So no product of what is left is too large.
fn sides_fit(r: Fix, a: i128, b: i128, c: i128, area: i128) -> bool
    requires radius { IsRadius r }
    requires squares { AreSquares a b c }
    requires sizes { AreSquaresUpTo (8 * FIX_LIMIT ^ 2) a b c }
    requires a_and_b { IsAreaWithin area a b }
    requires b_and_c { IsAreaWithin area b c }
    requires c_and_a { IsAreaWithin area c a }
    ensures { result ≡ sides_fit r a b c area }
{
    let width = squared_width(r);
    let longest = a.max(b.max(c));
    if longest > width {
        return false;
    }
    if is_wide(a, b, c, longest) {
        return true;
    }
    corners_fit(width, a, b, c, area)
}

// Whether the longest of the squared sides is at least the sum of the two others.
pub(crate) fn is_wide(a: i128, b: i128, c: i128, longest: i128) -> bool
    requires sizes { AreSquaresUpTo (8 * FIX_LIMIT ^ 2) a b c }
    requires longest_most { unsigned_abs longest ≤ 8 * FIX_LIMIT ^ 2 }
    ensures { result ≡ int_le (a +ℤ b +ℤ c -ℤ longest) longest }
{
    minus(plus(plus(a, b), c), longest) <= longest
}

// Whether the circle through the corners of a triangle is small enough, by the squared sides, none of which
// is longer than the diameter, and the cross product of two of them.
fn corners_fit(width: i128, a: i128, b: i128, c: i128, area: i128) -> bool
    requires width_most { unsigned_abs width ≤ 4 * RADIUS_LIMIT ^ 2 }
    requires sizes { AreSquaresUpTo (4 * RADIUS_LIMIT ^ 2) a b c }
    requires a_and_b { IsAreaWithin area a b }
    ensures { result ≡ int_le (a *ℤ b *ℤ c) (width *ℤ square area) }
{
    let sides = times(times(a, b), c);
    sides <= times(width, times(area, area))
}
