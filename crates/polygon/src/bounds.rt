//! The least and the greatest coordinates of points.
ghost use Rattle.std.specs.Prelude.{◌≡◌, ◌∷◌};
ghost use Rattle.std.specs.Int.{int_min, int_max};
ghost use Rattle.geometry.specs.Plane.{point};
ghost use Rattle.polygon.specs.Bounds.{AreBounds};

use fixed_point::{Fix, Point};

/// The least coordinates of the first point and the others, and the greatest ones.
pub fn bounds_of(first: &Point, others: &[Point]) -> (Point, Point)
    ensures { AreBounds (first.now ∷ others.now) result.0 result.1 }
{
    let mut least = *first;
    let mut greatest = *first;
    for p in others {
        least = least_of(least, p);
        greatest = greatest_of(greatest, p);
    }
    (least, greatest)
}

fn least_of(p: Point, q: &Point) -> Point
    ensures { result ≡ point (int_min p.x q.now.x) (int_min p.y q.now.y) }
{
    Point {
        x: p.x.lesser(q.x),
        y: p.y.lesser(q.y),
    }
}

fn greatest_of(p: Point, q: &Point) -> Point
    ensures { result ≡ point (int_max p.x q.now.x) (int_max p.y q.now.y) }
{
    Point {
        x: p.x.greater(q.x),
        y: p.y.greater(q.y),
    }
}
