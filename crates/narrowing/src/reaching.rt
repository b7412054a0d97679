//! How far places reach that are possibly in a polygon, where each may be off by an error.
ghost use Rattle.std.specs.Prelude.{◌≡◌, ◌+◌, ◌*◌, ◌^◌, ◌≤◌, ◌<◌, ℤ, ◌≤ℤ◌, pos, ◌-ℤ◌, ◌*ℤ◌, neg_ℤ, unsigned_abs, true, IfSome};
ghost use Rattle.fixed_point.specs.declared.number.Point.{Point};
ghost use Rattle.fixed_point.specs.Sizes.{IsFix};
ghost use Rattle.geometry.specs.Margin.{is_inside_by, is_left_by};
ghost use Rattle.geometry.specs.Polygon.{are_one};
ghost use Rattle.geometry.specs.declared.limits.TheConstants.{VERTEX_LIMIT};
ghost use Rattle.narrowing.specs.Reaching.{IsBeside, Reach, ahead_by, aside_by, length_of};

use exact::{minus, times};
use fixed_point::{FIX_LIMIT, Fix, Point};
use geometry::apart;
use polygon::Polygon;

/// The widest that is told with an error.
const WIDEST: u128 = 1_000_000_000_000_000_000_000_000_000;

/// A direction along an axis.
#[derive(Clone, Copy, Debug)]
pub(crate) enum Direction {
    Right,
    Up,
    Left,
    Down,
}

/// A way by a direction: how far it goes ahead, and how far to the left.
#[derive(Clone, Copy, Debug)]
pub(crate) struct Way {
    pub ahead: i64,
    pub aside: i64,
}

/// How far at most the places reach in a direction that are possibly in a polygon, where each may be off by the error along
/// each axis. None where that isn't known.
pub(crate) fn reach(polygon: &Polygon, direction: Direction, error: u32) -> Option<Fix>
    ensures { IfSome result (λ most. (p : Point) → is_inside_by (neg_ℤ (pos error)) polygon.now p ≡ true
        → ahead_by direction p.x p.y ≤ℤ most) }
{
    'edges: for i in 0..polygon.len() {
        let most = reach_past(polygon, i, direction, error);
        if most.is_some() {
            return most;
        }
    }
    None
}

/// The same, by an edge and the one after it. None where the polygon doesn't end in the direction where the two meet.
fn reach_past(polygon: &Polygon, i: usize, direction: Direction, error: u32) -> Option<Fix>
    requires { i < VERTEX_LIMIT }
    ensures { IfSome result (λ most. (p : Point) → is_inside_by (neg_ℤ (pos error)) polygon.now p ≡ true
        → ahead_by direction p.x p.y ≤ℤ most) }
{
    let before = edge_at(polygon, i)?;
    let after = edge_after(polygon, i)?;
    reach_between(&before, &after, direction, error)
}

/// The edge after one.
fn edge_after(polygon: &Polygon, i: usize) -> Option<(Point, Point)>
    requires { i < VERTEX_LIMIT }
    ensures { IfSome result (λ e. (m : ℤ) (p : Point) → is_inside_by m polygon.now p ≡ true → is_left_by m e p ≡ true) }
{
    match edge_at(polygon, i + 1) {
        Some(edge) => Some(edge),
        None => edge_at(polygon, 0),
    }
}

/// The edge of an index.
fn edge_at(polygon: &Polygon, i: usize) -> Option<(Point, Point)>
    ensures { IfSome result (λ e. (m : ℤ) (p : Point) → is_inside_by m polygon.now p ≡ true → is_left_by m e p ≡ true) }
{
    polygon.edge(i)
}

/// How far at most the places reach in a direction that are possibly beside two edges.
fn reach_between(
    before: &(Point, Point),
    after: &(Point, Point),
    direction: Direction,
    error: u32,
) -> Option<Fix>
    ensures { IfSome result (λ most. Reach error direction before.now after.now most) }
{
    if !are_one(before.1, after.0) {
        return None;
    }
    let to_vertex = Way::between(before.0, before.1, direction);
    let from_vertex = Way::between(after.0, after.1, direction);
    let beyond = overhang(to_vertex, from_vertex, error)?;
    let vertex = ahead(after.0, direction);
    Fix::of(vertex + beyond)
}

/// Whether two points are one.
fn are_one(p: Point, q: Point) -> bool
    ensures { result ≡ are_one p q }
{
    p == q
}

/// How far a point is in a direction.
fn ahead(p: Point, direction: Direction) -> i64
    ensures value { result ≡ ahead_by direction p.x p.y }
    ensures size { IsFix result }
{
    match direction {
        Direction::Right => p.x.raw(),
        Direction::Up => p.y.raw(),
        Direction::Left => -p.x.raw(),
        Direction::Down => -p.y.raw(),
    }
}

/// How far at most the places are ahead of the vertex where two edges meet that are possibly beside both. None where the
/// first edge goes back or the second one on, and the places reach without end, and where it isn't within the numbers.
fn overhang(before: Way, after: Way, error: u32) -> Option<i64>
    requires before { length_of before ≤ 4 * FIX_LIMIT }
    requires after { length_of after ≤ 4 * FIX_LIMIT }
    ensures most { IfSome result (λ most. (x y : ℤ) → IsBeside error before x y → IsBeside error after x y → x ≤ℤ most) }
    ensures size { IfSome result (λ most. IsFix most) }
{
    let turn = turn(before, after);
    if before.ahead < 0 || 0 < after.ahead || turn <= 0 {
        return None;
    }
    let width = product(before.ahead, after) + product(after.ahead, before);
    let most = widened(width, error)? / turn.unsigned_abs();
    if u128::from(FIX_LIMIT) < most {
        return None;
    }
    Some(most as i64)
}

/// A width times the error. None where it is very wide.
fn widened(width: u128, error: u32) -> Option<u128>
    ensures { IfSome result (λ most. most ≡ width * error) }
{
    if WIDEST < width {
        return None;
    }
    Some(width * u128::from(error))
}

/// The cross product of two ways: above 0 where the second turns left of the first.
fn turn(before: Way, after: Way) -> i128
    requires before { length_of before ≤ 4 * FIX_LIMIT }
    requires after { length_of after ≤ 4 * FIX_LIMIT }
    ensures { result ≡ before.ahead *ℤ after.aside -ℤ before.aside *ℤ after.ahead }
{
    let left = crossed(before.ahead, after.aside);
    let right = crossed(before.aside, after.ahead);
    minus(left, right)
}

/// The product of two lengths along axes.
fn crossed(a: i64, b: i64) -> i128
    requires a_size { unsigned_abs a ≤ 4 * FIX_LIMIT }
    requires b_size { unsigned_abs b ≤ 4 * FIX_LIMIT }
    ensures value { result ≡ a *ℤ b }
    ensures size { unsigned_abs result ≤ 16 * FIX_LIMIT ^ 2 }
{
    times(i128::from(a), i128::from(b))
}

/// The size of a number times that of a way.
fn product(ahead: i64, way: Way) -> u128
    requires ahead { unsigned_abs ahead ≤ 4 * FIX_LIMIT }
    requires way { length_of way ≤ 4 * FIX_LIMIT }
    ensures value { result ≡ unsigned_abs ahead * length_of way }
    ensures size { result ≤ 16 * FIX_LIMIT ^ 2 }
{
    u128::from(ahead.unsigned_abs()) * u128::from(way.length())
}

impl Way {
    /// The way from one point to another, by a direction.
    fn between(from: Point, to: Point, direction: Direction) -> Way
        ensures ahead { result.ahead ≡ ahead_by direction (to.x -ℤ from.x) (to.y -ℤ from.y) }
        ensures aside { result.aside ≡ aside_by direction (to.x -ℤ from.x) (to.y -ℤ from.y) }
        ensures length { length_of result ≤ 4 * FIX_LIMIT }
    {
        match direction {
            Direction::Right => Way {
                ahead: apart(to.x, from.x),
                aside: apart(to.y, from.y),
            },
            Direction::Up => Way {
                ahead: apart(to.y, from.y),
                aside: apart(from.x, to.x),
            },
            Direction::Left => Way {
                ahead: apart(from.x, to.x),
                aside: apart(from.y, to.y),
            },
            Direction::Down => Way {
                ahead: apart(from.y, to.y),
                aside: apart(to.x, from.x),
            },
        }
    }

    /// How far it goes along both axes together.
    fn length(self) -> u64
        requires { length_of self ≤ 4 * FIX_LIMIT }
        ensures { result ≡ length_of self }
    {
        self.ahead.unsigned_abs() + self.aside.unsigned_abs()
    }
}
