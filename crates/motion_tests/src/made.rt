//! Places, motions and windows by their numbers, and runs as pairs of ticks.
ghost use Rattle.std.specs.Prelude.{◌≡◌, ◌-◌, ◌≤◌, length, IfSome};
ghost use Rattle.linear_crossing.specs.Moving.{IsInReach};

use fixed_point::{Fix, Point, Slope};
use linear_crossing::{COORDINATE_LIMIT, Line, Quad};
use tick_set::{SPAN_LIMIT, Span, Window};

// The coordinates of a place, in thousandths.
pub(crate) type Spot = (i64, i64);

// A place, and the way at each tick, in thousandths.
pub(crate) type Way = (i64, i64, i64, i64);

// The first and the last tick.
pub(crate) type Ends = (u32, u32);

fn place(spot: Spot) -> Option<Point>
    ensures x { IfSome result (λ p. p.x ≡ spot.0) }
    ensures y { IfSome result (λ p. p.y ≡ spot.1) }
{
    let x = Fix::of(spot.0)?;
    let y = Fix::of(spot.1)?;
    Some(Point { x, y })
}

fn place_at(spots: &[Spot], index: usize) -> Option<Point> {
    match spots.get(index) {
        Some(spot) => place(*spot),
        None => place((0, 0)),
    }
}

// The places of up to four spots, and after them the origin.
pub(crate) fn places(spots: &[Spot]) -> Option<[Point; 4]>
    ensures { IfSome result (λ _. length spots.now ≤ 4) }
{
    if spots.len() > 4 {
        return None;
    }
    let p = place_at(spots, 0)?;
    let q = place_at(spots, 1)?;
    let s = place_at(spots, 2)?;
    let u = place_at(spots, 3)?;
    Some([p, q, s, u])
}

pub(crate) fn line(way: Way) -> Option<Line>
    ensures x { IfSome result (λ l. l.at.x ≡ way.0) }
    ensures y { IfSome result (λ l. l.at.y ≡ way.1) }
{
    let at = place((way.0, way.1))?;
    let dx = Slope::of(way.2)?;
    let dy = Slope::of(way.3)?;
    Some(Line { at, dx, dy })
}

// A motion that begins where one may begin that is compared with others.
pub(crate) fn line_in_reach(way: Way) -> Option<Line>
    ensures { IfSome result IsInReach }
{
    if way.0.unsigned_abs() > COORDINATE_LIMIT || way.1.unsigned_abs() > COORDINATE_LIMIT {
        return None;
    }
    line(way)
}

pub(crate) fn quad(p: Way, q: Way) -> Option<Quad> {
    let p = line_in_reach(p)?;
    let q = line_in_reach(q)?;
    Some(Quad::between(&p, &q))
}

// A window that is no longer than a span may be.
pub(crate) fn window(ends: Ends) -> Option<Window>
    ensures { IfSome result (λ w. w.hi - w.lo ≤ SPAN_LIMIT) }
{
    if ends.1.saturating_sub(ends.0) > SPAN_LIMIT {
        return None;
    }
    Window::new(ends.0, ends.1)
}

pub(crate) fn ends(run: Option<Span>) -> Option<Ends> {
    run.map(|s| (s.lo, s.hi))
}
