//! The ticks at which a moving point is on one side of an edge, or of each of several, by a margin.
ghost use Rattle.std.specs.Prelude.{◌≡◌, ℕ, ◌+◌, ◌-◌, ◌*◌, ◌^◌, ◌≤◌, pos, ◌-ℤ◌, ◌*ℤ◌, ◌&&◌, unsigned_abs, option_to_list};
ghost use Rattle.geometry.specs.Margin.{extent, is_left_by, is_within_by};
ghost use Rattle.geometry.specs.Polygon.{edges_back_to};
ghost use Rattle.linear_crossing.specs.Moving.{position_after};
ghost use Rattle.polygon.specs.Margin.{margin_after};
ghost use Rattle.tick_set.specs.Runs.{IsRuns, spans_have};
ghost use Rattle.tick_set.specs.Ticks.{within};
ghost use Rattle.fixed_point.specs.Sizes.{IsFixDifference};

use crate::margin::Margin;
use crate::sides::end_of_edge;
use case_table::Op;
use exact::{minus, times};
use fixed_point::{FIX_LIMIT, Fix, Point, SLOPE_LIMIT, Slope};
use geometry::{apart, cross};
use linear_crossing::{Line, RISE_LIMIT, START_LIMIT, solve};
use tick_set::{Span, Window};

/// The ticks of the window at which the moving point is on the left of each edge, or on it, by the margin. The
/// edges go from each point to the next, and from the last one to `first`.
pub fn ticks_within(
    first: &Point,
    points: &[Point],
    l: &Line,
    margin: &Margin,
    w: Window,
) -> Option<Span>
    ensures { IsRuns (λ t. within w.lo w.hi t
        && is_within_by (margin_after margin.now (t - w.lo)) (edges_back_to first.now points.now) (position_after l.now (t - w.lo)))
        (option_to_list result) }
{
    let mut kept = w.span();
    let mut rest = points;
    while let Some((start, later)) = rest.split_first() {
        let ticks = ticks_left_of(start, end_of_edge(first, later), l, margin, w)?;
        kept = kept.meet(ticks)?;
        rest = later;
    }
    Some(kept)
}

// The ticks of the window at which the moving point is on the left of an edge, or on it, by the margin. Since
// the point moves along a line and the margin rises evenly, there is no gap between them.
#[inline]
fn ticks_left_of(start: &Point, end: &Point, l: &Line, margin: &Margin, w: Window) -> Option<Span>
    ensures { IsRuns (λ t. within w.lo w.hi t
        && is_left_by (margin_after margin.now (t - w.lo)) (start.now, end.now) (position_after l.now (t - w.lo)))
        (option_to_list result) }
{
    let lengths = extent(start, end);
    let rise = rise_past(climb(start, end, l), margin.rise, lengths);
    let first = first_past(cross(*start, *end, l.at), margin.first, lengths);
    solve(rise, first, Op::Ge, w).first
}

// By how much the cross product of an edge and the way to the moving point grows at each tick.
#[inline]
#[tactic(auto, using(exact::proofs::Sizes::steps))]
fn climb(start: &Point, end: &Point, l: &Line) -> i128
    ensures value { result ≡ (end.now.x -ℤ start.now.x) *ℤ l.now.dy -ℤ (end.now.y -ℤ start.now.y) *ℤ l.now.dx }
    ensures size { unsigned_abs result ≤ 4 * FIX_LIMIT * SLOPE_LIMIT }
{
    let along = swept(apart(end.x, start.x), l.dy);
    let back = swept(apart(end.y, start.y), l.dx);
    minus(along, back)
}

// A way times a slope.
#[inline]
fn swept(way: i64, slope: Slope) -> i128
    requires { IsFixDifference way }
    ensures value { result ≡ way *ℤ slope }
    ensures size { unsigned_abs result ≤ 2 * FIX_LIMIT * SLOPE_LIMIT }
{
    times(i128::from(way), i128::from(slope.raw()))
}

// The lengths of an edge along the axes, together.
#[inline]
fn extent(start: &Point, end: &Point) -> u64
    ensures value { result ≡ extent (start.now, end.now) }
    ensures size { result ≤ 4 * FIX_LIMIT }
{
    apart(end.x, start.x).unsigned_abs() + apart(end.y, start.y).unsigned_abs()
}

// By how much more a cross product grows at each tick than the margin of an edge of these lengths.
#[inline]
fn rise_past(climb: i128, rise: Slope, lengths: u64) -> i128
    requires climb_size { unsigned_abs climb ≤ 4 * FIX_LIMIT * SLOPE_LIMIT }
    requires lengths_size { lengths ≤ 4 * FIX_LIMIT }
    ensures value { result ≡ climb -ℤ rise *ℤ pos lengths }
    ensures size { unsigned_abs result ≤ RISE_LIMIT }
{
    let widening = times(i128::from(rise.raw()), i128::from(lengths));
    minus(climb, widening)
}

// How far a cross product is past the margin of an edge of these lengths, at the first tick.
#[inline]
fn first_past(cross: i128, first: Fix, lengths: u64) -> i128
    requires cross_size { unsigned_abs cross ≤ 8 * FIX_LIMIT ^ 2 }
    requires lengths_size { lengths ≤ 4 * FIX_LIMIT }
    ensures value { result ≡ cross -ℤ first *ℤ pos lengths }
    ensures size { unsigned_abs result ≤ START_LIMIT }
{
    let width = times(i128::from(first.raw()), i128::from(lengths));
    minus(cross, width)
}
