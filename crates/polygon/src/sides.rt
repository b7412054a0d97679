//! On which side of its edges a list of points has a place. The edges of a part of a list go from each point
//! to the next, and from the last one to `first`.
ghost use Rattle.std.specs.Prelude.{◌≡◌, not, slice_get, unwrap_or};
ghost use Rattle.std.specs.List.{list_all, list_any};
ghost use Rattle.geometry.specs.Plane.{is_left_of, is_right_of};
ghost use Rattle.geometry.specs.Polygon.{are_one, edges, edges_back_to, is_counterclockwise, is_inside_edges};

use fixed_point::Point;
use geometry::cross;

/// Where an edge ends: at the first point of `later`, and at `first` where there is none.
#[inline]
pub fn end_of_edge<'a>(first: &'a Point, later: &'a [Point]) -> &'a Point
    ensures { result.now ≡ unwrap_or (slice_get later.now 0) first.now }
{
    match later.first() {
        Some(next) => next,
        None => first,
    }
}

#[inline]
fn is_right_of(start: &Point, end: &Point, p: &Point) -> bool
    ensures { result ≡ is_right_of (start.now, end.now) p.now }
{
    cross(*start, *end, *p) < 0
}

#[inline]
fn is_left_of(start: &Point, end: &Point, p: &Point) -> bool
    ensures { result ≡ is_left_of (start.now, end.now) p.now }
{
    cross(*start, *end, *p) > 0
}

/// Whether no edge has the place strictly on its right.
pub fn is_within(first: &Point, points: &[Point], p: &Point) -> bool
    ensures { result ≡ is_inside_edges (edges_back_to first.now points.now) p.now }
{
    let mut rest = points;
    while let Some((start, later)) = rest.split_first() {
        if is_right_of(start, end_of_edge(first, later), p) {
            return false;
        }
        rest = later;
    }
    true
}

/// Whether the points are the corners of a convex polygon in counterclockwise order.
pub fn is_counterclockwise(points: &[Point]) -> bool
    ensures { result ≡ is_counterclockwise points.now }
{
    match points.first() {
        Some(first) => {
            ends_differ(first, points)
                && are_within(first, points, points)
                && some_edge_turns(first, points)
        }
        None => false,
    }
}

// Whether the two ends of each edge differ.
fn ends_differ(first: &Point, points: &[Point]) -> bool
    ensures { result ≡ list_all (λ e. not (are_one e.0 e.1)) (edges_back_to first.now points.now) }
{
    let mut rest = points;
    while let Some((start, later)) = rest.split_first() {
        if start == end_of_edge(first, later) {
            return false;
        }
        rest = later;
    }
    true
}

// Whether each of the places is within the edges of the points.
fn are_within(first: &Point, points: &[Point], places: &[Point]) -> bool
    ensures { result ≡ list_all (is_inside_edges (edges_back_to first.now points.now)) places.now }
{
    places.iter().all(|p| is_within(first, points, p))
}

// Whether one of the places is strictly on the left of an edge.
fn some_is_left_of(start: &Point, end: &Point, places: &[Point]) -> bool
    ensures { result ≡ list_any (is_left_of (start.now, end.now)) places.now }
{
    places.iter().any(|p| is_left_of(start, end, p))
}

// Whether some edge has one of the points strictly on its left.
fn some_edge_turns(first: &Point, points: &[Point]) -> bool
    ensures { result ≡ list_any (λ e. list_any (is_left_of e) points.now) (edges_back_to first.now points.now) }
{
    let mut rest = points;
    while let Some((start, later)) = rest.split_first() {
        if some_is_left_of(start, end_of_edge(first, later), points) {
            return true;
        }
        rest = later;
    }
    false
}
