//! Convex polygons.
ghost use Rattle.std.specs.Prelude.{◌≡◌, length, slice_get, IfOk, OnOk, IfErr, option_to_list};
ghost use Rattle.geometry.specs.Polygon.{edges, is_inside, counterclockwise_points};
ghost use Rattle.tick_set.specs.Runs.{IsRuns};
ghost use Rattle.polygon.specs.Bounds.{AreBounds};
ghost use Rattle.polygon.specs.Faults.{IsPolygon, RefusesPolygon};
ghost use Rattle.polygon.specs.Given.{points_as_given, IsStoredPolygon};
ghost use Rattle.polygon.specs.Inside.{is_inside_at};
ghost use Rattle.polygon.specs.Margin.{is_inside_by_at};
ghost use Rattle.polygon.specs.declared.fault.PolygonFault.TheVariants.{NoMemory};

use crate::bounds::bounds_of;
use crate::crossing::ticks_within;
use crate::fault::PolygonFault;
use crate::margin::Margin;
use crate::sides::{end_of_edge, is_counterclockwise, is_within};
use fixed_point::Point;
use geometry::{LEAST_VERTICES, VERTEX_LIMIT};
use linear_crossing::Line;
use std::alloc::Global;
use std::marker::Model;
use tick_set::{Span, Window};

/// A closed convex polygon. A contract sees it as the list of its points, in the order in which they were
/// given.
#[derive(Drop)]
pub struct Polygon {
    // In counterclockwise order.
    points: Vec<Point>,
    // Whether they were given in the other order.
    reversed: bool,
    // The bounds of the points.
    least: Point,
    greatest: Point,
}

impl Model for Polygon {
    ghost use Rattle.std.specs.Prelude.{List};
    ghost use Rattle.fixed_point.specs.declared.number.Point.{Point};
    ghost use Rattle.polygon.specs.Given.{points_as_given, IsKeptPolygon};

    ghost Value = { List Point };

    ghost view = { λ a. points_as_given a.points.items a.reversed };

    ghost invariant = { λ a. IsKeptPolygon a.points.items a.reversed a.least a.greatest };
}

impl Polygon {
    /// The polygon of these points, in counterclockwise or in clockwise order. An edge goes from each point to
    /// the next, and from the last one to the first. The order is counterclockwise where the two ends of each
    /// edge differ, no edge has a point strictly on its right, and some edge has one strictly on its left; so a
    /// point may be in the middle of a side.
    ///
    /// `TooFew` exactly where there are fewer than [`LEAST_VERTICES`], `TooMany` where there are more than
    /// [`VERTEX_LIMIT`], and `NotConvex` where neither order is counterclockwise.
    pub fn new(alloc: Global, points: &[Point]) -> Result<Polygon, PolygonFault>
        ensures ok { IfOk result (λ p. p ≡ points.now) }
        ensures polygon { OnOk result (IsPolygon points.now) }
        ensures cause { IfErr result (RefusesPolygon points.now) }
    {
        if points.len() < LEAST_VERTICES {
            return Err(PolygonFault::TooFew);
        }
        if points.len() > VERTEX_LIMIT {
            return Err(PolygonFault::TooMany);
        }
        if is_counterclockwise(points) {
            return keep(alloc, points, false);
        }
        let mut backward = [points[0]; VERTEX_LIMIT];
        let backward = &mut backward[..points.len()];
        backward.copy_from_slice(points);
        backward.reverse();
        if is_counterclockwise(backward) {
            return keep(alloc, backward, true);
        }
        Err(PolygonFault::NotConvex)
    }

    /// Whether the place is inside the polygon or on its boundary: no edge has it strictly on its right.
    pub fn has(&self, p: Point) -> bool
        ensures { result ≡ is_inside self.now p }
    {
        is_within(&self.points[0], &self.points, &p)
    }

    /// The number of points that were given, from 3 to 64.
    #[inline]
    pub fn len(&self) -> usize
        ensures len { result ≡ length self.now }
        ensures polygon { IsPolygon self.now }
    {
        self.points.len()
    }

    /// The least coordinates of its points, and the greatest ones. Each is one of some point.
    #[inline]
    pub fn bounds(&self) -> (Point, Point)
        ensures { AreBounds self.now result.0 result.1 }
    {
        (self.least, self.greatest)
    }

    /// The ticks of the window at which the moving point is inside or on the boundary: one span, None exactly
    /// where there is no such tick. It takes no memory.
    pub fn inside_ticks(&self, l: &Line, w: Window) -> Option<Span>
        ensures { IsRuns (is_inside_at self.now l.now w) (option_to_list result) }
    {
        self.inside_ticks_by(l, &Margin::none(), w)
    }

    /// The ticks of the window at which the moving point is inside by the margin of that tick: one span, None
    /// exactly where there is no such tick. It takes no memory.
    pub fn inside_ticks_by(&self, l: &Line, margin: &Margin, w: Window) -> Option<Span>
        ensures { IsRuns (is_inside_by_at self.now l.now margin.now w) (option_to_list result) }
    {
        ticks_within(&self.points[0], &self.points, l, margin, w)
    }

    /// The two ends of an edge, in its direction: the edge that begins at point `i`, counted from 0, of the
    /// points in counterclockwise order. None exactly where there are at most `i` points.
    pub fn edge(&self, i: usize) -> Option<(Point, Point)>
        ensures { result ≡ slice_get (edges (counterclockwise_points self.now)) i }
    {
        let start = self.points.get(i)?;
        let end = end_of_edge(&self.points[0], &self.points[i + 1..]);
        Some((*start, *end))
    }
}

// Keeps points that are in counterclockwise order.
fn keep(alloc: Global, points: &[Point], reversed: bool) -> Result<Polygon, PolygonFault>
    requires { IsStoredPolygon points.now reversed }
    ensures ok { IfOk result (λ p. p ≡ points_as_given points.now reversed) }
    ensures err { IfErr result (λ e. e ≡ NoMemory) }
{
    let (least, greatest) = bounds_of(&points[0], &points[1..]);
    match Vec::from_slice(alloc, points) {
        Ok(points) => Ok(Polygon {
            points,
            reversed,
            least,
            greatest,
        }),
        Err(_) => Err(PolygonFault::NoMemory),
    }
}
