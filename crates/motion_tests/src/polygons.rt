use crate::made::{Ends, Spot, Way, ends, line, places};
use fixed_point::{Fix, Point, Slope, Word};
use polygon::{Margin, Polygon, PolygonFault, Regions};
use std::alloc::{AllocError, Global};
use std::test::Fail;
use tick_set::Window;

const REFUSED: Option<PolygonFault> = Some(PolygonFault::NotConvex);

const CORNERS: &[(&[Spot], Option<PolygonFault>)] = &[
    (&[(0, 0), (0, 10), (10, 10), (10, 0)], None),
    (&[(0, 0), (10, 0), (10, 10), (0, 10)], None),
    (&[(0, 0), (5, 0), (10, 0), (10, 10)], None),
    (&[(0, 0), (10, 0), (10, 10), (5, 5)], None),
    (&[(0, 0), (10, 0), (10, 10), (6, 5)], REFUSED),
    (&[(0, 0), (0, 0), (10, 0), (10, 10)], REFUSED),
    (&[(0, 0), (1, 1), (2, 2), (3, 3)], REFUSED),
    (&[(0, 0), (10, 0), (0, 10), (10, 10)], REFUSED),
];

fn fault_of(alloc: Global, corners: &[Spot]) -> Option<Option<PolygonFault>> {
    let points = places(corners)?;
    Some(Polygon::new(alloc, &points[..corners.len()]).err())
}

#[test]
fn four_points(rt: HostRuntime) {
    for (place, row) in CORNERS.iter().enumerate() {
        assert!(rt; fault_of(rt.alloc(), row.0) == Some(row.1), "row {place}");
    }
}

// The polygon of up to four corners.
fn polygon(alloc: Global, corners: &[Spot]) -> Result<Polygon, Fail> {
    let points = places(corners).ok_or("no places")?;
    Ok(Polygon::new(alloc, &points[..corners.len()])?)
}

// Whether these are the ends of the first edge of a square.
fn is_first_edge(alloc: Global, ends: &[Point; 4]) -> Result<bool, Fail> {
    let square = polygon(alloc, &[(0, 0), (0, 10), (10, 10), (10, 0)])?;
    Ok(square.edge(0) == Some((ends[0], ends[1])) && square.has(ends[0]))
}

// The edges go counterclockwise, in whichever order the corners are given.
#[test]
fn the_first_edge_of_a_square(rt: HostRuntime) -> Result<(), Fail> {
    let ends = places(&[(10, 0), (10, 10)]).ok_or("no places")?;
    let right = is_first_edge(rt.alloc(), &ends)?;
    assert!(rt; right);
    Ok(())
}

// The corners of a polygon, and its least and greatest coordinates.
type Bounded = (&'static [Spot], Spot, Spot);

const BOUNDED: &[Bounded] = &[
    (&[(3, 7), (-2, 1), (8, -4)], (-2, -4), (8, 7)),
    (&[(8, -4), (-2, 1), (3, 7)], (-2, -4), (8, 7)),
    (
        &[(-5, -9), (-3, -9), (-3, -6), (-5, -7)],
        (-5, -9),
        (-3, -6),
    ),
];

fn is_bounded(alloc: Global, row: &Bounded) -> Result<bool, Fail> {
    let ends = places(&[row.1, row.2]).ok_or("no places")?;
    let polygon = polygon(alloc, row.0)?;
    Ok(polygon.bounds() == (ends[0], ends[1]))
}

#[test]
fn polygons_in_boxes(rt: HostRuntime) -> Result<(), Fail> {
    for (place, row) in BOUNDED.iter().enumerate() {
        let right = is_bounded(rt.alloc(), row)?;
        assert!(rt; right, "row {place}");
    }
    Ok(())
}

// How many regions are left where a new one is taken back.
fn left_of_one(alloc: Global, name: Word, triangle: Polygon) -> Result<u32, AllocError> {
    let mut regions = Regions::new(alloc);
    regions.add(name, triangle)?;
    regions.remove_last();
    Ok(regions.count())
}

#[test]
fn a_region_is_taken_back(rt: HostRuntime) -> Result<(), Fail> {
    let name = Word::of(b"north").ok_or("no name")?;
    let triangle = polygon(rt.alloc(), &[(0, 0), (10, 0), (10, 10)])?;
    let left = left_of_one(rt.alloc(), name, triangle)?;
    assert!(rt; left == 0);
    Ok(())
}

const FAR: i64 = 1_000_000_000_000_000_000;

const FAST: i64 = 1_000_000;

const LAST: u32 = 1_000_000_000;

const SQUARE: &[Spot] = &[
    (10_000, -5_000),
    (20_000, -5_000),
    (20_000, 5_000),
    (10_000, 5_000),
];

const WHOLE: &[Spot] = &[(-FAR, -FAR), (FAR, -FAR), (FAR, FAR), (-FAR, FAR)];

const HALF: &[Spot] = &[(0, 0), (FAR, 0), (0, FAR)];

// A polygon, a motion, the last tick, and the ticks from 0 on at which it is inside.
type Crossed = (&'static [Spot], Way, u32, Option<Ends>);

const CROSSED: &[Crossed] = &[
    (SQUARE, (0, 0, 1_000, 0), 30, Some((10, 20))),
    (SQUARE, (0, 0, 3_000, 0), 30, Some((4, 6))),
    (SQUARE, (0, 5_000, 1_000, 0), 30, Some((10, 20))),
    (SQUARE, (0, 5_001, 1_000, 0), 30, None),
    (SQUARE, (15_000, 0, 0, 0), 30, Some((0, 30))),
    (SQUARE, (10_000, -5_000, -1, 0), 30, Some((0, 0))),
    (SQUARE, (40_000, 20_000, -1_000, -1_000), 30, Some((20, 25))),
    (SQUARE, (-20_000, 0, 1_000, 0), 30, Some((30, 30))),
    (SQUARE, (-20_001, 0, 1_000, 0), 30, None),
    // Coordinates at the limits.
    (WHOLE, (0, 0, 0, 0), LAST, Some((0, LAST))),
    (WHOLE, (-FAR, -FAR, FAST, FAST), LAST, Some((0, LAST))),
    (WHOLE, (FAR, FAR, FAST, 0), LAST, Some((0, 0))),
    (
        HALF,
        (0, FAR - 500_000_500, 1, 0),
        LAST,
        Some((0, 500_000_500)),
    ),
    (HALF, (-FAST, 0, FAST, 0), LAST, Some((1, LAST))),
    (HALF, (FAR, FAR, -FAST, -FAST), LAST, None),
];

fn is_crossed(alloc: Global, row: &Crossed) -> Result<bool, Fail> {
    let line = line(row.1).ok_or("no motion")?;
    let w = Window::new(0, row.2).ok_or("no window")?;
    let polygon = polygon(alloc, row.0)?;
    Ok(ends(polygon.inside_ticks(&line, w)) == row.3)
}

#[test]
fn motions_through_polygons(rt: HostRuntime) -> Result<(), Fail> {
    for (place, row) in CROSSED.iter().enumerate() {
        let right = is_crossed(rt.alloc(), row)?;
        assert!(rt; right, "row {place}");
    }
    Ok(())
}

// The corner is cut off where x and y are 8000 together: of a margin it takes twice as much as the other sides.
const CORNER: &[Spot] = &[(0, 0), (8_000, 0), (0, 8_000)];

// A polygon, a motion, a margin at tick 0 and its rise, the last tick, and the ticks at which the motion is inside by it.
type ByMargin = (&'static [Spot], Way, (i64, i64), u32, Option<Ends>);

const BY_MARGINS: &[ByMargin] = &[
    (SQUARE, (0, 0, 1_000, 0), (0, 0), 30, Some((10, 20))),
    (SQUARE, (0, 0, 1_000, 0), (2_000, 0), 30, Some((12, 18))),
    (SQUARE, (0, 0, 1_000, 0), (-2_000, 0), 30, Some((8, 22))),
    (SQUARE, (0, 0, 1_000, 0), (5_000, 0), 30, Some((15, 15))),
    (SQUARE, (0, 0, 1_000, 0), (5_001, 0), 30, None),
    // A margin that rises by 100 from tick to tick, or falls.
    (SQUARE, (0, 0, 1_000, 0), (0, 100), 30, Some((12, 18))),
    (SQUARE, (0, 0, 1_000, 0), (-1_000, -100), 30, Some((9, 23))),
    (SQUARE, (0, 0, 1_000, 0), (-1_000, 100), 30, Some((10, 19))),
    // A side that isn't along an axis.
    (CORNER, (1_000, 3_000, 500, 0), (1_000, 0), 30, Some((0, 4))),
    (
        CORNER,
        (1_000, 3_000, 500, 0),
        (-1_000, 0),
        30,
        Some((0, 12)),
    ),
    (
        CORNER,
        (1_000, 3_000, 500, 0),
        (-1_000, -125),
        30,
        Some((0, 24)),
    ),
    // Coordinates and margins at the limits.
    (WHOLE, (0, 0, 0, 0), (FAR, FAST), LAST, Some((0, 0))),
    (
        WHOLE,
        (FAR, FAR, FAST, FAST),
        (-FAR, -FAST),
        LAST,
        Some((0, LAST)),
    ),
    (
        HALF,
        (-FAR, -FAR, -FAST, -FAST),
        (-FAR, -FAST),
        LAST,
        Some((0, LAST)),
    ),
];

fn margin((first, rise): (i64, i64)) -> Option<Margin> {
    Some(Margin {
        first: Fix::of(first)?,
        rise: Slope::of(rise)?,
    })
}

fn is_inside_by(alloc: Global, row: &ByMargin) -> Result<bool, Fail> {
    let line = line(row.1).ok_or("no motion")?;
    let margin = margin(row.2).ok_or("no margin")?;
    let w = Window::new(0, row.3).ok_or("no window")?;
    let polygon = polygon(alloc, row.0)?;
    Ok(ends(polygon.inside_ticks_by(&line, &margin, w)) == row.4)
}

#[test]
fn motions_through_polygons_by_margins(rt: HostRuntime) -> Result<(), Fail> {
    for (place, row) in BY_MARGINS.iter().enumerate() {
        let right = is_inside_by(rt.alloc(), row)?;
        assert!(rt; right, "row {place}");
    }
    Ok(())
}
