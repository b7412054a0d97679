ghost use Rattle.std.specs.Prelude.{◌≡◌, ◌<◌, ◌≤ℤ◌, pos, IfSome};

use crate::made::{Spot, Way, line_in_reach, places, window};
use distance_crossing::{fits, sphere_ticks};
use fixed_point::Fix;
use geometry::RADIUS_LIMIT;
use std::alloc::Global;
use std::marker::Brand;
use std::sync::ledger::{Blank, Ledger};
use std::test::Fail;
use steps::Steps;
use tick_set::Span;

fn radius(r: i64) -> Option<Fix>
    ensures least { IfSome result (λ f. pos 0 ≤ℤ f) }
    ensures most { IfSome result (λ f. f ≤ℤ pos RADIUS_LIMIT) }
{
    if r < 0 || r > 1_000_000 {
        return None;
    }
    Fix::of(r)
}

// Whether up to four spots fit a circle of the radius.
fn fit(r: i64, spots: &[Spot]) -> Option<bool> {
    let points = places(spots)?;
    let r = radius(r)?;
    Some(fits(r, &points[..spots.len()]))
}

const FAR: i64 = 1_000_000_000_000_000_000;

// A radius, up to four spots, and whether they fit.
const FITTING: &[(i64, &[Spot], bool)] = &[
    // A right angle: the longest side is the diameter.
    (2000, &[(0, 0), (4000, 0), (2000, 2000)], true),
    (1999, &[(0, 0), (4000, 0), (2000, 2000)], false),
    // An obtuse angle, also in another order: the circle through the corners is larger.
    (4, &[(0, 0), (8, 0), (4, 1)], true),
    (4, &[(4, 1), (0, 0), (8, 0)], true),
    (3, &[(4, 1), (0, 0), (8, 0)], false),
    // Sharp angles: the circle through the corners.
    (3400, &[(0, 0), (6000, 0), (3000, 5000)], true),
    (3399, &[(0, 0), (6000, 0), (3000, 5000)], false),
    (577_351, &[(0, 0), (1_000_000, 0), (500_000, 866_025)], true),
    (
        577_350,
        &[(0, 0), (1_000_000, 0), (500_000, 866_025)],
        false,
    ),
    // Sides of exactly the diameter, and longer by little.
    (
        1_000_000,
        &[(0, 0), (2_000_000, 0), (1_000_000, 1_732_050)],
        false,
    ),
    (
        1_000_000,
        &[(0, 0), (2_000_000, 0), (1_000_000, 1_000_000)],
        true,
    ),
    (
        1_000_000,
        &[(0, 0), (2_000_001, 0), (1_000_000, 1_000_000)],
        false,
    ),
    (
        1_000_000,
        &[(0, 0), (1_000_000, 1_732_051), (1_000_000, 0)],
        false,
    ),
    // Points on a line, and points given twice.
    (2, &[(0, 0), (4, 0), (1, 0)], true),
    (1, &[(0, 0), (4, 0), (1, 0)], false),
    (0, &[(5, 5), (5, 5), (5, 5)], true),
    (0, &[(5, 5), (5, 5), (5, 6)], false),
    (1, &[(5, 5), (5, 7), (5, 5)], true),
    // Far apart.
    (1_000_000, &[(FAR, FAR), (-FAR, -FAR), (FAR, -FAR)], false),
    // One and two points, and four, of which each three have to fit.
    (0, &[(3, 4)], true),
    (3, &[(3, 4), (-3, 4)], true),
    (2, &[(3, 4), (-3, 4)], false),
    (5, &[(3, 4), (-3, 4), (3, -4), (-3, -4)], true),
    (4, &[(3, 4), (-3, 4), (3, -4), (-3, -4)], false),
    (5, &[(0, 6), (3, 4), (3, -4), (-3, -4)], false),
    (5, &[(3, 4), (0, 6), (3, -4), (-3, -4)], false),
    (5, &[(3, 4), (3, -4), (0, 6), (-3, -4)], false),
    (5, &[(3, 4), (3, -4), (-3, -4), (0, 6)], false),
];

#[test]
fn points_and_circles(rt: HostRuntime) {
    for &(r, spots, want) in FITTING {
        assert!(rt; fit(r, spots) == Some(want), "{spots:?} within {r}");
    }
}

const CAR: Way = (2000, -10_000, 0, 1000);

const LEFT: Way = (0, 0, 0, 0);

const RIGHT: Way = (4000, 0, 0, 0);

// Whether, from tick 100 to 120, the car and both posts fit a circle of radius 2 at these ticks alone.
fn is_between<M: Ledger>(alloc: Global, ticks: Span, probes: &mut Steps<M>) -> Option<bool> {
    let r = radius(2000)?;
    let w = window((100, 120))?;
    let car = line_in_reach(CAR)?;
    let left = line_in_reach(LEFT)?;
    let right = line_in_reach(RIGHT)?;
    let found = sphere_ticks(alloc, r, &[left, car, right], w, probes).ok()?;
    Some(found.spans() == [ticks].as_slice())
}

fn is_between_posts<M: Ledger>(rt: &HostRuntime, blank: Blank, ticks: Span) -> Option<bool>
    requires name { blank.name ≡ M.name }
    requires parts { blank.parts ≡ M.parts }
    requires some_part { 0 < blank.parts }
{
    let mut probes: Steps<M> = Steps::new(rt, blank);
    is_between(rt.alloc(), ticks, &mut probes)
}

// The car is in the circle over the posts where the angle at it isn't sharp.
#[test]
fn motions_that_come_together(rt: HostRuntime) -> Result<(), Fail> {
    let ticks = Span::new(108, 112).ok_or("no span")?;
    assert!(rt; is_between_posts::<Brand>(&rt, Blank::new(1), ticks) == Some(true));
    Ok(())
}
