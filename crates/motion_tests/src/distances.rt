ghost use Rattle.std.specs.Prelude.{◌≡◌, ◌<◌, ◌≤◌, unsigned_abs, IfSome};

use crate::made::{Ends, Way, ends, line_in_reach, quad, window};
use case_table::Op;
use distance_crossing::{Triple, compare, compare_motions, within};
use fixed_point::{Fix, READ_LIMIT};
use std::marker::Brand;
use std::process::Abort;
use std::sync::ledger::{Blank, Ledger};
use steps::Steps;

// Two motions, the most that their squared distance may be, the window, and the ticks.
type Meeting = (Way, Way, i128, Ends, Option<Ends>);

const MEETINGS: &[Meeting] = &[
    (
        (0, 3000, 1000, 0),
        (10_000, 0, 0, 0),
        9_000_000,
        (0, 20),
        Some((10, 10)),
    ),
    (
        (500, 3000, 1000, 0),
        (10_000, 0, 0, 0),
        9_000_000,
        (0, 20),
        None,
    ),
    (
        (0, 3000, 1000, 0),
        (10_000, 0, 0, 0),
        8_999_999,
        (0, 20),
        None,
    ),
    (
        (0, 3000, 1000, 0),
        (10_000, 0, 0, 0),
        10_000_000,
        (0, 20),
        Some((9, 11)),
    ),
    (
        (0, 3000, 1000, 0),
        (10_000, 0, 0, 0),
        9_999_999,
        (0, 20),
        Some((10, 10)),
    ),
    ((0, 0, 0, 0), (3, 4, 0, 0), 25, (7, 9), Some((7, 9))),
    ((0, 0, 0, 0), (3, 4, 0, 0), 24, (7, 9), None),
    ((0, 0, 1, 0), (5, 0, 0, 0), -1, (0, 9), None),
    ((0, 0, 1, 0), (5, 0, 0, 0), 1, (100, 104), Some((104, 104))),
    ((0, 0, 1, 0), (5, 0, 0, 0), 25, (100, 103), Some((100, 103))),
    ((0, 0, 1, 0), (-5, 0, 0, 0), 36, (3, 9), Some((3, 4))),
    (
        (0, 0, 1000, 0),
        (100_000_000_000, 0, 0, 0),
        250_000,
        (900_000_000, 1_000_000_000),
        Some((1_000_000_000, 1_000_000_000)),
    ),
    (
        (0, 0, 1000, 0),
        (0, 0, 0, 0),
        250_000,
        (900_000_000, 1_000_000_000),
        Some((900_000_000, 900_000_000)),
    ),
];

fn near<M: Ledger>(row: &Meeting, probes: &mut Steps<M>) -> Option<Option<Ends>> {
    let quad = quad(row.0, row.1)?;
    Some(ends(within(&quad, row.2, window(row.3)?, probes)))
}

fn meetings_are_found<M: Ledger>(rt: &impl Abort, host: &HostRuntime, blank: Blank)
    requires name { blank.name ≡ M.name }
    requires parts { blank.parts ≡ M.parts }
    requires some_part { 0 < blank.parts }
{
    let mut probes: Steps<M> = Steps::new(host, blank);
    for (place, row) in MEETINGS.iter().enumerate() {
        assert!(rt; near(row, &mut probes) == Some(row.4), "row {place}");
    }
}

#[test]
fn motions_that_meet(rt: HostRuntime) {
    meetings_are_found::<Brand>(&rt, &rt, Blank::new(1));
}

const CAR: Way = (0, 0, 1000, 0);

const POST: Way = (5000, 0, 0, 0);

const BESIDE: Way = (3000, 4000, 1000, 0);

const FAR: i64 = 1_001_000_000_000_000;

// Two motions, how their distance compares with a constant, the window, and the runs.
type Comparison = (Way, Way, Op, i64, Ends, &'static [Option<Ends>]);

const COMPARED: &[Comparison] = &[
    (
        CAR,
        POST,
        Op::Ne,
        3000,
        (0, 10),
        &[Some((0, 1)), Some((3, 7)), Some((9, 10))],
    ),
    (
        CAR,
        POST,
        Op::Eq,
        3000,
        (0, 10),
        &[Some((2, 2)), Some((8, 8)), None],
    ),
    (
        CAR,
        POST,
        Op::Lt,
        3000,
        (0, 10),
        &[Some((3, 7)), None, None],
    ),
    (
        CAR,
        POST,
        Op::Le,
        3000,
        (0, 10),
        &[Some((2, 8)), None, None],
    ),
    (
        CAR,
        POST,
        Op::Ge,
        3000,
        (0, 10),
        &[Some((0, 2)), Some((8, 10)), None],
    ),
    (
        CAR,
        POST,
        Op::Gt,
        3000,
        (0, 10),
        &[Some((0, 1)), Some((9, 10)), None],
    ),
    (
        CAR,
        POST,
        Op::Ne,
        3000,
        (0, 7),
        &[Some((0, 1)), Some((3, 7)), None],
    ),
    (
        CAR,
        POST,
        Op::Ne,
        5000,
        (0, 10),
        &[Some((1, 9)), None, None],
    ),
    (
        CAR,
        POST,
        Op::Ne,
        2500,
        (0, 10),
        &[Some((0, 10)), None, None],
    ),
    (CAR, POST, Op::Eq, 0, (0, 10), &[Some((5, 5)), None, None]),
    (CAR, POST, Op::Lt, 0, (0, 10), &[None, None, None]),
    (CAR, POST, Op::Lt, -3000, (0, 10), &[None, None, None]),
    (CAR, POST, Op::Le, -3000, (0, 10), &[None, None, None]),
    (CAR, POST, Op::Eq, -3000, (0, 10), &[None, None, None]),
    (
        CAR,
        POST,
        Op::Ne,
        -3000,
        (0, 10),
        &[Some((0, 10)), None, None],
    ),
    (
        CAR,
        POST,
        Op::Ge,
        -3000,
        (0, 10),
        &[Some((0, 10)), None, None],
    ),
    (
        CAR,
        POST,
        Op::Gt,
        -3000,
        (0, 10),
        &[Some((0, 10)), None, None],
    ),
    (CAR, CAR, Op::Eq, 0, (5, 6), &[Some((5, 6)), None, None]),
    // At the distance at all ticks, at two side by side, at two with one between, and at one of two in the window.
    (
        CAR,
        BESIDE,
        Op::Eq,
        5000,
        (3, 9),
        &[Some((3, 9)), None, None],
    ),
    (CAR, BESIDE, Op::Ne, 5000, (3, 9), &[None, None, None]),
    (
        CAR,
        (4500, 0, 0, 0),
        Op::Eq,
        500,
        (0, 10),
        &[Some((4, 5)), None, None],
    ),
    (
        CAR,
        POST,
        Op::Eq,
        1000,
        (0, 10),
        &[Some((4, 4)), Some((6, 6)), None],
    ),
    (CAR, POST, Op::Eq, 3000, (0, 7), &[Some((2, 2)), None, None]),
    (
        CAR,
        (1_000_000_000, 0, 0, 0),
        Op::Le,
        500,
        (0, 1_000_000),
        &[Some((1_000_000, 1_000_000)), None, None],
    ),
    (
        CAR,
        (100_000_000_000, 0, 0, 0),
        Op::Le,
        500,
        (0, 100_000_000),
        &[Some((100_000_000, 100_000_000)), None, None],
    ),
    (
        (FAR, FAR, 1_000_000, 1_000_000),
        (-FAR, -FAR, -1_000_000, -1_000_000),
        Op::Gt,
        1_000_000_000_000,
        (0, 100_000_000),
        &[Some((0, 100_000_000)), None, None],
    ),
];

fn constant(c: i64) -> Option<Fix>
    ensures { IfSome result (λ f. unsigned_abs f ≤ READ_LIMIT) }
{
    if c.unsigned_abs() > READ_LIMIT {
        return None;
    }
    Fix::of(c)
}

// Motions that are further apart than a constant on one axis at both ends of the window, and such that are so at one
// end alone, at the two ends on the two sides of each other, or at the two ends on the two axes.
const PASSING: &[Comparison] = &[
    // 5 and 4 ahead of the car, on either axis and either side.
    (CAR, POST, Op::Lt, 3000, (0, 1), &[None, None, None]),
    (CAR, POST, Op::Le, 3000, (0, 1), &[None, None, None]),
    (CAR, POST, Op::Eq, 3000, (0, 1), &[None, None, None]),
    (CAR, POST, Op::Ne, 3000, (0, 1), &[Some((0, 1)), None, None]),
    (CAR, POST, Op::Ge, 3000, (0, 1), &[Some((0, 1)), None, None]),
    (CAR, POST, Op::Gt, 3000, (0, 1), &[Some((0, 1)), None, None]),
    (POST, CAR, Op::Le, 3000, (0, 1), &[None, None, None]),
    (POST, CAR, Op::Gt, 3000, (0, 1), &[Some((0, 1)), None, None]),
    (UP, ABOVE, Op::Le, 3000, (0, 1), &[None, None, None]),
    (ABOVE, UP, Op::Le, 3000, (0, 1), &[None, None, None]),
    (ABOVE, UP, Op::Ge, 3000, (0, 1), &[Some((0, 1)), None, None]),
    // At the last tick just as far, or nearer.
    (CAR, POST, Op::Le, 3000, (0, 2), &[Some((2, 2)), None, None]),
    (CAR, POST, Op::Lt, 3000, (0, 2), &[None, None, None]),
    (CAR, POST, Op::Lt, 3000, (0, 3), &[Some((3, 3)), None, None]),
    (UP, ABOVE, Op::Eq, 3000, (0, 2), &[Some((2, 2)), None, None]),
    // At the first tick just as far, or further by the least there is.
    (
        CAR,
        BEHIND,
        Op::Le,
        3000,
        (7, 9),
        &[Some((7, 7)), None, None],
    ),
    (
        CAR,
        BEHIND,
        Op::Gt,
        3000,
        (7, 9),
        &[Some((8, 9)), None, None],
    ),
    (CAR, BEHIND, Op::Le, 2999, (7, 9), &[None, None, None]),
    (
        BEHIND,
        CAR,
        Op::Ne,
        2999,
        (7, 9),
        &[Some((7, 9)), None, None],
    ),
    // As far on the other side at the last tick as at the first.
    (
        CAR,
        POST,
        Op::Le,
        3000,
        (0, 10),
        &[Some((2, 8)), None, None],
    ),
    (
        UP,
        ABOVE,
        Op::Le,
        3000,
        (0, 10),
        &[Some((2, 8)), None, None],
    ),
    // (5, 0) away at the first tick and (0, 5) at the last: the squares between are 17, 13, 13 and 17.
    (
        POST,
        ROUND,
        Op::Le,
        3606,
        (0, 5),
        &[Some((2, 3)), None, None],
    ),
    (POST, ROUND, Op::Le, 3605, (0, 5), &[None, None, None]),
    (
        POST,
        ROUND,
        Op::Lt,
        5000,
        (0, 5),
        &[Some((1, 4)), None, None],
    ),
    // Each distance is above a constant below 0.
    (CAR, CAR, Op::Le, -1, (4, 6), &[None, None, None]),
    (CAR, CAR, Op::Gt, -1, (4, 6), &[Some((4, 6)), None, None]),
    // As far and as fast as may be.
    (
        FARTHEST,
        OPPOSITE,
        Op::Le,
        1_000_000_000_000,
        (0, 100_000_000),
        &[None, None, None],
    ),
    (
        OPPOSITE,
        FARTHEST,
        Op::Ge,
        1_000_000_000_000,
        (0, 100_000_000),
        &[Some((0, 100_000_000)), None, None],
    ),
];

const UP: Way = (0, 0, 0, 1000);

const ABOVE: Way = (0, 5000, 0, 0);

const BEHIND: Way = (-3000, 0, 0, 0);

const ROUND: Way = (10_000, 0, -1000, 1000);

const FARTHEST: Way = (FAR, FAR, 1_000_000, 1_000_000);

const OPPOSITE: Way = (-FAR, -FAR, -1_000_000, -1_000_000);

fn runs(found: Triple) -> [Option<Ends>; 3] {
    [ends(found.first), ends(found.second), ends(found.third)]
}

fn compared<M: Ledger>(row: &Comparison, probes: &mut Steps<M>) -> Option<[Option<Ends>; 3]> {
    let quad = quad(row.0, row.1)?;
    let c = constant(row.3)?;
    Some(runs(compare(&quad, row.2, c, window(row.4)?, probes)))
}

fn motions_compared<M: Ledger>(
    row: &Comparison,
    probes: &mut Steps<M>,
) -> Option<[Option<Ends>; 3]> {
    let first = line_in_reach(row.0)?;
    let second = line_in_reach(row.1)?;
    let c = constant(row.3)?;
    Some(runs(compare_motions(&first, &second, row.2, c, window(row.4)?, probes)))
}

fn are_runs(found: Option<[Option<Ends>; 3]>, want: &[Option<Ends>]) -> bool {
    match found {
        Some(runs) => runs.as_slice() == want,
        None => false,
    }
}

// Each row holds for the squared distance and for the motions.
fn hold<M: Ledger>(rt: &impl Abort, rows: &[Comparison], probes: &mut Steps<M>) {
    for (place, row) in rows.iter().enumerate() {
        assert!(rt; are_runs(compared(row, probes), row.5), "row {place}");
        let runs = motions_compared(row, probes);
        assert!(rt; are_runs(runs, row.5), "motions of row {place}");
    }
}

fn comparisons_are_found<M: Ledger>(rt: &impl Abort, host: &HostRuntime, blank: Blank)
    requires name { blank.name ≡ M.name }
    requires parts { blank.parts ≡ M.parts }
    requires some_part { 0 < blank.parts }
{
    let mut probes: Steps<M> = Steps::new(host, blank);
    hold(rt, COMPARED, &mut probes);
}

#[test]
fn distances_that_compare(rt: HostRuntime) {
    comparisons_are_found::<Brand>(&rt, &rt, Blank::new(1));
}

fn passing_motions_are_told<M: Ledger>(rt: &impl Abort, host: &HostRuntime, blank: Blank)
    requires name { blank.name ≡ M.name }
    requires parts { blank.parts ≡ M.parts }
    requires some_part { 0 < blank.parts }
{
    let mut probes: Steps<M> = Steps::new(host, blank);
    hold(rt, PASSING, &mut probes);
}

#[test]
fn motions_that_pass_by(rt: HostRuntime) {
    passing_motions_are_told::<Brand>(&rt, &rt, Blank::new(1));
}
