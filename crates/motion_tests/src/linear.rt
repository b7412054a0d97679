ghost use Rattle.std.specs.Prelude.{◌≡◌, ◌<◌};

use crate::made::{Ends, Way, ends, quad};
use case_table::Op;
use linear_crossing::{Quad, RISE_LIMIT, START_LIMIT, solve};
use std::marker::Brand;
use std::process::Abort;
use std::sync::ledger::{Blank, Ledger};
use steps::Steps;
use tick_set::Window;

const LEAST: i128 = -12_000_000_000_000_000_000_000_000_000_000_000_000;

const STEEPEST: i128 = 8_000_000_000_000_000_000_000_000;

const LAST: u32 = 1_000_000_000;

// A rise and a first value, the comparison with 0, the last tick, and the runs.
const CROSSINGS: &[(i128, i128, Op, u32, &[Option<Ends>])] = &[
    (3, -10, Op::Ge, 30, &[Some((4, 30)), None]),
    (3, -20, Op::Le, 30, &[Some((0, 6)), None]),
    (2, -10, Op::Ne, 10, &[Some((0, 4)), Some((6, 10))]),
    (0, 0, Op::Lt, 10, &[None, None]),
    (0, 0, Op::Eq, 10, &[Some((0, 10)), None]),
    (-3, 10, Op::Gt, 30, &[Some((0, 3)), None]),
    (-3, 9, Op::Eq, 30, &[Some((3, 3)), None]),
    (-3, 10, Op::Eq, 30, &[None, None]),
    (1, 0, Op::Ne, 10, &[Some((1, 10)), None]),
    (1, -10, Op::Ne, 10, &[Some((0, 9)), None]),
    (3, -10, Op::Ne, 10, &[Some((0, 10)), None]),
    // At the limits.
    (STEEPEST, LEAST, Op::Ge, LAST, &[None, None]),
    (-STEEPEST, LEAST, Op::Lt, LAST, &[Some((0, LAST)), None]),
    (
        STEEPEST,
        -8_000_000_000_000_000_000_000_000_000_000_000,
        Op::Eq,
        LAST,
        &[Some((LAST, LAST)), None],
    ),
];

fn solved(a: i128, b: i128, op: Op, last: u32) -> Option<[Option<Ends>; 2]> {
    if a.unsigned_abs() > RISE_LIMIT || b.unsigned_abs() > START_LIMIT {
        return None;
    }
    let pair = solve(a, b, op, Window::new(0, last)?);
    Some([ends(pair.first), ends(pair.second)])
}

fn are_runs(found: Option<[Option<Ends>; 2]>, want: &[Option<Ends>]) -> bool {
    match found {
        Some(runs) => runs.as_slice() == want,
        None => false,
    }
}

#[test]
fn lines_and_zero(rt: HostRuntime) {
    for &(a, b, op, last, want) in CROSSINGS {
        assert!(rt; are_runs(solved(a, b, op, last), want), "at {a} {b}");
    }
}

const FAR: i64 = 1_001_000_000_000_000;

// Two motions, the last tick, where their squared distance is least, and what it is at the first and the last tick.
type Distance = (Way, Way, u32, (u32, i128, i128));

const DISTANCES: &[Distance] = &[
    (
        (0, 3000, 1000, 0),
        (10_000, 0, 0, 0),
        20,
        (10, 109_000_000, 109_000_000),
    ),
    (
        (500, 3000, 1000, 0),
        (10_000, 0, 0, 0),
        20,
        (9, 99_250_000, 119_250_000),
    ),
    (
        (400, 3000, 1000, 0),
        (10_000, 0, 0, 0),
        20,
        (10, 101_160_000, 117_160_000),
    ),
    ((0, 0, 5, 5), (7, 7, 5, 5), 9, (0, 98, 98)),
    ((0, 0, 0, 1), (0, 50, 0, 0), 9, (9, 2500, 1681)),
    (
        (FAR, FAR, 1_000_000, 1_000_000),
        (-FAR, -FAR, -1_000_000, -1_000_000),
        LAST,
        (
            0,
            8_016_008_000_000_000_000_000_000_000_000,
            32_032_008_000_000_000_000_000_000_000_000,
        ),
    ),
];

fn shape<M: Ledger>(row: &Distance, probes: &mut Steps<M>) -> Option<(u32, i128, i128)> {
    let quad = quad(row.0, row.1)?;
    let last = row.2;
    Some((quad.valley(last), quad.at(0, probes), quad.at(last, probes)))
}

fn shapes_are_right<M: Ledger>(rt: &impl Abort, host: &HostRuntime, blank: Blank)
    requires name { blank.name ≡ M.name }
    requires parts { blank.parts ≡ M.parts }
    requires some_part { 0 < blank.parts }
{
    let mut probes: Steps<M> = Steps::new(host, blank);
    for (place, row) in DISTANCES.iter().enumerate() {
        assert!(rt; shape(row, &mut probes) == Some(row.3), "row {place}");
    }
}

#[test]
fn distances_fall_and_rise(rt: HostRuntime) {
    shapes_are_right::<Brand>(&rt, &rt, Blank::new(1));
}
