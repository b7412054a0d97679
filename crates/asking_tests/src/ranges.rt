ghost use Rattle.std.specs.Prelude.{◌≡◌, IfOk};
ghost use Rattle.plane_index.specs.Index.{IsIndexOf};

use crate::counted::{Asked, with_counters};
use crate::near::are_spans;
use crate::owned::spent;
use crate::written::Written::{Comes, Goes, Halts};
use crate::written::{Written, store_of, window};
use fixed_point::Fix;
use object_store::Store;
use plane_index::{Grid, PlaneIndex, RangeRow};
use std::alloc::Global;
use std::process::Abort;
use std::sync::ledger::Ledger;
use std::test::Fail;
use steps::Steps;

type Ends = (u32, u32);

// `x` of the first car rises by 1 a tick, that of the second is far away, that of the third falls by 0.001 a tick, and
// that of the fourth falls by 1 a tick for 5 ticks. The second is removed.
const CARS: &[Written] = &[
    Comes(0, b"car", b"a", (0, 0, 1000, 0)),
    Comes(0, b"car", b"b", (1_000_000, 0, 0, 0)),
    Comes(0, b"car", b"c", (-5_000, 0, -1, 0)),
    Halts(0, b"car", b"d", (10_000, 0, -1000, 0)),
    Comes(0, b"post", b"p", (6_000, 0, 0, 0)),
    Goes(0, b"b"),
];

struct Case {
    says: &'static str,
    bounds: (i64, i64),
    window: Ends,
    // The candidates by their ids, and the rows, each with the runs of its ticks.
    found: &'static [u32],
    rows: &'static [(u32, &'static [Ends])],
}

const CASES: &[Case] = &[
    Case {
        says: "two objects, by strips of 10",
        bounds: (5_000, 8_000),
        window: (0, 20),
        found: &[0, 3],
        rows: &[(0, &[(5, 8)]), (3, &[(2, 20)])],
    },
    Case {
        says: "bounds in the wrong order",
        bounds: (8_000, 5_000),
        window: (0, 20),
        found: &[],
        rows: &[],
    },
    Case {
        says: "one value",
        bounds: (6_000, 6_000),
        window: (0, 20),
        found: &[0, 3],
        rows: &[(0, &[(6, 6)]), (3, &[(4, 4)])],
    },
    Case {
        says: "values below 0, past the first slice",
        bounds: (-6_000, -5_001),
        window: (0, 2000),
        found: &[2],
        rows: &[(2, &[(1, 1000)])],
    },
    Case {
        says: "a window over two slices",
        bounds: (999_000, 1_001_000),
        window: (990, 1010),
        found: &[0],
        rows: &[(0, &[(999, 1001)])],
    },
    Case {
        says: "a candidate without a row",
        bounds: (500_000, 500_000),
        window: (0, 20),
        found: &[0],
        rows: &[],
    },
    Case {
        says: "the last tick of all slices",
        bounds: (63_999_000, 64_000_000),
        window: (100, 63_999),
        found: &[0],
        rows: &[(0, &[(63_999, 63_999)])],
    },
];

fn fix(thousandths: i64) -> Result<Fix, Fail>
    ensures { IfOk result (λ number. number ≡ thousandths) }
{
    match Fix::of(thousandths) {
        Some(number) => Ok(number),
        None => Err("no such number".into()),
    }
}

fn are_rows(rows: &[RangeRow], wanted: &[(u32, &[Ends])]) -> bool {
    rows.len() == wanted.len()
        && rows.iter().zip(wanted).all(|(row, want)| row.id == want.0
            && are_spans(row.ticks.spans(), want.1))
}

// Whether an index finds the candidates and the rows of a case.
fn finds<L: Ledger>(
    alloc: Global,
    case: &Case,
    store: &Store,
    index: &mut PlaneIndex,
    reads: &mut Steps<L>,
) -> Result<bool, Fail>
    requires { IsIndexOf store.now index.old }
{
    let w = window(case.window)?;
    let lo = fix(case.bounds.0)?;
    let hi = fix(case.bounds.1)?;
    if !index.covers(store, w) {
        return Ok(false);
    }
    let rows = index.range_rows(alloc, lo, hi, store, w, reads)?;
    let found = index.candidates(alloc, lo, hi, w)?;
    Ok(are_rows(&rows, case.rows) && found.as_slice() == case.found)
}

// Whether an index that has seen no object finds them.
fn are_found<L: Ledger>(
    alloc: Global,
    case: &Case,
    store: &Store,
    reads: &mut Steps<L>,
) -> Result<bool, Fail> {
    let width = fix(10_000)?;
    let mut index = PlaneIndex::new(alloc, Grid::new(0, 0, 0, width))?;
    let found = finds(alloc, case, store, &mut index, reads);
    spent(index, found)
}

fn is_right<L: Ledger>(alloc: Global, case: &Case, reads: &mut Steps<L>) -> Result<bool, Fail> {
    let store = store_of(alloc, CARS)?;
    let found = are_found(alloc, case, &store, reads);
    spent(store, found)
}

pub(crate) fn cases_are_right<L: Ledger>(
    rt: &impl Abort,
    alloc: Global,
    reads: &mut Steps<L>,
) -> Result<(), Fail> {
    for case in CASES {
        assert!(rt; is_right(alloc, case, reads)?, "{}", case.says);
    }
    Ok(())
}

#[test]
fn values_between_two_bounds(rt: HostRuntime) -> Result<(), Fail> {
    with_counters(&rt, &rt, Asked::Between)
}
