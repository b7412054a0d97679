use crate::counted::{Asked, with_counters};
use crate::owned::spent;
use crate::written::Written::{Comes, Goes, Halts};
use crate::written::{Written, store_of, window};
use nearest::{NearRow, nearest_rows};
use object_store::Store;
use std::alloc::Global;
use std::process::Abort;
use std::sync::ledger::Ledger;
use std::test::Fail;
use steps::Steps;
use tick_set::Span;

type Ends = (u32, u32);

struct Case {
    says: &'static str,
    written: &'static [Written],
    class: u32,
    to: u32,
    k: u32,
    window: Ends,
    // The objects that are near by their ids, each with the runs of its ticks.
    rows: &'static [(u32, &'static [Ends])],
}

// A post, a car that passes by it, and one that stands 5 units away from it.
const PASSING: &[Written] = &[
    Comes(0, b"post", b"b", (0, 0, 0, 0)),
    Comes(0, b"car", b"a", (10_000, 0, -1000, 0)),
    Comes(0, b"car", b"c", (0, 5000, 0, 0)),
];

// The same half a unit later: the two cars are as near between two ticks.
const LATER: &[Written] = &[
    Comes(0, b"post", b"b", (0, 0, 0, 0)),
    Comes(0, b"car", b"a", (10_500, 0, -1000, 0)),
    Comes(0, b"car", b"c", (0, 5000, 0, 0)),
];

// The first car is removed while it is nearest, and comes again, as near as the second. At last the post is removed.
const COMING_AND_GOING: &[Written] = &[
    Comes(0, b"post", b"b", (0, 0, 0, 0)),
    Comes(0, b"car", b"a", (1000, 0, 0, 0)),
    Comes(0, b"car", b"c", (2000, 0, 0, 0)),
    Goes(3, b"a"),
    Comes(6, b"car", b"a", (0, 2000, 0, 0)),
    Goes(8, b"b"),
];

// Three cars at one place.
const TOGETHER: &[Written] = &[
    Comes(0, b"car", b"a", (0, 0, 1000, 0)),
    Comes(0, b"car", b"c", (0, 0, 1000, 0)),
    Comes(0, b"car", b"d", (0, 0, 1000, 0)),
];

// A car that halts 5 units from the post, and one that goes on past the post.
const HALTING: &[Written] = &[
    Comes(0, b"post", b"b", (0, 0, 0, 0)),
    Halts(0, b"car", b"a", (10_000, 0, -1000, 0)),
    Comes(0, b"car", b"c", (11_000, 0, -1000, 0)),
];

const CASES: &[Case] = &[
    // |10 - t| is at most 5 from tick 5 to 15, and 5 at both ends.
    Case {
        says: "a tie goes to the car that was inserted first",
        written: PASSING,
        class: 0,
        to: 0,
        k: 1,
        window: (0, 1_000_000),
        rows: &[(1, &[(5, 15)]), (2, &[(0, 4), (16, 1_000_000)])],
    },
    // |10.5 - t| is at most 5 from tick 6 to 15.
    Case {
        says: "a tie between two ticks",
        written: LATER,
        class: 0,
        to: 0,
        k: 1,
        window: (3, 15),
        rows: &[(1, &[(6, 15)]), (2, &[(3, 5)])],
    },
    // 1 is less than 2; then there is the second alone; then both are at 2.
    Case {
        says: "the nearest of those that come and go",
        written: COMING_AND_GOING,
        class: 0,
        to: 0,
        k: 1,
        window: (0, 9),
        rows: &[(1, &[(0, 2), (6, 7)]), (2, &[(3, 5)])],
    },
    // Each car that is there while the post is.
    Case {
        says: "more than there are",
        written: COMING_AND_GOING,
        class: 0,
        to: 0,
        k: 100,
        window: (1, 9),
        rows: &[(1, &[(1, 2), (6, 7)]), (2, &[(1, 7)])],
    },
    // The first and the third are at 0.
    Case {
        says: "a car isn't near itself",
        written: TOGETHER,
        class: 0,
        to: 1,
        k: 1,
        window: (0, 9),
        rows: &[(0, &[(0, 9)])],
    },
    // 10 - t is less than 11 - t; from tick 6 on 5 is compared with |11 - t|, which is 5 at ticks 6 and 16.
    Case {
        says: "a leg that ends",
        written: HALTING,
        class: 0,
        to: 0,
        k: 1,
        window: (0, 20),
        rows: &[(1, &[(0, 6), (16, 20)]), (2, &[(7, 15)])],
    },
    Case {
        says: "no other object of its class",
        written: PASSING,
        class: 1,
        to: 0,
        k: 1,
        window: (0, 5),
        rows: &[],
    },
    // There are the classes 0 and 1.
    Case {
        says: "no such class",
        written: PASSING,
        class: 2,
        to: 0,
        k: 1,
        window: (0, 5),
        rows: &[],
    },
];

pub(crate) fn are_spans(spans: &[Span], wanted: &[Ends]) -> bool {
    spans.len() == wanted.len()
        && spans
            .iter()
            .zip(wanted)
            .all(|(span, ends)| span.lo == ends.0 && span.hi == ends.1)
}

fn are_rows(rows: &[NearRow], wanted: &[(u32, &[Ends])]) -> bool {
    rows.len() == wanted.len()
        && rows.iter().zip(wanted).all(|(row, want)| row.id == want.0
            && are_spans(row.ticks.spans(), want.1))
}

// Whether these are the rows of a case in its store.
fn are_told<L: Ledger, M: Ledger>(
    alloc: Global,
    case: &Case,
    store: &Store,
    reads: &mut Steps<L>,
    probes: &mut Steps<M>,
) -> Result<bool, Fail> {
    let w = window(case.window)?;
    if case.to >= store.object_count() {
        return Ok(false);
    }
    let rows = nearest_rows(alloc, case.class, case.to, case.k, store, w, reads, probes)?;
    Ok(are_rows(&rows, case.rows))
}

fn is_right<L: Ledger, M: Ledger>(
    alloc: Global,
    case: &Case,
    reads: &mut Steps<L>,
    probes: &mut Steps<M>,
) -> Result<bool, Fail> {
    let store = store_of(alloc, case.written)?;
    let told = are_told(alloc, case, &store, reads, probes);
    spent(store, told)
}

pub(crate) fn cases_are_right<L: Ledger, M: Ledger>(
    rt: &impl Abort,
    alloc: Global,
    reads: &mut Steps<L>,
    probes: &mut Steps<M>,
) -> Result<(), Fail> {
    for case in CASES {
        let right = is_right(alloc, case, reads, probes)?;
        assert!(rt; right, "{}", case.says);
    }
    Ok(())
}

#[test]
fn objects_are_near(rt: HostRuntime) -> Result<(), Fail> {
    with_counters(&rt, &rt, Asked::Near)
}
