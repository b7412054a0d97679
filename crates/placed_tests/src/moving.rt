//! Where objects are told as they come, move and go, and as the clock goes on.
use crate::owned::{kept, spent};
use crate::stores::{come, go, number, two_classes, window};
use object_store::{Area, Sides, Store};
use std::alloc::Global;
use std::process::Abort;
use std::test::Fail;

const CAR: u32 = 0;

const POST: u32 = 1;

fn sides(middle: i64) -> Result<Sides, Fail> {
    Ok(Sides {
        least: Some(number(middle.saturating_sub(10_000))?),
        greatest: Some(number(middle.saturating_add(10_000))?),
    })
}

// A class, the middle of a square of 20 units in thousandths, the ends of a window, and the objects by their ids, if any
// are told.
type Row = (u32, (i64, i64), (u32, u32), Option<&'static [u32]>);

fn is_told(alloc: Global, store: &Store, row: &Row) -> Result<bool, Fail> {
    let x = sides(row.1.0)?;
    let y = sides(row.1.1)?;
    let w = window(row.2)?;
    let near = store.near(alloc, row.0, &Area { x, y }, w)?;
    Ok(match (&near, row.3) {
        (Some(ids), Some(told)) => ids.as_slice() == told,
        (None, None) => true,
        _ => false,
    })
}

fn are_told(rt: &impl Abort, alloc: Global, store: &Store, rows: &[Row]) -> Result<(), Fail> {
    for (place, row) in rows.iter().enumerate() {
        assert!(rt; is_told(alloc, store, row)?, "row {place}");
    }
    Ok(())
}

// Two cars that rest, a post at the place of the first, and a car that moves by a unit a tick along x from (0, 500) on.
fn come_in_turn(store: &mut Store) -> Result<(), Fail> {
    come(store, 0, b"car", b"a", (0, 0, 0, 0))?;
    come(store, 0, b"car", b"b", (1_000_000, 0, 0, 0))?;
    come(store, 0, b"post", b"p", (0, 0, 0, 0))?;
    come(store, 3, b"car", b"c", (0, 500_000, 1000, 0))
}

fn some_objects(alloc: Global) -> Result<Store, Fail> {
    let mut store = two_classes(alloc)?;
    let done = come_in_turn(&mut store);
    kept(store, done)
}

// No box tells of a window past all horizons, so each object is judged by itself then.
const TOLD: &[Row] = &[
    (CAR, (0, 0), (3, 60), Some(&[0])),
    (POST, (0, 0), (3, 60), Some(&[2])),
    (CAR, (50_000, 500_000), (3, 60), Some(&[3])),
    (CAR, (900_000, 0), (3, 60), Some(&[])),
    (CAR, (0, 0), (2, 60), None),
    (CAR, (0, 0), (3, 900_000), Some(&[0])),
    (CAR, (90_000_000, 500_000), (3, 900_000), Some(&[3])),
    (CAR, (-20_000, 500_000), (3, 900_000), Some(&[])),
];

#[test]
fn objects_are_told_where_they_may_be(rt: HostRuntime) -> Result<(), Fail> {
    let store = some_objects(rt.alloc())?;
    let done = are_told(&rt, rt.alloc(), &store, TOLD);
    spent(store, done)
}

// Where the moving car was is forgotten.
const LATER: &[Row] = &[
    (CAR, (50_000, 500_000), (2000, 2060), Some(&[])),
    (CAR, (2_010_000, 500_000), (2000, 2060), Some(&[3])),
    (CAR, (0, 0), (2000, 2060), Some(&[0])),
];

#[test]
fn objects_are_told_as_the_clock_goes_on(rt: HostRuntime) -> Result<(), Fail> {
    let mut store = some_objects(rt.alloc())?;
    store.stands_at(2000);
    let done = are_told(&rt, rt.alloc(), &store, LATER);
    spent(store, done)
}

const GONE: &[Row] = &[(CAR, (0, 0), (5, 60), Some(&[]))];

const BACK: &[Row] = &[
    (CAR, (0, 0), (7, 60), Some(&[])),
    (CAR, (400_000, 0), (7, 60), Some(&[0])),
];

fn goes_and_comes(rt: &impl Abort, alloc: Global, store: &mut Store) -> Result<(), Fail> {
    come(store, 0, b"car", b"a", (0, 0, 0, 0))?;
    go(store, 5, b"a")?;
    are_told(rt, alloc, store, GONE)?;
    come(store, 7, b"car", b"a", (400_000, 0, 0, 0))?;
    are_told(rt, alloc, store, BACK)
}

#[test]
fn absent_objects_are_not_told(rt: HostRuntime) -> Result<(), Fail> {
    let mut store = two_classes(rt.alloc())?;
    let done = goes_and_comes(&rt, rt.alloc(), &mut store);
    spent(store, done)
}
