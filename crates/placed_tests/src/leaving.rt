//! How many objects are left to be asked of many that are spread out.
ghost use Rattle.std.specs.Prelude.{◌≤◌};
ghost use Rattle.formula_shape.specs.declared.limits.TheConstants.{OBJECT_LIMIT};

use crate::asked::{Asked, left};
use crate::owned::spent;
use crate::spread::{COUNT, come_from_to, thousand_cars};
use crate::stores::{two_classes, word};
use motion::Place;
use object_store::Store;
use std::alloc::Global;
use std::process::Abort;
use std::test::Fail;

// A formula that is judged over a window, where positions may be off by so much.
fn asked(formula: &[u8], error: u32, ends: (u32, u32)) -> Asked<'_>
    ensures { result.variables ≤ OBJECT_LIMIT }
{
    Asked {
        head: b"RETRIEVE o FROM car o WHERE ",
        formula,
        variables: 1,
        error,
        ends,
    }
}

// Formulas that need cars in one place or in two.
const SOMEWHERE: &[&[u8]] = &[
    b"INSIDE(o,Q)",
    b"EVENTUALLY INSIDE(o,Q)",
    b"NEXTTIME INSIDE(o,Q)",
    b"ALWAYS INSIDE(o,Q)",
    b"EVENTUALLY_WITHIN 60 INSIDE(o,Q)",
    b"EVENTUALLY_AFTER 60 INSIDE(o,Q)",
    b"ALWAYS_FOR 60 INSIDE(o,Q)",
    b"OUTSIDE(o,P) UNTIL INSIDE(o,Q)",
    b"TRUE UNTIL_WITHIN 60 INSIDE(o,Q)",
    b"TRUE UNTIL_AFTER 60 INSIDE(o,Q)",
    b"OUTSIDE(o,P) AND INSIDE(o,Q)",
    b"o.x.function > 0 AND NOT INSIDE(o,P) AND INSIDE(o,Q)",
    b"INSIDE(o,P) OR INSIDE(o,Q)",
    b"o.x <= 150 AND o.y < 150",
    b"3700 < o.x AND 300 > o.y",
    b"[v <- o.x] EVENTUALLY (o.x > v AND INSIDE(o,Q))",
];

// Formulas that may hold of each car.
const ANYWHERE: &[&[u8]] = &[
    b"OUTSIDE(o,Q)",
    b"NOT INSIDE(o,Q)",
    b"INSIDE(o,P) OR TRUE",
    b"INSIDE(o,Q) UNTIL OUTSIDE(o,Q)",
];

fn leave_few(rt: &impl Abort, alloc: Global, store: &Store) -> Result<(), Fail> {
    for &formula in SOMEWHERE {
        let count = left(alloc, store, &asked(formula, 0, (0, 100)))?;
        assert!(rt; 0 < count && count < 100, "{formula:?} leaves {count}");
    }
    Ok(())
}

#[test]
fn few_of_many_cars_are_left(rt: HostRuntime) -> Result<(), Fail> {
    let store = thousand_cars(rt.alloc())?;
    let done = leave_few(&rt, rt.alloc(), &store);
    spent(store, done)
}

fn leave_all(rt: &impl Abort, alloc: Global, store: &Store) -> Result<(), Fail> {
    for &formula in ANYWHERE {
        let count = left(alloc, store, &asked(formula, 0, (0, 100)))?;
        assert_eq!(rt; count, 1000, "{formula:?}");
    }
    let none = left(alloc, store, &asked(b"FALSE", 0, (0, 100)))?;
    assert_eq!(rt; none, 0);
    Ok(())
}

#[test]
fn all_cars_are_left_where_each_may_count(rt: HostRuntime) -> Result<(), Fail> {
    let store = thousand_cars(rt.alloc())?;
    let done = leave_all(&rt, rt.alloc(), &store);
    spent(store, done)
}

const INSIDE: &[u8] = b"INSIDE(o,Q)";

const NOWHERE: Place = Place {
    at: None,
    moving: None,
};

// A car of a class that isn't there, and one of a name that is taken.
fn is_refused(store: &mut Store, class: &[u8]) -> Result<bool, Fail> {
    let class = word(class)?;
    let name = word(b"c7")?;
    if store.last_tick() > 0 {
        return Err("a tick out of order".into());
    }
    Ok(store.insert(0, &class, &name, &NOWHERE, &[]).is_err())
}

fn refused_lines_leave_as_few(
    rt: &impl Abort,
    alloc: Global,
    store: &mut Store,
) -> Result<(), Fail> {
    let before = left(alloc, store, &asked(INSIDE, 0, (0, 100)))?;
    assert!(rt; is_refused(store, b"bus")?);
    assert!(rt; is_refused(store, b"car")?);
    let after = left(alloc, store, &asked(INSIDE, 0, (0, 100)))?;
    assert_eq!(rt; after, before);
    Ok(())
}

#[test]
fn a_write_that_is_refused_leaves_as_few(rt: HostRuntime) -> Result<(), Fail> {
    let mut store = thousand_cars(rt.alloc())?;
    let done = refused_lines_leave_as_few(&rt, rt.alloc(), &mut store);
    spent(store, done)
}

fn leaves_few(
    rt: &impl Abort,
    alloc: Global,
    store: &Store,
    formula: &[u8],
    ends: (u32, u32),
) -> Result<(), Fail> {
    let count = left(alloc, store, &asked(formula, 0, ends))?;
    assert!(rt; 0 < count && count < 100, "{count} are left");
    Ok(())
}

// Half of the cars come at once at a later tick, as those of a text that is imported.
fn import(alloc: Global, store: &mut Store) -> Result<(), Fail> {
    come_from_to(alloc, store, 0, 0, 500)?;
    store.stands_at(700);
    come_from_to(alloc, store, 700, 500, COUNT)
}

fn few_are_left_of_two_imports(
    rt: &impl Abort,
    alloc: Global,
    store: &mut Store,
) -> Result<(), Fail> {
    import(alloc, store)?;
    leaves_few(rt, alloc, store, INSIDE, (700, 800))
}

#[test]
fn few_are_left_after_many_come_at_once(rt: HostRuntime) -> Result<(), Fail> {
    let mut store = two_classes(rt.alloc())?;
    let done = few_are_left_of_two_imports(&rt, rt.alloc(), &mut store);
    spent(store, done)
}

// In the first two rows, which have gone 5,000 units along y by then.
const LATER: &[u8] = b"o.y <= 5150 AND 0 <= o.x AND o.x <= 150";

fn stand(store: &mut Store) {
    for now in 1..=10_000 {
        store.stands_at(now);
    }
}

#[test]
fn few_are_left_after_many_ticks(rt: HostRuntime) -> Result<(), Fail> {
    let mut store = thousand_cars(rt.alloc())?;
    stand(&mut store);
    let done = leaves_few(&rt, rt.alloc(), &store, LATER, (10_000, 10_060));
    spent(store, done)
}

// As many are left at least where positions may be off, and few still.
fn leave_few_within(rt: &impl Abort, alloc: Global, store: &Store, error: u32) -> Result<(), Fail> {
    for &formula in SOMEWHERE {
        let exact = left(alloc, store, &asked(formula, 0, (0, 100)))?;
        let count = left(alloc, store, &asked(formula, error, (0, 100)))?;
        assert!(rt; exact <= count && count < 100, "{formula:?} leaves {count}");
    }
    Ok(())
}

#[test]
fn few_cars_are_left_where_positions_may_be_off(rt: HostRuntime) -> Result<(), Fail> {
    let store = thousand_cars(rt.alloc())?;
    let done = leave_few_within(&rt, rt.alloc(), &store, 10_000);
    spent(store, done)
}
