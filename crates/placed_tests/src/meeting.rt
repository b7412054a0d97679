//! With how many objects of many that are spread out a formula can hold where they are.

use crate::asked::{Asked, met};
use crate::owned::spent;
use crate::spread::thousand_cars;
use object_store::Store;
use std::alloc::Global;
use std::process::Abort;
use std::test::Fail;

fn asked(formula: &[u8]) -> Asked<'_> {
    Asked {
        head: b"RETRIEVE o FROM car o WHERE ",
        formula,
        variables: 1,
        error: 0,
        ends: (0, 100),
    }
}

// Formulas that need cars inside regions.
const SOMEWHERE: &[&[u8]] = &[
    b"INSIDE(o,Q)",
    b"EVENTUALLY_WITHIN 60 INSIDE(o,Q)",
    b"ALWAYS_FOR 60 INSIDE(o,Q)",
    b"OUTSIDE(o,P) UNTIL INSIDE(o,Q)",
    b"OUTSIDE(o,P) AND INSIDE(o,Q)",
    b"INSIDE(o,Q) AND o.x >= 0",
    b"INSIDE(o,P) OR INSIDE(o,Q)",
    b"[v <- o.x] EVENTUALLY (o.x > v AND INSIDE(o,Q))",
];

// Formulas that may hold anywhere, as far as regions tell.
const ANYWHERE: &[&[u8]] = &[
    b"OUTSIDE(o,Q)",
    b"NOT INSIDE(o,Q)",
    b"INSIDE(o,P) OR TRUE",
    b"INSIDE(o,Q) UNTIL OUTSIDE(o,Q)",
    b"o.x <= 150",
];

fn meet_few(rt: &impl Abort, alloc: Global, store: &Store) -> Result<(), Fail> {
    for &formula in SOMEWHERE {
        let count = met(alloc, store, &asked(formula))?;
        assert!(rt; 0 < count && count < 100, "{formula:?} with {count}");
    }
    Ok(())
}

#[test]
fn few_of_many_cars_can_be_inside(rt: HostRuntime) -> Result<(), Fail> {
    let store = thousand_cars(rt.alloc())?;
    let done = meet_few(&rt, rt.alloc(), &store);
    spent(store, done)
}

fn meet_all(rt: &impl Abort, alloc: Global, store: &Store) -> Result<(), Fail> {
    for &formula in ANYWHERE {
        let count = met(alloc, store, &asked(formula))?;
        assert_eq!(rt; count, 1000, "{formula:?}");
    }
    Ok(())
}

#[test]
fn all_cars_can_be_anywhere(rt: HostRuntime) -> Result<(), Fail> {
    let store = thousand_cars(rt.alloc())?;
    let done = meet_all(&rt, rt.alloc(), &store);
    spent(store, done)
}
