//! How many objects are left to be asked of many that are spread out, where they have to come near to one of few.
ghost use Rattle.std.specs.Prelude.{◌≤◌};
ghost use Rattle.formula_shape.specs.declared.limits.TheConstants.{OBJECT_LIMIT};

use crate::asked::{Asked, left};
use crate::owned::{kept, spent};
use crate::spread::thousand_cars;
use crate::stores::come;
use object_store::Store;
use std::alloc::Global;
use std::process::Abort;
use std::test::Fail;

// A formula that is judged over 100 ticks, where positions may be off by so much.
fn asked(formula: &[u8], error: u32) -> Asked<'_>
    ensures { result.variables ≤ OBJECT_LIMIT }
{
    Asked {
        head: b"RETRIEVE o FROM car o,post n WHERE ",
        formula,
        variables: 2,
        error,
        ends: (0, 100),
    }
}

fn add_posts(store: &mut Store) -> Result<(), Fail> {
    come(store, 0, b"post", b"p", (1_200_000, 1_200_000, 0, 0))?;
    come(store, 0, b"post", b"q", (3_000_000, 300_000, 0, 0))
}

// Two posts at places of cars.
fn cars_and_posts(alloc: Global) -> Result<Store, Fail> {
    let mut store = thousand_cars(alloc)?;
    let done = add_posts(&mut store);
    kept(store, done)
}

// Formulas that need cars near to a post.
const NEAR: &[&[u8]] = &[
    b"DIST(o,n) <= 3",
    b"DIST(n,o) <= 3",
    b"DIST(o,n) < 3",
    b"DIST(n,o) = 3",
    b"EVENTUALLY DIST(n,o) <= 3",
    b"TRUE UNTIL_WITHIN 60 DIST(o,n) <= 3",
    b"OUTSIDE(o,P) AND DIST(o,n) <= 3",
    b"INSIDE(o,P) OR DIST(n,o) <= 3",
];

// Formulas that may hold of each car.
const ANYWHERE: &[&[u8]] = &[
    b"DIST(o,n) > 3",
    b"DIST(n,o) >= 3",
    b"NOT DIST(o,n) <= 3",
    b"DIST(o,o) <= 3",
];

fn leave_few(rt: &impl Abort, alloc: Global, store: &Store, error: u32) -> Result<(), Fail> {
    for &formula in NEAR {
        let count = left(alloc, store, &asked(formula, error))?;
        assert!(rt; 0 < count && count < 100, "{formula:?} leaves {count}");
    }
    Ok(())
}

#[test]
fn few_cars_are_left_near_posts(rt: HostRuntime) -> Result<(), Fail> {
    let store = cars_and_posts(rt.alloc())?;
    let done = leave_few(&rt, rt.alloc(), &store, 0);
    spent(store, done)
}

#[test]
fn few_cars_are_left_near_posts_where_positions_may_be_off(rt: HostRuntime) -> Result<(), Fail> {
    let store = cars_and_posts(rt.alloc())?;
    let done = leave_few(&rt, rt.alloc(), &store, 10_000);
    spent(store, done)
}

fn leave_all(rt: &impl Abort, alloc: Global, store: &Store) -> Result<(), Fail> {
    for &formula in ANYWHERE {
        let count = left(alloc, store, &asked(formula, 0))?;
        assert_eq!(rt; count, 1000, "{formula:?}");
    }
    Ok(())
}

#[test]
fn all_cars_are_left_where_a_post_needs_none_near(rt: HostRuntime) -> Result<(), Fail> {
    let store = cars_and_posts(rt.alloc())?;
    let done = leave_all(&rt, rt.alloc(), &store);
    spent(store, done)
}
