//! A thousand cars that are spread out, and two regions among them.

use crate::owned::kept;
use crate::stores::{Way, come, number, two_classes, word};
use fixed_point::Point;
use object_store::Store;
use polygon::{Polygon, REGION_LIMIT, Regions};
use std::alloc::Global;
use std::test::Fail;

pub(crate) const COUNT: u32 = 1000;

// In rows of 40, each 100 units from the next one, with a way of at most one unit a tick.
fn way_of(i: u32) -> Way {
    let x = i64::from(i % 40) * 100_000;
    let y = i64::from(i / 40) * 100_000;
    let slope = i64::from(i % 3) * 1000 - 1000;
    (x, y, slope, 500)
}

fn come_by_number(alloc: Global, store: &mut Store, tick: u32, i: u32) -> Result<(), Fail> {
    let name = format!(in alloc; "c{i}")?;
    come(store, tick, b"car", name.as_bytes(), way_of(i))
}

/// The cars of some numbers come at a tick.
pub(crate) fn come_from_to(
    alloc: Global,
    store: &mut Store,
    tick: u32,
    first: u32,
    end: u32,
) -> Result<(), Fail> {
    for i in first..end {
        come_by_number(alloc, store, tick, i)?;
    }
    Ok(())
}

/// The cars, all of which come at tick 0.
pub(crate) fn thousand_cars(alloc: Global) -> Result<Store, Fail> {
    let mut store = two_classes(alloc)?;
    let done = come_from_to(alloc, &mut store, 0, 0, COUNT);
    kept(store, done)
}

fn corner(x: i64, y: i64) -> Result<Point, Fail> {
    let x = number(x)?;
    let y = number(y)?;
    Ok(Point { x, y })
}

// A square between two numbers on both axes.
fn square(alloc: Global, least: i64, greatest: i64) -> Result<Polygon, Fail> {
    let first = corner(least, least)?;
    let second = corner(greatest, least)?;
    let third = corner(greatest, greatest)?;
    let fourth = corner(least, greatest)?;
    let square = Polygon::new(alloc, &[first, second, third, fourth])?;
    Ok(square)
}

fn add_square(
    alloc: Global,
    regions: &mut Regions,
    name: &[u8],
    least: i64,
    greatest: i64,
) -> Result<(), Fail> {
    let name = word(name)?;
    let square = square(alloc, least, greatest)?;
    if regions.count() >= REGION_LIMIT || regions.number_of(&name).is_some() {
        return Err("a region too many".into());
    }
    regions.add(name, square)?;
    Ok(())
}

fn add_squares(alloc: Global, regions: &mut Regions) -> Result<(), Fail> {
    add_square(alloc, regions, b"P", 0, 150_000)?;
    add_square(alloc, regions, b"Q", 1_200_000, 1_350_000)
}

/// Squares of 150 units, `P` at a corner of the cars and `Q` among them.
pub(crate) fn two_squares(alloc: Global) -> Result<Regions, Fail> {
    let mut regions = Regions::new(alloc);
    let done = add_squares(alloc, &mut regions);
    kept(regions, done)
}
