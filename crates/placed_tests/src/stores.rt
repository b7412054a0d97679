//! Stores of cars and posts, by what is written to them.
ghost use Rattle.std.specs.Prelude.{◌<◌, ◌≤◌, IfOk, IfSome, unsigned_abs};
ghost use Rattle.fixed_point.specs.declared.number.TheConstants.{READ_LIMIT};
ghost use Rattle.motion.specs.declared.limits.TheConstants.{CAPACITY_LIMIT};

use crate::owned::kept;
use fixed_point::{Fix, Point, READ_LIMIT, Slope, Word};
use motion::{Legs, Place};
use object_store::Store;
use std::alloc::Global;
use std::test::Fail;
use tick_set::{LAST_TICK, Window};

/// A place, and the way at each tick, in thousandths.
pub(crate) type Way = (i64, i64, i64, i64);

pub(crate) fn word(text: &[u8]) -> Result<Word, Fail> {
    Ok(Word::of(text).ok_or("a word past its length")?)
}

pub(crate) fn window(ends: (u32, u32)) -> Result<Window, Fail> {
    Ok(Window::new(ends.0, ends.1).ok_or("no such window")?)
}

/// A number that may be written.
pub(crate) fn number(thousandths: i64) -> Result<Fix, Fail>
    ensures { IfOk result (λ number. unsigned_abs number ≤ READ_LIMIT) }
{
    if thousandths.unsigned_abs() > READ_LIMIT {
        return Err("a number past its range".into());
    }
    Ok(Fix::of(thousandths).ok_or("a number past its range")?)
}

fn legs(thousandths: i64) -> Result<Legs, Fail> {
    let slope = Slope::of(thousandths).ok_or("a slope past its range")?;
    Ok(Legs::steady(slope))
}

fn place(way: Way) -> Result<Place, Fail>
    ensures { IfOk result (λ place. IfSome place.at (λ p. (unsigned_abs p.x ≤ READ_LIMIT) × (unsigned_abs p.y ≤ READ_LIMIT))) }
{
    let x = number(way.0)?;
    let y = number(way.1)?;
    let moving = (legs(way.2)?, legs(way.3)?);
    Ok(Place {
        at: Some(Point { x, y }),
        moving: Some(moving),
    })
}

fn add_class(store: &mut Store, name: &[u8], capacity: u32) -> Result<(), Fail>
    requires some { 0 < capacity }
    requires limit { capacity ≤ CAPACITY_LIMIT }
{
    let name = word(name)?;
    store.add_class(name, capacity, true, &[])?;
    Ok(())
}

fn add_classes(store: &mut Store) -> Result<(), Fail> {
    add_class(store, b"car", 1000)?;
    add_class(store, b"post", 9)
}

/// A store with the classes car and post, which have the numbers 0 and 1.
pub(crate) fn two_classes(alloc: Global) -> Result<Store, Fail> {
    let mut store = Store::new(alloc);
    let done = add_classes(&mut store);
    kept(store, done)
}

// Inserts an object where the tick isn't before the last write.
fn insert(store: &mut Store, tick: u32, class: &Word, name: &Word, place: Place) -> Result<(), Fail>
    requires { IfSome place.at (λ p. (unsigned_abs p.x ≤ READ_LIMIT) × (unsigned_abs p.y ≤ READ_LIMIT)) }
{
    if tick > LAST_TICK || tick < store.last_tick() {
        return Err("a tick out of order".into());
    }
    match store.insert(tick, class, name, &place, &[]) {
        Ok(_) => Ok(()),
        Err(_) => Err("a write that is refused".into()),
    }
}

/// An object of a class and a name comes.
pub(crate) fn come(
    store: &mut Store,
    tick: u32,
    class: &[u8],
    name: &[u8],
    way: Way,
) -> Result<(), Fail> {
    let class = word(class)?;
    let name = word(name)?;
    match place(way) {
        Ok(place) => insert(store, tick, &class, &name, place),
        Err(fault) => Err(fault),
    }
}

/// An object is removed.
pub(crate) fn go(store: &mut Store, tick: u32, name: &[u8]) -> Result<(), Fail> {
    let name = word(name)?;
    if tick > LAST_TICK || tick < store.last_tick() {
        return Err("a tick out of order".into());
    }
    store.remove(tick, &name)?;
    Ok(())
}
