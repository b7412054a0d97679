//! Stores with the classes car and post, by what is written to them.
ghost use Rattle.std.specs.Prelude.{◌≡◌, ◌≤◌, IfOk, IfSome, unsigned_abs};
ghost use Rattle.fixed_point.specs.declared.number.TheConstants.{READ_LIMIT};

use crate::owned::kept;
use fixed_point::{Fix, Point, READ_LIMIT, Slope, Word};
use motion::{Legs, Place};
use object_store::Store;
use std::alloc::Global;
use std::test::Fail;
use tick_set::{LAST_TICK, Window};

// A place, and the way at each tick, in thousandths.
pub(crate) type Way = (i64, i64, i64, i64);

// What is written at a tick: an object of a class and a name comes, and goes on and on or halts after 5 ticks; or the
// object of a name is removed.
#[derive(Clone, Copy)]
pub(crate) enum Written {
    Comes(u32, &'static [u8], &'static [u8], Way),
    Halts(u32, &'static [u8], &'static [u8], Way),
    Goes(u32, &'static [u8]),
}

pub(crate) fn word(text: &[u8]) -> Result<Word, Fail>
    ensures { IfOk result (λ word. word ≡ text.now) }
{
    Ok(Word::of(text).ok_or("a word past its length")?)
}

pub(crate) fn window(ends: (u32, u32)) -> Result<Window, Fail> {
    Ok(Window::new(ends.0, ends.1).ok_or("no such window")?)
}

// A number that may be written.
pub(crate) fn number(thousandths: i64) -> Option<Fix>
    ensures { IfSome result (λ number. unsigned_abs number ≤ READ_LIMIT) }
{
    if thousandths.unsigned_abs() > READ_LIMIT {
        return None;
    }
    Fix::of(thousandths)
}

pub(crate) fn point(x: i64, y: i64) -> Option<Point>
    ensures { IfSome result (λ p. (unsigned_abs p.x ≤ READ_LIMIT) × (unsigned_abs p.y ≤ READ_LIMIT)) }
{
    let x = number(x)?;
    let y = number(y)?;
    Some(Point { x, y })
}

fn legs(thousandths: i64, halts: bool) -> Option<Legs> {
    let slope = Slope::of(thousandths)?;
    if halts {
        Legs::of(&[(slope, 5)], Slope::of(0)?)
    } else {
        Some(Legs::steady(slope))
    }
}

fn place(way: Way, halts: bool) -> Option<Place>
    ensures { IfSome result (λ place. IfSome place.at (λ p. (unsigned_abs p.x ≤ READ_LIMIT) × (unsigned_abs p.y ≤ READ_LIMIT))) }
{
    let at = point(way.0, way.1)?;
    let x = legs(way.2, halts)?;
    let y = legs(way.3, halts)?;
    Some(Place {
        at: Some(at),
        moving: Some((x, y)),
    })
}

// Inserts an object where the tick isn't before the last write.
fn insert(store: &mut Store, tick: u32, class: &Word, name: &Word, place: Place) -> Result<(), Fail>
    requires { IfSome place.at (λ p. (unsigned_abs p.x ≤ READ_LIMIT) × (unsigned_abs p.y ≤ READ_LIMIT)) }
{
    if tick > LAST_TICK || tick < store.last_tick() {
        return Err("a tick out of order".into());
    }
    match store.insert(tick, class, name, &place, &[]) {
        Ok(_) => Ok(()),
        Err(_) => Err("a write that is refused".into()),
    }
}

fn come(
    store: &mut Store,
    tick: u32,
    class: &[u8],
    name: &[u8],
    way: Way,
    halts: bool,
) -> Result<(), Fail> {
    let class = word(class)?;
    let name = word(name)?;
    match place(way, halts) {
        Some(place) => insert(store, tick, &class, &name, place),
        None => Err("no such place".into()),
    }
}

fn go(store: &mut Store, tick: u32, name: &[u8]) -> Result<(), Fail> {
    let name = word(name)?;
    if tick > LAST_TICK || tick < store.last_tick() {
        return Err("a tick out of order".into());
    }
    store.remove(tick, &name)?;
    Ok(())
}

fn write(store: &mut Store, written: &Written) -> Result<(), Fail> {
    match *written {
        Written::Comes(tick, class, name, way) => come(store, tick, class, name, way, false),
        Written::Halts(tick, class, name, way) => come(store, tick, class, name, way, true),
        Written::Goes(tick, name) => go(store, tick, name),
    }
}

fn write_all(store: &mut Store, written: &[Written]) -> Result<(), Fail> {
    store.add_class(word(b"car")?, 9, true, &[])?;
    store.add_class(word(b"post")?, 9, true, &[])?;
    for one in written {
        write(store, one)?;
    }
    Ok(())
}

// The store in which cars have the class 0, and posts the class 1.
pub(crate) fn store_of(alloc: Global, written: &[Written]) -> Result<Store, Fail> {
    let mut store = Store::new(alloc);
    let done = write_all(&mut store, written);
    kept(store, done)
}
