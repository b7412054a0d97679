//! A store with a car that passes by a post, and a region round the post, as contracts tell them.
ghost use Rattle.std.specs.Prelude.{◌≡◌, ◌<◌, ◌≤◌, [], pos, true, length, IfOk, IfSome, OnOk};
ghost use Rattle.history.specs.History.{history};
ghost use Rattle.history.specs.Write.{Class, Insert, Remove};
ghost use Rattle.meaning.specs.ExampleParts.{standing_at};
ghost use Rattle.meaning.specs.PlaceExample.{passing};
ghost use Rattle.motion.specs.declared.limits.TheConstants.{CAPACITY_LIMIT};
ghost use Rattle.object_store.specs.Changes.{AreGiven};
ghost use Rattle.object_store.specs.Contents.{history_of};
ghost use Rattle.object_store.specs.StandsFor.{GrowsBy};
ghost use Rattle.asking_tests.specs.Passing.{writes};

use crate::written::{point, word};
use fixed_point::{Fix, Point, Slope};
use motion::{Legs, Place};
use object_store::Store;
use polygon::{Polygon, Regions};
use std::alloc::Global;
use std::test::Fail;

// From (0,3), one unit a tick along x.
fn passing_place() -> Option<Place>
    ensures { IfSome result (λ place. place ≡ passing (pos 0) (pos 3000)) }
{
    let at = Point {
        x: Fix::of(0)?,
        y: Fix::of(3000)?,
    };
    let moving = (Legs::steady(Slope::of(1000)?), Legs::steady(Slope::of(0)?));
    Some(Place {
        at: Some(at),
        moving: Some(moving),
    })
}

// At (10,0).
fn standing_place() -> Option<Place>
    ensures { IfSome result (λ place. place ≡ standing_at 10 0) }
{
    let at = Point {
        x: Fix::of(10_000)?,
        y: Fix::of(0)?,
    };
    Some(Place {
        at: Some(at),
        moving: None,
    })
}

// Makes a class of objects with positions.
fn add_class(store: &mut Store, name: &[u8], capacity: u32) -> Result<(), Fail>
    requires some { 0 < capacity }
    requires limit { capacity ≤ CAPACITY_LIMIT }
    ensures { OnOk result (GrowsBy store.old store.new (Class name.now capacity true [])) }
{
    let name = word(name)?;
    match store.add_class(name, capacity, true, &[]) {
        Ok(_) => Ok(()),
        Err(_) => Err("a class that is refused".into()),
    }
}

// Inserts an object at tick 0.
fn insert(store: &mut Store, class: &[u8], name: &[u8], place: Place) -> Result<(), Fail>
    requires { AreGiven place [] }
    ensures { OnOk result (GrowsBy store.old store.new (Insert 0 class.now name.now place [])) }
{
    let class = word(class)?;
    let name = word(name)?;
    if store.last_tick() > 0 {
        return Err("a tick out of order".into());
    }
    match store.insert(0, &class, &name, &place, &[]) {
        Ok(_) => Ok(()),
        Err(_) => Err("a write that is refused".into()),
    }
}

// Removes an object at tick 25.
fn remove(store: &mut Store, name: &[u8]) -> Result<(), Fail>
    ensures { OnOk result (GrowsBy store.old store.new (Remove 25 name.now)) }
{
    let name = word(name)?;
    if store.last_tick() > 25 {
        return Err("a tick out of order".into());
    }
    match store.remove(25, &name) {
        Ok(_) => Ok(()),
        Err(_) => Err("a removal that is refused".into()),
    }
}

// A car passes by a post, which is then removed.
fn pass_post(store: &mut Store, car: Place, post: Place) -> Result<(), Fail>
    requires empty { history_of store.old ≡ history [] }
    requires car { car ≡ passing (pos 0) (pos 3000) }
    requires post { post ≡ standing_at 10 0 }
    ensures { OnOk result (history_of store.new ≡ history writes) }
{
    add_class(store, b"car", 100)?;
    add_class(store, b"post", 10)?;
    insert(store, b"car", b"a", car)?;
    insert(store, b"post", b"b", post)?;
    remove(store, b"b")?;
    Ok(())
}

fn passed_post_of(alloc: Global, car: Place, post: Place) -> Result<Store, Fail>
    requires car { car ≡ passing (pos 0) (pos 3000) }
    requires post { post ≡ standing_at 10 0 }
    ensures { IfOk result (λ store. history_of store ≡ history writes) }
{
    let mut store = Store::new(alloc);
    pass_post(&mut store, car, post)?;
    Ok(store)
}

pub(crate) fn passed_post(alloc: Global) -> Result<Store, Fail>
    ensures { IfOk result (λ store. history_of store ≡ history writes) }
{
    match passing_place() {
        Some(car) => match standing_place() {
            Some(post) => passed_post_of(alloc, car, post),
            None => Err("no such place".into()),
        },
        None => Err("no such place".into()),
    }
}

// 10 to 20 along x, and 5 units to each side.
fn corners() -> Option<[Point; 4]> {
    let first = point(10_000, -5000)?;
    let second = point(20_000, -5000)?;
    let third = point(20_000, 5000)?;
    let fourth = point(10_000, 5000)?;
    Some([first, second, third, fourth])
}

fn square_of(alloc: Global, corners: [Point; 4]) -> Result<Regions, Fail>
    ensures { IfOk result (λ regions. length regions ≡ 1) }
{
    let name = word(b"P")?;
    let mut regions = Regions::new(alloc);
    match Polygon::new(alloc, &corners) {
        Ok(square) => regions.add(name, square)?,
        Err(_) => return Err("no such polygon".into()),
    }
    Ok(regions)
}

pub(crate) fn square(alloc: Global) -> Result<Regions, Fail>
    ensures { IfOk result (λ regions. length regions ≡ 1) }
{
    match corners() {
        Some(corners) => square_of(alloc, corners),
        None => Err("no such points".into()),
    }
}
