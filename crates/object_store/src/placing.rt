//! Writes to a store, with the patches of the object that is written.
ghost use Rattle.std.specs.Prelude.{◌≡◌, ◌<◌, ◌≤◌, ◌-◌, ◌^◌, All, IfErr, IfOk, OnErr, OnOk, false, is_some, length, take};
ghost use Rattle.indexmap.specs.IndexMap.{index_map_len};
ghost use Rattle.motion.specs.Timeline.{AreBegunBy};
ghost use Rattle.object_store.specs.declared.fault.StoreFault.TheVariants.{NoMemory};
ghost use Rattle.object_store.specs.Changes.{AreGiven};
ghost use Rattle.object_store.specs.Contents.{CanWriteAt, catalog_of, state_of};
ghost use Rattle.object_store.specs.Effects.{after_insert, after_remove, after_update};
ghost use Rattle.object_store.specs.Faults.{insert_fault, remove_fault, update_fault};
ghost use Rattle.object_store.specs.Invariant.{IsKept, WritesNamed};
ghost use Rattle.object_store.specs.ObjectView.{objects_of};
ghost use Rattle.object_store.specs.Placing.{AreOthersPlaced, ArePlaced};
ghost use Rattle.object_store.specs.Tables.{contents_of, members_of, IsJudged, IsUnchanged};
ghost use Rattle.object_store.specs.TakingBack.{undone, IsRevertible};

use crate::fault::StoreFault;
use crate::objects::{Done, Objects, Undo};
use crate::tables::{Insertion, Tables};
use fixed_point::Word;
use motion::{NamedSet, Place};
use places::Places;
use std::alloc::AllocError;

/// Inserts an object.
pub fn insert_placed(
    tables: &mut Tables,
    places: &mut Places,
    insertion: &Insertion,
) -> Result<Done, StoreFault>
    requires kept { IsKept (members_of tables.old) (contents_of tables.old) }
    requires placed { ArePlaced places.old (contents_of tables.old).objects }
    requires now { CanWriteAt (contents_of tables.old) insertion.now.tick }
    requires given { AreGiven insertion.now.place.now insertion.now.sets.now }
    ensures ok { IfOk result (WritesNamed insertion.now.name.now (contents_of tables.old)
        (after_insert (contents_of tables.old) insertion.now.tick insertion.now.class.now insertion.now.name.now insertion.now.place.now insertion.now.sets.now) (members_of tables.new) (contents_of tables.new)) }
    ensures judged { IsJudged (insert_fault (catalog_of (contents_of tables.old))
        (is_some (state_of (contents_of tables.old) insertion.now.name.now insertion.now.tick)) insertion.now.class.now insertion.now.name.now insertion.now.place.now insertion.now.sets.now) result }
    ensures err { OnErr result (contents_of tables.new ≡ contents_of tables.old) }
    ensures kept { IsKept (members_of tables.new) (contents_of tables.new) }
    ensures placed { ArePlaced places.new (contents_of tables.new).objects }
{
    let done = tables.insert(insertion)?;
    placed(tables, places, done)
}

/// Updates an object.
pub fn update_placed(
    tables: &mut Tables,
    places: &mut Places,
    now: u32,
    name: &Word,
    place: &Place,
    sets: &[NamedSet],
) -> Result<Done, StoreFault>
    requires kept { IsKept (members_of tables.old) (contents_of tables.old) }
    requires placed { ArePlaced places.old (contents_of tables.old).objects }
    requires now { CanWriteAt (contents_of tables.old) now }
    requires given { AreGiven place.now sets.now }
    ensures ok { IfOk result (WritesNamed name.now (contents_of tables.old)
        (after_update (contents_of tables.old) now name.now place.now sets.now) (members_of tables.new) (contents_of tables.new)) }
    ensures judged { IsJudged (update_fault (catalog_of (contents_of tables.old))
        (is_some (state_of (contents_of tables.old) name.now now)) name.now place.now sets.now) result }
    ensures err { OnErr result (contents_of tables.new ≡ contents_of tables.old) }
    ensures kept { IsKept (members_of tables.new) (contents_of tables.new) }
    ensures placed { ArePlaced places.new (contents_of tables.new).objects }
{
    let done = tables.update(now, name, place, sets)?;
    place_known(tables, places, &done.undo);
    Ok(done)
}

/// Removes an object.
pub fn remove_placed(
    tables: &mut Tables,
    places: &mut Places,
    now: u32,
    name: &Word,
) -> Result<Done, StoreFault>
    requires kept { IsKept (members_of tables.old) (contents_of tables.old) }
    requires placed { ArePlaced places.old (contents_of tables.old).objects }
    requires now { CanWriteAt (contents_of tables.old) now }
    ensures ok { IfOk result (WritesNamed name.now (contents_of tables.old)
        (after_remove (contents_of tables.old) now name.now) (members_of tables.new) (contents_of tables.new)) }
    ensures judged { IsJudged (remove_fault (catalog_of (contents_of tables.old)) (is_some (state_of (contents_of tables.old) name.now now)) name.now) result }
    ensures err { OnErr result (contents_of tables.new ≡ contents_of tables.old) }
    ensures kept { IsKept (members_of tables.new) (contents_of tables.new) }
    ensures placed { ArePlaced places.new (contents_of tables.new).objects }
{
    let done = tables.remove(now, name)?;
    place_known(tables, places, &done.undo);
    Ok(done)
}

/// Writes the patches of the object that a call wrote. Where there is no memory for them, the call is taken back.
fn placed(tables: &mut Tables, places: &mut Places, done: Done) -> Result<Done, StoreFault>
    requires kept { IsKept (members_of tables.old) (contents_of tables.old) }
    requires revertible { IsRevertible done.undo (contents_of tables.old) }
    requires placed { ArePlaced places.old (undone done.undo (contents_of tables.old)).objects }
    ensures ok { IfOk result (λ given. given ≡ done) }
    ensures same { OnOk result (IsUnchanged tables.old tables.new) }
    ensures fault { IfErr result (λ fault. fault ≡ NoMemory) }
    ensures err { OnErr result (contents_of tables.new ≡ undone done.undo (contents_of tables.old)) }
    ensures kept { IsKept (members_of tables.new) (contents_of tables.new) }
    ensures placed { ArePlaced places.new (contents_of tables.new).objects }
{
    match place(tables, places, &done.undo) {
        Ok(()) => Ok(done),
        Err(error) => {
            tables.revert(done.undo);
            Err(error.into())
        }
    }
}

/// Writes the patches of the object that a call wrote, by how that is taken back. Only those of a new object take memory.
fn place(tables: &Tables, places: &mut Places, undo: &Undo) -> Result<(), AllocError>
    requires kept { IsKept (members_of tables.now) (contents_of tables.now) }
    requires revertible { IsRevertible undo.now (contents_of tables.now) }
    requires placed { ArePlaced places.old (undone undo.now (contents_of tables.now)).objects }
    ensures ok { OnOk result (ArePlaced places.new (contents_of tables.now).objects) }
    ensures err { OnErr result (ArePlaced places.new (undone undo.now (contents_of tables.now)).objects) }
{
    if undo.is_new {
        push_patches(places, &tables.objects, tables.last_tick)
    } else {
        place_known(tables, places, undo);
        Ok(())
    }
}

/// Writes the patches of an object whose name was known, by how its write is taken back. That takes no memory.
fn place_known(tables: &Tables, places: &mut Places, undo: &Undo)
    requires kept { IsKept (members_of tables.now) (contents_of tables.now) }
    requires revertible { IsRevertible undo.now (contents_of tables.now) }
    requires known { undo.now.is_new ≡ false }
    requires placed { ArePlaced places.old (undone undo.now (contents_of tables.now)).objects }
    ensures { ArePlaced places.new (contents_of tables.now).objects }
{
    set_patches(places, &tables.objects, undo.id as usize, tables.last_tick);
}

/// Writes the patches of the object of an index. No object has been written after the tick.
fn set_patches(places: &mut Places, objects: &Objects, index: usize, tick: u32)
    requires index { index < index_map_len objects.now }
    requires begun { All (λ o. AreBegunBy o.epochs tick) (objects_of objects.now.entries) }
    requires others { AreOthersPlaced index places.old (objects_of objects.now.entries) }
    ensures { ArePlaced places.new (objects_of objects.now.entries) }
{
    let from = places.from.max(tick);
    let patches = objects[index].patches(places, from);
    places.set(index, &patches);
    places.from = from;
}

/// Appends the patches of the last object. No object has been written after the tick.
fn push_patches(places: &mut Places, objects: &Objects, tick: u32) -> Result<(), AllocError>
    requires some { 0 < index_map_len objects.now }
    requires few { length (objects_of objects.now.entries) ≤ 2 ^ 32 }
    requires begun { All (λ o. AreBegunBy o.epochs tick) (objects_of objects.now.entries) }
    requires others { ArePlaced places.old (take (length (objects_of objects.now.entries) - 1) (objects_of objects.now.entries)) }
    ensures ok { OnOk result (ArePlaced places.new (objects_of objects.now.entries)) }
    ensures err { OnErr result (places.new ≡ places.old) }
{
    let from = places.from.max(tick);
    let patches = objects[objects.len() - 1].patches(places, from);
    places.push(&patches)?;
    places.from = from;
    Ok(())
}

/// Takes a write to an object back.
pub fn revert_placed(tables: &mut Tables, places: &mut Places, undo: Undo)
    requires kept { IsKept (members_of tables.old) (contents_of tables.old) }
    requires placed { ArePlaced places.old (contents_of tables.old).objects }
    requires revertible { IsRevertible undo (contents_of tables.old) }
    ensures contents { contents_of tables.new ≡ undone undo (contents_of tables.old) }
    ensures kept { IsKept (members_of tables.new) (contents_of tables.new) }
    ensures placed { ArePlaced places.new (contents_of tables.new).objects }
{
    let is_new = undo.is_new;
    let index = undo.id as usize;
    tables.revert(undo);
    if is_new {
        places.pop();
    } else {
        set_patches(places, &tables.objects, index, tables.last_tick);
    }
}
