//! The tables of a store: its classes, and its objects with the ids of each class.
ghost use Rattle.std.specs.Prelude.{◌≡◌, ◌<◌, Some, None, false, true, is_some, nat_le, length, slice_get, IfSome, IfOk, OnOk, OnErr};
ghost use Rattle.std.specs.List.{find, position};
ghost use Rattle.std.specs.Str.{bytes_eq};
ghost use Rattle.motion.specs.Cells.{AreCellsAt, AreFewAttributes, IsCapacity};
ghost use Rattle.object_store.specs.Changes.{AreGiven};
ghost use Rattle.object_store.specs.Contents.{CanWriteAt, HasNoWriteAfter, IsNamedAt, attributes_of_number, catalog_of, is_named, state_of};
ghost use Rattle.object_store.specs.Effects.{with_class, with_object, with_epoch_of, after_insert, after_update, after_remove};
ghost use Rattle.object_store.specs.Faults.{class_fault, fault_of_class, insert_fault, update_fault, remove_fault};
ghost use Rattle.object_store.specs.Invariant.{HasFreeName, IsKept, WritesNamed};
ghost use Rattle.object_store.specs.Sound.{AreCellsOf};
ghost use Rattle.object_store.specs.Tables.{contents_of, members_of, IsJudged, IsUnchanged};
ghost use Rattle.object_store.specs.TakingBack.{undone, without_last_class, HasEmptyLastClass, IsRevertible};

use crate::cells::{Changes, fill, inserted};
use crate::class::{AttrDef, Class, repeats_attribute};
use crate::fault::StoreFault;
use crate::judge::{Found, insert_fault, update_fault};
use crate::members::Members;
use crate::objects::{
    Done, Objects, Undo, begin_at, enter, entered, found_at, index_of, known, leave, take_back_at,
    vanish_at, write_at,
};
use crate::schema::{CLASS_LIMIT, ClassId, Schema};
use fixed_point::Word;
use motion::{Cell, NamedSet, Place, Timeline};
use std::alloc::{AllocError, Global};

/// An object that a command inserts into a class at a tick, and what the command gives it.
#[derive(Clone, Copy)]
pub struct Insertion<'a> {
    pub tick: u32,
    pub class: &'a Word,
    pub name: &'a Word,
    pub place: &'a Place,
    pub sets: &'a [NamedSet],
}

#[derive(Drop)]
pub struct Tables {
    pub alloc: Global,
    pub schema: Schema,
    /// The ids of the objects of each class.
    pub members: Vec<Members>,
    pub objects: Objects,
    /// The tick of the last write to an object.
    pub last_tick: u32,
    /// What the last command wrote, kept for its room alone.
    pub changes: Changes,
}

impl Tables {
    /// Adds a class.
    pub fn add_class(
        &mut self,
        name: Word,
        capacity: u32,
        point: bool,
        attrs: &[AttrDef],
    ) -> Result<ClassId, StoreFault>
        requires kept { IsKept (members_of self.old) (contents_of self.old) }
        requires capacity { IsCapacity capacity }
        requires few { AreFewAttributes attrs.now }
        ensures ok { OnOk result (contents_of self.new ≡ with_class (contents_of self.old) name capacity point attrs.now) }
        ensures kept { OnOk result (IsKept (members_of self.new) (contents_of self.new)) }
        ensures number { IfOk result (λ number. number ≡ length (contents_of self.old).classes) }
        ensures judged { IsJudged (class_fault (catalog_of (contents_of self.old)) name point attrs.now) result }
        ensures err { OnErr result (IsUnchanged self.old self.new) }
    {
        if let Some(fault) = class_fault(&self.schema, &name, point, attrs) {
            return Err(fault);
        }
        let number = self.write_class(name, capacity, point, attrs)?;
        Ok(number)
    }

    /// Adds a class that has no fault.
    fn write_class(
        &mut self,
        name: Word,
        capacity: u32,
        point: bool,
        attrs: &[AttrDef],
    ) -> Result<ClassId, AllocError>
        requires kept { IsKept (members_of self.old) (contents_of self.old) }
        requires capacity { IsCapacity capacity }
        requires few { AreFewAttributes attrs.now }
        requires accepted { fault_of_class self.old.schema name point attrs.now ≡ None }
        ensures ok { OnOk result (contents_of self.new ≡ with_class (contents_of self.old) name capacity point attrs.now) }
        ensures kept { OnOk result (IsKept (members_of self.new) (contents_of self.new)) }
        ensures number { IfOk result (λ number. number ≡ length (contents_of self.old).classes) }
        ensures err { OnErr result (IsUnchanged self.old self.new) }
    {
        let class = Class::new(self.alloc, name, capacity, point, attrs)?;
        self.members.reserve(1)?;
        let number = self.schema.add(class)?;
        self.members.push(Members::new(self.alloc)).unwrap();
        Ok(number)
    }

    /// Takes the last class away, which has no object.
    pub fn remove_last_class(&mut self)
        requires kept { IsKept (members_of self.old) (contents_of self.old) }
        requires some { 0 < length (contents_of self.old).classes }
        requires spare { HasEmptyLastClass (contents_of self.old) }
        ensures contents { contents_of self.new ≡ without_last_class (contents_of self.old) }
        ensures kept { IsKept (members_of self.new) (contents_of self.new) }
    {
        self.schema.remove_last();
        self.members.pop();
    }

    /// Inserts an object.
    pub fn insert(&mut self, insertion: &Insertion) -> Result<Done, StoreFault>
        requires kept { IsKept (members_of self.old) (contents_of self.old) }
        requires now { CanWriteAt (contents_of self.old) insertion.now.tick }
        requires given { AreGiven insertion.now.place.now insertion.now.sets.now }
        ensures ok { IfOk result (WritesNamed insertion.now.name.now (contents_of self.old)
            (after_insert (contents_of self.old) insertion.now.tick insertion.now.class.now insertion.now.name.now insertion.now.place.now insertion.now.sets.now) (members_of self.new) (contents_of self.new)) }
        ensures judged { IsJudged (insert_fault (catalog_of (contents_of self.old))
            (is_some (state_of (contents_of self.old) insertion.now.name.now insertion.now.tick)) insertion.now.class.now insertion.now.name.now insertion.now.place.now insertion.now.sets.now) result }
        ensures err { OnErr result (IsUnchanged self.old self.new) }
    {
        let Some(number) = self.schema.class_of(insertion.class) else {
            return Err(StoreFault::UnknownName);
        };
        let at = index_of(&self.objects, insertion.name);
        if let Some(fault) = self.judge_insert(insertion, number, at) {
            return Err(fault);
        }
        let done = self.write_insert(insertion, number, at)?;
        Ok(done)
    }

    /// The first fault of an insert into the class `number`, of a name whose index was looked up.
    fn judge_insert(
        &self,
        insertion: &Insertion,
        number: u32,
        at: Option<usize>,
    ) -> Option<StoreFault>
        requires kept { IsKept (members_of self.now) (contents_of self.now) }
        requires after { HasNoWriteAfter (contents_of self.now) insertion.now.tick }
        requires class { position (λ k. bytes_eq insertion.now.class.now k.name) self.now.schema ≡ Some number }
        requires name { at ≡ position (is_named insertion.now.name.now) (contents_of self.now).objects }
        ensures { result ≡ insert_fault (catalog_of (contents_of self.now))
            (is_some (state_of (contents_of self.now) insertion.now.name.now insertion.now.tick)) insertion.now.class.now insertion.now.name.now insertion.now.place.now insertion.now.sets.now }
    {
        let kind = self.schema.class(number).unwrap();
        match at {
            Some(at) => {
                let found = found_at(&self.objects, at, number, insertion.tick);
                insert_fault(kind, &found, insertion.place, insertion.sets)
            }
            None => {
                let found = new_name(&self.members[number as usize], kind);
                insert_fault(kind, &found, insertion.place, insertion.sets)
            }
        }
    }

    /// Does an insert that has no fault.
    fn write_insert(
        &mut self,
        insertion: &Insertion,
        number: u32,
        at: Option<usize>,
    ) -> Result<Done, AllocError>
        requires kept { IsKept (members_of self.old) (contents_of self.old) }
        requires now { CanWriteAt (contents_of self.old) insertion.now.tick }
        requires given { AreGiven insertion.now.place.now insertion.now.sets.now }
        requires class { position (λ k. bytes_eq insertion.now.class.now k.name) self.old.schema ≡ Some number }
        requires name { at ≡ position (is_named insertion.now.name.now) (contents_of self.old).objects }
        requires accepted { insert_fault (catalog_of (contents_of self.old))
            (is_some (state_of (contents_of self.old) insertion.now.name.now insertion.now.tick)) insertion.now.class.now insertion.now.name.now insertion.now.place.now insertion.now.sets.now ≡ None }
        ensures ok { IfOk result (WritesNamed insertion.now.name.now (contents_of self.old)
            (after_insert (contents_of self.old) insertion.now.tick insertion.now.class.now insertion.now.name.now insertion.now.place.now insertion.now.sets.now) (members_of self.new) (contents_of self.new)) }
        ensures err { OnErr result (IsUnchanged self.old self.new) }
    {
        let kind = self.schema.class(number).unwrap();
        fill(&mut self.changes, kind, insertion.place, insertion.sets)?;
        let cells = inserted(self.alloc, insertion.tick, kind, &self.changes)?;
        match at {
            Some(at) => self.begin(insertion.tick, number, insertion.name, at, cells),
            None => self.enter(insertion.tick, number, insertion.name, cells),
        }
    }

    /// The object of an index, which is of the class `number`, has these cells from tick `now` on.
    fn begin(
        &mut self,
        now: u32,
        number: u32,
        name: &Word,
        at: usize,
        cells: Vec<Cell>,
    ) -> Result<Done, AllocError>
        requires kept { IsKept (members_of self.old) (contents_of self.old) }
        requires now { CanWriteAt (contents_of self.old) now }
        requires written { AreCellsAt cells.items now }
        requires fits { AreCellsOf (attributes_of_number self.old.schema number) cells.items }
        requires name { IsNamedAt (contents_of self.old) name.now at }
        requires class { IfSome (slice_get (contents_of self.old).objects at) (λ o. o.class ≡ number) }
        ensures ok { IfOk result (WritesNamed name.now (contents_of self.old)
            (with_epoch_of (contents_of self.old) name.now (record { from = now; cells = Some cells.items })) (members_of self.new) (contents_of self.new)) }
        ensures err { OnErr result (IsUnchanged self.old self.new) }
    {
        let replaced = begin_at(&mut self.objects, at, now, cells)?;
        let last_tick = self.last_tick;
        self.last_tick = now;
        Ok(known(at as u32, replaced, last_tick))
    }

    /// Enters an object of a new name into the class `number`, with these cells from tick `now` on.
    fn enter(
        &mut self,
        now: u32,
        number: u32,
        name: &Word,
        cells: Vec<Cell>,
    ) -> Result<Done, AllocError>
        requires kept { IsKept (members_of self.old) (contents_of self.old) }
        requires now { CanWriteAt (contents_of self.old) now }
        requires written { AreCellsAt cells.items now }
        requires fits { AreCellsOf (attributes_of_number self.old.schema number) cells.items }
        requires name { find (is_named name.now) (contents_of self.old).objects ≡ None }
        requires room { HasFreeName (contents_of self.old) number }
        ensures ok { IfOk result (WritesNamed name.now (contents_of self.old)
            (with_object (contents_of self.old) number name.now (record { from = now; cells = Some cells.items })) (members_of self.new) (contents_of self.new)) }
        ensures err { OnErr result (IsUnchanged self.old self.new) }
    {
        let mut timeline = Timeline::new(self.alloc);
        timeline.begin_with(now, cells)?;
        let id = enter(&mut self.members, &mut self.objects, number, name, timeline)?;
        let last_tick = self.last_tick;
        self.last_tick = now;
        Ok(entered(id, last_tick))
    }

    /// Updates an object.
    pub fn update(
        &mut self,
        now: u32,
        name: &Word,
        place: &Place,
        sets: &[NamedSet],
    ) -> Result<Done, StoreFault>
        requires kept { IsKept (members_of self.old) (contents_of self.old) }
        requires now { CanWriteAt (contents_of self.old) now }
        requires given { AreGiven place.now sets.now }
        ensures ok { IfOk result (WritesNamed name.now (contents_of self.old)
            (after_update (contents_of self.old) now name.now place.now sets.now) (members_of self.new) (contents_of self.new)) }
        ensures judged { IsJudged (update_fault (catalog_of (contents_of self.old))
            (is_some (state_of (contents_of self.old) name.now now)) name.now place.now sets.now) result }
        ensures known { IfOk result (λ done. done.undo.is_new ≡ false) }
        ensures err { OnErr result (IsUnchanged self.old self.new) }
    {
        let Some(at) = index_of(&self.objects, name) else {
            return Err(StoreFault::UnknownName);
        };
        if let Some(fault) = self.judge_update(now, name, at, place, sets) {
            return Err(fault);
        }
        let done = self.write_update(now, name, at, place, sets)?;
        Ok(done)
    }

    /// The first fault of an update of the object of an index.
    fn judge_update(
        &self,
        now: u32,
        name: &Word,
        at: usize,
        place: &Place,
        sets: &[NamedSet],
    ) -> Option<StoreFault>
        requires kept { IsKept (members_of self.now) (contents_of self.now) }
        requires after { HasNoWriteAfter (contents_of self.now) now }
        requires name { IsNamedAt (contents_of self.now) name.now at }
        ensures { result ≡ update_fault (catalog_of (contents_of self.now))
            (is_some (state_of (contents_of self.now) name.now now)) name.now place.now sets.now }
    {
        let object = &self.objects[at];
        let kind = self.schema.class(object.class).unwrap();
        update_fault(kind, object.is_present(now), place, sets)
    }

    /// Updates the object of an index.
    fn write_update(
        &mut self,
        now: u32,
        name: &Word,
        at: usize,
        place: &Place,
        sets: &[NamedSet],
    ) -> Result<Done, AllocError>
        requires kept { IsKept (members_of self.old) (contents_of self.old) }
        requires now { CanWriteAt (contents_of self.old) now }
        requires given { AreGiven place.now sets.now }
        requires name { IsNamedAt (contents_of self.old) name.now at }
        ensures ok { IfOk result (WritesNamed name.now (contents_of self.old)
            (after_update (contents_of self.old) now name.now place.now sets.now) (members_of self.new) (contents_of self.new)) }
        ensures known { IfOk result (λ done. done.undo.is_new ≡ false) }
        ensures err { OnErr result (IsUnchanged self.old self.new) }
    {
        let kind = self.schema.class(self.objects[at].class).unwrap();
        fill(&mut self.changes, kind, place, sets)?;
        let replaced = write_at(&mut self.objects, at, now, &self.changes)?;
        let last_tick = self.last_tick;
        self.last_tick = now;
        Ok(known(at as u32, replaced, last_tick))
    }

    /// Removes an object.
    pub fn remove(&mut self, now: u32, name: &Word) -> Result<Done, StoreFault>
        requires kept { IsKept (members_of self.old) (contents_of self.old) }
        requires now { CanWriteAt (contents_of self.old) now }
        ensures ok { IfOk result (WritesNamed name.now (contents_of self.old)
            (after_remove (contents_of self.old) now name.now) (members_of self.new) (contents_of self.new)) }
        ensures judged { IsJudged (remove_fault (catalog_of (contents_of self.old)) (is_some (state_of (contents_of self.old) name.now now)) name.now) result }
        ensures known { IfOk result (λ done. done.undo.is_new ≡ false) }
        ensures err { OnErr result (IsUnchanged self.old self.new) }
    {
        let Some(at) = index_of(&self.objects, name) else {
            return Err(StoreFault::UnknownName);
        };
        if let Some(fault) = self.judge_remove(now, name, at) {
            return Err(fault);
        }
        let done = self.write_remove(now, name, at)?;
        Ok(done)
    }

    /// The first fault of a removal of the object of an index.
    fn judge_remove(&self, now: u32, name: &Word, at: usize) -> Option<StoreFault>
        requires kept { IsKept (members_of self.now) (contents_of self.now) }
        requires after { HasNoWriteAfter (contents_of self.now) now }
        requires name { IsNamedAt (contents_of self.now) name.now at }
        ensures { result ≡ remove_fault (catalog_of (contents_of self.now)) (is_some (state_of (contents_of self.now) name.now now)) name.now }
    {
        if self.objects[at].is_present(now) {
            None
        } else {
            Some(StoreFault::Presence)
        }
    }

    /// Removes the object of an index.
    fn write_remove(&mut self, now: u32, name: &Word, at: usize) -> Result<Done, AllocError>
        requires kept { IsKept (members_of self.old) (contents_of self.old) }
        requires now { CanWriteAt (contents_of self.old) now }
        requires name { IsNamedAt (contents_of self.old) name.now at }
        ensures ok { IfOk result (WritesNamed name.now (contents_of self.old)
            (after_remove (contents_of self.old) now name.now) (members_of self.new) (contents_of self.new)) }
        ensures known { IfOk result (λ done. done.undo.is_new ≡ false) }
        ensures err { OnErr result (IsUnchanged self.old self.new) }
    {
        let replaced = vanish_at(&mut self.objects, at, now)?;
        let last_tick = self.last_tick;
        self.last_tick = now;
        Ok(known(at as u32, replaced, last_tick))
    }

    /// Takes a write to an object back.
    pub fn revert(&mut self, undo: Undo)
        requires kept { IsKept (members_of self.old) (contents_of self.old) }
        requires revertible { IsRevertible undo (contents_of self.old) }
        ensures contents { contents_of self.new ≡ undone undo (contents_of self.old) }
        ensures kept { IsKept (members_of self.new) (contents_of self.new) }
    {
        if undo.is_new {
            self.revert_new(undo);
        } else {
            self.revert_known(undo);
        }
    }

    /// Takes a name that was new away.
    fn revert_new(&mut self, undo: Undo)
        requires kept { IsKept (members_of self.old) (contents_of self.old) }
        requires revertible { IsRevertible undo (contents_of self.old) }
        requires new { undo.is_new ≡ true }
        ensures contents { contents_of self.new ≡ undone undo (contents_of self.old) }
        ensures kept { IsKept (members_of self.new) (contents_of self.new) }
    {
        leave(&mut self.members, &mut self.objects);
        self.last_tick = undo.last_tick;
    }

    /// Puts the timeline of an object back.
    fn revert_known(&mut self, undo: Undo)
        requires kept { IsKept (members_of self.old) (contents_of self.old) }
        requires revertible { IsRevertible undo (contents_of self.old) }
        requires known { undo.is_new ≡ false }
        ensures contents { contents_of self.new ≡ undone undo (contents_of self.old) }
        ensures kept { IsKept (members_of self.new) (contents_of self.new) }
    {
        let Undo {
            id,
            is_new: _,
            replaced,
            last_tick,
        } = undo;
        take_back_at(&mut self.objects, id as usize, replaced);
        self.last_tick = last_tick;
    }
}

/// What an insert finds of a new name for a class.
fn new_name(members: &Members, class: &Class) -> Found
    ensures { result ≡ record { elsewhere = false; present = false; past_capacity = nat_le class.now.capacity (length members.now) } }
{
    Found {
        elsewhere: false,
        present: false,
        past_capacity: class.capacity() as usize <= members.ids().len(),
    }
}

/// The first fault of a new class.
fn class_fault(schema: &Schema, name: &Word, point: bool, attrs: &[AttrDef]) -> Option<StoreFault>
    ensures { result ≡ fault_of_class schema.now name.now point attrs.now }
{
    if schema.has(name) || repeats_attribute(point, attrs) {
        Some(StoreFault::NameTaken)
    } else if schema.count() as usize >= CLASS_LIMIT {
        Some(StoreFault::StoreFull)
    } else {
        None
    }
}
