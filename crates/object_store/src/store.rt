//! The store.
ghost use Rattle.std.specs.Prelude.{◌≡◌, ◌+◌, ◌<◌, ◌≤◌, ℕ, Some, None, false, true, is_some, length, map, unwrap_or, slice_get, IfOk, IfSome, IfErr, OnOk, OnErr};
ghost use Rattle.std.specs.List.{position};
ghost use Rattle.std.specs.Option.{option_copied, option_map, option_map_or};
ghost use Rattle.motion.specs.Timeline.{state_at};
ghost use Rattle.motion.specs.Cells.{AreFewAttributes, IsCapacity};
ghost use Rattle.history.specs.Catalog.{ids_of, names};
ghost use Rattle.history.specs.History.{cells_at, ChangesFrom};
ghost use Rattle.history.specs.Write.{Class as ClassWrite, Insert, Update, Remove};
ghost use Rattle.object_store.specs.declared.fault.StoreFault.TheVariants.{NoMemory};
ghost use Rattle.object_store.specs.Areas.{is_in_area, is_told, AreNear};
ghost use Rattle.object_store.specs.Changes.{AreGiven};
ghost use Rattle.object_store.specs.Contents.{catalog_of, is_named, empty_contents, history_of, is_present_at, ids_in, object_name, state_of, CanWriteAt, HasNoWriteAfter, IsNamedAt};
ghost use Rattle.object_store.specs.Effects.{with_class, after_insert, after_update, after_remove};
ghost use Rattle.object_store.specs.Faults.{class_fault, insert_fault, update_fault, remove_fault};
ghost use Rattle.object_store.specs.Sound.{IsSound};
ghost use Rattle.object_store.specs.StandsFor.{GrowsBy};
ghost use Rattle.object_store.specs.TakingBack.{undone, without_last_class, HasEmptyLastClass, IsRevertible, Undoes};

use crate::areas::Area;
use crate::candidates::{Among, candidates};
use crate::class::AttrDef;
use crate::fault::StoreFault;
use crate::near::{may_come, those_near, whereabouts};
use crate::objects::{Done, ObjectId, Undo, index_of};
use crate::placing::{insert_placed, remove_placed, revert_placed, update_placed};
use crate::schema::{ClassId, Schema};
use crate::standing::stand;
use crate::tables::{Insertion, Tables};
use fixed_point::Word;
use indexmap::IndexMap;
use motion::{NamedSet, Place, Timeline};
use places::Places;
use std::alloc::{AllocError, Global};
use std::marker::Model;
use std::sync::ledger::Ledger;
use steps::Steps;
use tick_set::Window;

/// Classes, names and timelines. A contract sees the classes in the order of making, the objects in
/// the order of first insertion, each with the epochs of its timeline, and the tick of the last write.
#[derive(Drop)]
pub struct Store {
    tables: Tables,
    /// Where the objects can be. It tells who need not be asked, and no answer comes of it.
    places: Places,
}

impl Model for Store {
    ghost use Rattle.object_store.specs.Contents.{Contents};

    ghost Value = { Contents };

    ghost use Rattle.object_store.specs.Placing.{IsHeld};
    ghost use Rattle.object_store.specs.Tables.{contents_of, members_of};

    ghost view = { λ a. contents_of a.tables };

    ghost invariant = { λ a. IsHeld a.places (members_of a.tables) (contents_of a.tables) };
}

impl Store {
    /// A store without classes. It takes no memory.
    pub fn new(alloc: Global) -> Store
        ensures { result ≡ empty_contents }
    {
        Store {
            tables: Tables {
                alloc,
                schema: Schema::new(alloc),
                members: Vec::new(alloc),
                objects: IndexMap::new(alloc),
                last_tick: 0,
                changes: Vec::new(alloc),
            },
            places: Places::new(alloc),
        }
    }

    /// The classes.
    #[inline]
    pub fn schema(&self) -> &Schema
        ensures { result.now ≡ self.now.classes }
    {
        &self.tables.schema
    }

    /// Adds a class of a capacity from 1 to 100,000 and at most 16 written attributes, and answers its
    /// number. A point class has the dynamic attributes `x` and `y` before those. `NameTaken` comes
    /// exactly where the name is taken or two attributes have the same name, and else `StoreFull`
    /// exactly where there are 64 classes. `remove_last_class` takes the class back.
    pub fn add_class(
        &mut self,
        name: Word,
        capacity: u32,
        point: bool,
        attrs: &[AttrDef],
    ) -> Result<ClassId, StoreFault>
        requires capacity { IsCapacity capacity }
        requires few { AreFewAttributes attrs.now }

        ensures ok { OnOk result (self.new ≡ with_class self.old name capacity point attrs.now) }
        ensures number { IfOk result (λ number. number ≡ length self.old.classes) }
        ensures stands { OnOk result (GrowsBy self.old self.new (ClassWrite name capacity point attrs.now)) }
        ensures spare { OnOk result (HasEmptyLastClass self.new) }
        ensures undo { OnOk result (without_last_class self.new ≡ self.old) }

        ensures accepted { OnOk result (class_fault (catalog_of self.old) name point attrs.now ≡ None) }
        ensures fault { IfErr result (λ fault. fault ≡ unwrap_or (class_fault (catalog_of self.old) name point attrs.now) NoMemory) }
        ensures err { OnErr result (self.new ≡ self.old) }
    {
        self.tables.add_class(name, capacity, point, attrs)
    }

    /// Takes the last class away, which has no object. It takes no memory.
    pub fn remove_last_class(&mut self)
        requires some { 0 < length self.old.classes }
        requires spare { HasEmptyLastClass self.old }
        ensures { self.new ≡ without_last_class self.old }
    {
        self.tables.remove_last_class();
    }

    /// Inserts an object into a class at tick `now`, which isn't before the last write's. What the
    /// command doesn't name is 0, the empty text, or at rest at 0. A removed object is present again.
    pub fn insert(
        &mut self,
        now: u32,
        class: &Word,
        name: &Word,
        place: &Place,
        sets: &[NamedSet],
    ) -> Result<Done, StoreFault>
        requires now { CanWriteAt self.old now }
        requires given { AreGiven place.now sets.now }

        ensures ok { OnOk result (self.new ≡ after_insert self.old now class.now name.now place.now sets.now) }
        ensures id { IfOk result (λ done. IsNamedAt self.new name.now done.id) }
        ensures last { OnOk result (self.new.last_tick ≡ now) }
        ensures stands { OnOk result (GrowsBy self.old self.new (Insert now class.now name.now place.now sets.now)) }
        ensures changes { IfOk result (λ done. ChangesFrom done.id now (history_of self.old) (history_of self.new)) }
        ensures undo { IfOk result (λ done. Undoes done.undo self.old self.new) }

        ensures accepted { OnOk result
            (insert_fault (catalog_of self.old) (is_some (state_of self.old name.now now)) class.now name.now place.now sets.now ≡ None) }
        ensures fault { IfErr result (λ fault.
            fault ≡ unwrap_or (insert_fault (catalog_of self.old) (is_some (state_of self.old name.now now)) class.now name.now place.now sets.now) NoMemory) }
        ensures err { OnErr result (self.new ≡ self.old) }
    {
        let insertion = Insertion {
            tick: now,
            class,
            name,
            place,
            sets,
        };
        insert_placed(&mut self.tables, &mut self.places, &insertion)
    }

    /// Updates an object at tick `now`, which isn't before the last write's.
    pub fn update(
        &mut self,
        now: u32,
        name: &Word,
        place: &Place,
        sets: &[NamedSet],
    ) -> Result<Done, StoreFault>
        requires now { CanWriteAt self.old now }
        requires given { AreGiven place.now sets.now }

        ensures ok { OnOk result (self.new ≡ after_update self.old now name.now place.now sets.now) }
        ensures id { IfOk result (λ done. IsNamedAt self.new name.now done.id) }
        ensures last { OnOk result (self.new.last_tick ≡ now) }
        ensures stands { OnOk result (GrowsBy self.old self.new (Update now name.now place.now sets.now)) }
        ensures changes { IfOk result (λ done. ChangesFrom done.id now (history_of self.old) (history_of self.new)) }
        ensures undo { IfOk result (λ done. Undoes done.undo self.old self.new) }

        ensures accepted { OnOk result
            (update_fault (catalog_of self.old) (is_some (state_of self.old name.now now)) name.now place.now sets.now ≡ None) }
        ensures fault { IfErr result (λ fault.
            fault ≡ unwrap_or (update_fault (catalog_of self.old) (is_some (state_of self.old name.now now)) name.now place.now sets.now) NoMemory) }
        ensures err { OnErr result (self.new ≡ self.old) }
    {
        update_placed(&mut self.tables, &mut self.places, now, name, place, sets)
    }

    /// Removes an object at tick `now`, which isn't before the last write's. It keeps its name, its
    /// class and its past.
    pub fn remove(&mut self, now: u32, name: &Word) -> Result<Done, StoreFault>
        requires { CanWriteAt self.old now }

        ensures ok { OnOk result (self.new ≡ after_remove self.old now name.now) }
        ensures id { IfOk result (λ done. IsNamedAt self.new name.now done.id) }
        ensures last { OnOk result (self.new.last_tick ≡ now) }
        ensures stands { OnOk result (GrowsBy self.old self.new (Remove now name.now)) }
        ensures changes { IfOk result (λ done. ChangesFrom done.id now (history_of self.old) (history_of self.new)) }
        ensures undo { IfOk result (λ done. Undoes done.undo self.old self.new) }

        ensures accepted { OnOk result (remove_fault (catalog_of self.old) (is_some (state_of self.old name.now now)) name.now ≡ None) }
        ensures fault { IfErr result (λ fault.
            fault ≡ unwrap_or (remove_fault (catalog_of self.old) (is_some (state_of self.old name.now now)) name.now) NoMemory) }
        ensures err { OnErr result (self.new ≡ self.old) }
    {
        remove_placed(&mut self.tables, &mut self.places, now, name)
    }

    /// Takes a write back, the store standing as that call left it. It takes no memory.
    pub fn revert(&mut self, undo: Undo)
        requires { IsRevertible undo self.old }
        ensures { self.new ≡ undone undo self.old }
    {
        revert_placed(&mut self.tables, &mut self.places, undo);
    }

    /// The id of the object of a name. None exactly where the name was never inserted.
    pub fn id_of(&self, name: &Word) -> Option<ObjectId>
        ensures { result ≡ position (is_named name.now) self.now.objects }
    {
        match index_of(&self.tables.objects, name) {
            Some(index) => Some(index as u32),
            None => None,
        }
    }

    /// The name of an object. None exactly where there is no such id.
    pub fn name_of(&self, id: ObjectId) -> Option<&Word>
        ensures { option_copied result ≡ option_map (λ o. o.name) (slice_get self.now.objects id) }
    {
        match self.tables.objects.get_index(id as usize) {
            Some((name, _)) => Some(name),
            None => None,
        }
    }

    /// The class of an object, which it keeps. None exactly where there is no such id.
    pub fn class_of(&self, id: ObjectId) -> Option<ClassId>
        ensures { result ≡ option_map (λ o. o.class) (slice_get self.now.objects id) }
    {
        match self.tables.objects.get_index(id as usize) {
            Some((_, object)) => Some(object.class),
            None => None,
        }
    }

    /// The ids of all objects ever inserted into a class, by first insertion; empty where there is no such
    /// class.
    pub fn class_names(&self, c: ClassId) -> &[ObjectId]
        ensures ids { result.now ≡ ids_in self.now.objects c }
        ensures told { result.now ≡ ids_of (catalog_of self.now) c }
        ensures names { map (object_name self.now.objects) result.now ≡ names (catalog_of self.now) c }
    {
        match self.tables.members.get(c as usize) {
            Some(members) => members.ids(),
            None => &[],
        }
    }

    /// Whether an object is present after the last write, and so from then on.
    pub fn present(&self, id: ObjectId) -> bool
        ensures value { result ≡ option_map_or (is_present_at self.now.last_tick) (slice_get self.now.objects id) false }
        ensures later { (t : ℕ) → self.now.last_tick ≤ t → result ≡ is_some (cells_at (history_of self.now) id t) }
    {
        match self.tables.objects.get_index(id as usize) {
            Some((_, object)) => object.is_present(self.tables.last_tick),
            None => false,
        }
    }

    /// How many objects were ever inserted.
    pub fn object_count(&self) -> u32
        ensures value { result ≡ length self.now.objects }
        ensures sound { IsSound self.now }
    {
        self.tables.objects.len() as u32
    }

    /// The tick of the last write to an object, 0 before the first. No write may come before it.
    pub fn last_tick(&self) -> u32
        ensures { result ≡ self.now.last_tick }
    {
        self.tables.last_tick
    }

    /// Objects of a class, by their ids, ascending: at least all that are in the area at a tick of the window. None
    /// where the window begins before the tick of the last write, or where as little as all of the class can be told.
    /// It looks at no timeline, and fails only where memory is out.
    pub fn near(
        &self,
        alloc: Global,
        class: ClassId,
        area: &Area,
        w: Window,
    ) -> Result<Option<Vec<ObjectId>>, AllocError>
        ensures { IfOk result (λ found. IfSome found (λ ids. AreNear self.now class area.now w.lo w.hi ids.items)) }
    {
        if w.lo < self.tables.last_tick {
            return Ok(None);
        }
        let objects = &self.tables.objects;
        let own = self.class_names(class);
        let among = Among {
            objects,
            class,
            own,
        };
        let placed = candidates(alloc, &among, &self.places, area, w)?;
        if let Some(ids) = placed {
            return Ok(Some(ids));
        }
        let ids = those_near(alloc, objects, own, area, w)?;
        Ok(Some(ids))
    }

    /// Whether an object can be in an area at a tick of the window, by its own line. It is taken to be so where the window
    /// begins before the tick of the last write. It looks at no timeline.
    pub fn can_be_in(&self, id: ObjectId, area: &Area, w: Window) -> bool
        ensures { result ≡ false → (t : ℕ) → w.lo ≤ t → t ≤ w.hi → is_in_area area.now t (cells_at (history_of self.now) id t) ≡ false }
    {
        w.lo < self.tables.last_tick || may_come(&self.tables.objects, id, area, w)
    }

    /// An area in which an object is over a window that doesn't begin before the tick of the last write. None where the
    /// object is absent. It looks at no timeline.
    pub fn whereabouts(&self, id: ObjectId, w: Window) -> Option<Area>
        requires after { HasNoWriteAfter self.now w.lo }
        ensures { (t : ℕ) → w.lo ≤ t → t ≤ w.hi → is_told result t (cells_at (history_of self.now) id t) ≡ true }
    {
        whereabouts(&self.tables.objects, id, w)
    }

    /// The clock shows the tick `now`: what is kept of where objects can be is made anew where it ends soon. It takes no
    /// memory and no step, and nothing that can be seen changes.
    pub fn stands_at(&mut self, now: u32)
        ensures { self.new ≡ self.old }
    {
        stand(
            &mut self.places,
            &self.tables.objects,
            self.tables.last_tick,
            now,
        );
    }

    /// The timeline of an object, whose id exists. It takes one step, and is the one way to what an
    /// object's attributes were, are and will be.
    pub fn timeline<L: Ledger>(&self, id: ObjectId, reads: &mut Steps<L>) -> &Timeline
        requires { id < length self.now.objects }
        ensures timeline { option_map (λ o. o.epochs) (slice_get self.now.objects id) ≡ Some result.now }
        ensures state { (t : ℕ) → cells_at (history_of self.now) id t ≡ state_at result.now t }
        ensures sound { IsSound self.now }
        ensures step { reads.new ≡ reads.old + 1 }
    {
        reads.step();
        &self.tables.objects[id as usize].timeline
    }
}
