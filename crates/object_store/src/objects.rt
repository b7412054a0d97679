//! The objects of a store and their timelines.
ghost use Rattle.std.specs.Prelude.{◌≡◌, ◌<◌, ◌-◌, ◌^◌, ◌==◌, ◌++◌, ◌∷◌, [], not, true, false, Some, None, All, is_some, length, take, slice_get, vec_len, IfSome, IfOk, OnOk, OnErr};
ghost use Rattle.std.specs.List.{find, position};
ghost use Rattle.std.specs.Option.{option_map};
ghost use Rattle.indexmap.specs.IndexMap.{index_map_len};
ghost use Rattle.motion.specs.Cells.{AreCellsAt, AreChanges, changed};
ghost use Rattle.motion.specs.Timeline.{state_at, AreBegunBy, StandsAsLeft};
ghost use Rattle.tick_set.specs.Ticks.{IsTick};
ghost use Rattle.object_store.specs.Contents.{StoredObject, is_named, is_present_at};
ghost use Rattle.object_store.specs.ObjectView.{objects_of};
ghost use Rattle.object_store.specs.Ids.{with_member, without_member};
ghost use Rattle.object_store.specs.AtIndex.{restored_at, GainsEpochAt};

use crate::judge::Found;
use crate::members::Members;
use fixed_point::Word;
use indexmap::IndexMap;
use motion::{Cell, Epoch, Given, Timeline};
use std::alloc::AllocError;

/// The number of an object, from 0 in the order of first insertion.
pub type ObjectId = u32;

/// An object that was ever inserted.
#[derive(Drop)]
pub struct Object {
    pub class: u32,
    pub timeline: Timeline,
}

/// The objects by name; an id is an index.
pub type Objects = IndexMap<Word, Object>;

/// What a writing call made of its object, by which it can be taken back.
#[derive(Drop)]
pub struct Undo {
    pub(crate) id: u32,
    /// The name was new.
    pub(crate) is_new: bool,
    /// The epoch that the call replaced, one of the same tick.
    pub(crate) replaced: Option<Epoch>,
    /// The tick of the writing call before.
    pub(crate) last_tick: u32,
}

/// What an accepted write to an object answers.
#[derive(Drop)]
pub struct Done {
    /// The object that was written.
    pub id: ObjectId,
    /// Takes the write back.
    pub undo: Undo,
}

impl Object {
    /// Whether it has cells at tick `now`, by which it was last written.
    pub fn is_present(&self, now: u32) -> bool
        requires { AreBegunBy self.now.timeline now }
        ensures { result ≡ is_some (state_at self.now.timeline now) }
    {
        match self.timeline.last() {
            Some(epoch) => epoch.is_present(),
            None => false,
        }
    }
}

/// Starts a new version of the object of an index, with these cells, at tick `now`.
pub fn begin_at(
    objects: &mut Objects,
    index: usize,
    now: u32,
    cells: Vec<Cell>,
) -> Result<Option<Epoch>, AllocError>
    requires index { index < index_map_len objects.old }
    requires tick { IsTick now }
    requires after { All (λ o. AreBegunBy o.epochs now) (objects_of objects.old.entries) }
    requires written { AreCellsAt cells.items now }
    ensures ok { IfOk result (λ replaced. GainsEpochAt index (λ _. record { from = now; cells = Some cells.items }) replaced (objects_of objects.old.entries) (objects_of objects.new.entries)) }
    ensures err { OnErr result (objects_of objects.new.entries ≡ objects_of objects.old.entries) }
{
    let object = &mut objects[index];
    object.timeline.begin_with(now, cells)
}

/// Writes these values at tick `now` to the object of an index.
pub fn write_at(
    objects: &mut Objects,
    index: usize,
    now: u32,
    changes: &[(usize, Given)],
) -> Result<Option<Epoch>, AllocError>
    requires index { index < index_map_len objects.old }
    requires tick { IsTick now }
    requires after { All (λ o. AreBegunBy o.epochs now) (objects_of objects.old.entries) }
    requires given { AreChanges changes.now }
    ensures ok { IfOk result (λ replaced. GainsEpochAt index (λ epochs. record { from = now; cells = option_map (changed now changes.now) (state_at epochs now) }) replaced (objects_of objects.old.entries) (objects_of objects.new.entries)) }
    ensures err { OnErr result (objects_of objects.new.entries ≡ objects_of objects.old.entries) }
{
    let object = &mut objects[index];
    object.timeline.write(now, changes)
}

/// The object of an index is absent from tick `now` on.
pub fn vanish_at(objects: &mut Objects, index: usize, now: u32) -> Result<Option<Epoch>, AllocError>
    requires index { index < index_map_len objects.old }
    requires tick { IsTick now }
    requires after { All (λ o. AreBegunBy o.epochs now) (objects_of objects.old.entries) }
    ensures ok { IfOk result (λ replaced. GainsEpochAt index (λ _. record { from = now; cells = None }) replaced (objects_of objects.old.entries) (objects_of objects.new.entries)) }
    ensures err { OnErr result (objects_of objects.new.entries ≡ objects_of objects.old.entries) }
{
    let object = &mut objects[index];
    object.timeline.vanish(now)
}

/// Takes the last epoch of the object of an index away, or puts the one that it had replaced in its place.
/// It takes no memory.
pub fn take_back_at(objects: &mut Objects, index: usize, replaced: Option<Epoch>)
    requires index { index < index_map_len objects.old }
    requires left { (o : StoredObject) → slice_get (objects_of objects.old.entries) index ≡ Some o → StandsAsLeft o.epochs replaced }
    ensures { objects_of objects.new.entries ≡ restored_at index replaced (objects_of objects.old.entries) }
{
    let object = &mut objects[index];
    object.timeline.take_back(replaced);
}

/// The index of the object of a name.
pub fn index_of(objects: &Objects, name: &Word) -> Option<usize>
    ensures index { result ≡ position (is_named name.now) (objects_of objects.now.entries) }
    ensures within { IfSome result (λ index. index < index_map_len objects.now) }
{
    objects.get_index_of(name)
}

/// The object of an index, as an insert into the class `number` finds it.
pub fn found_at(objects: &Objects, index: usize, number: u32, now: u32) -> Found
    requires index { index < index_map_len objects.now }
    requires begun { All (λ o. AreBegunBy o.epochs now) (objects_of objects.now.entries) }
    ensures { IfSome (slice_get (objects_of objects.now.entries) index) (λ o.
        result ≡ record { elsewhere = not (o.class == number); present = is_present_at now o; past_capacity = false }) }
{
    let object = &objects[index];
    Found {
        elsewhere: object.class != number,
        present: object.is_present(now),
        past_capacity: false,
    }
}

/// Enters an object of a new name, and answers its id. After an error nothing has changed.
pub fn enter(
    members: &mut Vec<Members>,
    objects: &mut Objects,
    number: u32,
    name: &Word,
    timeline: Timeline,
) -> Result<u32, AllocError>
    requires number { number < vec_len members.old }
    requires new { find (is_named name.now) (objects_of objects.old.entries) ≡ None }
    requires few { length (objects_of objects.old.entries) < 2 ^ 32 }
    ensures id { IfOk result (λ id. id ≡ length (objects_of objects.old.entries)) }
    ensures objects { OnOk result (objects_of objects.new.entries ≡ objects_of objects.old.entries
        ++ record { name = name.now; class = number; epochs = timeline } ∷ []) }
    ensures members { IfOk result (λ id. members.new.items ≡ with_member members.old.items number id) }
    ensures err_objects { OnErr result (objects_of objects.new.entries ≡ objects_of objects.old.entries) }
    ensures err_members { OnErr result (members.new.items ≡ members.old.items) }
{
    let id = objects.len() as u32;
    objects.reserve(1)?;
    let own = &mut members[number as usize];
    own.push(id)?;
    let object = Object {
        class: number,
        timeline,
    };
    objects.insert(*name, object).unwrap();
    Ok(id)
}

/// Takes the last object away, and its id from those of its class. It takes no memory.
pub fn leave(members: &mut Vec<Members>, objects: &mut Objects)
    requires some { 0 < index_map_len objects.old }
    requires classed { All (λ o. o.class < vec_len members.old) (objects_of objects.old.entries) }
    ensures objects { objects_of objects.new.entries ≡ take (length (objects_of objects.old.entries) - 1) (objects_of objects.old.entries) }
    ensures members { IfSome (slice_get (objects_of objects.old.entries) (index_map_len objects.old - 1)) (λ o.
        members.new.items ≡ without_member members.old.items o.class) }
{
    let index = objects.len() - 1;
    let number = objects[index].class;
    members[number as usize].pop();
    objects.truncate(index);
}

/// The answer of a write to an object whose name was known.
pub fn known(id: u32, replaced: Option<Epoch>, last_tick: u32) -> Done
    ensures { result ≡ record { id = id; undo = record { id = id; is_new = false; replaced = replaced; last_tick = last_tick } } }
{
    Done {
        id,
        undo: Undo {
            id,
            is_new: false,
            replaced,
            last_tick,
        },
    }
}

/// The answer of a write to an object whose name was new.
pub fn entered(id: u32, last_tick: u32) -> Done
    ensures { result ≡ record { id = id; undo = record { id = id; is_new = true; replaced = None; last_tick = last_tick } } }
{
    Done {
        id,
        undo: Undo {
            id,
            is_new: true,
            replaced: None,
            last_tick,
        },
    }
}
