//! The indexes of a session.
ghost use Rattle.std.specs.Prelude.{◌≡◌, ℕ, List, pos, ◌<ℤ◌, [], IfErr, IfOk, OnErr, OnOk, None};
ghost use Rattle.tick_set.specs.Ticks.{IsTick};
ghost use Rattle.command_text.specs.Journal.{Accepted, clock};
ghost use Rattle.command_text.specs.Tree as Tree;
ghost use Rattle.line_meaning.specs.Indexed.{index_fault, indexes_after};
ghost use Rattle.database.specs.Keeping.{clock_of, world_of_database};
ghost use Rattle.database.specs.Telling.{IsStoppedBy};
ghost use Rattle.kept_indexes.specs.Kept.{AreRight, AreTouched, TouchesChange, entries};
ghost use Rattle.kept_indexes.specs.Making.{HasRoomForOk, IsPut};

use crate::column::{Column, column_of};
use crate::judging::{index_refusal, place_of};
use command_text::{CommandFault, Refusal};
use database::{Change, Database};
use fixed_point::{Fix, Word};
use object_store::ObjectId;
use plane_index::{Grid, PlaneIndex};
use std::alloc::{AllocError, Global};
use std::marker::Model;

// The bytes of the line `ok`.
const OK_BYTES: usize = 3;

/// An index, and how many entries the journal had at the last `range` that it answered, 0 before the first.
#[derive(Drop)]
pub(crate) struct Kept {
    pub(crate) index: PlaneIndex,
    pub(crate) seen: usize,
}

/// The indexes of a session, in the order of making; one that replaces an ended one of its attribute stands in its place.
#[derive(Drop)]
pub struct Indexes {
    pub(crate) kept: Vec<Kept>,
}

impl Model for Indexes {
    ghost use Rattle.std.specs.Prelude.{List};
    ghost use Rattle.kept_indexes.specs.declared.indexes.Kept.{Kept};

    ghost Value = { List Kept };

    ghost view = { λ a. a.kept.items };
}

impl Indexes {
    /// No index. It takes no memory.
    pub fn new(alloc: Global) -> Indexes
        ensures { result ≡ [] }
    {
        Indexes {
            kept: Vec::new(alloc),
        }
    }

    /// The object that a change of the database wrote, if it wrote to one, is stale in each index from now on, and all else
    /// stays. It takes no memory.
    pub fn touch(&mut self, database: &Database, change: &Change)
        ensures { TouchesChange change.now database.now.store self.old self.new }
    {
        if let Change::Object(done) = change {
            let _count = database.store().object_count();
            touch_each(&mut self.kept, done.id);
        }
    }

    /// Makes an index of an attribute by strips of a width in thousandths, from now on, or refuses it; then `out` has room for
    /// an `ok`. A refusal and want of memory change nothing, and want of memory is told only where no refusal holds.
    pub fn add(
        &mut self,
        alloc: Global,
        database: &Database,
        class: &Word,
        attr: &Word,
        width: Fix,
        out: &mut Vec<u8>,
    ) -> Result<(), CommandFault>
        requires wide { pos 0 <ℤ width }
        requires in_range { IsTick database.now.clock }
        ensures made { IfOk result (λ _. index_fault (entries self.old) (world_of_database database.now) (clock_of database.now)
            (Tree.Index class.now attr.now width) ≡ None) }
        ensures entries { OnOk result ((count : ℕ) → entries self.new
            ≡ indexes_after (entries self.old) (world_of_database database.now) (clock_of database.now) count (Tree.Index class.now attr.now width)) }
        ensures right { OnOk result ((journal : List Accepted) → clock journal ≡ clock_of database.now
            → AreRight journal database.now.store self.old → AreRight journal database.now.store self.new) }
        ensures stopped { IfErr result (IsStoppedBy
            (index_fault (entries self.old) (world_of_database database.now) (clock_of database.now) (Tree.Index class.now attr.now width))) }
        ensures err { OnErr result (self.new ≡ self.old) }
        ensures room { OnOk result (HasRoomForOk out.new) }
        ensures same { out.new.items ≡ out.old.items }
    {
        let Some(at) = column_of(database.store(), class, attr) else {
            return Err(CommandFault::Refused(Refusal::UnknownName));
        };
        if let Some(refusal) = index_refusal(&self.kept, database, at) {
            return Err(CommandFault::Refused(refusal));
        }
        let grid = Grid::new(at.class, at.place, database.clock(), width);
        let index = PlaneIndex::new(alloc, grid)?;
        make_room(out)?;
        put(&mut self.kept, at, Kept { index, seen: 0 })?;
        Ok(())
    }
}

/// The object is stale in each index from now on.
fn touch_each(kept: &mut [Kept], id: ObjectId)
    ensures { AreTouched id kept.old kept.new }
{
    let mut place = 0;
    'indexes: while place < kept.len() {
        kept[place].index.touch(id);
        place += 1;
    }
}

/// Makes room for an `ok` at the end.
pub(crate) fn make_room(out: &mut Vec<u8>) -> Result<(), AllocError>
    ensures room { OnOk result (HasRoomForOk out.new) }
    ensures same { out.new.items ≡ out.old.items }
{
    out.reserve(OK_BYTES)
}

/// Puts an index in the place of that of its attribute, or else last.
fn put(kept: &mut Vec<Kept>, at: Column, new: Kept) -> Result<(), AllocError>
    ensures ok { OnOk result (IsPut at new kept.old.items kept.new.items) }
    ensures err { OnErr result (kept.new.items ≡ kept.old.items) }
{
    match place_of(kept, at) {
        Some(place) => {
            kept[place] = new;
            Ok(())
        }
        None => {
            kept.push(new)?;
            Ok(())
        }
    }
}
