//! How candidates are found.
ghost use Rattle.std.specs.Prelude.{◌≡◌, ◌+◌, ◌≤◌, ◌<◌, ◌&&◌, ◌||◌, ℕ, nat_le, length, map, take, if◌then◌else◌, IfOk, slice_index, slice_index_or};
ghost use Rattle.std.specs.List.{filter, list_any};
ghost use Rattle.tick_set.specs.Ticks.{between};
ghost use Rattle.plane.specs.Boxes.{IsSlice, last_covered, slice_meets, strips_meet};
ghost use Rattle.plane.specs.declared.limits.TheConstants.{SLICES};
ghost use Rattle.plane_index.specs.Index.{fresh_at};
ghost use Rattle.plane_index.specs.Lines.{strips_as};
ghost use Rattle.plane_index.specs.States.{strips_at};
ghost use Rattle.exact.specs.Lists.{SameLength};

use crate::cover::Cover;
use crate::states::States;
use object_store::ObjectId;
use std::alloc::{AllocError, Global};
use tick_set::Window;

/// Whether each of so many places has strips in a slice with a tick of the window that share one with these.
pub fn marked(
    alloc: Global,
    states: &States,
    count: usize,
    asked: &Cover,
    w: Window,
) -> Result<Vec<bool>, AllocError>
    requires first { states.now.grid.from ≤ w.lo }
    requires last { w.hi ≤ last_covered states.now.grid }
    requires room { count ≤ length states.now.states }
    ensures length { IfOk result (λ marks. length marks.items ≡ count) }
    ensures marks { IfOk result (λ marks. (k : ℕ) → k < count → fresh_at marks.items k
        ≡ list_any (λ s. slice_meets states.now.grid w.lo w.hi s
        && strips_meet (strips_as asked.now) (strips_at states.now.grid states.now.states k s)) (between 0 SLICES)) }
{
    let first = states.grid().slice_of(w.lo);
    let last = states.grid().slice_of(w.hi);
    let mut marks = Vec::new(alloc);
    marks.resize(count, false)?;
    mark_in(states, first, last, &mut marks, asked);
    Ok(marks)
}

// Marks each place whose strips share one with these in one of the slices from the first to the last one.
fn mark_in(states: &States, first: usize, last: usize, marks: &mut [bool], asked: &Cover)
    requires room { length marks.old ≤ length states.now.states }
    requires last { IsSlice last }
    requires first { first ≤ last }
    ensures length { SameLength marks.new marks.old }
    ensures marks { (k : ℕ) → k < length marks.old → fresh_at marks.new k
        ≡ (fresh_at marks.old k || list_any (λ s. nat_le first s && strips_meet (strips_as asked.now)
        (strips_at states.now.grid states.now.states k s)) (between 0 (last + 1))) }
{
    let mut s = first;
    'slices: while s <= last {
        states.mark(s, marks, asked);
        s += 1;
    }
}

/// The objects whose places are marked.
pub fn found_among(
    alloc: Global,
    ids: &[ObjectId],
    marks: &[bool],
) -> Result<Vec<ObjectId>, AllocError>
    requires { SameLength marks.now ids.now }
    ensures { IfOk result (λ found. found.items ≡ map (slice_index ids.now) (filter (fresh_at marks.now) (between 0 (length ids.now)))) }
{
    let mut found = Vec::new(alloc);
    found.resize(ids.len(), 0)?;
    let count = gather(&mut found, ids, marks);
    found.truncate(count);
    Ok(found)
}

// Puts the objects whose places are marked first. How many they are. It has no branch for a mark, which no one could foretell.
fn gather(found: &mut [ObjectId], ids: &[ObjectId], marks: &[bool]) -> usize
    requires room { SameLength found.old ids.now }
    requires marks { SameLength marks.now ids.now }
    ensures count { result ≤ length found.new }
    ensures length { SameLength found.new found.old }
    ensures found { take result found.new ≡ map (slice_index ids.now) (filter (fresh_at marks.now) (between 0 (length ids.now))) }
{
    let mut count = 0;
    let mut place = 0;
    'places: while place < ids.len() {
        found[count] = ids[place];
        count += one_if(marks[place]);
        place += 1;
    }
    count
}

// One, if a place is marked.
fn one_if(marked: bool) -> usize
    ensures { result ≡ (if marked then 1 else 0) }
{
    usize::from(marked)
}
