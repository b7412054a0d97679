//! How stale objects are looked at anew.
ghost use Rattle.std.specs.Prelude.{◌≡◌, ◌+◌, ◌≤◌, ◌<◌, ◌==◌, ◌||◌, ◌&&◌, ℕ, true, false, [], not, nat_lt, length, count_by, All, slice_index, if◌then◌else◌};
ghost use Rattle.tick_set.specs.Ticks.{between};
ghost use Rattle.plane.specs.Boxes.{strips_in};
ghost use Rattle.plane.specs.declared.limits.TheConstants.{SLICES};
ghost use Rattle.plane_index.specs.Held.{kept_strips};
ghost use Rattle.plane_index.specs.Index.{IsFreshenedAt, IsPastFresh, fresh_at};
ghost use Rattle.plane_index.specs.States.{strips_at};
ghost use Rattle.plane_index.specs.Told.{recorded_by};
ghost use Rattle.object_store.specs.Contents.{IsObjectId};
ghost use Rattle.steps.specs.Counting.{StepsAtMost};

use crate::state::State;
use crate::states::States;
use object_store::{ObjectId, Store};
use std::sync::ledger::Ledger;
use steps::Steps;

// How many places are gone over at once.
const BLOCK: usize = 64;

/// Looks once at each object that isn't fresh, and keeps its last state.
pub fn freshen<L: Ledger>(
    ids: &[ObjectId],
    fresh: &mut [bool],
    states: &mut States,
    store: &Store,
    reads: &mut Steps<L>,
)
    requires there { All (λ id. id < length store.now.objects) ids.now }
    requires seen { length ids.now ≤ length fresh.old }
    requires room { length fresh.old ≤ length states.old.states }
    ensures lengths { (length fresh.new ≡ length fresh.old) × (length states.new.states ≡ length states.old.states) }
    ensures grid { states.new.grid ≡ states.old.grid }
    ensures fresh { (k : ℕ) → fresh_at fresh.new k ≡ (fresh_at fresh.old k || nat_lt k (length ids.now)) }
    ensures kept { (k s : ℕ) → fresh_at fresh.old k ≡ true → strips_at states.new.grid states.new.states k s ≡ strips_at states.old.grid states.old.states k s }
    ensures right { (k s : ℕ) → k < length ids.now → fresh_at fresh.old k ≡ false → s < SLICES
        → strips_at states.new.grid states.new.states k s ≡ kept_strips (strips_in (recorded_by store.now) states.old.grid (slice_index ids.now k) s) }
    ensures reads { StepsAtMost reads.old reads.new (count_by (λ k. not (fresh_at fresh.old k)) (between 0 (length ids.now))) }
{
    let mut place = next_stale(fresh, 0, ids.len());
    'places: while place < ids.len() {
        freshen_at(ids[place], place, fresh, states, store, reads);
        place = next_stale(fresh, place + 1, ids.len());
    }
}

// Looks once at the object of a place, if it isn't fresh, and keeps its last state.
fn freshen_at<L: Ledger>(
    id: ObjectId,
    place: usize,
    fresh: &mut [bool],
    states: &mut States,
    store: &Store,
    reads: &mut Steps<L>,
)
    requires there { IsObjectId store.now id }
    requires seen { place < length fresh.old }
    requires room { length fresh.old ≤ length states.old.states }
    ensures lengths { (length fresh.new ≡ length fresh.old) × (length states.new.states ≡ length states.old.states) }
    ensures fresh { (k : ℕ) → fresh_at fresh.new k ≡ (fresh_at fresh.old k || (k == place)) }
    ensures strips { IsFreshenedAt store.now id place fresh.old states.old states.new }
    ensures step { reads.new ≡ reads.old + (if fresh_at fresh.old place then 0 else 1) }
{
    if fresh[place] {
        return;
    }
    let timeline = store.timeline(id, reads);
    let state = State::of(states.grid(), timeline);
    states.set(place, state);
    fresh[place] = true;
}

// The first place from one on, before an end, whose object isn't fresh, or else the end.
fn next_stale(fresh: &[bool], from: usize, end: usize) -> usize
    requires from { from ≤ end }
    requires room { end ≤ length fresh.now }
    ensures { IsPastFresh fresh.now from end result }
{
    let mut place = past_fresh_blocks(fresh, from, end);
    'places: while place < end && fresh[place] {
        place += 1;
    }
    place
}

// A place from one on, up to the end, before which all from the first on are fresh. Many are gone over at once.
fn past_fresh_blocks(fresh: &[bool], from: usize, end: usize) -> usize
    requires from { from ≤ end }
    requires room { end ≤ length fresh.now }
    ensures { IsPastFresh fresh.now from end result }
{
    let mut place = from;
    'blocks: while BLOCK <= end - place && are_fresh(fresh, place, place + BLOCK) {
        place += BLOCK;
    }
    place
}

// Whether all from a place on, up to an end, are fresh. It has no branch, so that it looks at many at once.
fn are_fresh(fresh: &[bool], from: usize, end: usize) -> bool
    requires room { end ≤ length fresh.now }
    ensures { result ≡ true → (k : ℕ) → from ≤ k → k < end → fresh_at fresh.now k ≡ true }
{
    let mut all = true;
    let mut place = from;
    'places: while place < end {
        all = all & fresh[place];
        place += 1;
    }
    all
}
