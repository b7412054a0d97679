//! The index.
ghost use Rattle.std.specs.Prelude.{◌≡◌, ◌≤◌, ◌<◌, ◌==◌, ◌&&◌, ◌||◌, nat_le, ℕ, [], true, false, IfOk, OnErr, OnOk, length, max, take};
ghost use Rattle.history.specs.Catalog.{ids_of};
ghost use Rattle.object_store.specs.Contents.{Contents};
ghost use Rattle.plane.specs.Boxes.{candidates, last_covered};
ghost use Rattle.plane.specs.Rows.{IsCovered};
ghost use Rattle.plane.specs.declared.limits.TheConstants.{SLICES};
ghost use Rattle.plane_index.specs.Held.{IsGrid};
ghost use Rattle.plane_index.specs.Index.{fresh_at, is_fresh, stale_count, strips_of_place, AreAscendingIds, IsFresh, IsIndexOf, IsTouched};
ghost use Rattle.plane_index.specs.Told.{recorded_by};
ghost use Rattle.steps.specs.Counting.{StepsAtMost};

use crate::cover::Cover;
use crate::finding::{found_among, marked};
use crate::grid::Grid;
use crate::renewing::freshen;
use crate::states::States;
use fixed_point::Fix;
use object_store::{ClassId, ObjectId, Store};
use std::alloc::{AllocError, Global};
use std::marker::Model;
use std::sync::ledger::Ledger;
use steps::Steps;
use tick_set::Window;

/// The strips of values that the objects of a class cover in each slice, of those that aren't stale.
///
/// It is an index of a store where it has seen the first objects of the class and the strips of those that aren't stale
/// are those of their last states. A write makes the strips of its object wrong, so who writes touches that object.
#[derive(Drop)]
pub struct PlaneIndex {
    ids: Vec<ObjectId>,
    fresh: Vec<bool>,
    states: States,
}

impl Model for PlaneIndex {
    ghost use Rattle.plane_index.specs.Index.{AreIndexFields, Index, index_of};

    ghost Value = { Index };

    ghost view = { λ a. index_of a.states.grid a.ids.items a.fresh.items a.states.states };

    ghost invariant = { λ a. AreIndexFields a.ids.items a.fresh.items a.states.states };
}

impl PlaneIndex {
    /// An index that has seen no object. It fails only where memory is out.
    pub fn new(alloc: Global, grid: Grid) -> Result<PlaneIndex, AllocError>
        ensures grid { IfOk result (λ index. index.grid ≡ grid) }
        ensures none { IfOk result (λ index. index.ids ≡ []) }
        ensures stale { IfOk result (λ index. (k : ℕ) → is_fresh index k ≡ false) }
        ensures right { IfOk result (λ index. (s : Contents) → IsIndexOf s index) }
    {
        let states = States::new(alloc, grid)?;
        Ok(PlaneIndex {
            ids: Vec::new(alloc),
            fresh: Vec::new(alloc),
            states,
        })
    }

    /// What it is of.
    pub fn grid(&self) -> &Grid
        ensures { result.now ≡ self.now.grid }
    {
        self.states.grid()
    }

    /// The object is stale from now on, and all else stays. One that it has not seen is stale anyway. It takes no memory.
    pub fn touch(&mut self, id: ObjectId)
        ensures { IsTouched id self.old self.new }
    {
        if let Ok(place) = self.ids.binary_search(&id) {
            self.fresh[place] = false;
        }
    }

    /// Looks at each stale object of the class anew, once. It fails only where memory is out, and the index is unchanged
    /// then, and nothing was looked at.
    pub fn renew<L: Ledger>(
        &mut self,
        store: &Store,
        reads: &mut Steps<L>,
    ) -> Result<(), AllocError>
        requires { IsIndexOf store.now self.old }
        ensures fresh { OnOk result (IsFresh store.now self.new) }
        ensures right { IsIndexOf store.now self.new }
        ensures grid { self.new.grid ≡ self.old.grid }
        ensures err { OnErr result (self.new ≡ self.old) }
        ensures reads { StepsAtMost reads.old reads.new (stale_count store.now self.old) }
        ensures unread { OnErr result (reads.new ≡ reads.old) }
    {
        let class = self.states.grid().class();
        self.see(store.class_names(class))?;
        freshen(&self.ids, &mut self.fresh, &mut self.states, store, reads);
        Ok(())
    }

    // Sees the objects of the class that it has not seen. They are stale.
    fn see(&mut self, all: &[ObjectId]) -> Result<(), AllocError>
        requires first { self.old.ids ≡ take (length self.old.ids) all.now }
        requires ascending { AreAscendingIds all.now }
        ensures grid { self.new.grid ≡ self.old.grid }
        ensures seen { OnOk result (self.new.ids ≡ all.now) }
        ensures fresh { OnOk result ((k : ℕ) → is_fresh self.new k ≡ is_fresh self.old k) }
        ensures strips { OnOk result ((k slice : ℕ) → is_fresh self.old k ≡ true → slice < SLICES
            → strips_of_place self.new k slice ≡ strips_of_place self.old k slice) }
        ensures err { OnErr result (self.new ≡ self.old) }
    {
        self.states.lengthen(all.len())?;
        widen(&mut self.fresh, all.len())?;
        self.ids.extend_from_slice(&all[self.ids.len()..])?;
        Ok(())
    }

    /// Whether the slices have the ticks of a window, and no object was written after its first: then `range_rows` may be
    /// asked.
    pub fn covers(&self, store: &Store, w: Window) -> bool
        ensures value { result ≡ (nat_le self.now.grid.from w.lo && nat_le w.hi (last_covered self.now.grid)
            && ((length store.now.objects == 0) || nat_le store.now.last_tick w.lo)) }
        ensures covered { result ≡ true → IsCovered (recorded_by store.now) self.now.grid w.lo w.hi }
    {
        self.grid().covers(w) && (store.object_count() == 0 || store.last_tick() <= w.lo)
    }

    /// Makes the strips of the slices of a window ready. What an index tells stays. It fails only where memory is out.
    pub(crate) fn prepare(&mut self, alloc: Global, w: Window) -> Result<(), AllocError>
        requires first { self.old.grid.from ≤ w.lo }
        requires last { w.hi ≤ last_covered self.old.grid }
        ensures { self.new ≡ self.old }
    {
        let first = self.states.grid().slice_of(w.lo);
        let last = self.states.grid().slice_of(w.hi);
        self.states.prepare(alloc, first, last)
    }

    /// The candidates for values between two bounds at some tick of the window, by first insertion, where no object is
    /// stale; none where the upper bound is below the lower. The slices have the ticks of the window. It fails only where
    /// memory is out.
    pub fn candidates(
        &self,
        alloc: Global,
        lo: Fix,
        hi: Fix,
        w: Window,
    ) -> Result<Vec<ObjectId>, AllocError>
        requires first { self.now.grid.from ≤ w.lo }
        requires last { w.hi ≤ last_covered self.now.grid }
        ensures { IfOk result (λ found. (s : Contents) → IsIndexOf s self.now → IsFresh s self.now
            → found.items ≡ candidates (recorded_by s) self.now.grid lo hi w.lo w.hi) }
    {
        if hi < lo {
            return Ok(Vec::new(alloc));
        }
        let asked = Cover::between(self.states.grid(), lo, hi);
        let marks = marked(alloc, &self.states, self.ids.len(), &asked, w)?;
        found_among(alloc, &self.ids, &marks)
    }
}

// Makes room for so many places. Those that are new are stale.
fn widen(fresh: &mut Vec<bool>, count: usize) -> Result<(), AllocError>
    ensures room { OnOk result (length fresh.new.items ≡ max count (length fresh.old.items)) }
    ensures kept { OnOk result ((k : ℕ) → fresh_at fresh.new.items k ≡ fresh_at fresh.old.items k) }
    ensures err { OnErr result (fresh.new.items ≡ fresh.old.items) }
{
    if fresh.len() < count {
        fresh.resize(count, false)?;
    }
    Ok(())
}
