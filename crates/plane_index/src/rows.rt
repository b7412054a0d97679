//! The objects that have a value between two bounds, and when.
ghost use Rattle.std.specs.Prelude.{◌≡◌, ◌⊎◌, ◌+◌, ◌<◌, ◌++◌, ◌∷◌, [], All, IfOk, IfSome, OnErr, OnOk, length};
ghost use Rattle.object_store.specs.Contents.{history_of};
ghost use Rattle.plane.specs.Boxes.{candidates};
ghost use Rattle.plane.specs.Rows.{rows_among, rows_in_range, IsCovered};
ghost use Rattle.meaning.specs.Answer.{has_ticks};
ghost use Rattle.std.specs.List.{filter};
ghost use Rattle.tick_set.specs.Runs.{pairs};
ghost use Rattle.plane_index.specs.Rows.{told_range_rows};
ghost use Rattle.plane_index.specs.Ticks.{runs_found, HasRun};
ghost use Rattle.plane_index.specs.Index.{stale_count, IsFresh, IsIndexOf};
ghost use Rattle.plane_index.specs.Told.{recorded_by};
ghost use Rattle.steps.specs.Counting.{StepsAtMost};

use crate::index::PlaneIndex;
use crate::runs::{Bounds, ticks_between};
use crate::ticks::Ticks;
use fixed_point::Fix;
use object_store::{ObjectId, Store};
use std::alloc::{AllocError, Global};
use std::sync::ledger::Ledger;
use steps::Steps;
use tick_set::Window;

/// An object, and the ticks at which its value lies between the bounds.
#[derive(Drop)]
pub struct RangeRow {
    pub id: ObjectId,
    pub ticks: Ticks,
}

impl PlaneIndex {
    /// The objects of the class that have a value between two bounds at some ticks of the window, by first insertion,
    /// each with these ticks. The slices have the ticks of the window, and no object of the class was written after its
    /// first (`covers` tells). Stale objects are looked at anew first, once each, and then each candidate once. It fails only where
    /// memory is out: either it is as before then, or no object is stale.
    pub fn range_rows<L: Ledger>(
        &mut self,
        alloc: Global,
        lo: Fix,
        hi: Fix,
        store: &Store,
        w: Window,
        reads: &mut Steps<L>,
    ) -> Result<Vec<RangeRow>, AllocError>
        requires of_store { IsIndexOf store.now self.old }
        requires covered { IsCovered (recorded_by store.now) self.old.grid w.lo w.hi }
        ensures rows { IfOk result (λ rows. told_range_rows rows.items
            ≡ rows_in_range (history_of store.now) self.old.grid.class self.old.grid.attribute lo hi w.lo w.hi) }
        ensures fresh { OnOk result (IsFresh store.now self.new) }
        ensures right { IsIndexOf store.now self.new }
        ensures err { OnErr result ((self.new ≡ self.old) ⊎ IsFresh store.now self.new) }
        ensures grid { self.new.grid ≡ self.old.grid }
        ensures reads { StepsAtMost reads.old reads.new
            (stale_count store.now self.old + length (candidates (recorded_by store.now) self.old.grid lo hi w.lo w.hi)) }
    {
        self.renew(store, reads)?;
        self.prepare(alloc, w)?;
        let found = self.candidates(alloc, lo, hi, w)?;
        let bounds = Bounds {
            attribute: self.grid().attribute(),
            lo,
            hi,
        };
        rows_of(alloc, &found, &bounds, store, w, reads)
    }
}

// The rows of these objects, of each of which the timeline is taken once.
fn rows_of<L: Ledger>(
    alloc: Global,
    ids: &[ObjectId],
    bounds: &Bounds,
    store: &Store,
    w: Window,
    reads: &mut Steps<L>,
) -> Result<Vec<RangeRow>, AllocError>
    requires { All (λ id. id < length store.now.objects) ids.now }
    ensures rows { IfOk result (λ rows. told_range_rows rows.items ≡ rows_among (history_of store.now) bounds.now.attribute bounds.now.lo bounds.now.hi w.lo w.hi ids.now) }
    ensures reads { StepsAtMost reads.old reads.new (length ids.now) }
{
    let mut rows = Vec::with_capacity(alloc, ids.len())?;
    'objects: for id in ids {
        let timeline = store.timeline(*id, reads);
        let found = ticks_between(alloc, timeline, bounds, w)?;
        add_row(&mut rows, *id, found)?;
    }
    Ok(rows)
}

// Adds the row of an object, if it has a tick.
fn add_row(rows: &mut Vec<RangeRow>, id: ObjectId, found: Option<Ticks>) -> Result<(), AllocError>
    requires { IfSome found HasRun }
    ensures { OnOk result (told_range_rows rows.new.items
        ≡ told_range_rows rows.old.items ++ filter (λ row. has_ticks row.runs) (record { key = id ∷ []; runs = pairs (runs_found found) } ∷ [])) }
{
    if let Some(ticks) = found {
        rows.push(RangeRow { id, ticks })?;
    }
    Ok(())
}
