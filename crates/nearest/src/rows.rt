//! The rows of the nearest objects.
ghost use Rattle.std.specs.Prelude.{◌≡◌, ◌+◌, ◌<◌, ◌++◌, ◌&&◌, ℕ, Bool, IfOk, OnOk, length};
ghost use Rattle.history.specs.Catalog.{ids_of};
ghost use Rattle.nearness.specs.Nearest.{near};
ghost use Rattle.object_store.specs.Contents.{IsObjectId, catalog_of, history_of};
ghost use Rattle.tick_set.specs.Runs.{IsNormal, spans_have};
ghost use Rattle.tick_set.specs.Ticks.{within};
ghost use Rattle.tick_set.specs.declared.spans.Window.{Window};
ghost use Rattle.nearest.specs.Courses.{AreNumbered};
ghost use Rattle.nearest.specs.Rows.{if_some, object_row, rows_along, told_near};
ghost use Rattle.steps.specs.Counting.{StepsAtMost};

use crate::aim::Aim;
use crate::course::{Course, courses_of};
use crate::slices::near_runs;
use interval_set::IntervalSet;
use object_store::{ClassId, ObjectId, Store};
use std::alloc::{AllocError, Global};
use std::sync::ledger::Ledger;
use steps::Steps;
use tick_set::{Span, Window};

/// An object, and the ticks at which it is near.
#[derive(Drop)]
pub struct NearRow {
    pub id: ObjectId,
    pub ticks: IntervalSet,
}

/// The objects of a class that are among the `k` nearest to the object `to` at some of the ticks of the window, in the
/// order of first insertion, each with these ticks. Of two that are as near, the one that was inserted first is the
/// nearer. It fails only where memory is out.
///
/// Epochs that begin inside the window count, removals and insertions among them. The object `to` exists, and may be of
/// any class; it is not near itself. `reads` counts the looks at timelines, and no look is made twice.
pub fn nearest_rows<L: Ledger, M: Ledger>(
    alloc: Global,
    class: ClassId,
    to: ObjectId,
    k: u32,
    store: &Store,
    w: Window,
    reads: &mut Steps<L>,
    _probes: &mut Steps<M>,
) -> Result<Vec<NearRow>, AllocError>
    requires { IsObjectId store.now to }
    ensures rows { IfOk result (λ rows. told_near rows.items ≡ near (history_of store.now) class to k w.lo w.hi) }
    ensures reads { StepsAtMost reads.old reads.new (length (ids_of (catalog_of store.now) class) + 1) }
    ensures unprobed { _probes.new ≡ _probes.old }
{
    let target = store.timeline(to, reads);
    let courses = courses_of(alloc, class, to, store, reads)?;
    let aim = Aim { target, k };
    let rows = rows_of(alloc, &courses, &aim, w)?;
    Ok(rows)
}

// The rows of these objects.
fn rows_of(
    alloc: Global,
    courses: &[Course],
    aim: &Aim,
    w: Window,
) -> Result<Vec<NearRow>, AllocError>
    requires { AreNumbered 0 courses.now }
    ensures { IfOk result (λ rows. told_near rows.items ≡ rows_along aim.now.target.now courses.now aim.now.k w courses.now) }
{
    let found = near_runs(alloc, courses, aim, w)?;
    let mut rows = Vec::new(alloc);
    'objects: for o in courses {
        let runs = &found[o.index];
        add_row(&mut rows, alloc, o.id, runs.spans())?;
    }
    Ok(rows)
}

// Adds the row of an object, if it has a tick.
fn add_row(
    rows: &mut Vec<NearRow>,
    alloc: Global,
    id: ObjectId,
    runs: &[Span],
) -> Result<(), AllocError>
    requires { IsNormal runs.now }
    ensures { OnOk result ((test : ℕ → Bool) (w : Window) → ((t : ℕ) → spans_have runs.now t ≡ (within w.lo w.hi t && test t))
        → told_near rows.new.items ≡ told_near rows.old.items ++ if_some (object_row id test w)) }
{
    if !runs.is_empty() {
        let spans = Vec::from_slice(alloc, runs)?;
        let ticks = IntervalSet::from_runs(spans);
        rows.push(NearRow { id, ticks })?;
    }
    Ok(())
}
