//! The ticks of a window at which an object is present, and those at which it isn't.
ghost use Rattle.std.specs.Prelude.{◌≡◌, ◌+◌, ◌<◌, ◌≤◌, ◌&&◌, not, ℕ, true, is_some, option_to_list, IfOk, IsTrue};
ghost use Rattle.std.specs.Option.{option_copied};
ghost use Rattle.history.specs.History.{cells_at};
ghost use Rattle.motion.specs.Timeline.{state_at};
ghost use Rattle.object_store.specs.Contents.{IsObjectId, history_of};
ghost use Rattle.tick_set.specs.Runs.{IsRuns, spans_have};
ghost use Rattle.tick_set.specs.Ticks.{within};
ghost use Rattle.atoms.specs.Presence.{is_as, is_there};

use courses::{common_from, straight_line};
use interval_set::IntervalSet;
use motion::{Epoch, Timeline};
use object_store::{ObjectId, Store};
use std::alloc::{AllocError, Global};
use std::sync::ledger::Ledger;
use steps::Steps;
use tick_set::{Runs, Span, Window};

/// The ticks of the window at which the object, whose id exists, is present. It takes one step of
/// `reads`, and fails only where memory is out.
pub fn presence<L: Ledger>(
    alloc: Global,
    id: ObjectId,
    store: &Store,
    w: Window,
    reads: &mut Steps<L>,
) -> Result<IntervalSet, AllocError>
    requires { IsObjectId store.now id }
    ensures ticks { IfOk result (λ s. (t : ℕ) → spans_have s t
        ≡ (within w.lo w.hi t && is_some (cells_at (history_of store.now) id t))) }
    ensures step { reads.new ≡ reads.old + 1 }
{
    let timeline = store.timeline(id, reads);
    let runs = runs_where(alloc, true, timeline, w)?;
    Ok(IntervalSet::from_runs(runs))
}

/// The ticks of the window at which the object, whose id exists, isn't present: no memory is taken where it is
/// present throughout. It takes one step of `reads`, and fails only where memory is out.
pub fn absence<L: Ledger>(
    alloc: Global,
    id: ObjectId,
    store: &Store,
    w: Window,
    reads: &mut Steps<L>,
) -> Result<IntervalSet, AllocError>
    requires { IsObjectId store.now id }
    ensures ticks { IfOk result (λ s. (t : ℕ) → spans_have s t
        ≡ (within w.lo w.hi t && not (is_some (cells_at (history_of store.now) id t)))) }
    ensures step { reads.new ≡ reads.old + 1 }
{
    let timeline = store.timeline(id, reads);
    if is_there_throughout(timeline, w) {
        return Ok(IntervalSet::from_runs(Vec::new(alloc)));
    }
    let runs = runs_where(alloc, false, timeline, w)?;
    Ok(IntervalSet::from_runs(runs))
}

// Whether it is told at once that the object of a timeline is there throughout the window. That of one that moves along a
// line is, with no look at its epochs.
fn is_there_throughout(timeline: &Timeline, w: Window) -> bool
    ensures { IsTrue result → (t : ℕ) → w.lo ≤ t → t ≤ w.hi → is_some (state_at timeline.now t) ≡ true }
{
    straight_line(timeline, w.span()).is_some() || is_there_from(timeline, w.lo)
}

// Whether the last epoch of a timeline is in force at this tick, and has an object: that is there from then on.
fn is_there_from(timeline: &Timeline, lo: u32) -> bool
    ensures { IsTrue result → (t : ℕ) → lo ≤ t → is_some (state_at timeline.now t) ≡ true }
{
    if !timeline.is_begun_by(lo) {
        return false;
    }
    has_object(timeline.last())
}

// The runs of the ticks at which the object of a timeline is present, or those at which it isn't.
fn runs_where(
    alloc: Global,
    there: bool,
    timeline: &Timeline,
    w: Window,
) -> Result<Vec<Span>, AllocError>
    ensures { IfOk result (λ runs. IsRuns (λ t. within w.lo w.hi t
        && is_as there (is_some (state_at timeline.now t))) runs.items) }
{
    let timelines = [timeline];
    let mut runs = Runs::new(alloc);
    let mut at = w.lo;
    'joining: while at <= w.hi {
        let common = common_from(&timelines, at, w.hi);
        runs.append(span_where(there, common.epoch(0), common.span))?;
        at = common.span.hi + 1;
    }
    Ok(runs.finish())
}

// The span, where the epoch has an object that is there, or where it has none.
fn span_where(there: bool, epoch: Option<&Epoch>, span: Span) -> Option<Span>
    ensures { (t : ℕ) → spans_have (option_to_list result) t
        ≡ (within span.lo span.hi t && is_as there (is_there (option_copied epoch.entry))) }
{
    let is = has_object(epoch);
    if is == there { Some(span) } else { None }
}

// Whether an epoch has an object that is there.
fn has_object(epoch: Option<&Epoch>) -> bool
    ensures { result ≡ is_there (option_copied epoch.entry) }
{
    match epoch {
        Some(epoch) => epoch.is_present(),
        None => false,
    }
}
