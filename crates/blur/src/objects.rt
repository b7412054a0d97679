//! The ticks of a window at which objects of a store that may be off are in a region, or so far apart.
ghost use Rattle.std.specs.Prelude.{◌≡◌, ◌+◌, ◌<◌, ◌&&◌, ◌==◌, ℕ, false, IfOk, if◌then◌else◌};
ghost use Rattle.std.specs.Option.{option_map_or};
ghost use Rattle.history.specs.History.{cells_at};
ghost use Rattle.meaning.specs.Atom.{position_in};
ghost use Rattle.object_store.specs.Contents.{IsObjectId, history_of};
ghost use Rattle.tick_set.specs.Runs.{spans_have};
ghost use Rattle.tick_set.specs.Ticks.{within};
ghost use Rattle.worlds.specs.Blurred.{distance_holds_by};
ghost use Rattle.blur.specs.Asked.{comparison, is_on_side};

use crate::parts::{distance_runs, region_runs};
use crate::question::{Blur, Comparison, Side};
use interval_set::IntervalSet;
use object_store::{ObjectId, Store};
use polygon::Regions;
use std::alloc::{AllocError, Global};
use std::sync::ledger::Ledger;
use steps::Steps;
use tick_set::Window;

/// A store and its regions, and by how much the positions of its objects may be off.
#[derive(Clone, Copy)]
pub struct BlurredWorld<'a> {
    pub store: &'a Store,
    pub regions: &'a Regions,
    pub blur: Blur,
}

/// A world, and the window of ticks that is asked of it.
#[derive(Clone, Copy)]
pub struct Setting<'a> {
    pub world: &'a BlurredWorld<'a>,
    pub w: Window,
}

/// The ticks of the window at which an object is in the region of a number, or has a position that isn't in it, surely or
/// possibly. It takes one step of `reads`, and fails only where memory is out.
pub fn region_ticks<L: Ledger>(
    alloc: Global,
    id: ObjectId,
    side: Side,
    setting: &Setting,
    reads: &mut Steps<L>,
) -> Result<IntervalSet, AllocError>
    requires { IsObjectId setting.now.world.now.store.now id }
    ensures ticks { IfOk result (λ s. (t : ℕ) → spans_have s t ≡ (within setting.now.w.lo setting.now.w.hi t
        && option_map_or (is_on_side side.inside setting.now.world.now.blur.sure setting.now.world.now.blur.error setting.now.world.now.regions.now side.n)
        (position_in t (cells_at (history_of setting.now.world.now.store.now) id t)) false)) }
    ensures step { reads.new ≡ reads.old + 1 }
{
    let world = setting.world;
    let course = world.store.timeline(id, reads);
    let runs = region_runs(alloc, course, side, world.blur, world.regions, setting.w)?;
    Ok(IntervalSet::from_runs(runs))
}

/// The ticks of the window at which two objects have positions whose distance compares so with a number of thousandths,
/// surely or possibly. One object is at no distance from itself. It takes one step of `reads` for each different object,
/// and fails only where memory is out.
pub fn distance_ticks<L: Ledger>(
    alloc: Global,
    first: ObjectId,
    second: ObjectId,
    compared: &Comparison,
    setting: &Setting,
    reads: &mut Steps<L>,
) -> Result<IntervalSet, AllocError>
    requires first { IsObjectId setting.now.world.now.store.now first }
    requires second { IsObjectId setting.now.world.now.store.now second }
    ensures ticks { IfOk result (λ s. (t : ℕ) → spans_have s t ≡ (within setting.now.w.lo setting.now.w.hi t
        && distance_holds_by (comparison setting.now.world.now.blur.sure) (if first == second then 0 else setting.now.world.now.blur.error) compared.now.op compared.now.c
        (position_in t (cells_at (history_of setting.now.world.now.store.now) first t))
        (position_in t (cells_at (history_of setting.now.world.now.store.now) second t)))) }
    ensures step { reads.new ≡ reads.old + (if first == second then 1 else 2) }
{
    if first == second {
        itself_ticks(alloc, first, compared, setting, reads)
    } else {
        apart_ticks(alloc, first, second, compared, setting, reads)
    }
}

// Those of an object and itself.
fn itself_ticks<L: Ledger>(
    alloc: Global,
    id: ObjectId,
    compared: &Comparison,
    setting: &Setting,
    reads: &mut Steps<L>,
) -> Result<IntervalSet, AllocError>
    requires { IsObjectId setting.now.world.now.store.now id }
    ensures ticks { IfOk result (λ s. (t : ℕ) → spans_have s t ≡ (within setting.now.w.lo setting.now.w.hi t
        && distance_holds_by (comparison setting.now.world.now.blur.sure) 0 compared.now.op compared.now.c
        (position_in t (cells_at (history_of setting.now.world.now.store.now) id t))
        (position_in t (cells_at (history_of setting.now.world.now.store.now) id t)))) }
    ensures step { reads.new ≡ reads.old + 1 }
{
    let world = setting.world;
    let course = world.store.timeline(id, reads);
    let exact = world.blur.exact();
    let runs = distance_runs(alloc, course, course, compared, exact, setting.w)?;
    Ok(IntervalSet::from_runs(runs))
}

// Those of two different objects.
fn apart_ticks<L: Ledger>(
    alloc: Global,
    first: ObjectId,
    second: ObjectId,
    compared: &Comparison,
    setting: &Setting,
    reads: &mut Steps<L>,
) -> Result<IntervalSet, AllocError>
    requires first { IsObjectId setting.now.world.now.store.now first }
    requires second { IsObjectId setting.now.world.now.store.now second }
    ensures ticks { IfOk result (λ s. (t : ℕ) → spans_have s t ≡ (within setting.now.w.lo setting.now.w.hi t
        && distance_holds_by (comparison setting.now.world.now.blur.sure) setting.now.world.now.blur.error compared.now.op compared.now.c
        (position_in t (cells_at (history_of setting.now.world.now.store.now) first t))
        (position_in t (cells_at (history_of setting.now.world.now.store.now) second t)))) }
    ensures step { reads.new ≡ reads.old + 2 }
{
    let world = setting.world;
    let from = world.store.timeline(first, reads);
    let to = world.store.timeline(second, reads);
    let runs = distance_runs(alloc, from, to, compared, world.blur, setting.w)?;
    Ok(IntervalSet::from_runs(runs))
}
