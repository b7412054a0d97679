//! The ticks at which an object's attribute lies between two bounds.
ghost use Rattle.std.specs.Prelude.{◌≡◌, ◌≤◌, ◌-◌, ◌&&◌, ℕ, ℤ, false, None, Some, IfOk, IfSome, option_to_list, slice_index_or};
ghost use Rattle.std.specs.Option.{option_copied, option_map_or};
ghost use Rattle.motion.specs.Dynamic.{Dynamic, value_at};
ghost use Rattle.motion.specs.Pieces.{AreSteadyCells, IsLinear};
ghost use Rattle.motion.specs.declared.cell.Cell.TheVariants as cells;
ghost use Rattle.tick_set.specs.Runs.{IsRuns};
ghost use Rattle.tick_set.specs.Ticks.{within};
ghost use Rattle.plane.specs.Rows.{is_between};
ghost use Rattle.plane_index.specs.Lines.{line_after, number_of_cell};
ghost use Rattle.plane_index.specs.Ticks.{runs_found, HasRun};
ghost use Rattle.plane_index.specs.Told.{lies_between, lies_in};

use crate::line::Line;
use crate::ticks::Ticks;
use courses::{Common, common_from};
use fixed_point::Fix;
use motion::{Cell, Epoch, Timeline, Vector};
use std::alloc::{AllocError, Global};
use tick_set::{Runs, Span, Window};

/// An attribute, and the bounds between which its value is to lie.
#[derive(Clone, Copy)]
pub struct Bounds {
    pub attribute: usize,
    pub lo: Fix,
    pub hi: Fix,
}

/// The ticks of the window at which the attribute of an object with this timeline lies between the bounds.
pub fn ticks_between(
    alloc: Global,
    timeline: &Timeline,
    bounds: &Bounds,
    w: Window,
) -> Result<Option<Ticks>, AllocError>
    ensures runs { IfOk result (λ found. IsRuns (λ t. within w.lo w.hi t
        && lies_between timeline.now bounds.now.attribute bounds.now.lo bounds.now.hi t) (runs_found found)) }
    ensures some { IfOk result (λ found. IfSome found HasRun) }
{
    // One line needs no look at the epochs.
    match line_from(timeline, bounds.attribute, w.lo) {
        Some(line) => Ok(single(line.between(bounds.lo, bounds.hi, w))),
        None => {
            let runs = runs_by_parts(alloc, timeline, bounds, w)?;
            Ok(Ticks::of(runs))
        }
    }
}

// One run, if there is one.
fn single(run: Option<Span>) -> Option<Ticks>
    ensures runs { runs_found result ≡ option_to_list run }
    ensures some { IfSome result HasRun }
{
    match run {
        Some(run) => Some(Ticks::single(run)),
        None => None,
    }
}

// The line along which an attribute moves from a tick on, if the timeline tells it.
fn line_from(timeline: &Timeline, attribute: usize, at: u32) -> Option<Line>
    ensures { IfSome result (λ line. (lo hi : ℤ) (t : ℕ) → at ≤ t
        → is_between lo hi (line_after line (t - at)) ≡ lies_between timeline.now attribute lo hi t) }
{
    let straight = timeline.straight()?;
    if at < straight.from {
        return None;
    }
    let past = at - straight.from;
    match attribute {
        0 => Line::after(straight.x, straight.dx, past),
        1 => Line::after(straight.y, straight.dy, past),
        _ => None,
    }
}

// The same, part by part of the timeline.
fn runs_by_parts(
    alloc: Global,
    timeline: &Timeline,
    bounds: &Bounds,
    w: Window,
) -> Result<Vec<Span>, AllocError>
    ensures { IfOk result (λ runs. IsRuns (λ t. within w.lo w.hi t
        && lies_between timeline.now bounds.now.attribute bounds.now.lo bounds.now.hi t) runs.items) }
{
    let timelines = [timeline];
    let mut runs = Runs::new(alloc);
    let mut at = w.lo;
    'parts: while at <= w.hi {
        let common = common_from(&timelines, at, w.hi);
        let next = common.span.hi + 1;
        runs.append(part_between(&common, bounds))?;
        at = next;
    }
    Ok(runs.finish())
}

// Those of a common part of that timeline alone.
fn part_between(common: &Common, bounds: &Bounds) -> Option<Span>
    requires { (k : ℕ) → IfSome (slice_index_or common.now.epochs k None)
        (λ epoch. AreSteadyCells epoch.now common.now.span.lo common.now.span.hi) }
    ensures { IsRuns (λ t. within common.now.span.lo common.now.span.hi t
        && lies_in (option_copied (slice_index_or common.now.epochs 0 None)) bounds.now.attribute bounds.now.lo bounds.now.hi t) (option_to_list result) }
{
    match common.epoch(0) {
        Some(epoch) => span_between(epoch, bounds, common.span.window()),
        None => None,
    }
}

// The ticks of the window at which the attribute of an epoch that is in force lies between two bounds. It moves along one
// line.
fn span_between(epoch: &Epoch, bounds: &Bounds, w: Window) -> Option<Span>
    requires { AreSteadyCells epoch.now w.lo w.hi }
    ensures { IsRuns (λ t. within w.lo w.hi t && lies_in (Some epoch.now) bounds.now.attribute bounds.now.lo bounds.now.hi t) (option_to_list result) }
{
    cell_between(epoch.cell(bounds.attribute)?, bounds.lo, bounds.hi, w)
}

// The same of a cell.
fn cell_between(cell: &Cell, lo: Fix, hi: Fix, w: Window) -> Option<Span>
    requires { (v : Dynamic) → cell.now ≡ cells.Dyn v → IsLinear v w.lo w.hi }
    ensures { IsRuns (λ t. within w.lo w.hi t
        && option_map_or (is_between lo hi) (number_of_cell (Some cell.now) t) false) (option_to_list result) }
{
    match cell {
        Cell::Num(number) => (lo <= *number && *number <= hi).then_some(w.span()),
        Cell::Text(_) => None,
        Cell::Dyn(vector) => line_of(vector, w).between(lo, hi, w),
    }
}

// The line along which a vector moves from the first tick of the window on.
fn line_of(vector: &Vector, w: Window) -> Line
    requires { IsLinear vector.now w.lo w.hi }
    ensures { (t : ℕ) → w.lo ≤ t → t ≤ w.hi → line_after result (t - w.lo) ≡ value_at vector.now t }
{
    Line {
        start: vector.at(w.lo).raw(),
        slope: vector.slope_at(w.lo).raw(),
    }
}
