//! What an object has of an attribute throughout the window, as most do.
ghost use Rattle.std.specs.Prelude.{◌≡◌, ℕ, ◌≤◌, Some, IfSome, IsTrue};
ghost use Rattle.courses.specs.Parts.{epochs_of_each};
ghost use Rattle.meaning.specs.Value.{cell_in};
ghost use Rattle.motion.specs.Cells.{IsCellAt};
ghost use Rattle.motion.specs.Pieces.{IsLinear};
ghost use Rattle.motion.specs.Timeline.{epoch_at, state_at};
ghost use Rattle.atoms.specs.Parts.{IsSteadyCell, trace_by};

use crate::lines::timeline_of;
use crate::parts::Traces;
use motion::{Cell, Epoch, Timeline, Vector};
use tick_set::Window;

/// The cell of an attribute of the object of a variable, where it stays throughout the window, and what moves in it does so
/// by one slope. None tells nothing.
#[inline(always)]
pub fn cell_throughout<'a>(v: u8, a: u8, traces: &Traces<'a>) -> Option<&'a Cell>
    ensures value { IfSome result (λ cell. (t : ℕ) → traces.now.w.lo ≤ t → t ≤ traces.now.w.hi
        → cell_in (trace_by traces.now.variables.now (epochs_of_each traces.now.timelines.now) v t) a ≡ Some cell.now) }
    ensures steady { IfSome result (λ cell. IsSteadyCell cell.now traces.now.w.lo traces.now.w.hi) }
{
    last_cell(
        timeline_of(v, traces.variables, traces.timelines)?,
        a,
        traces.w,
    )
}

// The same of a timeline.
#[inline]
#[tactic(auto, using(crate::proofs::AttributeLemmas::cell_throughout, crate::proofs::AttributeLemmas::cell_later))]
fn last_cell(timeline: &Timeline, a: u8, w: Window) -> Option<&Cell>
    ensures value { IfSome result (λ cell. (t : ℕ) → w.lo ≤ t → t ≤ w.hi
        → cell_in (state_at timeline.now t) a ≡ Some cell.now) }
    ensures steady { IfSome result (λ cell. IsSteadyCell cell.now w.lo w.hi) }
{
    let epoch = epoch_throughout(timeline, w)?;
    let cell = epoch.cell(usize::from(a))?;
    if is_steady(cell, w) { Some(cell) } else { None }
}

/// The epoch in force throughout the window, where it is the last one. None tells nothing.
#[inline]
#[tactic(auto, using(crate::proofs::AttributeLemmas::begun_later, motion::proofs::CallerLemmas::last_begun))]
pub fn epoch_throughout(timeline: &Timeline, w: Window) -> Option<&Epoch>
    ensures in_force { IfSome result (λ p. (t : ℕ) → w.lo ≤ t → t ≤ w.hi → epoch_at timeline.now t ≡ Some p.now) }
    ensures begun { IfSome result (λ p. p.now.from ≤ w.lo) }
{
    if !timeline.is_begun_by(w.lo) {
        return None;
    }
    timeline.last()
}

// Whether what moves in a cell, which was written by the window's first tick, does so by one slope.
#[inline]
#[tactic(auto, using(crate::proofs::AttributeLemmas::steady_dynamic))]
fn is_steady(cell: &Cell, w: Window) -> bool
    requires { IsCellAt cell.now w.lo }
    ensures { IsTrue result → IsSteadyCell cell.now w.lo w.hi }
{
    match cell {
        Cell::Dyn(vector) => has_one_slope(vector, w),
        _ => true,
    }
}

#[inline]
fn has_one_slope(vector: &Vector, w: Window) -> bool
    requires { vector.now.updatetime ≤ w.lo }
    ensures { IsTrue result → IsLinear vector.now w.lo w.hi }
{
    match vector.next_end(w.lo) {
        Some(end) => w.hi < end,
        None => true,
    }
}
