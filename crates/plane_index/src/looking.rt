//! The last state of an object, and the strips that it covers in a slice.
ghost use Rattle.std.specs.Prelude.{◌≡◌, ◌≤◌, ◌<◌, ℕ, Some, None, IfSome};
ghost use Rattle.motion.specs.Cells.{IsCellAt};
ghost use Rattle.tick_set.specs.Ticks.{IsTick};
ghost use Rattle.plane.specs.Boxes.{IsSlice};
ghost use Rattle.plane_index.specs.Held.{kept_strips};
ghost use Rattle.plane_index.specs.Lines.{AreValuesOf, strips_as};
ghost use Rattle.plane_index.specs.States.{no_state, strips_by_state, IsWritten};
ghost use Rattle.plane_index.specs.Told.{strips_along};

use crate::cover::{Cover, NO_STRIPS};
use crate::grid::Grid;
use crate::state::State;
use fixed_point::Fix;
use motion::{Cell, Timeline};

impl State {
    /// That of an object that was never there.
    pub fn none() -> State
        ensures { result ≡ no_state }
    {
        State {
            from: 0,
            cell: None,
        }
    }

    /// That of the object of a timeline.
    pub fn of(grid: &Grid, timeline: &Timeline) -> State
        ensures written { IsWritten result }
        ensures strips { (s : ℕ) → kept_strips (strips_by_state result grid.now s) ≡ kept_strips (strips_along timeline.now grid.now s) }
    {
        let _begun = timeline.begun_by(grid.from());
        match timeline.last() {
            Some(epoch) => State {
                from: epoch.from(),
                cell: epoch.cell(grid.attribute()).copied(),
            },
            None => State::none(),
        }
    }

    /// The strips that it covers in a slice, from its first tick on.
    pub fn cover(&self, grid: &Grid, s: usize) -> Cover
        requires slice { IsSlice s }
        requires written { IsWritten self.now }
        ensures { strips_as result ≡ kept_strips (strips_by_state self.now grid.now s) }
    {
        let slice = grid.slice(s);
        let from = slice.lo.max(self.from);
        match extent(&self.cell, from, slice.hi) {
            Some(ends) => Cover::between(grid, ends.0, ends.1),
            None => NO_STRIPS,
        }
    }
}

// The least and the greatest number of a cell over the ticks from `from`, by which it was written, to `until`. None where
// there is no tick, or no number.
fn extent(cell: &Option<Cell>, from: u32, until: u32) -> Option<(Fix, Fix)>
    requires written { IfSome cell.now (λ c. IsCellAt c from) }
    requires tick { IsTick until }
    ensures { AreValuesOf cell.now from until result }
{
    if until < from {
        return None;
    }
    match cell {
        Some(cell) => values_of(cell, from, until),
        None => None,
    }
}

// The same of a cell that is there, where there is a tick.
fn values_of(cell: &Cell, from: u32, until: u32) -> Option<(Fix, Fix)>
    requires written { IsCellAt cell.now from }
    requires order { from ≤ until }
    requires tick { IsTick until }
    ensures { AreValuesOf (Some cell.now) from until result }
{
    match cell {
        Cell::Num(number) => Some((*number, *number)),
        Cell::Text(_) => None,
        Cell::Dyn(vector) => Some(vector.range(from, until)),
    }
}
