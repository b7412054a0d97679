//! Writes to the cells of an epoch.
ghost use Rattle.std.specs.Prelude.{◌≡◌, IfOk};
ghost use Rattle.tick_set.specs.Ticks.{IsTick};
ghost use Rattle.motion.specs.Cells.{AreCellsAt, AreChanges, IsGiven, changed, set_at};

use crate::cell::{Cell, Given};
use std::alloc::{AllocError, Global};

/// A copy of these cells after writes at tick `now`, in their order.
pub fn changed(
    alloc: Global,
    now: u32,
    cells: &[Cell],
    changes: &[(usize, Given)],
) -> Result<Vec<Cell>, AllocError>
    requires tick { IsTick now }
    requires after { AreCellsAt cells.now now }
    requires given { AreChanges changes.now }
    ensures cells { IfOk result (λ v. v.items ≡ changed now changes.now cells.now) }
    ensures written { IfOk result (λ v. AreCellsAt v.items now) }
{
    let mut made = Vec::from_slice(alloc, cells)?;
    write_cells(&mut made, now, changes);
    Ok(made)
}

/// Writes at tick `now` to these cells, in the order of the changes, each of which names its cell by its
/// index. What doesn't fit the kind of its cell, and an index past the cells, leaves them. It takes no
/// memory.
pub fn write_cells(cells: &mut [Cell], now: u32, changes: &[(usize, Given)])
    requires tick { IsTick now }
    requires after { AreCellsAt cells.old now }
    requires given { AreChanges changes.now }
    ensures cells { cells.new ≡ changed now changes.now cells.old }
    ensures written { AreCellsAt cells.new now }
{
    let mut rest = changes;
    while let Some((change, later)) = rest.split_first() {
        set(cells, now, change.0, &change.1);
        rest = later;
    }
}

/// Writes at tick `now` to the cell of an index; an index past the cells leaves all.
fn set(cells: &mut [Cell], now: u32, index: usize, given: &Given)
    requires tick { IsTick now }
    requires after { AreCellsAt cells.old now }
    requires given { IsGiven given.now }
    ensures cells { cells.new ≡ set_at now cells.old index given.now }
    ensures written { AreCellsAt cells.new now }
{
    if index < cells.len() {
        cells[index].write(now, given);
    }
}
