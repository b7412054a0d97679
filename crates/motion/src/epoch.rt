//! Epochs: what an object has from one of its writes to the next.
ghost use Rattle.std.specs.Prelude.{◌≡◌, ◌≤◌, IsTrue, ◌↔◌, IsSome, IfOk, IfSome, slice_get, None, Some};
ghost use Rattle.std.specs.Option.{option_copied, option_map};
ghost use Rattle.tick_set.specs.Ticks.{IsTick};
ghost use Rattle.motion.specs.Cells.{AreCellsAt, AreChanges, IsCellAt, changed};
ghost use Rattle.motion.specs.Timeline.{Epoch, cells_of, IsEpoch};

use crate::cell::{Cell, Given};
use crate::change::changed;
use std::alloc::{AllocError, Global};
use std::marker::Model;

/// What an object has from a tick on, until it is written again: one cell for each of its attributes,
/// or nothing where it is absent. It is written once for all writes of its first tick.
#[derive(Drop)]
pub struct Epoch {
    from: u32,
    present: bool,
    cells: Vec<Cell>,
}

impl Model for Epoch {
    ghost use Rattle.motion.specs.Timeline.{Epoch, AreEpochFields, epoch_with};

    ghost Value = { Epoch };

    ghost view = { λ e. epoch_with e.from e.present e.cells.items };

    ghost invariant = { λ e. AreEpochFields e.from e.present e.cells.items };
}

impl Epoch {
    /// The epoch of a present object. Its cells were written by tick `from`.
    pub(crate) fn of(from: u32, cells: Vec<Cell>) -> Epoch
        requires tick { IsTick from }
        requires written { AreCellsAt cells.items from }
        ensures { result ≡ record { from = from; cells = Some cells.items } }
    {
        Epoch {
            from,
            present: true,
            cells,
        }
    }

    /// The epoch of an absent object. It takes no memory.
    pub(crate) fn absent(alloc: Global, from: u32) -> Epoch
        requires { IsTick from }
        ensures { result ≡ record { from = from; cells = None } }
    {
        Epoch {
            from,
            present: false,
            cells: Vec::new(alloc),
        }
    }

    /// The tick at which it begins.
    #[inline]
    pub fn from(&self) -> u32
        ensures value { result ≡ self.now.from }
        ensures epoch { IsEpoch self.now }
    {
        self.from
    }

    /// Whether the object is there.
    #[inline]
    pub fn is_present(&self) -> bool
        ensures { IsTrue result ↔ IsSome self.now.cells }
    {
        self.present
    }

    /// The cells in the order of the attributes, none where the object is absent.
    #[inline]
    pub fn cells(&self) -> &[Cell]
        ensures value { result.now ≡ cells_of self.now }
        ensures written { AreCellsAt result.now self.now.from }
    {
        &self.cells
    }

    /// The cell of an attribute by its index. None exactly where the object is absent or has no such attribute.
    #[inline]
    pub fn cell(&self, a: usize) -> Option<&Cell>
        ensures value { option_copied result ≡ slice_get (cells_of self.now) a }
        ensures written { IfSome result (λ cell. IsCellAt cell.now self.now.from) }
    {
        self.cells.get(a)
    }

    /// The epoch that writes at tick `now`, which isn't before this one, make of this one.
    pub(crate) fn changed(
        &self,
        alloc: Global,
        now: u32,
        changes: &[(usize, Given)],
    ) -> Result<Epoch, AllocError>
        requires after { self.now.from ≤ now }
        requires tick { IsTick now }
        requires given { AreChanges changes.now }
        ensures { IfOk result (λ e. e ≡ record { from = now; cells = option_map (changed now changes.now) self.now.cells }) }
    {
        if !self.present {
            return Ok(Epoch::absent(alloc, now));
        }
        let cells = changed(alloc, now, &self.cells, changes)?;
        Ok(Epoch::of(now, cells))
    }
}
