//! Areas of the plane, and whether what moves can come into one.
ghost use Rattle.std.specs.Prelude.{◌≡◌, ◌≤◌, ℕ, ℤ, ◌≤ℤ◌, false, true, IfSome};
ghost use Rattle.std.specs.Option.{option_copied};
ghost use Rattle.tick_set.specs.declared.spans.TheConstants.{LAST_TICK};
ghost use Rattle.motion.specs.Cells.{AreCellsAt, IsCellAt};
ghost use Rattle.motion.specs.Dynamic.{value_at};
ghost use Rattle.object_store.specs.Areas.{are_in_area, is_between_sides, is_cell_between};
ghost use Rattle.object_store.specs.Placing.{extent_of, patch_of};

use fixed_point::Fix;
use motion::{Cell, Vector};
use places::{Extent, Patch};
use tick_set::Window;

/// The numbers from the least to the greatest of them, in thousandths, both included. A side that is None is open.
#[derive(Clone, Copy, Debug)]
pub struct Sides {
    pub least: Option<Fix>,
    pub greatest: Option<Fix>,
}

/// An upright box of the plane, of which each side may be open.
#[derive(Clone, Copy, Debug)]
pub struct Area {
    pub x: Sides,
    pub y: Sides,
}

impl Area {
    /// Where an object with these cells is over the window. A side is open where no dynamic attribute tells of it.
    pub(crate) fn over(cells: &[Cell], w: Window) -> Area
        requires { AreCellsAt cells.now w.lo }
        ensures { (t : ℕ) → w.lo ≤ t → t ≤ w.hi → are_in_area result t cells.now ≡ true }
    {
        Area {
            x: Sides::over(cells.first(), w),
            y: Sides::over(cells.get(1), w),
        }
    }

    /// The patch of its units.
    pub(crate) fn patch(&self) -> Patch
        ensures { result ≡ patch_of self.now }
    {
        Patch {
            x: self.x.extent(),
            y: self.y.extent(),
        }
    }

    /// Whether an object with these cells can be in the area at a tick of the window.
    pub(crate) fn may_hold(&self, cells: &[Cell], w: Window) -> bool
        requires { AreCellsAt cells.now w.lo }
        ensures { result ≡ false → (t : ℕ) → w.lo ≤ t → t ≤ w.hi → are_in_area self.now t cells.now ≡ false }
    {
        self.x.may_hold_cell(cells.first(), w) && self.y.may_hold_cell(cells.get(1), w)
    }
}

impl Sides {
    /// The sides between which what is in a cell is over the window.
    fn over(cell: Option<&Cell>, w: Window) -> Sides
        requires { IfSome cell (λ c. IsCellAt c.now w.lo) }
        ensures { (t : ℕ) → w.lo ≤ t → t ≤ w.hi → is_cell_between result t (option_copied cell.entry) ≡ true }
    {
        match cell {
            Some(Cell::Dyn(vector)) => Sides::over_value(vector, w),
            Some(Cell::Num(_)) => Sides::open(),
            Some(Cell::Text(_)) => Sides::open(),
            None => Sides::open(),
        }
    }

    /// The sides between which a dynamic attribute is, which isn't updated after the window's first tick.
    fn over_value(vector: &Vector, w: Window) -> Sides
        requires { vector.now.updatetime ≤ w.lo }
        ensures { (t : ℕ) → w.lo ≤ t → t ≤ w.hi → is_between_sides result (value_at vector.now t) ≡ true }
    {
        let (least, greatest) = vector.range(w.lo, w.hi);
        Sides {
            least: Some(least),
            greatest: Some(greatest),
        }
    }

    /// All numbers.
    fn open() -> Sides
        ensures { (n : ℤ) → is_between_sides result n ≡ true }
    {
        Sides {
            least: None,
            greatest: None,
        }
    }

    /// The units between them.
    fn extent(&self) -> Extent
        ensures { result ≡ extent_of self.now }
    {
        Extent::between(self.least, self.greatest)
    }

    /// Whether what is in a cell can be between these sides at a tick of the window. Without a dynamic attribute it can.
    fn may_hold_cell(&self, cell: Option<&Cell>, w: Window) -> bool
        requires { IfSome cell (λ c. IsCellAt c.now w.lo) }
        ensures { result ≡ false → (t : ℕ) → w.lo ≤ t → t ≤ w.hi
            → is_cell_between self.now t (option_copied cell.entry) ≡ false }
    {
        match cell {
            Some(Cell::Dyn(vector)) => self.may_hold_value(vector, w),
            Some(Cell::Num(_)) => true,
            Some(Cell::Text(_)) => true,
            None => true,
        }
    }

    /// Whether a dynamic attribute, which isn't updated after the window's first tick, can be between these sides.
    fn may_hold_value(&self, vector: &Vector, w: Window) -> bool
        requires { vector.now.updatetime ≤ w.lo }
        ensures { result ≡ false → (t : ℕ) → w.lo ≤ t → t ≤ w.hi → is_between_sides self.now (value_at vector.now t) ≡ false }
    {
        let (least, greatest) = vector.range(w.lo, w.hi);
        self.meet(least, greatest)
    }

    /// Whether some number from `least` to `greatest` is between these sides.
    fn meet(&self, least: Fix, greatest: Fix) -> bool
        ensures { result ≡ false → (n : ℤ) → least ≤ℤ n → n ≤ℤ greatest → is_between_sides self.now n ≡ false }
    {
        let is_below = self.least.is_some_and(|side| greatest.raw() < side.raw());
        let is_above = self.greatest.is_some_and(|side| side.raw() < least.raw());
        !is_below && !is_above
    }
}
