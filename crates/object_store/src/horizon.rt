//! Where the objects of a store can be, over the ticks of a horizon.
ghost use Rattle.std.specs.Prelude.{◌≡◌, ◌<◌, ◌≤◌, ℕ, All, IfSome, Some, length};
ghost use Rattle.std.specs.Option.{option_copied};
ghost use Rattle.indexmap.specs.IndexMap.{index_map_len};
ghost use Rattle.motion.specs.declared.cell.Cell.TheVariants as cells;
ghost use Rattle.motion.specs.Cells.{IsCellAt};
ghost use Rattle.motion.specs.Timeline.{AreBegunBy};
ghost use Rattle.tick_set.specs.Ticks.{IsTick};
ghost use Rattle.object_store.specs.ObjectView.{objects_of};
ghost use Rattle.object_store.specs.Placing.{ArePlacedIn, EndInTime, HavePatches, IsPlaced, IsWithin, LiesInPatch};

use crate::along::{patch_along, patches_along};
use crate::objects::{Object, Objects};
use motion::{Cell, Epoch, Vector};
use places::{Boxes, Extent, Patch, Patches, Places};

/// Makes all patches anew, for the ticks from `from` to `upto`.
pub fn renew_patches(boxes: &mut Boxes, objects: &Objects, from: u32, upto: u32)
    requires tick { IsTick upto }
    requires begun { All (λ o. AreBegunBy o.epochs from) (objects_of objects.now.entries) }
    requires long { length boxes.old.patches ≡ length (objects_of objects.now.entries) }
    ensures { ArePlacedIn from boxes.new (objects_of objects.now.entries) }
{
    'objects: for index in 0..objects.len() {
        let patch = objects[index].patch(from, upto);
        boxes.set(index, patch);
    }
    boxes.renew(upto);
}

impl Object {
    /// Patches in which it is from the tick `from`, by which its last epoch has begun, to the end of each horizon.
    pub fn patches(&self, places: &Places, from: u32) -> Patches
        requires begun { AreBegunBy self.now.timeline from }
        requires ends { EndInTime places.now }
        ensures { HavePatches from places.now result self.now.timeline }
    {
        match self.timeline.straight() {
            Some(line) => patches_along(line, places, from),
            None => self.patches_by_epoch(places, from),
        }
    }

    /// The same by the last epoch.
    fn patches_by_epoch(&self, places: &Places, from: u32) -> Patches
        requires begun { AreBegunBy self.now.timeline from }
        requires ends { EndInTime places.now }
        ensures { HavePatches from places.now result self.now.timeline }
    {
        Patches {
            short: self.patch_by_epoch(from, places.short.upto()),
            middle: self.patch_by_epoch(from, places.middle.upto()),
            long: self.patch_by_epoch(from, places.long.upto()),
            longest: self.patch_by_epoch(from, places.longest.upto()),
        }
    }

    /// A patch in which it is at each tick from `from` to `upto`, unless it is absent. Its last epoch has begun by then.
    pub fn patch(&self, from: u32, upto: u32) -> Patch
        requires begun { AreBegunBy self.now.timeline from }
        requires tick { IsTick upto }
        ensures { IsPlaced from upto result self.now.timeline }
    {
        match self.timeline.straight() {
            Some(line) => patch_along(line, from, upto),
            None => self.patch_by_epoch(from, upto),
        }
    }

    /// The same by the last epoch.
    fn patch_by_epoch(&self, from: u32, upto: u32) -> Patch
        requires begun { AreBegunBy self.now.timeline from }
        requires tick { IsTick upto }
        ensures { IsPlaced from upto result self.now.timeline }
    {
        match self.timeline.last() {
            Some(epoch) => patch_of(epoch, from, upto),
            None => Patch::nowhere(),
        }
    }
}

/// A patch in which an object is, unless it is absent, at each tick from `from` to `upto`, while an epoch is in force.
fn patch_of(epoch: &Epoch, from: u32, upto: u32) -> Patch
    requires begun { epoch.now.from ≤ from }
    requires tick { IsTick upto }
    ensures { (t : ℕ) → from ≤ t → t ≤ upto → LiesInPatch result t epoch.now.cells }
{
    if upto < from || !epoch.is_present() {
        return Patch::nowhere();
    }
    let begun = epoch.from();
    Patch {
        x: extent_of(epoch.cell(0), begun, from, upto),
        y: extent_of(epoch.cell(1), begun, from, upto),
    }
}

/// An extent within which a cell, which was written by the tick `begun`, is from `from` to `upto`.
fn extent_of(cell: Option<&Cell>, begun: u32, from: u32, upto: u32) -> Extent
    requires written { IfSome cell (λ c. IsCellAt c.now begun) }
    requires begun { begun ≤ from }
    requires order { from ≤ upto }
    requires tick { IsTick upto }
    ensures { (t : ℕ) → from ≤ t → t ≤ upto → IsWithin result t (option_copied cell.entry) }
{
    match cell {
        Some(Cell::Dyn(vector)) => extent_of_vector(vector, from, upto),
        Some(Cell::Num(_)) => Extent::all(),
        Some(Cell::Text(_)) => Extent::all(),
        None => Extent::all(),
    }
}

/// The extent of a dynamic attribute's values from `from`, which isn't before its update, to `upto`.
fn extent_of_vector(vector: &Vector, from: u32, upto: u32) -> Extent
    requires begun { vector.now.updatetime ≤ from }
    requires order { from ≤ upto }
    requires tick { IsTick upto }
    ensures { (t : ℕ) → from ≤ t → t ≤ upto → IsWithin result t (Some (cells.Dyn vector.now)) }
{
    let (least, greatest) = vector.range(from, upto);
    Extent::of(least, greatest)
}
