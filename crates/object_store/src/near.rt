//! The objects that can come into an area.
ghost use Rattle.std.specs.Prelude.{◌≡◌, ◌≤◌, List, [], ◌∷◌, ℕ, All, IfOk, OnOk, false, true};
ghost use Rattle.motion.specs.Timeline.{state_at, AreBegunBy};
ghost use Rattle.object_store.specs.Areas.{is_in_area, is_told};
ghost use Rattle.object_store.specs.ObjectView.{objects_of};
ghost use Rattle.object_store.specs.Searching.{state_in, AreFrom, IsNowhere, IsSearched};

use crate::areas::Area;
use crate::objects::{Object, Objects};
use std::alloc::{AllocError, Global};
use tick_set::Window;

/// Those of these ids whose objects can be in an area at a tick of the window, which begins before no last epoch.
pub fn those_near(
    alloc: Global,
    objects: &Objects,
    ids: &[u32],
    area: &Area,
    w: Window,
) -> Result<Vec<u32>, AllocError>
    requires begun { All (λ o. AreBegunBy o.epochs w.lo) (objects_of objects.now.entries) }
    requires ascending { AreFrom 0 ids.now }
    ensures { IfOk result (λ found.
        IsSearched (IsNowhere (objects_of objects.now.entries) area.now w.lo w.hi) ids.now found.items []) }
{
    let mut found = Vec::new(alloc);
    let mut rest = ids;
    'ids: while let Some((id, later)) = rest.split_first() {
        push_near(&mut found, objects, *id, area, w)?;
        rest = later;
    }
    Ok(found)
}

/// Appends an id if its object can be in an area at a tick of the window.
#[tactic(auto, using(crate::proofs::AreaLemmas::searched_found, crate::proofs::AreaLemmas::searched_lost))]
fn push_near(
    found: &mut Vec<u32>,
    objects: &Objects,
    id: u32,
    area: &Area,
    w: Window,
) -> Result<(), AllocError>
    requires { All (λ o. AreBegunBy o.epochs w.lo) (objects_of objects.now.entries) }
    ensures { let Lost = IsNowhere (objects_of objects.now.entries) area.now w.lo w.hi in
        OnOk result ((ids rest : List ℕ) → IsSearched Lost ids found.old.items (id ∷ rest)
        → IsSearched Lost ids found.new.items rest) }
{
    if may_come(objects, id, area, w) {
        found.push(id)?;
    }
    Ok(())
}

/// Whether the object of an id can be in an area at a tick of the window.
pub fn may_come(objects: &Objects, id: u32, area: &Area, w: Window) -> bool
    requires { All (λ o. AreBegunBy o.epochs w.lo) (objects_of objects.now.entries) }
    ensures { result ≡ false → IsNowhere (objects_of objects.now.entries) area.now w.lo w.hi id }
{
    match objects.get_index(id as usize) {
        Some((_, object)) => object.may_come(area, w),
        None => false,
    }
}

/// Where the object of an id is over the window. None where it isn't there.
pub fn whereabouts(objects: &Objects, id: u32, w: Window) -> Option<Area>
    requires { All (λ o. AreBegunBy o.epochs w.lo) (objects_of objects.now.entries) }
    ensures { (t : ℕ) → w.lo ≤ t → t ≤ w.hi → is_told result t (state_in (objects_of objects.now.entries) id t) ≡ true }
{
    match objects.get_index(id as usize) {
        Some((_, object)) => object.whereabouts(w),
        None => None,
    }
}

impl Object {
    /// Where it is over the window, which doesn't begin before its last epoch. None where it isn't there.
    fn whereabouts(&self, w: Window) -> Option<Area>
        requires { AreBegunBy self.now.timeline w.lo }
        ensures { (t : ℕ) → w.lo ≤ t → t ≤ w.hi → is_told result t (state_at self.now.timeline t) ≡ true }
    {
        match self.timeline.last() {
            Some(epoch) if epoch.is_present() => Some(Area::over(epoch.cells(), w)),
            _ => None,
        }
    }

    /// Whether it can be in an area at a tick of the window, which doesn't begin before its last epoch.
    fn may_come(&self, area: &Area, w: Window) -> bool
        requires { AreBegunBy self.now.timeline w.lo }
        ensures { result ≡ false → (t : ℕ) → w.lo ≤ t → t ≤ w.hi
            → is_in_area area.now t (state_at self.now.timeline t) ≡ false }
    {
        match self.timeline.last() {
            Some(epoch) => epoch.is_present() && area.may_hold(epoch.cells(), w),
            None => false,
        }
    }
}
