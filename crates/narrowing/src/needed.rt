//! The objects without which a formula holds nowhere.
ghost use Rattle.std.specs.Prelude.{IfSome, IfOk, ℕ};
ghost use Rattle.std.specs.List.Sorted.{IsStrictlyIncreasing};
ghost use Rattle.std.specs.Option.{option_map};
ghost use Rattle.formula_shape.specs.Shape as shapes;
ghost use Rattle.formula.specs.Tree.{formula_view};
ghost use Rattle.formula.specs.declared.tree.RAtom.{RAtom};
ghost use Rattle.narrowing.specs.Beside.{NeedsBeside};
ghost use Rattle.narrowing.specs.declared.scene.Scene.{Scene};
ghost use Rattle.narrowing.specs.Needed.{AreNeeded, IsOfBoth, IsOfEither};

use crate::atom_area::area_of;
use crate::lists::{common, merged};
use crate::nearby::{Neighbour, few_of, neighbour_of, those_beside};
use crate::scene::Scene;
use formula::{RAtom, RFormula};
use meaning::formulas_need_their_atoms;
use object_store::ClassId;
use std::alloc::{AllocError, Global};

/// Ids, ascending. Where a variable has another object of the class, and each one an object of its domain, the formula
/// holds at no tick of the window, though each position may be off by the error. None where no such ids are known.
pub(crate) fn needed(
    alloc: Global,
    f: &RFormula,
    var: u8,
    class: ClassId,
    scene: &Scene,
) -> Result<Option<Vec<u32>>, AllocError>
    ensures { IfOk result (λ found. IfSome found (λ ids. AreNeeded scene.now class var (formula_view f.now) ids.items)) }
{
    formulas_need_their_atoms();
    match f {
        RFormula::Truth(holds) => Ok(needed_by_truth(alloc, *holds)),
        RFormula::Atom(a) => needed_by_atom(alloc, a, var, class, scene),
        RFormula::Not(_) => Ok(None),
        RFormula::And(left, right) => {
            let left = needed(alloc, left, var, class, scene)?;
            let right = needed(alloc, right, var, class, scene)?;
            let ids = of_either(alloc, left, right)?;
            Ok(ids)
        }
        RFormula::Or(left, right) => {
            let left = needed(alloc, left, var, class, scene)?;
            let right = needed(alloc, right, var, class, scene)?;
            let ids = of_both(left, right)?;
            Ok(ids)
        }
        RFormula::Next(part) => needed(alloc, part, var, class, scene),
        RFormula::Eventually(part) => needed(alloc, part, var, class, scene),
        RFormula::Always(part) => needed(alloc, part, var, class, scene),
        RFormula::Bounded(_, _, part) => needed(alloc, part, var, class, scene),
        RFormula::Until(_, _, _, goal) => needed(alloc, goal, var, class, scene),
        RFormula::Assign(_, _, part) => needed(alloc, part, var, class, scene),
    }
}

/// FALSE needs what isn't there.
fn needed_by_truth(alloc: Global, holds: bool) -> Option<Vec<u32>>
    ensures { IfSome result (λ ids. (a : Scene) (class v : ℕ) → AreNeeded a class v (shapes.Truth holds) ids.items) }
{
    if holds { None } else { Some(Vec::new(alloc)) }
}

/// The objects that can come into the area of an atom, or near to one of few others.
fn needed_by_atom(
    alloc: Global,
    a: &RAtom,
    var: u8,
    class: ClassId,
    scene: &Scene,
) -> Result<Option<Vec<u32>>, AllocError>
    ensures { IfOk result (λ found. IfSome found (λ ids. AreNeeded scene.now class var (shapes.Atom a.now) ids.items)) }
{
    if let Some(neighbour) = neighbour_of(a, var, scene.error) {
        return needed_beside(alloc, neighbour, class, scene);
    }
    match area_of(a, var, scene.regions, scene.error) {
        Some(area) => {
            let found = scene.store.near(alloc, class, &area, scene.w)?;
            Ok(found)
        }
        None => Ok(None),
    }
}

/// The objects that can come near to one of those of another variable, where these are few.
fn needed_beside(
    alloc: Global,
    neighbour: Neighbour,
    class: ClassId,
    scene: &Scene,
) -> Result<Option<Vec<u32>>, AllocError>
    ensures { IfOk result (λ found. IfSome found (λ ids. (v : ℕ) (a : RAtom) → NeedsBeside scene.now.error v neighbour.var neighbour.most a
        → AreNeeded scene.now class v (shapes.Atom a) ids.items)) }
{
    match few_of(neighbour.var, scene) {
        Some(others) => those_beside(alloc, class, others, neighbour.most, scene),
        None => Ok(None),
    }
}

/// What AND needs, of what its parts need: what both of them do.
fn of_either(
    alloc: Global,
    left: Option<Vec<u32>>,
    right: Option<Vec<u32>>,
) -> Result<Option<Vec<u32>>, AllocError>
    requires left { IfSome left (λ ids. IsStrictlyIncreasing ids.items) }
    requires right { IfSome right (λ ids. IsStrictlyIncreasing ids.items) }
    ensures { IfOk result (λ found. IfSome found (λ ids. IsOfEither (option_map (λ ids. ids.items) left) (option_map (λ ids. ids.items) right) ids.items)) }
{
    match (left, right) {
        (Some(left), Some(right)) => {
            let ids = common(alloc, &left, &right)?;
            Ok(Some(ids))
        }
        (Some(left), None) => Ok(Some(left)),
        (None, right) => Ok(right),
    }
}

/// What OR needs, of what its parts need: what any of them does.
fn of_both(left: Option<Vec<u32>>, right: Option<Vec<u32>>) -> Result<Option<Vec<u32>>, AllocError>
    ensures { IfOk result (λ found. IfSome found (λ ids. IsOfBoth (option_map (λ ids. ids.items) left) (option_map (λ ids. ids.items) right) ids.items)) }
{
    match (left, right) {
        (Some(left), Some(right)) => {
            let ids = merged(left, &right)?;
            Ok(Some(ids))
        }
        (Some(_), None) => Ok(None),
        (None, _) => Ok(None),
    }
}
