//! Whether a formula can hold with one object, and with any of few.
ghost use Rattle.std.specs.Prelude.{◌≡◌, ◌<◌, ◌∷◌, ℕ, false, List, [], length, IfOk, OnOk};
ghost use Rattle.std.specs.List.Sorted.{IsStrictlyIncreasing};
ghost use Rattle.object_store.specs.Searching.{IsSearched};
ghost use Rattle.formula_shape.specs.Shape as shapes;
ghost use Rattle.formula.specs.Tree.{formula_view, resolved_view};
ghost use Rattle.formula.specs.declared.tree.RAtom.{RAtom};
ghost use Rattle.narrowing.specs.Beside.{NeedsBeside};
ghost use Rattle.narrowing.specs.Needed.{Fails, told};
ghost use Rattle.narrowing.specs.Holding.{AreLost, CanHoldNowhere, FailsWith};
ghost use Rattle.relation.specs.Frames.{IsIn};

use crate::atom_area::area_of;
use crate::nearby::{Neighbour, can_be_beside, few_of, neighbour_of};
use crate::scene::Scene;
use formula::{RAtom, RFormula, RQuery};
use meaning::formulas_need_their_atoms;
use object_store::Store;
use polygon::Regions;
use relation::Domains;
use std::alloc::{AllocError, Global};
use tick_set::Window;
use worlds::worlds_lie_between;

/// So few objects are looked at one by one.
pub(crate) const FEW: usize = 32;

/// Whether the formula of a query can hold at a tick of the window, after whose last tick nothing counts, where each
/// variable has an object of its domain. It is taken to be so unless each of few objects of some variable is outside of
/// where the formula needs it. It takes no memory, and no timeline is looked at.
pub fn can_hold(q: &RQuery, domains: &Domains, store: &Store, regions: &Regions, w: Window) -> bool
    ensures { result ≡ false → (b : ℕ → ℕ) → IsIn domains.now b → Fails (told store.now regions.now b) w.lo w.hi (resolved_view q.now).formula }
{
    worlds_lie_between();
    let scene = Scene {
        domains,
        store,
        regions,
        error: 0,
        w,
    };
    can_hold_somewhere(&q.formula, &scene)
}

/// The same of a query of one variable, where this has one object.
pub fn can_hold_alone(
    alloc: Global,
    q: &RQuery,
    id: u32,
    store: &Store,
    regions: &Regions,
    w: Window,
) -> bool
    ensures { result ≡ false → (b : ℕ → ℕ) → b 0 ≡ id → Fails (told store.now regions.now b) w.lo w.hi (resolved_view q.now).formula }
{
    worlds_lie_between();
    let domains = Domains::new(alloc);
    let scene = Scene {
        domains: &domains,
        store,
        regions,
        error: 0,
        w,
    };
    can_hold_with(&q.formula, 0, id, &scene)
}

/// Whether a formula can hold where each variable has an object of its domain.
fn can_hold_somewhere(f: &RFormula, scene: &Scene) -> bool
    ensures { result ≡ false → CanHoldNowhere scene.now (formula_view f.now) }
{
    let count = scene.domains.len() as u8;
    'vars: for var in 0..count {
        if !can_hold_for(f, var, scene) {
            return false;
        }
    }
    true
}

/// Whether a formula can hold with an object of the domain of a variable, where this has few.
fn can_hold_for(f: &RFormula, var: u8, scene: &Scene) -> bool
    requires { var < length scene.now.domains.now }
    ensures { result ≡ false → CanHoldNowhere scene.now (formula_view f.now) }
{
    let own = scene.domains.of(var);
    if own.len() >= FEW {
        return true;
    }
    can_hold_with_any(f, var, own, scene)
}

/// Whether a formula can hold where a variable has one of these objects.
fn can_hold_with_any(f: &RFormula, var: u8, ids: &[u32], scene: &Scene) -> bool
    ensures { result ≡ false → AreLost (FailsWith scene.now var (formula_view f.now)) ids.now [] }
{
    let mut rest = ids;
    'ids: while let Some((id, later)) = rest.split_first() {
        if can_hold_with(f, var, *id, scene) {
            return true;
        }
        rest = later;
    }
    false
}

/// Those of ascending ids with which a formula can hold.
pub(crate) fn those_to_hold(
    alloc: Global,
    f: &RFormula,
    var: u8,
    ids: &[u32],
    scene: &Scene,
) -> Result<Vec<u32>, AllocError>
    requires { IsStrictlyIncreasing ids.now }
    ensures { IfOk result (λ found. IsSearched (FailsWith scene.now var (formula_view f.now)) ids.now found.items []) }
{
    let mut found = Vec::new(alloc);
    let mut rest = ids;
    'ids: while let Some((id, later)) = rest.split_first() {
        push_to_hold(&mut found, f, var, *id, scene)?;
        rest = later;
    }
    Ok(found)
}

/// Appends an id with which a formula can hold.
fn push_to_hold(
    found: &mut Vec<u32>,
    f: &RFormula,
    var: u8,
    id: u32,
    scene: &Scene,
) -> Result<(), AllocError>
    ensures { let Lost = FailsWith scene.now var (formula_view f.now) in
        OnOk result ((ids rest : List ℕ) → IsSearched Lost ids found.old.items (id ∷ rest)
        → IsSearched Lost ids found.new.items rest) }
{
    if can_hold_with(f, var, id, scene) {
        found.push(id)?;
    }
    Ok(())
}

/// Whether a formula can hold where a variable has this object and the others have objects of their domains.
pub(crate) fn can_hold_with(f: &RFormula, var: u8, id: u32, scene: &Scene) -> bool
    ensures { result ≡ false → FailsWith scene.now var (formula_view f.now) id }
{
    formulas_need_their_atoms();
    match f {
        RFormula::Truth(holds) => *holds,
        RFormula::Atom(a) => can_atom_hold(a, var, id, scene),
        RFormula::Not(_) => true,
        RFormula::And(left, right) => {
            can_hold_with(left, var, id, scene) && can_hold_with(right, var, id, scene)
        }
        RFormula::Or(left, right) => {
            can_hold_with(left, var, id, scene) || can_hold_with(right, var, id, scene)
        }
        RFormula::Next(part) => can_hold_with(part, var, id, scene),
        RFormula::Eventually(part) => can_hold_with(part, var, id, scene),
        RFormula::Always(part) => can_hold_with(part, var, id, scene),
        RFormula::Bounded(_, _, part) => can_hold_with(part, var, id, scene),
        RFormula::Until(_, _, _, goal) => can_hold_with(goal, var, id, scene),
        RFormula::Assign(_, _, part) => can_hold_with(part, var, id, scene),
    }
}

/// Whether the object can be in the area of an atom, or near to one of few others.
fn can_atom_hold(a: &RAtom, var: u8, id: u32, scene: &Scene) -> bool
    ensures { result ≡ false → FailsWith scene.now var (shapes.Atom a.now) id }
{
    if let Some(neighbour) = neighbour_of(a, var, scene.error) {
        return can_be_near(id, neighbour, scene);
    }
    match area_of(a, var, scene.regions, scene.error) {
        Some(area) => scene.store.can_be_in(id, &area, scene.w),
        None => true,
    }
}

/// Whether an object can come near to one of those of another variable, where these are few.
fn can_be_near(id: u32, neighbour: Neighbour, scene: &Scene) -> bool
    ensures { result ≡ false → (v : ℕ) (a : RAtom) → NeedsBeside scene.now.error v neighbour.var neighbour.most a
        → FailsWith scene.now v (shapes.Atom a) id }
{
    match few_of(neighbour.var, scene) {
        Some(others) => can_be_beside(id, others, neighbour.most, scene),
        None => true,
    }
}
