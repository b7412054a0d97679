//! Atoms that need an object near another one, and which objects can come near to few.
ghost use Rattle.std.specs.Prelude.{◌≡◌, ◌≤◌, ◌*◌, ◌+ℤ◌, ◌-ℤ◌, pos, true, false, [], Some, IfOk, IfSome};
ghost use Rattle.formula.specs.declared.tree.RAtom.TheVariants as atoms;
ghost use Rattle.narrowing.specs.Beside.{AreBeside, AreDomainOf, IsApart, IsGrown, IsGrownSides, IsWithNear, IsWithThose, NeedsBeside};
ghost use Rattle.narrowing.specs.Holding.{AreLost};
ghost use Rattle.case_table.specs.Comparison.{is_at_most};
ghost use Rattle.object_store.specs.Contents.{HasNoWriteAfter};

use crate::holding::FEW;
use crate::lists::{if_at_most, in_order};
use crate::scene::Scene;
use case_table::Op;
use fixed_point::Fix;
use formula::RAtom;
use object_store::{Area, ClassId, Sides};
use std::alloc::{AllocError, Global};

/// Another variable, and how far from its object an object may be along each axis.
#[derive(Clone, Copy, Debug)]
pub(crate) struct Neighbour {
    pub var: u8,
    pub most: Fix,
}

// Of which class objects are looked for, how far they may be along each axis, and how many at most are worth it.
#[derive(Drop)]
struct Sought {
    class: ClassId,
    most: Fix,
    limit: usize,
}

/// Near which other variable's object an atom needs that of a variable, where each position may be off by the error. None
/// where it needs it near none.
pub(crate) fn neighbour_of(a: &RAtom, var: u8, error: u32) -> Option<Neighbour>
    ensures { IfSome result (λ n. NeedsBeside error var n.var n.most a.now) }
{
    match a {
        RAtom::Dist(v, u, op, c) => neighbour_in(*v, *u, *op, *c, var, error),
        RAtom::Compare(_, _, _) => None,
        RAtom::Inside(_, _) => None,
        RAtom::Outside(_, _) => None,
        RAtom::Sphere(_, _) => None,
    }
}

/// The one of two variables whose distance is compared that isn't this variable.
fn neighbour_in(v: u8, u: u8, op: Op, c: Fix, var: u8, error: u32) -> Option<Neighbour>
    ensures { IfSome result (λ n. NeedsBeside error var n.var n.most (atoms.Dist v u op c)) }
{
    if !is_at_most(op) {
        return None;
    }
    let most = widest(c, error)?;
    if v == var {
        Some(Neighbour { var: u, most })
    } else if u == var {
        Some(Neighbour { var: v, most })
    } else {
        None
    }
}

/// How far apart two objects may seem, where each is off by the error, that are so far apart.
fn widest(c: Fix, error: u32) -> Option<Fix>
    ensures { IfSome result (λ most. most ≡ c +ℤ pos (2 * error)) }
{
    Fix::of(c.raw() + 2 * i64::from(error))
}

/// Whether a number that compares with another one is no greater.
fn is_at_most(op: Op) -> bool
    ensures { result ≡ is_at_most op }
{
    match op {
        Op::Lt => true,
        Op::Le => true,
        Op::Eq => true,
        Op::Ne => false,
        Op::Ge => false,
        Op::Gt => false,
    }
}

/// The objects of the domain of a variable, where these are few and the window doesn't begin before the last write.
pub(crate) fn few_of<'s>(var: u8, scene: &Scene<'s>) -> Option<&'s [u32]>
    ensures { IfSome result (λ ids. AreDomainOf var scene.now.domains.now ids.now × (scene.now.store.now.last_tick ≤ scene.now.w.lo)) }
{
    if scene.domains.len() <= var as usize || scene.w.lo < scene.store.last_tick() {
        return None;
    }
    let ids = scene.domains.of(var);
    if ids.len() < FEW { Some(ids) } else { None }
}

/// Whether an object can come near to one of some others.
pub(crate) fn can_be_beside(id: u32, others: &[u32], most: Fix, scene: &Scene) -> bool
    requires after { HasNoWriteAfter scene.now.store.now scene.now.w.lo }
    ensures { result ≡ false → AreLost (IsApart scene.now most id) others.now [] }
{
    let mut rest = others;
    'others: while let Some((other, later)) = rest.split_first() {
        if can_be_beside_one(id, *other, most, scene) {
            return true;
        }
        rest = later;
    }
    false
}

/// Whether an object can come near to another one.
fn can_be_beside_one(id: u32, other: u32, most: Fix, scene: &Scene) -> bool
    requires after { HasNoWriteAfter scene.now.store.now scene.now.w.lo }
    ensures { result ≡ false → IsApart scene.now most id other }
{
    match scene.store.whereabouts(other, scene.w) {
        Some(area) => scene.store.can_be_in(id, &grown(&area, most), scene.w),
        None => false,
    }
}

/// The objects of a class that can come near to one of some others. None where they can't be told, or are likely to be most
/// of the class.
pub(crate) fn those_beside(
    alloc: Global,
    class: ClassId,
    others: &[u32],
    most: Fix,
    scene: &Scene,
) -> Result<Option<Vec<u32>>, AllocError>
    requires after { HasNoWriteAfter scene.now.store.now scene.now.w.lo }
    ensures { IfOk result (λ found. IfSome found (λ ids. AreBeside scene.now class most others.now ids.items)) }
{
    let limit = scene.store.class_names(class).len() / 2 / others.len().max(1);
    let sought = Sought { class, most, limit };
    let mut ids = Vec::new(alloc);
    let mut rest = others;
    'others: while let Some((other, later)) = rest.split_first() {
        let are_told = push_beside(alloc, &mut ids, *other, &sought, scene)?;
        if !are_told {
            return Ok(None);
        }
        rest = later;
    }
    Ok(Some(in_order(ids)))
}

/// Appends those of a class that can come near to another object. False where these can't be told or are more than so many.
fn push_beside(
    alloc: Global,
    ids: &mut Vec<u32>,
    other: u32,
    sought: &Sought,
    scene: &Scene,
) -> Result<bool, AllocError>
    requires after { HasNoWriteAfter scene.now.store.now scene.now.w.lo }
    ensures { IfOk result (λ are_told. are_told ≡ true → IsWithThose scene.now sought.now.class sought.now.most other ids.old.items ids.new.items) }
{
    match scene.store.whereabouts(other, scene.w) {
        Some(area) => push_near(
            alloc,
            ids,
            sought.class,
            &grown(&area, sought.most),
            sought.limit,
            scene,
        ),
        None => Ok(true),
    }
}

/// Appends those of a class that can come into an area. False where these can't be told or are more than so many.
fn push_near(
    alloc: Global,
    ids: &mut Vec<u32>,
    class: ClassId,
    area: &Area,
    limit: usize,
    scene: &Scene,
) -> Result<bool, AllocError>
    ensures { IfOk result (λ are_told. are_told ≡ true → IsWithNear scene.now class area.now ids.old.items ids.new.items) }
{
    let found = scene.store.near(alloc, class, area, scene.w)?;
    match if_at_most(found, limit) {
        Some(near) => {
            ids.extend_from_slice(&near)?;
            Ok(true)
        }
        None => Ok(false),
    }
}

/// The area that has all that is no further than so far from a place of another, along each axis.
fn grown(area: &Area, most: Fix) -> Area
    ensures { IsGrown most area.now result }
{
    Area {
        x: grown_sides(&area.x, most),
        y: grown_sides(&area.y, most),
    }
}

/// The sides between which all is that is no further than so far from what is between others.
fn grown_sides(sides: &Sides, most: Fix) -> Sides
    ensures { IsGrownSides most sides.now result }
{
    Sides {
        least: lowered(sides.least, most),
        greatest: raised(sides.greatest, most),
    }
}

/// A side that is lower by so much. It is open where that is no number.
fn lowered(side: Option<Fix>, most: Fix) -> Option<Fix>
    ensures { IfSome result (λ least. side ≡ Some (least +ℤ most)) }
{
    let side = side?;
    Fix::of(side.raw() - most.raw())
}

/// A side that is higher by so much. It is open where that is no number.
fn raised(side: Option<Fix>, most: Fix) -> Option<Fix>
    ensures { IfSome result (λ greatest. side ≡ Some (greatest -ℤ most)) }
{
    let side = side?;
    Fix::of(side.raw() + most.raw())
}
