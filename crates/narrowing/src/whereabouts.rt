//! Whether a formula can hold where the object of its first variable is.
ghost use Rattle.std.specs.Prelude.{◌≡◌, ◌≤ℤ◌, ℕ, ℤ, false, true};
ghost use Rattle.fixed_point.specs.declared.number.Point.{Point};
ghost use Rattle.formula_shape.specs.Shape as shapes;
ghost use Rattle.formula.specs.Tree.{formula_view, resolved_view};
ghost use Rattle.geometry.specs.Polygon.{is_inside};
ghost use Rattle.meaning.specs.Atom.{is_in_region};
ghost use Rattle.object_store.specs.Areas.{is_between_sides};
ghost use Rattle.narrowing.specs.Whereabouts.{FailsAt, has_place};

use fixed_point::Fix;
use formula::{RAtom, RFormula, RQuery};
use meaning::formulas_need_their_atoms;
use object_store::{Area, Sides};
use polygon::{Polygon, Regions, polygons_lie_among_their_vertices};

/// Whether the formula of a query can hold at a tick at which the object of its first variable is in an area or absent. It
/// is taken to be so unless the formula needs that object in regions whose boxes lie apart from the area. It takes no
/// memory, and no store is looked at.
#[inline]
pub fn can_hold_at(q: &RQuery, area: &Area, regions: &Regions) -> bool
    ensures { result ≡ false → FailsAt area.now regions.now (resolved_view q.now).formula }
{
    // A formula that is an atom is judged without the way into the parts of others.
    if let RFormula::Atom(a) = &q.formula {
        return can_atom_hold(a, area, regions);
    }
    can_formula_hold(&q.formula, area, regions)
}

/// Whether a formula can hold there.
fn can_formula_hold(f: &RFormula, area: &Area, regions: &Regions) -> bool
    ensures { result ≡ false → FailsAt area.now regions.now (formula_view f.now) }
{
    formulas_need_their_atoms();
    match f {
        RFormula::Truth(holds) => *holds,
        RFormula::Atom(a) => can_atom_hold(a, area, regions),
        RFormula::Not(_) => true,
        RFormula::And(left, right) => {
            can_formula_hold(left, area, regions) && can_formula_hold(right, area, regions)
        }
        RFormula::Or(left, right) => {
            can_formula_hold(left, area, regions) || can_formula_hold(right, area, regions)
        }
        RFormula::Next(part) => can_formula_hold(part, area, regions),
        RFormula::Eventually(part) => can_formula_hold(part, area, regions),
        RFormula::Always(part) => can_formula_hold(part, area, regions),
        RFormula::Bounded(_, _, part) => can_formula_hold(part, area, regions),
        RFormula::Until(_, _, _, goal) => can_formula_hold(goal, area, regions),
        RFormula::Assign(_, _, part) => can_formula_hold(part, area, regions),
    }
}

/// Whether an atom can hold there.
#[inline]
fn can_atom_hold(a: &RAtom, area: &Area, regions: &Regions) -> bool
    ensures { result ≡ false → FailsAt area.now regions.now (shapes.Atom a.now) }
{
    match a {
        RAtom::Inside(v, n) => *v != 0 || meets_region(area, *n, regions),
        RAtom::Compare(_, _, _) => true,
        RAtom::Outside(_, _) => true,
        RAtom::Dist(_, _, _, _) => true,
        RAtom::Sphere(_, _) => true,
    }
}

/// Whether the area meets the box of a region.
#[inline]
fn meets_region(area: &Area, n: u32, regions: &Regions) -> bool
    ensures { result ≡ false → (p : Point) → is_in_region regions.now n p ≡ true → has_place area.now p ≡ false }
{
    match regions.get(n) {
        Some(polygon) => meets_polygon(area, polygon),
        None => true,
    }
}

/// Whether the area meets the box of a polygon.
#[inline]
fn meets_polygon(area: &Area, polygon: &Polygon) -> bool
    ensures { result ≡ false → (p : Point) → is_inside polygon.now p ≡ true → has_place area.now p ≡ false }
{
    polygons_lie_among_their_vertices();
    // A polygon is convex.
    let _ = polygon.len();
    let (least, greatest) = polygon.bounds();
    meet(&area.x, least.x, greatest.x) && meet(&area.y, least.y, greatest.y)
}

/// Whether some number from `least` to `greatest` is between these sides.
#[inline]
fn meet(sides: &Sides, least: Fix, greatest: Fix) -> bool
    ensures { result ≡ false → (n : ℤ) → least ≤ℤ n → n ≤ℤ greatest → is_between_sides sides.now n ≡ false }
{
    let is_below = sides.greatest.is_some_and(|side| side.raw() < least.raw());
    let is_above = sides.least.is_some_and(|side| greatest.raw() < side.raw());
    !is_below && !is_above
}
