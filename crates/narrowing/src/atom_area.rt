//! The areas in which atoms need objects.
ghost use Rattle.std.specs.Prelude.{◌≡◌, ℕ, ℤ, pos, neg_ℤ, true, List, IfSome, None, Some, option_map};
ghost use Rattle.fixed_point.specs.declared.number.Point.{Point};
ghost use Rattle.geometry.specs.Margin.{is_inside_by};
ghost use Rattle.geometry.specs.Polygon.{is_inside};
ghost use Rattle.geometry.specs.Region.{Region};
ghost use Rattle.case_table.specs.Comparison.{compares};
ghost use Rattle.formula.specs.declared.tree.RAtom.TheVariants as atoms;
ghost use Rattle.narrowing.specs.Covering.{Covers, area_beside, open_sides};
ghost use Rattle.object_store.specs.Areas.{is_between_sides};

use crate::reaching::{Direction, reach};
use crate::terms::{constant_of, coordinate_of};
use case_table::Op;
use fixed_point::Fix;
use formula::{RAtom, RTerm};
use object_store::{Area, Sides};
use polygon::{Polygon, Regions, corners_stand_together, polygons_lie_among_their_vertices};

/// An area in which the object of a variable is wherever an atom is possible, where each position may be off by the error.
/// None where none is known.
pub(crate) fn area_of(a: &RAtom, var: u8, regions: &Regions, error: u32) -> Option<Area>
    ensures { IfSome result (λ area. Covers error regions.now var a.now area) }
{
    match a {
        RAtom::Inside(v, n) => area_of_region(*v, *n, var, regions, error),
        RAtom::Compare(left, op, right) => area_of_comparison(left, *op, right, var),
        RAtom::Outside(_, _) => None,
        RAtom::Dist(_, _, _, _) => None,
        RAtom::Sphere(_, _) => None,
    }
}

/// The box round a region, where it is this variable that is to be inside.
fn area_of_region(v: u8, n: u32, var: u8, regions: &Regions, error: u32) -> Option<Area>
    ensures { IfSome result (λ area. Covers error regions.now var (atoms.Inside v n) area) }
{
    corners_stand_together();
    if v != var {
        return None;
    }
    let polygon = regions.get(n)?;
    Some(area_round(polygon, error))
}

/// The box of the places that are possibly in a polygon.
fn area_round(polygon: &Polygon, error: u32) -> Area
    ensures x { (p : Point) → is_inside_by (neg_ℤ (pos error)) polygon.now p ≡ true → is_between_sides result.x p.x ≡ true }
    ensures y { (p : Point) → is_inside_by (neg_ℤ (pos error)) polygon.now p ≡ true → is_between_sides result.y p.y ≡ true }
{
    corners_stand_together();
    if error == 0 {
        area_of_polygon(polygon)
    } else {
        area_reached(polygon, error)
    }
}

/// The box of the places in a polygon, which is kept with it.
fn area_of_polygon(polygon: &Polygon) -> Area
    ensures x { (p : Point) → is_inside polygon.now p ≡ true → is_between_sides result.x p.x ≡ true }
    ensures y { (p : Point) → is_inside polygon.now p ≡ true → is_between_sides result.y p.y ≡ true }
{
    polygons_lie_among_their_vertices();
    // A polygon is convex.
    let _ = polygon.len();
    let (least, greatest) = polygon.bounds();
    Area {
        x: sides_from(least.x, greatest.x),
        y: sides_from(least.y, greatest.y),
    }
}

/// The box of the places that are possibly in a polygon, by its edges. It is wider than the error alone where a corner is
/// sharp.
fn area_reached(polygon: &Polygon, error: u32) -> Area
    ensures x { (p : Point) → is_inside_by (neg_ℤ (pos error)) polygon.now p ≡ true → is_between_sides result.x p.x ≡ true }
    ensures y { (p : Point) → is_inside_by (neg_ℤ (pos error)) polygon.now p ≡ true → is_between_sides result.y p.y ≡ true }
{
    Area {
        x: Sides {
            least: negated(reach(polygon, Direction::Left, error)),
            greatest: reach(polygon, Direction::Right, error),
        },
        y: Sides {
            least: negated(reach(polygon, Direction::Down, error)),
            greatest: reach(polygon, Direction::Up, error),
        },
    }
}

/// The number with the other sign.
fn negated(a: Option<Fix>) -> Option<Fix>
    ensures { result ≡ option_map neg_ℤ a }
{
    Fix::of(-a?.raw())
}

/// What is left of the plane where a coordinate of the variable's object compares with a constant, on either side.
fn area_of_comparison(left: &RTerm, op: Op, right: &RTerm, var: u8) -> Option<Area>
    ensures { IfSome result (λ area. (error : ℕ) (regions : List Region)
        → Covers error regions var (atoms.Compare left.now op right.now) area) }
{
    match coordinate_of(left, var) {
        Some(index) => {
            let c = constant_of(right)?;
            let sides = sides_before(op, c)?;
            Some(area_beside(index, sides))
        }
        None => {
            let index = coordinate_of(right, var)?;
            let c = constant_of(left)?;
            let sides = sides_after(op, c)?;
            Some(area_beside(index, sides))
        }
    }
}

/// The plane where the coordinate of an index is between two sides.
fn area_beside(index: u8, sides: Sides) -> Area
    ensures { result ≡ area_beside index sides }
{
    if index == 0 {
        Area {
            x: sides,
            y: open_sides(),
        }
    } else {
        Area {
            x: open_sides(),
            y: sides,
        }
    }
}

/// Where a number compares with `c`.
fn sides_before(op: Op, c: Fix) -> Option<Sides>
    ensures { IfSome result (λ sides. (n : ℤ) → compares op n c ≡ true → is_between_sides sides n ≡ true) }
{
    match op {
        Op::Lt => Some(sides_upto(c)),
        Op::Le => Some(sides_upto(c)),
        Op::Eq => Some(sides_from(c, c)),
        Op::Ne => None,
        Op::Ge => Some(sides_above(c)),
        Op::Gt => Some(sides_above(c)),
    }
}

/// Where `c` compares with a number.
fn sides_after(op: Op, c: Fix) -> Option<Sides>
    ensures { IfSome result (λ sides. (n : ℤ) → compares op c n ≡ true → is_between_sides sides n ≡ true) }
{
    match op {
        Op::Lt => Some(sides_above(c)),
        Op::Le => Some(sides_above(c)),
        Op::Eq => Some(sides_from(c, c)),
        Op::Ne => None,
        Op::Ge => Some(sides_upto(c)),
        Op::Gt => Some(sides_upto(c)),
    }
}

fn open_sides() -> Sides
    ensures { result ≡ open_sides }
{
    Sides {
        least: None,
        greatest: None,
    }
}

fn sides_from(least: Fix, greatest: Fix) -> Sides
    ensures { result ≡ record { least = Some least; greatest = Some greatest } }
{
    Sides {
        least: Some(least),
        greatest: Some(greatest),
    }
}

fn sides_upto(greatest: Fix) -> Sides
    ensures { result ≡ record { least = None; greatest = Some greatest } }
{
    Sides {
        least: None,
        greatest: Some(greatest),
    }
}

fn sides_above(least: Fix) -> Sides
    ensures { result ≡ record { least = Some least; greatest = None } }
{
    Sides {
        least: Some(least),
        greatest: None,
    }
}
