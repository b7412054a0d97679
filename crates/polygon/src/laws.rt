//! A limit by its number, and laws on polygons, boxes and margins, calls without a body whose contracts are these.
ghost use Rattle.std.specs.Prelude.{◌≡◌, ℕ, ◌≤◌, pos, ◌-ℤ◌, neg_ℤ, unsigned_abs, true, not, List};
ghost use Rattle.std.specs.List.{list_all, list_any};
ghost use Rattle.fixed_point.specs.declared.number.Point.{Point};
ghost use Rattle.geometry.specs.Margin.{corners, is_inside_by};
ghost use Rattle.geometry.specs.Plane.{is_right_of};
ghost use Rattle.geometry.specs.Polygon.{counterclockwise_points, edges, is_convex, is_inside};
ghost use Rattle.polygon.specs.Bounds.{is_in_box};

use crate::named::REGION_LIMIT;

/// The limit, in numbers.
pub fn limits_in_numbers()
    ensures regions { REGION_LIMIT ≡ 1024 }
{}

/// A box that has all vertices of a convex polygon has each point inside it.
pub fn polygons_lie_among_their_vertices()
    ensures { (points : List Point) (least greatest p : Point)
        → list_all (is_in_box least greatest) points ≡ true
        → is_convex points ≡ true → is_inside points p ≡ true → is_in_box least greatest p ≡ true }
{}

/// A place is inside by a margin exactly where all corners of the box round it are inside, by a margin below 0
/// exactly where no edge has all of them strictly on its right, and by a margin of 0 exactly where it is inside.
pub fn corners_stand_together()
    ensures all { (m : ℕ) (points : List Point) (p : Point)
        → list_all (is_inside points) (corners m p) ≡ is_inside_by (pos m) points p }
    ensures some { (m : ℕ) (points : List Point) (p : Point)
        → not (list_any (λ e. list_all (is_right_of e) (corners m p)) (edges (counterclockwise_points points)))
        ≡ is_inside_by (neg_ℤ (pos m)) points p }
    ensures itself { (points : List Point) (p : Point) → is_inside_by (pos 0) points p ≡ is_inside points p }
{}

/// Where a place is inside by a margin, each place is inside that is at most so far away along each axis; where some
/// such place is inside, this one is by the margin below 0.
pub fn near_places_stand_together()
    ensures each { (m : ℕ) (points : List Point) (p q : Point)
        → unsigned_abs (q.x -ℤ p.x) ≤ m → unsigned_abs (q.y -ℤ p.y) ≤ m
        → is_inside_by (pos m) points p ≡ true → is_inside points q ≡ true }
    ensures some { (m : ℕ) (points : List Point) (p q : Point)
        → unsigned_abs (q.x -ℤ p.x) ≤ m → unsigned_abs (q.y -ℤ p.y) ≤ m
        → is_inside points q ≡ true → is_inside_by (neg_ℤ (pos m)) points p ≡ true }
{}
