//! The geometry of the plane: distances, sides, convex polygons, and points that fit a circle. The
//! definitions are over whole thousandths and compute; `specs/` has them, for the contracts of the crates
//! above. `squared_distance` and `cross` compute two of them. The other calls of this crate have no body: the
//! contract of each is what the definitions give for examples that were worked out by hand.
#![tactic(auto)]

mod limits;
mod measures;

ghost use Rattle.std.specs.Prelude.{◌≡◌, ◌^◌, pos, negsuc, true, false, [], ◌∷◌};
ghost use Rattle.case_table.specs.declared.compare.Op.TheVariants.{Lt, Le, Eq, Ne, Ge, Gt};
ghost use Rattle.geometry.specs.Circle.{fits};
ghost use Rattle.geometry.specs.Distance.{distance_compares};
ghost use Rattle.geometry.specs.Plane.{point, cross, squared_distance};
ghost use Rattle.geometry.specs.Polygon.{is_convex, is_inside};

pub use limits::{LEAST_VERTICES, RADIUS_LIMIT, VERTEX_LIMIT};
pub use measures::{apart, cross, squared_distance};

/// The limits, in numbers.
pub fn limits_in_numbers()
    ensures least_vertices { LEAST_VERTICES ≡ 3 }
    ensures most_vertices { VERTEX_LIMIT ≡ 64 }
    ensures radius { RADIUS_LIMIT ≡ 10 ^ 6 }
{}

/// A distance of 5, and the side of a turn to the left and of one to the right.
pub fn distances_and_sides()
    ensures distance { squared_distance (point (pos 1) (pos 1)) (point (negsuc 1) (pos 5)) ≡ pos 25 }
    ensures left { cross (point (pos 0) (pos 0)) (point (pos 4) (pos 0)) (point (pos 4) (pos 3)) ≡ pos 12 }
    ensures right { cross (point (pos 0) (pos 0)) (point (pos 4) (pos 0)) (point (pos 4) (negsuc 2)) ≡ negsuc 11 }
{}

/// A distance of 5 compares as its square does with that of the constant; each distance is above a negative
/// constant, also above one with a larger square.
pub fn distances_and_constants()
    ensures below { distance_compares Lt (pos 6) (pos 25) ≡ true }
    ensures not_below { distance_compares Lt (pos 5) (pos 25) ≡ false }
    ensures at_most { distance_compares Le (pos 5) (pos 25) ≡ true }
    ensures equal { distance_compares Eq (pos 5) (pos 25) ≡ true }
    ensures no_root { distance_compares Eq (pos 5) (pos 26) ≡ false }
    ensures above { distance_compares Gt (pos 5) (pos 26) ≡ true }
    ensures zero { distance_compares Gt (pos 0) (pos 0) ≡ false }
    ensures less_than_negative { distance_compares Lt (negsuc 5) (pos 25) ≡ false }
    ensures at_most_negative { distance_compares Le (negsuc 5) (pos 25) ≡ false }
    ensures equal_to_negative { distance_compares Eq (negsuc 4) (pos 25) ≡ false }
    ensures other_than_negative { distance_compares Ne (negsuc 4) (pos 25) ≡ true }
    ensures at_least_negative { distance_compares Ge (negsuc 5) (pos 25) ≡ true }
    ensures above_negative { distance_compares Gt (negsuc 5) (pos 25) ≡ true }
{}

/// A star of five points crosses itself. A square is convex in both directions, also with a vertex in the
/// middle of a side or given twice over; three points on a line are not, nor are points given twice in a row.
pub fn convex_lists()
    ensures star { is_convex
        (point (pos 0) (pos 10) ∷ point (pos 6) (negsuc 7) ∷ point (negsuc 9) (pos 3)
        ∷ point (pos 10) (pos 3) ∷ point (negsuc 5) (negsuc 7) ∷ []) ≡ false }
    ensures clockwise { is_convex
        (point (pos 0) (pos 0) ∷ point (pos 0) (pos 10) ∷ point (pos 10) (pos 10) ∷ point (pos 10) (pos 0) ∷ []) ≡ true }
    ensures middle { is_convex
        (point (pos 0) (pos 0) ∷ point (pos 5) (pos 0) ∷ point (pos 10) (pos 0) ∷ point (pos 10) (pos 10) ∷ []) ≡ true }
    ensures twice { is_convex
        (point (pos 0) (pos 0) ∷ point (pos 9) (pos 0) ∷ point (pos 0) (pos 9)
        ∷ point (pos 0) (pos 0) ∷ point (pos 9) (pos 0) ∷ point (pos 0) (pos 9) ∷ []) ≡ true }
    ensures line { is_convex (point (pos 0) (pos 0) ∷ point (pos 1) (pos 1) ∷ point (pos 2) (pos 2) ∷ []) ≡ false }
    ensures repeated { is_convex
        (point (pos 0) (pos 0) ∷ point (pos 9) (pos 0) ∷ point (pos 9) (pos 0) ∷ point (pos 0) (pos 9) ∷ []) ≡ false }
{}

/// The boundary of a polygon is inside, a vertex too, whatever the direction of the list.
pub fn places_in_a_square()
    ensures boundary { is_inside (point (pos 0) (pos 0) ∷ point (pos 0) (pos 10) ∷ point (pos 10) (pos 10) ∷ point (pos 10) (pos 0) ∷ [])
        (point (pos 10) (pos 4)) ≡ true }
    ensures vertex { is_inside (point (pos 0) (pos 0) ∷ point (pos 10) (pos 0) ∷ point (pos 10) (pos 10) ∷ point (pos 0) (pos 10) ∷ [])
        (point (pos 0) (pos 10)) ≡ true }
    ensures outside { is_inside (point (pos 0) (pos 0) ∷ point (pos 0) (pos 10) ∷ point (pos 10) (pos 10) ∷ point (pos 10) (pos 0) ∷ [])
        (point (pos 11) (pos 4)) ≡ false }
{}

/// A right angle and a line of points fit where their longest side is a diameter; a triangle of sharp angles
/// where the circle through its corners is small enough; four points where each three fit. No points fit any
/// circle, and five none.
pub fn points_in_a_circle()
    ensures none { fits (pos 0) [] ≡ true }
    ensures one { fits (pos 0) (point (pos 7) (pos 7) ∷ []) ≡ true }
    ensures two { fits (pos 2) (point (pos 0) (pos 0) ∷ point (pos 4) (pos 0) ∷ []) ≡ true }
    ensures two_apart { fits (pos 2) (point (pos 0) (pos 0) ∷ point (pos 4) (pos 1) ∷ []) ≡ false }
    ensures right_angle { fits (pos 2000) (point (pos 0) (pos 0) ∷ point (pos 4000) (pos 0) ∷ point (pos 2000) (pos 2000) ∷ []) ≡ true }
    ensures right_angle_too_wide { fits (pos 1999) (point (pos 0) (pos 0) ∷ point (pos 4000) (pos 0) ∷ point (pos 2000) (pos 2000) ∷ []) ≡ false }
    ensures line { fits (pos 2) (point (pos 0) (pos 0) ∷ point (pos 4) (pos 0) ∷ point (pos 1) (pos 0) ∷ []) ≡ true }
    ensures obtuse { fits (pos 4) (point (pos 0) (pos 0) ∷ point (pos 8) (pos 0) ∷ point (pos 4) (pos 1) ∷ []) ≡ true }
    ensures sharp { fits (pos 3400) (point (pos 0) (pos 0) ∷ point (pos 6000) (pos 0) ∷ point (pos 3000) (pos 5000) ∷ []) ≡ true }
    ensures sharp_too_wide { fits (pos 3399) (point (pos 0) (pos 0) ∷ point (pos 6000) (pos 0) ∷ point (pos 3000) (pos 5000) ∷ []) ≡ false }
    ensures four { fits (pos 5) (point (pos 3) (pos 4) ∷ point (negsuc 2) (pos 4) ∷ point (pos 3) (negsuc 3) ∷ point (negsuc 2) (negsuc 3) ∷ []) ≡ true }
    ensures four_apart { fits (pos 4) (point (pos 3) (pos 4) ∷ point (negsuc 2) (pos 4) ∷ point (pos 3) (negsuc 3) ∷ point (negsuc 2) (negsuc 3) ∷ []) ≡ false }
    ensures five { fits (pos 5) (point (pos 3) (pos 4) ∷ point (pos 3) (pos 4) ∷ point (pos 3) (pos 4) ∷ point (pos 3) (pos 4) ∷ point (pos 3) (pos 4) ∷ []) ≡ false }
{}
