//! The limit by its number and laws of circles, each a call without a body whose contract is the law.
ghost use Rattle.std.specs.Prelude.{◌≡◌, ◌^◌, ◌↔◌, ◌≤◌, ℕ, ℤ, List, ◌∷◌, [], IsTrue};
ghost use Rattle.fixed_point.specs.declared.number.Point.{Point};
ghost use Rattle.geometry.specs.Circle.{fits, three_fit};
ghost use Rattle.linear_crossing.specs.declared.quad.Line.{Line};
ghost use Rattle.distance_crossing.specs.Circles.{IsInCircle};
ghost use Rattle.distance_crossing.specs.NearTicks.{positions_after};

use crate::near::SHORT_WINDOW;

/// The limit, in numbers.
pub fn limits_in_numbers()
    ensures { SHORT_WINDOW ≡ 10 ^ 6 }
{}

/// Three points fit exactly where there is a circle of that radius, round a place with rational coordinates,
/// that holds them.
pub fn three_fit_where_a_circle_holds_them()
    ensures { (r : ℤ) (p q s : Point) → IsTrue (three_fit r p q s) ↔ IsInCircle r (p ∷ q ∷ s ∷ []) }
{}

/// Motions whose positions fit at two ticks fit at each tick between.
pub fn motions_fit_at_the_ticks_between()
    ensures { (r : ℤ) (lines : List Line) (i j k : ℕ) → i ≤ j → j ≤ k
        → IsTrue (fits r (positions_after lines i)) → IsTrue (fits r (positions_after lines k)) → IsTrue (fits r (positions_after lines j)) }
{}
