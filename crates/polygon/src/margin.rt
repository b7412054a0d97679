//! By how much a moving point has to be inside a polygon, or may be off.
ghost use Rattle.std.specs.Prelude.{◌≡◌, pos};

use fixed_point::{Fix, Slope};

/// A margin along each axis, in thousandths, that rises by the same from tick to tick. A point is inside by a
/// margin where each place is that is at most so far from it along each axis; by a margin below 0 where each
/// edge has one of the places that are at most so far on its left, or on it.
#[derive(Clone, Copy, Debug, PartialEq, Eq)]
pub struct Margin {
    /// The margin at a window's first tick.
    pub first: Fix,
    /// What is added at each tick after it.
    pub rise: Slope,
}

impl Margin {
    /// A margin of 0 at each tick.
    #[inline]
    pub fn none() -> Margin
        ensures first { result.first ≡ pos 0 }
        ensures rise { result.rise ≡ pos 0 }
    {
        Margin {
            first: Fix::of(0).unwrap(),
            rise: Slope::of(0).unwrap(),
        }
    }
}
