//! Upright boxes of the plane, in whole units.
ghost use Rattle.std.specs.Prelude.{◌≡◌};
ghost use Rattle.std.specs.Option.{option_map_or};
ghost use Rattle.places.specs.Patches.{empty_patch, everywhere, greatest_unit, joined, joined_extent, least_unit, meets, overlap, spot, unit, unit_of};

use fixed_point::Fix;

/// The whole units from the least to the greatest of them, both included. Where the least is above the greatest there
/// are none. The least of all numbers and the greatest stand for what lies beyond them too.
#[derive(Clone, Copy, Debug, PartialEq, Eq)]
pub struct Extent {
    pub least: i32,
    pub greatest: i32,
}

/// The whole units of x and of y.
#[derive(Clone, Copy, Debug, PartialEq, Eq)]
pub struct Patch {
    pub x: Extent,
    pub y: Extent,
}

impl Extent {
    /// The units of the numbers from `least` to `greatest`, in thousandths.
    pub fn of(least: Fix, greatest: Fix) -> Extent
        ensures { result ≡ record { least = unit least; greatest = unit greatest } }
    {
        Extent {
            least: unit(least),
            greatest: unit(greatest),
        }
    }

    /// The unit of one number, in thousandths.
    #[inline]
    fn at(number: Fix) -> Extent
        ensures { result ≡ unit_of number }
    {
        let unit = unit(number);
        Extent {
            least: unit,
            greatest: unit,
        }
    }

    /// The units of the numbers between two sides, in thousandths, of which each may be open.
    pub fn between(least: Option<Fix>, greatest: Option<Fix>) -> Extent
        ensures { result ≡ record { least = option_map_or unit least least_unit; greatest = option_map_or unit greatest greatest_unit } }
    {
        Extent {
            least: least.map_or(i32::MIN, unit),
            greatest: greatest.map_or(i32::MAX, unit),
        }
    }

    /// All units.
    pub fn all() -> Extent
        ensures { result ≡ everywhere.x }
    {
        Extent {
            least: i32::MIN,
            greatest: i32::MAX,
        }
    }

    /// No units.
    pub fn none() -> Extent
        ensures { result ≡ empty_patch.x }
    {
        Extent {
            least: i32::MAX,
            greatest: i32::MIN,
        }
    }

    /// Whether neither of two extents begins past the other's end.
    #[inline]
    fn overlaps(&self, other: &Extent) -> bool
        ensures { result ≡ overlap self.now other.now }
    {
        // Both are asked in any case, since a jump over the second is often foretold wrongly, which costs more.
        (self.least <= other.greatest) & (other.least <= self.greatest)
    }

    /// From the lesser of their least units to the greater of their greatest.
    fn joined(&self, other: &Extent) -> Extent
        ensures { result ≡ joined_extent self.now other.now }
    {
        Extent {
            least: self.least.min(other.least),
            greatest: self.greatest.max(other.greatest),
        }
    }
}

impl Patch {
    /// The patch of an object that is nowhere.
    pub fn nowhere() -> Patch
        ensures { result ≡ empty_patch }
    {
        Patch {
            x: Extent::none(),
            y: Extent::none(),
        }
    }

    /// The patch of one place, in thousandths.
    #[inline]
    pub fn at(x: Fix, y: Fix) -> Patch
        ensures { result ≡ spot x y }
    {
        Patch {
            x: Extent::at(x),
            y: Extent::at(y),
        }
    }

    /// The whole plane.
    pub fn everywhere() -> Patch
        ensures { result ≡ everywhere }
    {
        Patch {
            x: Extent::all(),
            y: Extent::all(),
        }
    }

    /// Whether two patches overlap on both axes.
    #[inline]
    pub fn meets(&self, other: &Patch) -> bool
        ensures { result ≡ meets self.now other.now }
    {
        self.x.overlaps(&other.x) & self.y.overlaps(&other.y)
    }

    /// The least patch that has both.
    #[inline]
    pub fn joined(&self, other: &Patch) -> Patch
        ensures { result ≡ joined self.now other.now }
    {
        Patch {
            x: self.x.joined(&other.x),
            y: self.y.joined(&other.y),
        }
    }
}

/// The whole units below a number of thousandths, or the nearest number that there is room for.
fn unit(number: Fix) -> i32
    ensures { result ≡ unit number }
{
    let units = number.raw().div_euclid(1000);
    if units < i32::MIN as i64 {
        i32::MIN
    } else if (i32::MAX as i64) < units {
        i32::MAX
    } else {
        units as i32
    }
}
