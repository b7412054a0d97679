//! Strips from a first to a last one.
ghost use Rattle.std.specs.Prelude.{◌≡◌, Some, None};
ghost use Rattle.fixed_point.specs.Sizes.{IsFix};
ghost use Rattle.plane.specs.Boxes.{strips_between, strips_meet};
ghost use Rattle.plane_index.specs.Columns.{bounded};
ghost use Rattle.plane_index.specs.Lines.{strips_as};

use crate::grid::Grid;
use fixed_point::Fix;

/// The first and the last of some strips. Where there is none the first is above, and the last below all strips.
#[derive(Clone, Copy)]
pub struct Cover {
    pub first: i64,
    pub last: i64,
}

/// Strips without one.
pub const NO_STRIPS: Cover = Cover {
    first: i64::MAX,
    last: i64::MIN,
};

/// The same in half the room: where a number is too small or too great, the nearest one that there is room for.
#[derive(Clone, Copy)]
pub struct Narrow {
    pub first: i32,
    pub last: i32,
}

impl Cover {
    ghost use Rattle.plane_index.specs.Columns.{narrowed, Exact};

    /// Those of the values between two bounds.
    pub fn between(grid: &Grid, least: Fix, greatest: Fix) -> Cover
        ensures value { strips_as result ≡ strips_between grid.now.width least greatest }
        ensures size { IsFix result.last }
    {
        Cover {
            first: grid.strip(least),
            last: grid.strip(greatest),
        }
    }

    /// Whether they share a strip with those of some bounds.
    #[inline]
    pub fn meets(&self, asked: &Cover) -> bool
        ensures { result ≡ strips_meet (strips_as asked.now) (strips_as self.now) }
    {
        asked.first <= self.last && self.first <= asked.last
    }

    /// The same in half the room.
    pub fn narrowed(&self) -> Narrow
        ensures { result ≡ narrowed (strips_as self.now) }
    {
        Narrow {
            first: bounded(self.first),
            last: bounded(self.last),
        }
    }

    /// The same in half the room, if the narrowed strips of others tell exactly which of them share one with these.
    pub fn exact(&self) -> Option<Narrow>
        ensures { Exact self.now result }
    {
        if i64::from(i32::MIN) < self.first
            && self.first <= i64::from(i32::MAX)
            && i64::from(i32::MIN) <= self.last
            && self.last < i64::from(i32::MAX)
        {
            Some(self.narrowed())
        } else {
            None
        }
    }
}

impl Narrow {
    ghost use Rattle.plane_index.specs.Columns.{narrow_meets};

    /// Whether they share a strip with those of some bounds.
    #[inline]
    pub fn meets(&self, asked: &Narrow) -> bool
        ensures { result ≡ narrow_meets self.now asked.now }
    {
        (asked.first <= self.last) & (self.first <= asked.last)
    }
}

// A number, or the nearest one that there is room for.
fn bounded(strip: i64) -> i32
    ensures { result ≡ bounded strip }
{
    if strip < i32::MIN as i64 {
        i32::MIN
    } else if (i32::MAX as i64) < strip {
        i32::MAX
    } else {
        strip as i32
    }
}
