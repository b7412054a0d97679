//! Where an object is that moves along one line.
ghost use Rattle.std.specs.Prelude.{◌≡◌, ◌+◌, ◌*◌, ◌^◌, ◌≤◌, ◌+ℤ◌, ◌*ℤ◌, ◌-◌, List, pos, unsigned_abs};
ghost use Rattle.fixed_point.specs.declared.number.TheConstants.{READ_LIMIT, SLOPE_LIMIT};
ghost use Rattle.motion.specs.Straight.{IsStraightOf};
ghost use Rattle.motion.specs.Timeline.{Epoch};
ghost use Rattle.object_store.specs.Placing.{BeginsInReach, HavePatches, IsPlaced, spot_at};

use fixed_point::{Fix, Slope};
use motion::Straight;
use places::{Patch, Patches, Places};

/// Patches of an object that moves along a line, which has begun by the tick `from`, from there to the end of each horizon.
pub fn patches_along(line: &Straight, places: &Places, from: u32) -> Patches
    requires begun { line.now.from ≤ from }
    requires reached { BeginsInReach line.now }
    ensures { (epochs : List Epoch) → IsStraightOf epochs line.now → HavePatches from places.now result epochs }
{
    let here = place_at(line, from);
    Patches {
        short: way_to(line, &here, from, places.short.upto()),
        middle: way_to(line, &here, from, places.middle.upto()),
        long: way_to(line, &here, from, places.long.upto()),
        longest: way_to(line, &here, from, places.longest.upto()),
    }
}

/// A patch in which an object that moves along a line, which has begun by the tick `from`, is from there to `upto`.
pub fn patch_along(line: &Straight, from: u32, upto: u32) -> Patch
    requires begun { line.now.from ≤ from }
    requires reached { BeginsInReach line.now }
    ensures { (epochs : List Epoch) → IsStraightOf epochs line.now → IsPlaced from upto result epochs }
{
    way_to(line, &place_at(line, from), from, upto)
}

/// The patch of the way from the place `here`, that of tick `from`, to that of `upto`, which is no earlier for a way.
fn way_to(line: &Straight, here: &Patch, from: u32, upto: u32) -> Patch
    requires begun { line.now.from ≤ from }
    requires reached { BeginsInReach line.now }
    requires here { here.now ≡ spot_at line.now from }
    ensures { (epochs : List Epoch) → IsStraightOf epochs line.now → IsPlaced from upto result epochs }
{
    here.joined(&place_at(line, from.max(upto)))
}

/// The patch of the place at a tick, by which the line has begun.
fn place_at(line: &Straight, t: u32) -> Patch
    requires begun { line.now.from ≤ t }
    requires reached { BeginsInReach line.now }
    ensures { result ≡ spot_at line.now t }
{
    let ticks = t - line.from;
    Patch::at(moved(line.x, line.dx, ticks), moved(line.y, line.dy, ticks))
}

/// Where what moves by one slope is after so many ticks.
#[inline]
fn moved(start: Fix, slope: Slope, ticks: u32) -> Fix
    requires { unsigned_abs start ≤ READ_LIMIT + SLOPE_LIMIT * 2 ^ 32 }
    ensures { result ≡ start +ℤ slope *ℤ pos ticks }
{
    Fix::of(start.raw() + rise(slope, ticks)).unwrap()
}

/// How far a slope rises in so many ticks, in thousandths.
#[inline]
fn rise(slope: Slope, ticks: u32) -> i64
    ensures value { result ≡ slope *ℤ pos ticks }
    ensures near { unsigned_abs result ≤ SLOPE_LIMIT * 2 ^ 32 }
{
    slope.raw() * i64::from(ticks)
}
