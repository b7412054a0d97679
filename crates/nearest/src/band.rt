//! How near and how far an object comes in a slice of time.
ghost use Rattle.std.specs.Prelude.{◌≡◌, ◌≤◌, ℤ, pos, ◌≤ℤ◌, true, IfSome};
ghost use Rattle.tick_set.specs.Ticks.{IsTick};
ghost use Rattle.nearest.specs.Order.{is_below, separation_after};

use crate::parabola::parabola_at;
use crate::squares::Separation;
use crate::valley::{Rise, turn};
use tick_set::Window;

/// A separation by the ticks since a slice's first, and bounds of it there.
#[derive(Clone, Copy)]
pub struct Band {
    pub separation: Separation,
    pub least: i128,
    pub most: u128,
}

impl Band {
    ghost use Rattle.nearest.specs.Sights.{IsInBand};

    /// The separation with its bounds in the slice.
    pub fn of(separation: Separation, slice: Window) -> Band
        ensures separation { result.separation ≡ separation }
        ensures bounds { IsInBand slice result }
    {
        let last = slice.hi - slice.lo;
        let rise = Rise {
            quadratic: separation.quadratic,
            linear: separation.linear,
        };
        let lowest = turn(&rise, last);
        let first = value_after(&separation, 0);
        let end = value_after(&separation, last);
        Band {
            separation,
            least: value_after(&separation, lowest),
            most: greater(first, end).unsigned_abs(),
        }
    }
}

/// Whether the first separation is less than the second throughout, or as much where ties are asked for too, or never, as
/// far as their bounds tell.
#[inline]
pub fn order_by_bounds(first: &Band, second: &Band, ties: bool) -> Option<bool>
    ensures { IfSome result (λ below. (d e : ℤ) → first.now.least ≤ℤ d → d ≤ℤ pos first.now.most
        → second.now.least ≤ℤ e → e ≤ℤ pos second.now.most → is_below ties d e ≡ below) }
{
    if stays_below(first.most, second.least, ties) {
        return Some(true);
    }
    if stays_below(second.most, first.least, !ties) {
        return Some(false);
    }
    None
}

// Whether what is at most `most` is less than what is at least `least`, or as much where ties are asked for too.
#[inline]
fn stays_below(most: u128, least: i128, ties: bool) -> bool
    ensures { result ≡ true → (d e : ℤ) → d ≤ℤ pos most → least ≤ℤ e → is_below ties d e ≡ true }
{
    if least < 0 {
        return false;
    }
    let bound = least.unsigned_abs();
    most < bound || (ties && most == bound)
}

fn greater(a: i128, b: i128) -> i128
    ensures { (a ≤ℤ result) × (b ≤ℤ result) }
{
    if a < b { b } else { a }
}

fn value_after(separation: &Separation, k: u32) -> i128
    requires { IsTick k }
    ensures { result ≡ separation_after separation.now k }
{
    parabola_at(
        separation.quadratic,
        separation.linear,
        separation.constant,
        k,
    )
}
