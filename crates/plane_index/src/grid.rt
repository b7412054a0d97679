//! What an index is of.
ghost use Rattle.std.specs.Prelude.{◌≡◌, ◌≤◌, ◌<◌, ◌&&◌, nat_le, pos, ◌<ℤ◌};
ghost use Rattle.fixed_point.specs.Sizes.{IsFix};
ghost use Rattle.tick_set.specs.Ticks.{IsTick};
ghost use Rattle.plane.specs.Boxes.{IsSlice, last_covered, slice_first, slice_last, strip};
ghost use Rattle.plane.specs.declared.limits.TheConstants.{SLICES};

use fixed_point::Fix;
use object_store::ClassId;
use plane::{SLICE_TICKS, SLICES};
use std::marker::Model;
use tick_set::Window;

/// An attribute of a class, by its place among the attributes, the tick from which on an index reaches, and the width of
/// its strips in thousandths, which is above 0. Its last slice ends by the last tick.
#[derive(Clone, Copy)]
pub struct Grid {
    class: ClassId,
    attribute: usize,
    from: u32,
    width: Fix,
}

impl Model for Grid {
    ghost use Rattle.plane.specs.Boxes.{Grid};

    ghost Value = { Grid };

    ghost view = { λ a. record { class = a.class; attribute = a.attribute; from = a.from; width = a.width } };

    ghost use Rattle.plane_index.specs.Held.{IsGrid};

    ghost invariant = { λ a. IsGrid a.from a.width };

    ghost inverse = { λ g. record { class = g.class; attribute = g.attribute; from = g.from; width = g.width } };
}

impl Grid {
    ghost use Rattle.plane_index.specs.Held.{IsGrid};

    /// The width is at least a thousandth, and there are 63,999 ticks past `from`.
    pub fn new(class: ClassId, attribute: usize, from: u32, width: Fix) -> Grid
        requires { IsGrid from width }
        ensures { result ≡ record { class = class; attribute = attribute; from = from; width = width } }
    {
        Grid {
            class,
            attribute,
            from,
            width,
        }
    }

    /// The class whose objects it is of.
    pub fn class(&self) -> ClassId
        ensures { result ≡ self.now.class }
    {
        self.class
    }

    /// The place of its attribute among those of the class.
    pub fn attribute(&self) -> usize
        ensures { result ≡ self.now.attribute }
    {
        self.attribute
    }

    /// The tick from which on it reaches.
    pub fn from(&self) -> u32
        ensures { result ≡ self.now.from }
    {
        self.from
    }

    /// The last tick of the last slice.
    pub fn last(&self) -> u32
        ensures value { result ≡ last_covered self.now }
        ensures in_range { IsTick result }
    {
        self.from + (SLICES * SLICE_TICKS - 1)
    }

    /// Whether the slices have the ticks of a window.
    pub(crate) fn covers(&self, w: Window) -> bool
        ensures value { result ≡ (nat_le self.now.from w.lo && nat_le w.hi (last_covered self.now)) }
        ensures wide { pos 0 <ℤ self.now.width }
    {
        self.from <= w.lo && w.hi <= self.last()
    }

    /// The ticks of a slice.
    pub(crate) fn slice(&self, s: usize) -> Window
        requires { IsSlice s }
        ensures { (result.lo ≡ slice_first self.now s) × (result.hi ≡ slice_last self.now s) }
    {
        let lo = self.from + SLICE_TICKS * s as u32;
        Window {
            lo,
            hi: lo + (SLICE_TICKS - 1),
        }
    }

    /// The strip of a value.
    pub(crate) fn strip(&self, value: Fix) -> i64
        ensures value { result ≡ strip self.now.width value }
        ensures size { IsFix result }
    {
        value.raw().div_euclid(self.width.raw())
    }

    /// The slice of a tick.
    pub(crate) fn slice_of(&self, t: u32) -> usize
        requires first { self.now.from ≤ t }
        requires last { t ≤ last_covered self.now }
        ensures bound { IsSlice result }
        ensures slice { (slice_first self.now result ≤ t) × (t ≤ slice_last self.now result) }
    {
        ((t - self.from) / SLICE_TICKS) as usize
    }
}
