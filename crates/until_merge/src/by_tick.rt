//! The operators on a list of ticks: each tick of the window is judged by itself, as the definitions say.
ghost use Rattle.std.specs.Prelude.{◌≡◌, ◌≤◌, ◌+◌, ℕ, true, false, min, IfOk};
ghost use Rattle.tick_set.specs.Ticks.{within, some_in, all_in, IsTick};
ghost use Rattle.tick_set.specs.Operators.{until_in};
ghost use Rattle.tick_set.specs.TickList.{has};

use crate::Temporal;
use std::alloc::{AllocError, Global};
use tick_set::{TickList, TickSet, Window};

// `c` is added to a tick only where the sum is at most the window's last tick.
impl Temporal for TickList {
    fn next(&self, alloc: Global, w: Window) -> Result<Self, AllocError> {
        ticks_where(alloc, w, |t| t < w.hi && self.has(t + 1))
    }

    fn until(&self, alloc: Global, h: &Self, w: Window) -> Result<Self, AllocError> {
        ticks_where(alloc, w, |t| leads(self, h, t, t, w.hi))
    }

    fn until_within(&self, alloc: Global, h: &Self, c: u32, w: Window) -> Result<Self, AllocError> {
        ticks_where(alloc, w, |t| leads(self, h, t, t, reach(t, c, w.hi)))
    }

    fn until_after(&self, alloc: Global, h: &Self, c: u32, w: Window) -> Result<Self, AllocError> {
        ticks_where(alloc, w, |t| leads_after(self, h, t, c, w.hi))
    }

    fn eventually_within(&self, alloc: Global, c: u32, w: Window) -> Result<Self, AllocError> {
        ticks_where(alloc, w, |t| has_some(self, t, reach(t, c, w.hi)))
    }

    fn eventually_after(&self, alloc: Global, c: u32, w: Window) -> Result<Self, AllocError> {
        ticks_where(alloc, w, |t| has_some_after(self, t, c, w.hi))
    }

    fn always_for(&self, alloc: Global, c: u32, w: Window) -> Result<Self, AllocError> {
        ticks_where(alloc, w, |t| has_all(self, t, reach(t, c, w.hi)))
    }
}

// The ticks of the window that pass the test.
fn ticks_where<F: Fn(u32) -> bool + Drop>(
    alloc: Global,
    w: Window,
    holds: F,
) -> Result<TickList, AllocError>
    requires { (t : ℕ) → t ≤ w.hi → F.pre holds t }
    ensures inside { IfOk result
        (λ r. (t : ℕ) → within w.lo w.hi t ≡ true → F.post holds t (has r t)) }
    ensures outside { IfOk result (λ r. (t : ℕ) → within w.lo w.hi t ≡ false → has r t ≡ false) }
{
    let mut made = TickList::empty(alloc);
    for t in w.lo..=w.hi {
        if holds(t) {
            made.push(t)?;
        }
    }
    Ok(made)
}

// The tick `c` after `t`, or the last one that counts.
fn reach(t: u32, c: u32, last: u32) -> u32
    requires { t ≤ last }
    ensures { result ≡ min (t + c) last }
{
    t + c.min(last - t)
}

// Whether some tick of `from` to `upto` is in h, where g has each one from `t` up to it.
fn leads(g: &TickList, h: &TickList, t: u32, from: u32, upto: u32) -> bool
    requires starts { t ≤ from }
    requires in_range { IsTick upto }
    ensures { result ≡ until_in (has g.now) (has h.now) from upto t }
{
    for u in t..=upto {
        if from <= u && h.has(u) {
            return true;
        }
        if !g.has(u) {
            return false;
        }
    }
    false
}

// The same for the ticks to `last` that are at least `c` after `t`.
fn leads_after(g: &TickList, h: &TickList, t: u32, c: u32, last: u32) -> bool
    requires counts { t ≤ last }
    requires in_range { IsTick last }
    ensures { result ≡ until_in (has g.now) (has h.now) (t + c) last t }
{
    c <= last - t && leads(g, h, t, t + c, last)
}

// Whether some tick of `from` to `upto` is in the set.
fn has_some(set: &TickList, from: u32, upto: u32) -> bool
    requires { IsTick upto }
    ensures { result ≡ some_in (has set.now) from upto }
{
    for t in from..=upto {
        if set.has(t) {
            return true;
        }
    }
    false
}

// The same for the ticks to `last` that are at least `c` after `t`.
fn has_some_after(set: &TickList, t: u32, c: u32, last: u32) -> bool
    requires counts { t ≤ last }
    requires in_range { IsTick last }
    ensures { result ≡ some_in (has set.now) (t + c) last }
{
    c <= last - t && has_some(set, t + c, last)
}

// Whether each tick of `from` to `upto` is in the set.
fn has_all(set: &TickList, from: u32, upto: u32) -> bool
    requires { IsTick upto }
    ensures { result ≡ all_in (has set.now) from upto }
{
    for t in from..=upto {
        if !set.has(t) {
            return false;
        }
    }
    true
}
