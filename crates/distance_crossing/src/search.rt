//! The numbers at which the positions of three motions fit a circle, found by bisections. The least circle
//! round them first shrinks and then grows, so these numbers are consecutive.
ghost use Rattle.std.specs.Prelude.{◌≡◌, ℕ, ◌+◌, ◌-◌, ◌<◌, ◌≤◌, ◌&&◌, true, false, pos, ◌≤ℤ◌, nat_le, option_to_list, IfSome, IfNone};
ghost use Rattle.tick_set.specs.Ticks.{IsTick, within};
ghost use Rattle.tick_set.specs.Runs.{IsRuns};
ghost use Rattle.distance_crossing.specs.Trials.{fit_at, over_at, under_at, IsClose};
ghost use Rattle.distance_crossing.specs.declared.search.Place.TheVariants.{Here, Before, After};

use crate::circle::squared_width;
use crate::fraction::{Fraction, least_circle};
use crate::trial::Trial;
use tick_set::{Span, Window};

// Where the numbers at which the positions fit lie, seen from one number.
#[derive(Clone, Copy)]
enum Place {
    Here,
    Before,
    After,
}

// The square of the diameter of the least circle round the positions, `k` ticks after the window's first.
fn circle_at(m: &Trial, k: u32) -> Fraction
    requires { IsClose m.now k }
    ensures over { pos result.over ≡ over_at m.now k }
    ensures under { pos result.under ≡ under_at m.now k }
{
    let p = m.p.position(k);
    let q = m.q.position(k);
    let s = m.s.position(k);
    least_circle(&p, &q, &s)
}

fn fits_at(m: &Trial, k: u32) -> bool
    requires { IsClose m.now k }
    ensures { result ≡ fit_at m.now k }
{
    let width = squared_width(m.r);
    circle_at(m, k).is_at_most(width.unsigned_abs())
}

// Where the positions fit, seen from `k`, of the numbers up to `last`.
fn place_at(m: &Trial, k: u32, last: u32) -> Place
    requires ordered { k ≤ last }
    requires close { (t : ℕ) → k ≤ t → t ≤ last → IsClose m.now t }
    ensures here { result ≡ Here → fit_at m.now k ≡ true }
    ensures before { result ≡ Before → (t : ℕ) → k ≤ t → t ≤ last → fit_at m.now t ≡ false }
    ensures after { result ≡ After → (t : ℕ) → t ≤ k → fit_at m.now t ≡ false }
{
    let circle = circle_at(m, k);
    if circle.is_at_most(squared_width(m.r).unsigned_abs()) {
        return Place::Here;
    }
    if k < last && circle_at(m, k + 1).is_below(&circle) {
        return Place::After;
    }
    Place::Before
}

// One of the numbers of `first..=last` at which the positions fit.
fn some_fitting(m: &Trial, first: u32, last: u32) -> Option<u32>
    requires in_range { IsTick last }
    requires close { (t : ℕ) → first ≤ t → t ≤ last → IsClose m.now t }
    ensures inside { IfSome result (λ k. (first ≤ k) × (k ≤ last)) }
    ensures fits { IfSome result (λ k. fit_at m.now k ≡ true) }
    ensures none { IfNone result ((t : ℕ) → first ≤ t → t ≤ last → fit_at m.now t ≡ false) }
{
    let mut low = first;
    let mut until = last + 1;
    // They fit nowhere below `low`, and nowhere from `until` on.
    while low < until {
        let middle = low + (until - low) / 2;
        match place_at(m, middle, last) {
            Place::Here => return Some(middle),
            Place::Before => until = middle,
            Place::After => low = middle + 1,
        }
    }
    None
}

// The first number of `first..=found` at which the positions fit. They do at `found`.
fn first_fitting(m: &Trial, first: u32, found: u32) -> u32
    requires ordered { first ≤ found }
    requires close { (t : ℕ) → first ≤ t → t ≤ found → IsClose m.now t }
    requires fits { fit_at m.now found ≡ true }
    ensures bound { (first ≤ result) × (result ≤ found) }
    ensures first { (t : ℕ) → first ≤ t → t ≤ found → fit_at m.now t ≡ nat_le result t }
{
    let mut low = first;
    let mut high = found;
    // They do not fit below `low`, and do at `high`.
    while low < high {
        let middle = low + (high - low) / 2;
        if fits_at(m, middle) {
            high = middle;
        } else {
            low = middle + 1;
        }
    }
    high
}

// The last number of `found..=last` at which the positions fit. They do at `found`.
fn last_fitting(m: &Trial, found: u32, last: u32) -> u32
    requires ordered { found ≤ last }
    requires close { (t : ℕ) → found ≤ t → t ≤ last → IsClose m.now t }
    requires fits { fit_at m.now found ≡ true }
    ensures bound { (found ≤ result) × (result ≤ last) }
    ensures last { (t : ℕ) → found ≤ t → t ≤ last → fit_at m.now t ≡ nat_le t result }
{
    let mut low = found;
    let mut high = last;
    // They do not fit above `high`, and do at `low`.
    while low < high {
        let middle = high - (high - low) / 2;
        if fits_at(m, middle) {
            low = middle;
        } else {
            high = middle - 1;
        }
    }
    low
}

/// The ticks of the span at which the positions fit, where each two of them are near throughout.
pub fn fitting(m: &Trial, w: Window, span: Span) -> Option<Span>
    requires from { w.lo ≤ span.lo }
    requires close { (t : ℕ) → within span.lo span.hi t ≡ true → IsClose m.now (t - w.lo) }
    ensures { IsRuns (λ t. within span.lo span.hi t && fit_at m.now (t - w.lo)) (option_to_list result) }
{
    let first = span.lo - w.lo;
    let last = span.hi - w.lo;
    let found = some_fitting(m, first, last)?;
    Some(Span {
        lo: w.lo + first_fitting(m, first, found),
        hi: w.lo + last_fitting(m, found, last),
    })
}
