//! The ends of the stretch at which a convex function is at most a limit.
ghost use Rattle.std.specs.Prelude.{◌≡◌, ◌≤◌, ◌<◌, ◌+◌, ℕ, ◌≤ℤ◌, ◌<ℤ◌, IfNone, IfSome};
ghost use Rattle.convex.specs.Stretch.{AreEnds};

use crate::Convex;

/// The first and the last of the numbers 0 to `last` at which the function is at most the limit. None exactly where
/// there is none.
pub fn ends_of<C: Convex>(f: &C, limit: i128, last: u32) -> Option<(u32, u32)>
    requires { last ≤ C.reach f.now }
    ensures some { IfSome result (λ ends. AreEnds (C.value f.now) limit last ends.0 ends.1) }
    ensures none { IfNone result ((k : ℕ) → k ≤ last → limit <ℤ C.value f.now k) }
{
    match (f.at(0) <= limit, f.at(last) <= limit) {
        (true, true) => Some((0, last)),
        (true, false) => Some((0, last_low(f, limit, 0, last))),
        (false, true) => Some((first_low(f, limit, 0, last), last)),
        (false, false) => {
            let low = some_low(f, limit, last)?;
            Some((first_low(f, limit, 0, low), last_low(f, limit, low, last)))
        }
    }
}

// A number at which the function is at most the limit, where it is above at 0 and at `last`. It is sought by
// halves, on the side to which the function falls.
fn some_low<C: Convex>(f: &C, limit: i128, last: u32) -> Option<u32>
    requires reach { last ≤ C.reach f.now }
    requires first { limit <ℤ C.value f.now 0 }
    requires last { limit <ℤ C.value f.now last }
    ensures bounds { IfSome result (λ k. (0 < k) × (k < last)) }
    ensures low { IfSome result (λ k. C.value f.now k ≤ℤ limit) }
    ensures none { IfNone result ((k : ℕ) → k ≤ last → limit <ℤ C.value f.now k) }
{
    let mut low = 0;
    let mut high = last;
    // A number at which the function is at most the limit lies between the two.
    'halves: while 1 < high - low {
        let middle = low + (high - low) / 2;
        let value = f.at(middle);
        if value <= limit {
            return Some(middle);
        }
        if f.at(middle + 1) < value {
            low = middle;
        } else {
            high = middle;
        }
    }
    None
}

// The first number at which the function is at most the limit, where it is above at `from` and not at `until`.
fn first_low<C: Convex>(f: &C, limit: i128, from: u32, until: u32) -> u32
    requires ordered { from < until }
    requires reach { until ≤ C.reach f.now }
    requires high { limit <ℤ C.value f.now from }
    requires low { C.value f.now until ≤ℤ limit }
    ensures bounds { (from < result) × (result ≤ until) }
    ensures low { C.value f.now result ≤ℤ limit }
    ensures before { (k : ℕ) → k + 1 ≡ result → limit <ℤ C.value f.now k }
{
    let mut high = from;
    let mut low = until;
    // The function is above the limit at `high`, and not at `low`.
    'halves: while 1 < low - high {
        let middle = high + (low - high) / 2;
        if f.at(middle) <= limit {
            low = middle;
        } else {
            high = middle;
        }
    }
    low
}

// The last number at which the function is at most the limit, where it is so at `from` and above at `until`.
fn last_low<C: Convex>(f: &C, limit: i128, from: u32, until: u32) -> u32
    requires ordered { from < until }
    requires reach { until ≤ C.reach f.now }
    requires low { C.value f.now from ≤ℤ limit }
    requires high { limit <ℤ C.value f.now until }
    ensures bounds { (from ≤ result) × (result < until) }
    ensures low { C.value f.now result ≤ℤ limit }
    ensures after { limit <ℤ C.value f.now (result + 1) }
{
    let mut low = from;
    let mut high = until;
    // The function is at most the limit at `low`, and above it at `high`.
    'halves: while 1 < high - low {
        let middle = low + (high - low) / 2;
        if f.at(middle) <= limit {
            low = middle;
        } else {
            high = middle;
        }
    }
    low
}
