//! The ticks at which the difference of two separations is at most a limit.
ghost use Rattle.std.specs.Prelude.{◌≡◌, ℕ, ◌+◌, ◌<◌, ◌≤◌, ◌-◌, ◌≤ℤ◌, ◌<ℤ◌, true, option_to_list, unsigned_abs, IfSome};
ghost use Rattle.convex.specs.Stretch.{is_low};
ghost use Rattle.tick_set.specs.Runs.{IsRuns};
ghost use Rattle.tick_set.specs.Ticks.{IsTick};
ghost use Rattle.nearest.specs.Order.{IsFirstLow, IsLastLow, difference_after};

use crate::order::Difference;
use crate::valley::{Rise, turn};
use convex::{Convex, at_most};
use tick_set::{Span, Window};

/// The ticks of the window at which the difference is at most the limit, by the ticks since the window's first.
pub fn low_ticks(d: &Difference, limit: i128, w: Window) -> Option<Span>
    requires { unsigned_abs limit ≤ 1 }
    ensures { IsRuns (is_low (difference_after d.now) limit w) (option_to_list result) }
{
    let begins = d.at(0) <= limit;
    // Where it rises from the first tick on, it stays above.
    if !begins && 0 <= d.linear {
        return None;
    }
    let ends = d.at(w.hi - w.lo) <= limit;
    if begins && ends {
        return Some(w.span());
    }
    if begins {
        return from_the_first(d, limit, w);
    }
    if ends {
        return to_the_last(d, limit, w);
    }
    inside(d, limit, w)
}

// The same where the difference is at most the limit at the first tick.
fn from_the_first(d: &Difference, limit: i128, w: Window) -> Option<Span>
    requires size { unsigned_abs limit ≤ 1 }
    requires low { difference_after d.now 0 ≤ℤ limit }
    ensures { IsRuns (is_low (difference_after d.now) limit w) (option_to_list result) }
{
    let last = w.hi - w.lo;
    let guess = d.roots(limit).second(last);
    match last_low(d, limit, guess, 0, last) {
        Some(end) => Some(Span {
            lo: w.lo,
            hi: w.lo + end,
        }),
        None => at_most(d, limit, w),
    }
}

// The same where the difference is at most the limit at the last tick.
fn to_the_last(d: &Difference, limit: i128, w: Window) -> Option<Span>
    requires size { unsigned_abs limit ≤ 1 }
    requires low { difference_after d.now (w.hi - w.lo) ≤ℤ limit }
    ensures { IsRuns (is_low (difference_after d.now) limit w) (option_to_list result) }
{
    let last = w.hi - w.lo;
    let guess = d.roots(limit).first(last);
    match first_low(d, limit, guess, last) {
        Some(first) => Some(Span {
            lo: w.lo + first,
            hi: w.hi,
        }),
        None => at_most(d, limit, w),
    }
}

// The same without a look at the first tick and the last one.
fn inside(d: &Difference, limit: i128, w: Window) -> Option<Span>
    requires { unsigned_abs limit ≤ 1 }
    ensures { IsRuns (is_low (difference_after d.now) limit w) (option_to_list result) }
{
    let last = w.hi - w.lo;
    let rise = Rise {
        quadratic: d.quadratic,
        linear: d.linear,
    };
    let lowest = turn(&rise, last);
    if limit < d.at(lowest) {
        return None;
    }
    match guessed(d, limit, lowest, last) {
        Some((first, end)) => Some(Span {
            lo: w.lo + first,
            hi: w.lo + end,
        }),
        None => at_most(d, limit, w),
    }
}

// The first and the last number at which the difference is at most the limit, where they are as guessed. None tells
// nothing.
fn guessed(d: &Difference, limit: i128, lowest: u32, last: u32) -> Option<(u32, u32)>
    requires size { unsigned_abs limit ≤ 1 }
    requires ordered { lowest ≤ last }
    requires in_range { IsTick last }
    ensures first { IfSome result (λ ends. IsFirstLow (difference_after d.now) limit lowest ends.0) }
    ensures end { IfSome result (λ ends. IsLastLow (difference_after d.now) limit lowest last ends.1) }
{
    let roots = d.roots(limit);
    let first = first_low(d, limit, roots.first(lowest), lowest)?;
    let end = last_low(d, limit, roots.second(last).max(lowest), lowest, last)?;
    Some((first, end))
}

// The first number at which the difference is at most the limit, where that is the guess or the next one.
fn first_low(d: &Difference, limit: i128, guess: u32, lowest: u32) -> Option<u32>
    requires guessed { guess ≤ lowest }
    requires in_range { IsTick lowest }
    ensures { IfSome result (IsFirstLow (difference_after d.now) limit lowest) }
{
    if d.at(guess) <= limit {
        if guess == 0 {
            return Some(guess);
        }
        if limit < d.at(guess - 1) {
            return Some(guess);
        }
        return None;
    }
    if guess < lowest && d.at(guess + 1) <= limit {
        return Some(guess + 1);
    }
    None
}

// The last number at which the difference is at most the limit, where that is the guess or the one before.
fn last_low(d: &Difference, limit: i128, guess: u32, lowest: u32, last: u32) -> Option<u32>
    requires guessed { lowest ≤ guess }
    requires ordered { guess ≤ last }
    requires in_range { IsTick last }
    ensures { IfSome result (IsLastLow (difference_after d.now) limit lowest last) }
{
    if d.at(guess) <= limit {
        if guess == last {
            return Some(guess);
        }
        if limit < d.at(guess + 1) {
            return Some(guess);
        }
        return None;
    }
    if lowest < guess && d.at(guess - 1) <= limit {
        return Some(guess - 1);
    }
    None
}
