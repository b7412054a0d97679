//! The ticks at which two motions are within a distance.
ghost use Rattle.std.specs.Prelude.{◌≡◌, ℕ, ◌+◌, ◌-◌, ◌^◌, ◌<◌, ◌≤◌, ◌≤ℤ◌, int_le, option_to_list};
ghost use Rattle.exact.specs.Rising.{DropsTo, RisesIn};
ghost use Rattle.linear_crossing.specs.Relative.{squared_distance_at};
ghost use Rattle.tick_set.specs.Runs.{IsRuns};
ghost use Rattle.tick_set.specs.Windows.{IsQueryWindow};
ghost use Rattle.distance_crossing.specs.Ends.{BracketsFirst, BracketsLast, IsFirstNear, IsLastNear};
ghost use Rattle.distance_crossing.specs.NearTicks.{is_near_at};
ghost use Rattle.distance_crossing.specs.Sizes.{IfShort};
ghost use Rattle.steps.specs.Counting.{StepsAtMost};

use linear_crossing::Quad;
use std::sync::ledger::Ledger;
use steps::Steps;
use tick_set::{Span, Window};

/// The most ticks from the first to the last of a window that takes the smaller number of probes. A longer one
/// has up to [`SPAN_LIMIT`].
pub const SHORT_WINDOW: u32 = 1_000_000;

/// The ticks of the window at which the squared distance is at most `limit`, in square thousandths. They are
/// one span; None exactly where there is none. The window has up to [`SPAN_LIMIT`] ticks after its first.
///
/// It takes no memory. It probes the least distance, and on each side a guess of the end and a number next to it,
/// and bisects what is left where the end is at neither.
pub fn within<M: Ledger>(q: &Quad, limit: i128, w: Window, probes: &mut Steps<M>) -> Option<Span>
    requires { IsQueryWindow w }
    ensures runs { IsRuns (is_near_at q.now limit w) (option_to_list result) }
    ensures cost { StepsAtMost probes.old probes.new 60 }
    ensures short_cost { IfShort w (probes.new ≤ probes.old + 44) }
{
    let last = w.hi - w.lo;
    let nearest = q.valley(last);
    if q.at(nearest, probes) > limit {
        return None;
    }
    let (first, end) = q.reach(limit, last);
    let first = first_near(q, limit, first.min(nearest), nearest, probes);
    let end = last_near(q, limit, end.max(nearest), nearest, last, probes);
    Some(Span {
        lo: w.lo + first,
        hi: w.lo + end,
    })
}

// Whether the value is at most the limit.
#[inline]
fn is_within<M: Ledger>(q: &Quad, limit: i128, k: u32, probes: &mut Steps<M>) -> bool
    ensures value { result ≡ int_le (squared_distance_at q.now k) limit }
    ensures cost { probes.new ≡ probes.old + 1 }
{
    q.at(k, probes) <= limit
}

// The first number at which the value is at most the limit. It falls up to `nearest`, where it is.
fn first_near<M: Ledger>(
    q: &Quad,
    limit: i128,
    guess: u32,
    nearest: u32,
    probes: &mut Steps<M>,
) -> u32
    requires guessed { guess ≤ nearest }
    requires falls { DropsTo (squared_distance_at q.now) nearest }
    requires near { squared_distance_at q.now nearest ≤ℤ limit }
    ensures bound { result ≤ nearest }
    ensures first { IsFirstNear (squared_distance_at q.now) limit nearest result }
    ensures cost { (n : ℕ) → nearest < 2 ^ n → probes.new ≤ probes.old + n + 2 }
    ensures least { probes.old ≤ probes.new }
{
    let round = around_first(q, limit, guess, nearest, probes);
    bisect_first(q, limit, round, nearest, probes)
}

// Two numbers round the first at which the value is at most the limit: it is above below the one, and not at the
// other. They are the same where that is the guess or next after it.
fn around_first<M: Ledger>(
    q: &Quad,
    limit: i128,
    guess: u32,
    nearest: u32,
    probes: &mut Steps<M>,
) -> (u32, u32)
    requires guessed { guess ≤ nearest }
    requires falls { DropsTo (squared_distance_at q.now) nearest }
    requires near { squared_distance_at q.now nearest ≤ℤ limit }
    ensures round { BracketsFirst (squared_distance_at q.now) limit nearest result.0 result.1 }
    ensures cost { StepsAtMost probes.old probes.new 2 }
{
    if guess < nearest && !is_within(q, limit, guess, probes) {
        if guess + 1 < nearest && !is_within(q, limit, guess + 1, probes) {
            (guess + 2, nearest)
        } else {
            (guess + 1, guess + 1)
        }
    } else if 0 < guess && is_within(q, limit, guess - 1, probes) {
        (0, guess - 1)
    } else {
        (guess, guess)
    }
}

// The first number at which the value is at most the limit, by a bisection between two numbers round it.
fn bisect_first<M: Ledger>(
    q: &Quad,
    limit: i128,
    round: (u32, u32),
    nearest: u32,
    probes: &mut Steps<M>,
) -> u32
    requires falls { DropsTo (squared_distance_at q.now) nearest }
    requires round { BracketsFirst (squared_distance_at q.now) limit nearest round.0 round.1 }
    ensures bound { result ≤ nearest }
    ensures first { IsFirstNear (squared_distance_at q.now) limit nearest result }
    ensures cost { (n : ℕ) → round.1 - round.0 < 2 ^ n → probes.new ≤ probes.old + n }
    ensures least { probes.old ≤ probes.new }
{
    let (mut low, mut high) = round;
    // The value is above the limit below `low`, and not at `high`.
    while low < high {
        let middle = low + (high - low) / 2;
        if q.at(middle, probes) <= limit {
            high = middle;
        } else {
            low = middle + 1;
        }
    }
    high
}

// The last number of `nearest..=last` at which the value is at most the limit. It rises from `nearest`, where it is.
fn last_near<M: Ledger>(
    q: &Quad,
    limit: i128,
    guess: u32,
    nearest: u32,
    last: u32,
    probes: &mut Steps<M>,
) -> u32
    requires guessed { nearest ≤ guess }
    requires guess_bound { guess ≤ last }
    requires rises { RisesIn (squared_distance_at q.now) nearest last }
    requires near { squared_distance_at q.now nearest ≤ℤ limit }
    ensures from { nearest ≤ result }
    ensures bound { result ≤ last }
    ensures last { IsLastNear (squared_distance_at q.now) limit nearest last result }
    ensures cost { (n : ℕ) → last - nearest < 2 ^ n → probes.new ≤ probes.old + n + 2 }
    ensures least { probes.old ≤ probes.new }
{
    let round = around_last(q, limit, guess, nearest, last, probes);
    bisect_last(q, limit, round, nearest, last, probes)
}

// Two numbers round the last at which the value is at most the limit: it is not above at the one, and above past the
// other. They are the same where that is the guess or next before it.
fn around_last<M: Ledger>(
    q: &Quad,
    limit: i128,
    guess: u32,
    nearest: u32,
    last: u32,
    probes: &mut Steps<M>,
) -> (u32, u32)
    requires guessed { nearest ≤ guess }
    requires guess_bound { guess ≤ last }
    requires rises { RisesIn (squared_distance_at q.now) nearest last }
    requires near { squared_distance_at q.now nearest ≤ℤ limit }
    ensures round { BracketsLast (squared_distance_at q.now) limit nearest last result.0 result.1 }
    ensures cost { StepsAtMost probes.old probes.new 2 }
{
    if nearest < guess && !is_within(q, limit, guess, probes) {
        if nearest < guess - 1 && !is_within(q, limit, guess - 1, probes) {
            (nearest, guess - 2)
        } else {
            (guess - 1, guess - 1)
        }
    } else if guess < last && is_within(q, limit, guess + 1, probes) {
        (guess + 1, last)
    } else {
        (guess, guess)
    }
}

// The last number at which the value is at most the limit, by a bisection between two numbers round it.
fn bisect_last<M: Ledger>(
    q: &Quad,
    limit: i128,
    round: (u32, u32),
    nearest: u32,
    last: u32,
    probes: &mut Steps<M>,
) -> u32
    requires rises { RisesIn (squared_distance_at q.now) nearest last }
    requires round { BracketsLast (squared_distance_at q.now) limit nearest last round.0 round.1 }
    ensures from { nearest ≤ result }
    ensures bound { result ≤ last }
    ensures last { IsLastNear (squared_distance_at q.now) limit nearest last result }
    ensures cost { (n : ℕ) → round.1 - round.0 < 2 ^ n → probes.new ≤ probes.old + n }
    ensures least { probes.old ≤ probes.new }
{
    let (mut low, mut high) = round;
    // The value is above the limit above `high`, and not at `low`.
    while low < high {
        let middle = high - (high - low) / 2;
        if q.at(middle, probes) <= limit {
            low = middle;
        } else {
            high = middle - 1;
        }
    }
    low
}
