//! The ticks at which a linear function compares with 0.
ghost use Rattle.std.specs.Prelude.{◌≡◌, ℕ, ℤ, ◌+◌, ◌-◌, ◌*◌, ◌^◌, ◌<◌, ◌≤◌, pos, ◌+ℤ◌, ◌*ℤ◌, neg_ℤ, unsigned_abs, nat_le, int_le, ◌&&◌, not, option_to_list, IsNone};
ghost use Rattle.case_table.specs.Comparison.{compares};
ghost use Rattle.tick_set.specs.Runs.{IsRuns};
ghost use Rattle.linear_crossing.specs.Zones.{solves, is_stretch, spans_of, IsPairOf};

use case_table::Op;
use exact::negated;
use tick_set::{Span, Window};

/// Up to two runs of ticks. A single one stands first.
#[derive(Clone, Copy, Debug, PartialEq, Eq)]
pub struct Pair {
    pub first: Option<Span>,
    pub second: Option<Span>,
}

impl Pair {
    /// One run, or none, as a pair.
    #[inline]
    pub fn single(run: Option<Span>) -> Pair
        ensures spans { spans_of result ≡ option_to_list run }
        ensures in_order { IsNone result.first → IsNone result.second }
    {
        Pair {
            first: run,
            second: None,
        }
    }
}

/// The largest size of the way at each tick of a function that is solved.
pub const RISE_LIMIT: u128 = 8_000_000_000_000_000_000_000_000;

/// The largest size of the first value of a function that is solved.
pub const START_LIMIT: u128 = 12_000_000_000_000_000_000_000_000_000_000_000_000;

/// The ticks t of the window at which `a * (t - w.lo) + b op 0`, as maximal runs in order.
///
/// `a` is within [`RISE_LIMIT`] of 0 and `b` within [`START_LIMIT`], which leaves room for the value at each tick.
pub fn solve(a: i128, b: i128, op: Op, w: Window) -> Pair
    requires a_size { unsigned_abs a ≤ RISE_LIMIT }
    requires b_size { unsigned_abs b ≤ START_LIMIT }
    ensures { IsPairOf (solves a b op w) result }
{
    if a >= 0 {
        rising(a.unsigned_abs(), b, op, w)
    } else {
        rising(a.unsigned_abs(), negated(b), mirrored(op), w)
    }
}

// The comparison that holds of the opposite numbers.
fn mirrored(op: Op) -> Op
    ensures { (x : ℤ) → compares result (neg_ℤ x) (pos 0) ≡ compares op x (pos 0) }
{
    match op {
        Op::Lt => Op::Gt,
        Op::Le => Op::Ge,
        Op::Eq => Op::Eq,
        Op::Ne => Op::Ne,
        Op::Ge => Op::Le,
        Op::Gt => Op::Lt,
    }
}

// The same for a function that begins at `start` and rises by `rise` at each tick: it is negative in a
// first stretch of the window, 0 in a second one and positive in the rest.
fn rising(rise: u128, start: i128, op: Op, w: Window) -> Pair
    requires { unsigned_abs start ≤ START_LIMIT }
    ensures { IsPairOf (solves (pos rise) start op w) result }
{
    let count = w.hi + 1 - w.lo;
    match op {
        Op::Lt => one_stretch(w, 0, first_reached(rise, start, count)),
        Op::Le => one_stretch(w, 0, first_reached(rise, start - 1, count)),
        Op::Eq => one_stretch(
            w,
            first_reached(rise, start, count),
            first_reached(rise, start - 1, count),
        ),
        Op::Ne => both_sides(
            w,
            first_reached(rise, start, count),
            first_reached(rise, start - 1, count),
        ),
        Op::Ge => one_stretch(w, first_reached(rise, start, count), count),
        Op::Gt => one_stretch(w, first_reached(rise, start - 1, count), count),
    }
}

/// The first number below `count` at which a function that begins at `start` and rises by `rise` from number
/// to number is not negative; `count` where there is none.
pub fn first_reached(rise: u128, start: i128, count: u32) -> u32
    ensures bound { result ≤ count }
    ensures first { (k : ℕ) → k < count → int_le (pos 0) (pos rise *ℤ pos k +ℤ start) ≡ nat_le result k }
{
    if start >= 0 {
        return 0;
    }
    let depth = start.unsigned_abs();
    // A product tells without a division that it is negative up to the last number.
    if rise.saturating_mul(u128::from(count.saturating_sub(1))) < depth {
        return count;
    }
    let first = depth.div_ceil(rise);
    first as u32
}

// The ticks from `from` up to `until`, without `until`, counted from the window's first.
fn stretch(w: Window, from: u32, until: u32) -> Option<Span>
    requires { w.lo + until ≤ w.hi + 1 }
    ensures { IsRuns (is_stretch w.lo from until) (option_to_list result) }
{
    if from < until {
        Some(Span {
            lo: w.lo + from,
            hi: w.lo + (until - 1),
        })
    } else {
        None
    }
}

// One stretch as a pair.
fn one_stretch(w: Window, from: u32, until: u32) -> Pair
    requires { w.lo + until ≤ w.hi + 1 }
    ensures { IsPairOf (is_stretch w.lo from until) result }
{
    Pair::single(stretch(w, from, until))
}

// The ticks of the window outside of a stretch.
fn both_sides(w: Window, from: u32, until: u32) -> Pair
    requires { w.lo + until ≤ w.hi + 1 }
    ensures { IsPairOf (λ t. is_stretch w.lo 0 (w.hi + 1 - w.lo) t && not (is_stretch w.lo from until t)) result }
{
    let count = w.hi + 1 - w.lo;
    if from >= until {
        return one_stretch(w, 0, count);
    }
    let first = stretch(w, 0, from);
    let second = stretch(w, until, count);
    if first.is_none() {
        return Pair {
            first: second,
            second: None,
        };
    }
    Pair { first, second }
}
