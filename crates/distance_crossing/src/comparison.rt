//! The ticks at which the distance of two motions compares with a constant.
ghost use Rattle.std.specs.Prelude.{◌≡◌, ℕ, ◌+◌, ◌-◌, ◌-ℤ◌, ◌^◌, ◌≤◌, ◌≤ℤ◌, ◌&&◌, true, pos, not, nat_le, int_le, nat_lt, unsigned_abs, option_to_list, ◌++◌, IsNone, IfSome, MatchOption};
ghost use Rattle.std.specs.Ordering.{int_eq};
ghost use Rattle.linear_crossing.specs.Moving.{IsInReach};
ghost use Rattle.linear_crossing.specs.Relative.{squared_distance_at};
ghost use Rattle.linear_crossing.specs.Zones.{IsPairOf, spans_of};
ghost use Rattle.tick_set.specs.Runs.{IsNormal, IsRuns, spans_have};
ghost use Rattle.tick_set.specs.Ticks.{IsTick, within};
ghost use Rattle.tick_set.specs.Windows.{IsQueryWindow};
ghost use Rattle.distance_crossing.specs.Far.{pass_by};
ghost use Rattle.distance_crossing.specs.NearTicks.{distance_holds_at, is_near_at, motions_compare};
ghost use Rattle.distance_crossing.specs.Triples.{IsPacked, IsTripleOf, triple_spans};
ghost use Rattle.distance_crossing.specs.Sizes.{IfShort};
ghost use Rattle.fixed_point.specs.Sizes.{IsReadable};
ghost use Rattle.steps.specs.Counting.{StepsAtMost};

use crate::far::pass_by;
use crate::near::within;
use case_table::Op;
use exact::times;
use fixed_point::{Fix, READ_LIMIT};
use linear_crossing::{Line, Pair, Quad};
use std::sync::ledger::Ledger;
use steps::Steps;
use tick_set::{LAST_TICK, Span, Window};

/// Up to three runs of ticks. The empty places come last.
#[derive(Clone, Copy, Debug, PartialEq, Eq)]
pub struct Triple {
    pub first: Option<Span>,
    pub second: Option<Span>,
    pub third: Option<Span>,
}

/// The ticks of the window at which the distance of two motions compares with `c` as `op` says, as maximal runs in
/// order. `c` is in thousandths, within 10^12 of 0, and the coordinates of the first positions are within
/// [`linear_crossing::COORDINATE_LIMIT`] of 0. Motions that are further apart than `c` on one axis, on one side of each
/// other, at the window's first and last tick are so at each tick between: no distance is looked at.
///
/// It takes no memory.
pub fn compare_motions<M: Ledger>(
    p: &Line,
    q: &Line,
    op: Op,
    c: Fix,
    w: Window,
    probes: &mut Steps<M>,
) -> Triple
    requires p_in_reach { IsInReach p.now }
    requires q_in_reach { IsInReach q.now }
    requires length { IsQueryWindow w }
    requires c_size { IsReadable c }
    ensures runs { IsTripleOf (motions_compare p.now q.now op c w) result }
    ensures cost { StepsAtMost probes.old probes.new 63 }
    ensures short_cost { IfShort w (probes.new ≤ probes.old + 47) }
    ensures far { pass_by c p.now q.now (w.hi - w.lo) ≡ true → probes.new ≡ probes.old }
{
    if pass_by(p, q, c, w.hi - w.lo) {
        return everywhere(op.holds(1), w);
    }
    compare(&Quad::between(p, q), op, c, w, probes)
}

/// The ticks of the window at which the distance compares with `c` as `op` says, as maximal runs in order. `c` is in
/// thousandths, within 10^12 of 0. Where it is negative, `<`, `<=` and `=` hold nowhere and the others
/// everywhere.
///
/// It takes no memory.
pub fn compare<M: Ledger>(q: &Quad, op: Op, c: Fix, w: Window, probes: &mut Steps<M>) -> Triple
    requires length { IsQueryWindow w }
    requires c_size { IsReadable c }
    ensures runs { IsTripleOf (distance_holds_at q.now op c w) result }
    ensures cost { StepsAtMost probes.old probes.new 63 }
    ensures short_cost { IfShort w (probes.new ≤ probes.old + 47) }
{
    if c.raw() < 0 {
        return everywhere(op.holds(1), w);
    }
    let root = i128::from(c.raw());
    let square = times(root, root);
    match op {
        Op::Lt => inside(Pair::single(nearer(q, square, w, probes))),
        Op::Le => inside(Pair::single(within(q, square, w, probes))),
        Op::Eq => inside(at_distance(q, square, w, probes)),
        Op::Ne => outside(w, at_distance(q, square, w, probes)),
        Op::Ge => outside(w, Pair::single(nearer(q, square, w, probes))),
        Op::Gt => outside(w, Pair::single(within(q, square, w, probes))),
    }
}

// The whole window or nothing.
fn everywhere(all: bool, w: Window) -> Triple
    ensures { IsTripleOf (λ t. within w.lo w.hi t && all) result }
{
    let run = if all { Some(w.span()) } else { None };
    inside(Pair::single(run))
}

// The ticks of the window at which the squared distance is below `square`.
fn nearer<M: Ledger>(q: &Quad, square: i128, w: Window, probes: &mut Steps<M>) -> Option<Span>
    requires length { IsQueryWindow w }
    requires size { unsigned_abs square ≤ READ_LIMIT ^ 2 }
    ensures runs { IsRuns (is_near_at q.now (square -ℤ pos 1) w) (option_to_list result) }
    ensures cost { StepsAtMost probes.old probes.new 60 }
    ensures short_cost { IfShort w (probes.new ≤ probes.old + 44) }
{
    within(q, square - 1, w, probes)
}

// The ticks of the window at which the squared distance is `square`.
fn at_distance<M: Ledger>(q: &Quad, square: i128, w: Window, probes: &mut Steps<M>) -> Pair
    requires length { IsQueryWindow w }
    ensures runs { IsPairOf (λ t. within w.lo w.hi t && int_eq (squared_distance_at q.now (t - w.lo)) square) result }
    ensures cost { StepsAtMost probes.old probes.new 63 }
    ensures short_cost { IfShort w (probes.new ≤ probes.old + 47) }
{
    let at_most = within(q, square, w, probes);
    let below = below(q, square, at_most, w, probes);
    without(at_most, below)
}

// The ticks of the window at which the squared distance is below `square`, by those at which it is at most that.
// Only the first and the last of these can be at it, or all: the squared distance is convex.
fn below<M: Ledger>(
    q: &Quad,
    square: i128,
    at_most: Option<Span>,
    w: Window,
    probes: &mut Steps<M>,
) -> Option<Span>
    requires at_most { IsRuns (is_near_at q.now square w) (option_to_list at_most) }
    ensures runs { IsRuns (is_near_at q.now (square -ℤ pos 1) w) (option_to_list result) }
    ensures cost { StepsAtMost probes.old probes.new 3 }
{
    let Some(span) = at_most else {
        return None;
    };
    let (from, until) = stretch_below(q, square, span.lo - w.lo, span.hi - w.lo, probes);
    Span::stretch(w.lo + from, w.lo + until)
}

// The first number of `first..=end` at which the value is below `square`, and the first past those. The value at a
// number is the squared distance so many ticks after the window's first, and at most `square` at all of these. Where
// it is below at none, the first is no less than the second.
fn stretch_below<M: Ledger>(
    q: &Quad,
    square: i128,
    first: u32,
    end: u32,
    probes: &mut Steps<M>,
) -> (u32, u32)
    requires ordered { first ≤ end }
    requires in_range { IsTick end }
    requires at_most { (k : ℕ) → first ≤ k → k ≤ end → squared_distance_at q.now k ≤ℤ square }
    ensures from { first ≤ result.0 }
    ensures from_upto { result.0 ≤ end + 1 }
    ensures upto { result.1 ≤ end + 1 }
    ensures below { (k : ℕ) → first ≤ k → k ≤ end → int_le (squared_distance_at q.now k) (square -ℤ pos 1) ≡ (nat_le result.0 k && nat_lt k result.1) }
    ensures cost { StepsAtMost probes.old probes.new 3 }
{
    let (at_first, at_end) = are_at(q, square, first, end, probes);
    if at_first && at_end && stays(q, square, first, end, probes) {
        return (first, first);
    }
    (first + u32::from(at_first), end + 1 - u32::from(at_end))
}

// Whether there is a number between the two, and the value is `square` at the first of these. One that is at most
// `square` at both is then `square` at all numbers: the motions keep their distance.
fn stays<M: Ledger>(q: &Quad, square: i128, first: u32, end: u32, probes: &mut Steps<M>) -> bool
    requires ordered { first ≤ end }
    requires in_range { IsTick end }
    ensures between { result ≡ (nat_lt (first + 1) end && int_eq (squared_distance_at q.now (first + 1)) square) }
    ensures cost { StepsAtMost probes.old probes.new 1 }
{
    first + 1 < end && is_at(q, square, first + 1, probes)
}

// Whether the value is `square` at each of two numbers.
fn are_at<M: Ledger>(
    q: &Quad,
    square: i128,
    first: u32,
    end: u32,
    probes: &mut Steps<M>,
) -> (bool, bool)
    ensures first { result.0 ≡ int_eq (squared_distance_at q.now first) square }
    ensures end { result.1 ≡ int_eq (squared_distance_at q.now end) square }
    ensures cost { StepsAtMost probes.old probes.new 2 }
{
    let at_first = is_at(q, square, first, probes);
    if first == end {
        return (at_first, at_first);
    }
    let at_end = is_at(q, square, end, probes);
    (at_first, at_end)
}

fn is_at<M: Ledger>(q: &Quad, square: i128, k: u32, probes: &mut Steps<M>) -> bool
    ensures value { result ≡ int_eq (squared_distance_at q.now k) square }
    ensures cost { probes.new ≡ probes.old + 1 }
{
    q.at(k, probes) == square
}

// The ticks of the first span that are not in the second, which has no others.
fn without(outer: Option<Span>, inner: Option<Span>) -> Pair
    requires { (t : ℕ) → spans_have (option_to_list inner) t ≡ true → spans_have (option_to_list outer) t ≡ true }
    ensures { IsPairOf (λ t. spans_have (option_to_list outer) t && not (spans_have (option_to_list inner) t)) result }
{
    let Some(whole) = outer else {
        return Pair::single(None);
    };
    let (first, next) = gap(whole.lo, inner);
    let second = Span::stretch(next, whole.hi + 1);
    if first.is_none() {
        Pair::single(second)
    } else {
        Pair { first, second }
    }
}

// The ticks of the window that are in neither run of the pair, which has no others.
fn outside(w: Window, pair: Pair) -> Triple
    requires normal { IsNormal (spans_of pair) }
    requires inside { (t : ℕ) → spans_have (spans_of pair) t ≡ true → within w.lo w.hi t ≡ true }
    ensures { IsTripleOf (λ t. within w.lo w.hi t && not (spans_have (spans_of pair) t)) result }
{
    let (first, next) = gap(w.lo, pair.first);
    let (second, next) = gap(next, pair.second);
    packed(first, second, Span::stretch(next, w.hi + 1))
}

// The same runs as a triple.
fn inside(pair: Pair) -> Triple
    requires normal { IsNormal (spans_of pair) }
    requires in_order { IsNone pair.first → IsNone pair.second }
    ensures { IsTripleOf (spans_have (spans_of pair)) result }
{
    Triple {
        first: pair.first,
        second: pair.second,
        third: None,
    }
}

// The ticks from `from` up to the run, and the first tick past it; none and `from` where there is no run.
fn gap(from: u32, run: Option<Span>) -> (Option<Span>, u32)
    requires in_range { from ≤ LAST_TICK + 1 }
    requires ahead { IfSome run (λ s. from ≤ s.lo) }
    ensures next { MatchOption run (result.1 ≡ from) (λ s. result.1 ≡ s.hi + 1) }
    ensures runs { IsRuns (λ t. nat_le from t && nat_lt t result.1 && not (spans_have (option_to_list run) t)) (option_to_list result.0) }
{
    match run {
        Some(s) => (Span::stretch(from, s.lo), s.hi + 1),
        None => (None, from),
    }
}

// The runs that are there, in their order.
fn packed(first: Option<Span>, second: Option<Span>, third: Option<Span>) -> Triple
    ensures spans { triple_spans result ≡ option_to_list first ++ option_to_list second ++ option_to_list third }
    ensures packed { IsPacked result }
{
    if first.is_none() && second.is_none() {
        return Triple {
            first: third,
            second: None,
            third: None,
        };
    }
    if first.is_none() {
        return Triple {
            first: second,
            second: third,
            third: None,
        };
    }
    if second.is_none() {
        return Triple {
            first,
            second: third,
            third: None,
        };
    }
    Triple {
        first,
        second,
        third,
    }
}
