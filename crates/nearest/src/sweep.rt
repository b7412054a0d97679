//! The ticks that few of some stretches have.
ghost use Rattle.std.specs.Prelude.{◌≡◌, ◌+◌, ◌<◌, ◌≤◌, ◌&&◌, ℕ, nat_le, nat_lt, length, map, option_to_list, slice_index, IfOk};
ghost use Rattle.std.specs.List.Sorted.{IsNonDecreasing};
ghost use Rattle.tick_set.specs.Runs.{IsRuns, spans_have};
ghost use Rattle.tick_set.specs.Ticks.{within};
ghost use Rattle.tick_set.specs.declared.spans.TheConstants.{LAST_TICK};
ghost use Rattle.nearest.specs.Depth.{AreComeBy, count_to, depth_at};

use std::alloc::{AllocError, Global};
use tick_set::{Runs, Span, Window};

/// The ticks of the window that fewer than `k` of the stretches have. The stretches stand in any order, and may share
/// ticks.
pub fn ticks_below(
    alloc: Global,
    stretches: &[Span],
    k: u32,
    w: Window,
) -> Result<Vec<Span>, AllocError>
    ensures { IfOk result (λ runs. IsRuns (λ t. within w.lo w.hi t && nat_lt (depth_at stretches.now t) k) runs.items) }
{
    let begins = starts_of(alloc, stretches)?;
    let starts = sorted(begins);
    let past = ends_of(alloc, stretches)?;
    let ends = sorted(past);
    let runs = swept(alloc, &starts, &ends, k, w)?;
    Ok(runs)
}

// The first ticks of the stretches.
fn starts_of(alloc: Global, stretches: &[Span]) -> Result<Vec<u32>, AllocError>
    ensures { IfOk result (λ starts. starts.items ≡ map (λ s. s.lo) stretches.now) }
{
    stretches.iter().map(|s| s.lo).collect(alloc)
}

// The ticks past the last ones of the stretches.
fn ends_of(alloc: Global, stretches: &[Span]) -> Result<Vec<u32>, AllocError>
    ensures { IfOk result (λ ends. ends.items ≡ map (λ s. s.hi + 1) stretches.now) }
{
    stretches.iter().map(|s| s.hi + 1).collect(alloc)
}

// The same ticks, ascending.
fn sorted(ticks: Vec<u32>) -> Vec<u32>
    ensures sorted { IsNonDecreasing result.items }
    ensures counts { (t : ℕ) → count_to result.items t ≡ count_to ticks.items t }
{
    let mut ticks = ticks;
    ticks.sort_unstable();
    ticks
}

// The ticks of the window by which fewer than `k` more stretches have begun than have ended.
fn swept(
    alloc: Global,
    starts: &[u32],
    ends: &[u32],
    k: u32,
    w: Window,
) -> Result<Vec<Span>, AllocError>
    requires starts { IsNonDecreasing starts.now }
    requires ends { IsNonDecreasing ends.now }
    ensures { IfOk result (λ runs. IsRuns (λ t. within w.lo w.hi t
        && nat_lt (count_to starts.now t) (count_to ends.now t + k)) runs.items) }
{
    let mut runs = Runs::new(alloc);
    let mut at = w.lo;
    let mut begun = come_by(starts, 0, at);
    let mut ended = come_by(ends, 0, at);
    // No stretch begins or ends past `at` and before `next`.
    'sweeping: while at <= w.hi {
        let next = next_of(ends, ended, next_of(starts, begun, w.hi + 1));
        runs.append(stretch_where(begun < ended + k as usize, at, next))?;
        at = next;
        begun = come_by(starts, begun, at);
        ended = come_by(ends, ended, at);
    }
    Ok(runs.finish())
}

// How many of the ticks have come by tick `at`, where as many as `count` have.
fn come_by(ticks: &[u32], count: usize, at: u32) -> usize
    requires sorted { IsNonDecreasing ticks.now }
    requires some { count ≤ length ticks.now }
    requires come { (k : ℕ) → k < count → slice_index ticks.now k ≤ at }
    ensures { AreComeBy ticks.now at result }
{
    let mut come = count;
    'coming: while come < ticks.len() && ticks[come] <= at {
        come += 1;
    }
    come
}

// The tick that comes next after the first `count` ones, if that is before `until`; else `until`.
fn next_of(ticks: &[u32], count: usize, until: u32) -> u32
    requires { IsNonDecreasing ticks.now }
    ensures bound { result ≤ until }
    ensures past { (at : ℕ) → AreComeBy ticks.now at count → at < until → at < result }
    ensures none { (k : ℕ) → count ≤ k → k < length ticks.now → result ≤ slice_index ticks.now k }
{
    if count < ticks.len() {
        ticks[count].min(until)
    } else {
        until
    }
}

/// The ticks from `from` up to `until`, without `until`, if they are asked for.
pub fn stretch_where(asked: bool, from: u32, until: u32) -> Option<Span>
    requires { until ≤ LAST_TICK + 1 }
    ensures { (t : ℕ) → spans_have (option_to_list result) t ≡ (nat_le from t && nat_lt t until && asked) }
{
    if asked {
        Span::stretch(from, until)
    } else {
        None
    }
}
