//! Runs that a change leaves as they are.
ghost use Rattle.std.specs.Prelude.{◌≡◌, ◌≤◌, ◌+◌, ◌++◌, ℕ, true, length, take, IfOk};
ghost use Rattle.tick_set.specs.Runs.{IsNormal, spans_have};
ghost use Rattle.replica.specs.Ticks.{StayBefore};

use interval_set::IntervalSet;
use std::alloc::{AllocError, Global};
use tick_set::{SetOperation, Span};

/// How many runs at the front stay as they are, whatever stands behind them.
pub(crate) fn front_len(operation: SetOperation, spans: &[Span], told: &[Span]) -> usize
    requires spans { IsNormal spans.now }
    requires told { IsNormal told.now }
    ensures bound { result ≤ length spans.now }
    ensures stay { StayBefore operation (take result spans.now) told.now }
{
    match told.split_first() {
        Some((first, _)) if operation.keeps(true, false) => ended_count(spans, first.lo),
        _ => 0,
    }
}

// How many runs end with a tick between them and this one.
fn ended_count(spans: &[Span], lo: u32) -> usize
    requires { IsNormal spans.now }
    ensures bound { result ≤ length spans.now }
    ensures before { (t : ℕ) → spans_have (take result spans.now) t ≡ true → t + 2 ≤ lo }
{
    spans.partition_point(|span| span.hi + 2 <= lo)
}

/// The set of these runs, and of those behind them.
pub(crate) fn joined(
    alloc: Global,
    front: &[Span],
    later: &[Span],
) -> Result<IntervalSet, AllocError>
    requires { IsNormal (front.now ++ later.now) }
    ensures { IfOk result (λ r. r ≡ front.now ++ later.now) }
{
    let mut spans = Vec::with_capacity(alloc, front.len() + later.len())?;
    spans.extend_from_slice(front)?;
    spans.extend_from_slice(later)?;
    Ok(IntervalSet::from_runs(spans))
}
