//! Spans of one set before a tick, and of another from it on.
ghost use Rattle.std.specs.Prelude.{◌≡◌, ◌≤◌, ◌<◌, ◌+◌, ◌&&◌, ◌||◌, ℕ, true, nat_le, nat_lt, if◌then◌else◌, IfOk, OnOk};
ghost use Rattle.tick_set.specs.Runs.{IsNormal, spans_have};

use crate::cursor::past;
use std::alloc::{AllocError, Global};
use tick_set::{LAST_TICK, Runs, Span};

/// The ticks of the first before the tick `at`, and those of the second from it on, in time linear in the spans of
/// both.
pub fn spliced(
    alloc: Global,
    first: &[Span],
    at: u32,
    second: &[Span],
) -> Result<Vec<Span>, AllocError>
    requires first { IsNormal first.now }
    requires second { IsNormal second.now }
    ensures normal { IfOk result (λ r. IsNormal r.items) }
    ensures ticks { IfOk result (λ r. (t : ℕ) → spans_have r.items t
        ≡ (if nat_lt t at then spans_have first.now t else spans_have second.now t)) }
{
    let mut runs = Runs::with_capacity(alloc, first.len() + second.len())?;
    append_part(&mut runs, first, 0, at.min(LAST_TICK + 1))?;
    append_part(&mut runs, past(second, at), at, LAST_TICK + 1)?;
    Ok(runs.finish())
}

// Adds the ticks of the spans from `from` up to `until`, without `until`. All that are there are before `from`, and
// no span ends there.
fn append_part(runs: &mut Runs, spans: &[Span], from: u32, until: u32) -> Result<(), AllocError>
    requires normal { IsNormal spans.now }
    requires before { (u : ℕ) → spans_have runs.old u ≡ true → u < from }
    requires in_range { until ≤ LAST_TICK + 1 }
    ensures { OnOk result ((u : ℕ) → spans_have runs.new u
        ≡ (spans_have runs.old u || (nat_le from u && nat_lt u until && spans_have spans.now u))) }
{
    let mut rest = spans;
    'spans: while let Some((s, later)) = rest.split_first() {
        if until <= s.lo {
            break;
        }
        runs.append(Span::stretch(s.lo.max(from), until.min(s.hi + 1)))?;
        rest = later;
    }
    Ok(())
}
