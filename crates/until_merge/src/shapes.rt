//! Spans moved and made shorter.
ghost use Rattle.std.specs.Prelude.{◌≡◌, ◌≤◌, ◌+◌, ◌==◌, ◌&&◌, ℕ, true, nat_le, min, if◌then◌else◌, IfOk};
ghost use Rattle.tick_set.specs.Ticks.{all_in};
ghost use Rattle.tick_set.specs.Runs.{IsNormal, spans_have};

use std::alloc::{AllocError, Global};
use tick_set::Span;

/// The ticks from `lo` on whose tick `c` later is in the spans.
pub fn moved(alloc: Global, spans: &[Span], c: u32, lo: u32) -> Result<Vec<Span>, AllocError>
    requires { IsNormal spans.now }
    ensures normal { IfOk result (λ r. IsNormal r.items) }
    ensures ticks { IfOk result (λ r. (t : ℕ) → spans_have r.items t
        ≡ (nat_le lo t && spans_have spans.now (t + c))) }
{
    let mut made = Vec::with_capacity(alloc, spans.len())?;
    let mut rest = spans;
    while let Some((s, later)) = rest.split_first() {
        rest = later;
        if s.hi >= c && s.hi - c >= lo {
            made.push(Span {
                lo: s.lo.saturating_sub(c).max(lo),
                hi: s.hi - c,
            })?;
        }
    }
    Ok(made)
}

/// The ticks up to `last` from which the spans have all ticks up to `c` later, where no tick after `last`
/// counts. The spans end by `last`.
pub fn held(alloc: Global, spans: &[Span], c: u32, last: u32) -> Result<Vec<Span>, AllocError>
    requires normal { IsNormal spans.now }
    requires ends { (t : ℕ) → spans_have spans.now t ≡ true → t ≤ last }
    ensures normal { IfOk result (λ r. IsNormal r.items) }
    ensures ticks { IfOk result (λ r. (t : ℕ) → spans_have r.items t
        ≡ (nat_le t last && all_in (spans_have spans.now) t (min (t + c) last))) }
{
    let mut made = Vec::with_capacity(alloc, spans.len())?;
    let mut rest = spans;
    while let Some((s, later)) = rest.split_first() {
        rest = later;
        let cut = cut_of(*s, c, last);
        if cut <= s.hi - s.lo {
            made.push(Span {
                lo: s.lo,
                hi: s.hi - cut,
            })?;
        }
    }
    Ok(made)
}

// How many of its last ticks a run loses: none where it reaches the last tick that counts.
#[inline]
fn cut_of(run: Span, c: u32, last: u32) -> u32
    ensures { result ≡ (if run.hi == last then 0 else c) }
{
    if run.hi == last { 0 } else { c }
}
