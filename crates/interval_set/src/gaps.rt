//! What is left where spans are taken out.
ghost use Rattle.std.specs.Prelude.{◌≡◌, ◌≤◌, ◌+◌, ◌&&◌, ◌||◌, ℕ, not, nat_lt, IfOk};
ghost use Rattle.tick_set.specs.Runs.{IsNormal, IsNormalFrom, spans_have};
ghost use Rattle.interval_set.specs.Cursor.{EndsFrom};
ghost use Rattle.tick_set.specs.Ticks.{within};

use crate::cursor::{first_by, past};
use crate::stretch::add_stretch;
use std::alloc::{AllocError, Global};
use tick_set::{Span, Window};

/// The ticks of the window that are in none of the spans.
pub fn gaps_in(alloc: Global, w: Window, spans: &[Span]) -> Result<Vec<Span>, AllocError>
    requires { IsNormal spans.now }
    ensures normal { IfOk result (λ r. IsNormal r.items) }
    ensures ticks { IfOk result
        (λ r. (t : ℕ) → spans_have r.items t ≡ (within w.lo w.hi t && not (spans_have spans.now t))) }
{
    let (start, after) = first_free(past(spans, w.lo), w.lo);
    let mut made = Vec::with_capacity(alloc, after.len() + 1)?;
    // The ticks below `from` are settled, and it is in no span itself.
    let mut from = start;
    let mut rest = after;
    while let Some((s, later)) = first_by(rest, w.hi) {
        made.push_reserved(Span {
            lo: from,
            hi: s.lo - 1,
        });
        from = s.hi + 1;
        rest = later;
    }
    add_stretch(&mut made, from, w.hi + 1);
    Ok(made)
}

// The first tick from `lo` on that is in none of the spans, of which none ends before it, and those after it.
#[inline(always)]
fn first_free(spans: &[Span], lo: u32) -> (u32, &[Span])
    requires normal { IsNormal spans.now }
    requires ends { EndsFrom lo spans.now }
    ensures from { lo ≤ result.0 }
    ensures apart { IsNormalFrom (result.0 + 1) result.1.now }
    ensures ticks { (t : ℕ) → lo ≤ t
        → spans_have spans.now t ≡ (nat_lt t result.0 || spans_have result.1.now t) }
{
    match first_by(spans, lo) {
        Some((s, later)) => (s.hi + 1, later),
        None => (lo, spans),
    }
}

/// The ticks of the first that are not in the second, in time linear in the spans of both.
pub fn rest_of(alloc: Global, first: &[Span], second: &[Span]) -> Result<Vec<Span>, AllocError>
    requires first { IsNormal first.now }
    requires second { IsNormal second.now }
    ensures normal { IfOk result (λ r. IsNormal r.items) }
    ensures ticks { IfOk result
        (λ r. (t : ℕ) → spans_have r.items t ≡ (spans_have first.now t && not (spans_have second.now t))) }
{
    let mut made = Vec::with_capacity(alloc, first.len() + second.len())?;
    let mut rest_first = first;
    let mut rest_second = second;
    // The ticks below `from` are settled.
    let mut from = 0;
    while let Some((s, later)) = rest_first.split_first() {
        let lo = s.lo.max(from);
        match first_by(rest_second, s.hi) {
            Some((t, later_second)) => {
                add_stretch(&mut made, lo, t.lo);
                from = t.hi + 1;
                rest_second = later_second;
            }
            None => {
                add_stretch(&mut made, lo, s.hi + 1);
                rest_first = later;
            }
        }
    }
    Ok(made)
}
