//! The ticks of both of two sets, and those of a set in a window, span by span.
ghost use Rattle.std.specs.Prelude.{◌≡◌, ◌&&◌, ℕ, true, false, [], IsTrue, IsOk, IfOk};
ghost use Rattle.tick_set.specs.Runs.{IsNormal, spans_have};
ghost use Rattle.tick_set.specs.Ticks.{within};

use crate::cursor::{first_by, past};
use crate::stretch::add_stretch;
use std::alloc::{AllocError, Global};
use tick_set::{Span, Window};

/// Whether a tick is in both, in time linear in the spans of both up to the first shared tick, or to the end of the
/// one that ends first.
pub fn have_shared(first: &[Span], second: &[Span]) -> bool
    requires first { IsNormal first.now }
    requires second { IsNormal second.now }
    ensures some { IsTrue result
        → (t : ℕ) × ((spans_have first.now t && spans_have second.now t) ≡ true) }
    ensures none { result ≡ false
        → (t : ℕ) → (spans_have first.now t && spans_have second.now t) ≡ false }
{
    let mut rest_first = first;
    let mut rest_second = second;
    'both: while let (Some((s, later_first)), Some((t, later_second))) = (
        rest_first.split_first(),
        rest_second.split_first(),
    ) {
        if s.lo <= t.hi && t.lo <= s.hi {
            return true;
        }
        if t.hi < s.hi {
            rest_second = later_second;
        } else {
            rest_first = later_first;
        }
    }
    false
}

/// The ticks of both, in time linear in the spans of both up to the end of the one that ends first. It takes no
/// memory where one has no span.
pub fn meet_of(alloc: Global, first: &[Span], second: &[Span]) -> Result<Vec<Span>, AllocError>
    requires first { IsNormal first.now }
    requires second { IsNormal second.now }
    ensures none_first { first.now ≡ [] → IsOk result }
    ensures none_second { second.now ≡ [] → IsOk result }
    ensures normal { IfOk result (λ r. IsNormal r.items) }
    ensures ticks { IfOk result
        (λ r. (t : ℕ) → spans_have r.items t ≡ (spans_have first.now t && spans_have second.now t)) }
{
    if first.is_empty() || second.is_empty() {
        return Ok(Vec::new(alloc));
    }
    let mut made = Vec::with_capacity(alloc, first.len() + second.len())?;
    let mut rest_first = first;
    let mut rest_second = second;
    while let (Some((s, later_first)), Some((t, later_second))) = (
        rest_first.split_first(),
        rest_second.split_first(),
    ) {
        add_stretch(&mut made, s.lo.max(t.lo), s.hi.min(t.hi) + 1);
        if s.hi < t.hi {
            rest_first = later_first;
        } else {
            rest_second = later_second;
        }
    }
    Ok(made)
}

/// The ticks of the window that are in the spans, in time linear in the spans up to its end.
pub fn part_in(alloc: Global, w: Window, spans: &[Span]) -> Result<Vec<Span>, AllocError>
    requires { IsNormal spans.now }
    ensures normal { IfOk result (λ r. IsNormal r.items) }
    ensures ticks { IfOk result
        (λ r. (t : ℕ) → spans_have r.items t ≡ (within w.lo w.hi t && spans_have spans.now t)) }
{
    let mut rest = past(spans, w.lo);
    let mut made = Vec::with_capacity(alloc, rest.len())?;
    while let Some((s, later)) = first_by(rest, w.hi) {
        made.push_reserved(Span {
            lo: s.lo.max(w.lo),
            hi: s.hi.min(w.hi),
        });
        rest = later;
    }
    Ok(made)
}
