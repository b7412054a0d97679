//! The ticks of either of two sets and of any of many, by a merge of their spans.
ghost use Rattle.std.specs.Prelude.{◌≡◌, ◌≤◌, ◌<◌, ◌+◌, ◌||◌, ℕ, true, [], length, vec_len, vec_capacity, IfNone, IfOk, IfSome};
ghost use Rattle.tick_set.specs.Runs.{IsNormal, IsNormalFrom, spans_have};
ghost use Rattle.interval_set.specs.Cursor.{BeginFrom};
ghost use Rattle.tick_set.specs.Ticks.{within};

use std::alloc::{AllocError, Global};
use tick_set::Span;

/// The ticks of either, in time linear in the spans of both.
pub fn union_of(alloc: Global, first: &[Span], second: &[Span]) -> Result<Vec<Span>, AllocError>
    requires first { IsNormal first.now }
    requires second { IsNormal second.now }
    ensures normal { IfOk result (λ r. IsNormal r.items) }
    ensures ticks { IfOk result
        (λ r. (t : ℕ) → spans_have r.items t ≡ (spans_have first.now t || spans_have second.now t)) }
{
    let mut made = Vec::with_capacity(alloc, first.len() + second.len())?;
    let Some((begun, later_first, later_second)) = earliest(first, second) else {
        return Ok(made);
    };
    // The run that may still grow.
    let mut run = begun;
    let mut rest_first = later_first;
    let mut rest_second = later_second;
    while let Some((s, later_first, later_second)) = earliest(rest_first, rest_second) {
        run = grown(&mut made, run, s);
        rest_first = later_first;
        rest_second = later_second;
    }
    made.push_reserved(run);
    Ok(made)
}

/// The ticks of spans in any order, which may share ticks: they are sorted by their first ticks, and joined in one
/// walk.
pub fn union_of_spans(alloc: Global, spans: Vec<Span>) -> Result<Vec<Span>, AllocError>
    ensures normal { IfOk result (λ r. IsNormal r.items) }
    ensures ticks { IfOk result (λ r. (t : ℕ) → spans_have r.items t ≡ spans_have spans.items t) }
{
    let mut sorted = spans;
    sorted.sort_unstable_by_key(|s| s.lo);
    let union = joined(alloc, &sorted)?;
    Ok(union)
}

// The ticks of spans of which each begins no earlier than the one before it.
fn joined(alloc: Global, spans: &[Span]) -> Result<Vec<Span>, AllocError>
    requires { BeginFrom 0 spans.now }
    ensures normal { IfOk result (λ r. IsNormal r.items) }
    ensures ticks { IfOk result (λ r. (t : ℕ) → spans_have r.items t ≡ spans_have spans.now t) }
{
    let Some((first, later)) = spans.split_first() else {
        return Ok(Vec::new(alloc));
    };
    let mut made = Vec::with_capacity(alloc, spans.len())?;
    // The run that may still grow.
    let mut run = *first;
    let mut rest = later;
    'spans: while let Some((s, later)) = rest.split_first() {
        run = grown(&mut made, run, *s);
        rest = later;
    }
    made.push_reserved(run);
    Ok(made)
}

// The span that begins first of all those of two lists, and the lists without it.
#[inline(always)]
fn earliest<'a>(first: &'a [Span], second: &'a [Span]) -> Option<(Span, &'a [Span], &'a [Span])>
    requires first { IsNormal first.now }
    requires second { IsNormal second.now }
    ensures none { IfNone result ((first.now ≡ []) × (second.now ≡ [])) }
    ensures one { IfSome result
        (λ p. (spans_have first.now p.0.lo || spans_have second.now p.0.lo) ≡ true) }
    ensures least { IfSome result
        (λ p. IsNormalFrom p.0.lo p.1.now × IsNormalFrom p.0.lo p.2.now) }
    ensures ticks { IfSome result (λ p. (t : ℕ) → (spans_have first.now t || spans_have second.now t)
        ≡ (within p.0.lo p.0.hi t || spans_have p.1.now t || spans_have p.2.now t)) }
    ensures len { IfSome result
        (λ p. length p.1.now + length p.2.now + 1 ≡ length first.now + length second.now) }
{
    match (first.split_first(), second.split_first()) {
        (Some((s, later_first)), Some((t, later_second))) => {
            if t.lo < s.lo {
                Some((*t, first, later_second))
            } else {
                Some((*s, later_first, second))
            }
        }
        (Some((s, later)), None) => Some((*s, later, second)),
        (None, Some((t, later))) => Some((*t, first, later)),
        (None, None) => None,
    }
}

// The run joined to a span that begins no earlier, if no tick is between them; else the run is done, and
// the span may grow.
#[inline(always)]
fn grown(made: &mut Vec<Span>, run: Span, s: Span) -> Span
    requires room { vec_len made.old < vec_capacity made.old }
    requires normal { IsNormal made.old.items }
    requires apart { (u : ℕ) → spans_have made.old.items u ≡ true → u + 2 ≤ run.lo }
    requires ascending { run.lo ≤ s.lo }
    ensures normal { IsNormal made.new.items }
    ensures apart { (u : ℕ) → spans_have made.new.items u ≡ true → u + 2 ≤ result.lo }
    ensures lo { result.lo ≤ s.lo }
    ensures ticks { (u : ℕ) → (spans_have made.new.items u || within result.lo result.hi u)
        ≡ (spans_have made.old.items u || within run.lo run.hi u || within s.lo s.hi u) }
    ensures len { vec_len made.new ≤ vec_len made.old + 1 }
    ensures capacity { vec_capacity made.new ≡ vec_capacity made.old }
{
    if s.lo <= run.hi + 1 {
        return Span {
            lo: run.lo,
            hi: run.hi.max(s.hi),
        };
    }
    made.push_reserved(run);
    s
}
