//! A walk along the spans of a set: what they say from a tick on.
ghost use Rattle.std.specs.Prelude.{◌≡◌, ◌≤◌, ℕ, false, IfNone, IfSome};
ghost use Rattle.std.specs.List.{IsFirstAndRest};
ghost use Rattle.tick_set.specs.Runs.{IsNormal, spans_have};
ghost use Rattle.interval_set.specs.Cursor.{DropsEnded};

use tick_set::Span;

/// The spans without those that end before the tick.
#[inline]
pub fn past(spans: &[Span], at: u32) -> &[Span]
    requires { IsNormal spans.now }
    ensures normal { IsNormal result.now }
    ensures past { DropsEnded at spans.now result.now }
    ensures ticks { (u : ℕ) → at ≤ u → spans_have result.now u ≡ spans_have spans.now u }
{
    let mut rest = spans;
    while let Some((s, later)) = rest.split_first() {
        if s.hi >= at {
            break;
        }
        rest = later;
    }
    rest
}

/// The first of the spans and those after it, if it begins by the tick.
#[inline(always)]
pub fn first_by(spans: &[Span], upto: u32) -> Option<(&Span, &[Span])>
    requires { IsNormal spans.now }
    ensures none { IfNone result ((t : ℕ) → t ≤ upto → spans_have spans.now t ≡ false) }
    ensures begins { IfSome result (λ p. p.0.now.lo ≤ upto) }
    ensures parts { IfSome result (λ p. IsFirstAndRest spans.now p.0.now p.1.now) }
{
    match spans.split_first() {
        Some((s, later)) if s.lo <= upto => Some((s, later)),
        _ => None,
    }
}

/// Whether the tick is in one of the spans, by a binary search.
pub fn contains(spans: &[Span], t: u32) -> bool
    requires { IsNormal spans.now }
    ensures { result ≡ spans_have spans.now t }
{
    match spans.binary_search_by_key(&t, |s| s.lo) {
        Ok(_) => true,
        Err(at) => at > 0 && t <= spans[at - 1].hi,
    }
}
