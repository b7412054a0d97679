//! Ticks that are added to runs, past all that are there.
ghost use Rattle.std.specs.Prelude.{◌≡◌, ◌&&◌, ℕ, not, nat_le, nat_lt, OnOk, option_to_list};
ghost use Rattle.std.specs.Option.{ForSome};
ghost use Rattle.tick_set.specs.Runs.{spans_have};
ghost use Rattle.tick_set.specs.Ticks.{within};
ghost use Rattle.blur.specs.Added.{Adds, EndBefore};

use std::alloc::AllocError;
use tick_set::{Runs, Span};

/// Adds the ticks of the outer run that are not in the inner one.
pub fn add_without(
    runs: &mut Runs,
    outer: Option<Span>,
    inner: Option<Span>,
) -> Result<(), AllocError>
    requires { ForSome outer (λ s. EndBefore s.lo runs.old) }
    ensures { OnOk result (Adds (λ t. spans_have (option_to_list outer) t
        && not (spans_have (option_to_list inner) t)) runs.old runs.new) }
{
    match outer {
        Some(outer) => match inner {
            Some(inner) => add_sides(runs, outer, inner),
            None => runs.append(Some(outer)),
        },
        None => Ok(()),
    }
}

/// Adds all other ticks of a span: those that are not in the outer run, and those that are in the inner one.
pub fn add_others(
    runs: &mut Runs,
    span: Span,
    outer: Option<Span>,
    inner: Option<Span>,
) -> Result<(), AllocError>
    requires { EndBefore span.lo runs.old }
    ensures { OnOk result (Adds (λ t. within span.lo span.hi t && not (spans_have (option_to_list outer) t
        && not (spans_have (option_to_list inner) t))) runs.old runs.new) }
{
    match outer {
        Some(outer) => match inner {
            Some(inner) => add_three(runs, span, outer, inner),
            None => add_sides(runs, span, outer),
        },
        None => runs.append(Some(span)),
    }
}

// Adds the ticks of a span that are in the inner one, or not in the outer one.
fn add_three(runs: &mut Runs, span: Span, outer: Span, inner: Span) -> Result<(), AllocError>
    requires { EndBefore span.lo runs.old }
    ensures { OnOk result (Adds (λ t. within span.lo span.hi t && not (within outer.lo outer.hi t
        && not (within inner.lo inner.hi t))) runs.old runs.new) }
{
    let head = head_of(span, outer.lo);
    runs.append(head)?;
    let middle = common(span, outer, inner);
    runs.append(middle)?;
    let tail = tail_of(span, outer.hi + 1);
    runs.append(tail)?;
    Ok(())
}

// Adds the ticks of a span on the two sides of another.
fn add_sides(runs: &mut Runs, span: Span, inner: Span) -> Result<(), AllocError>
    requires { EndBefore span.lo runs.old }
    ensures { OnOk result (Adds (λ t. within span.lo span.hi t && not (within inner.lo inner.hi t)) runs.old runs.new) }
{
    let head = head_of(span, inner.lo);
    runs.append(head)?;
    let tail = tail_of(span, inner.hi + 1);
    runs.append(tail)?;
    Ok(())
}

// The ticks of three spans.
fn common(first: Span, second: Span, third: Span) -> Option<Span>
    ensures { (t : ℕ) → spans_have (option_to_list result) t
        ≡ (within first.lo first.hi t && (within second.lo second.hi t && within third.lo third.hi t)) }
{
    first.meet(second.meet(third)?)
}

// The ticks of a span before a tick.
fn head_of(span: Span, end: u32) -> Option<Span>
    ensures { (t : ℕ) → spans_have (option_to_list result) t ≡ (within span.lo span.hi t && nat_lt t end) }
{
    Span::stretch(span.lo, end.min(span.hi + 1))
}

// The ticks of a span from a tick on.
fn tail_of(span: Span, first: u32) -> Option<Span>
    ensures { (t : ℕ) → spans_have (option_to_list result) t ≡ (within span.lo span.hi t && nat_le first t) }
{
    Span::stretch(first.max(span.lo), span.hi + 1)
}
