//! Runs that are built from the first tick to the last.
ghost use Rattle.std.specs.Prelude.{◌≡◌, ◌+◌, ◌<◌, ◌≤◌, ◌||◌, ℕ, true, [], length, option_to_list, slice_get, IfNone, IfSome, IfOk, OnErr, OnOk};
ghost use Rattle.std.specs.Option.{ForSome};
ghost use Rattle.tick_set.specs.Runs.{IsNormal, spans_have};
ghost use Rattle.tick_set.specs.Ticks.{within};
ghost use Rattle.tick_set.specs.declared.spans.Span.{Span};

use crate::Span;
use std::alloc::{AllocError, Global};
use std::marker::Model;

/// The maximal runs of a set of ticks that grows at its end.
#[derive(Drop)]
pub struct Runs {
    spans: Vec<Span>,
}

impl Model for Runs {
    ghost use Rattle.std.specs.Prelude.{List};
    ghost use Rattle.tick_set.specs.Runs.{IsNormal};
    ghost use Rattle.tick_set.specs.declared.spans.Span.{Span};

    ghost Value = { List Span };

    ghost view = { λ s. s.spans.items };

    ghost invariant = { λ s. IsNormal s.spans.items };
}

impl Runs {
    /// No runs. It takes no memory; `alloc` serves what is added.
    #[inline]
    pub fn new(alloc: Global) -> Runs
        ensures { result ≡ [] }
    {
        Runs {
            spans: Vec::new(alloc),
        }
    }

    /// No runs, with memory for `room` of them.
    #[inline]
    pub fn with_capacity(alloc: Global, room: usize) -> Result<Runs, AllocError>
        ensures { IfOk result (λ runs. runs ≡ []) }
    {
        Ok(Runs {
            spans: Vec::with_capacity(alloc, room)?,
        })
    }

    /// Adds the ticks of a run, if there is one, which begins past all ticks that are there. Where no tick
    /// is between them, it makes the last run longer. It fails only where memory is out, and the runs are
    /// unchanged then.
    #[inline]
    pub fn append(&mut self, run: Option<Span>) -> Result<(), AllocError>
        requires past { ForSome run (λ s. (t : ℕ) → spans_have self.old t ≡ true → t < s.lo) }
        ensures ticks { OnOk result ((t : ℕ) → spans_have self.new t
            ≡ (spans_have self.old t || spans_have (option_to_list run) t)) }
        ensures err { OnErr result (self.new ≡ self.old) }
    {
        match run {
            Some(span) => append_span(&mut self.spans, span),
            None => Ok(()),
        }
    }

    /// The runs, ascending.
    #[inline]
    pub fn spans(&self) -> &[Span]
        ensures value { result.now ≡ self.now }
        ensures normal { IsNormal result.now }
    {
        &self.spans
    }

    /// Takes all runs out, and keeps their memory for others.
    #[inline]
    pub fn clear(&mut self)
        ensures { self.new ≡ [] }
    {
        self.spans.clear();
    }

    /// The runs, ascending.
    #[inline]
    pub fn finish(self) -> Vec<Span>
        ensures value { result.items ≡ self }
        ensures normal { IsNormal result.items }
    {
        self.spans
    }
}

// Adds the ticks of a span, which begins past all ticks of the runs.
fn append_span(runs: &mut Vec<Span>, span: Span) -> Result<(), AllocError>
    requires normal { IsNormal runs.old.items }
    requires past { (t : ℕ) → spans_have runs.old.items t ≡ true → t < span.lo }
    ensures normal { OnOk result (IsNormal runs.new.items) }
    ensures ticks { OnOk result ((t : ℕ) → spans_have runs.new.items t
        ≡ (spans_have runs.old.items t || within span.lo span.hi t)) }
    ensures err { OnErr result (runs.new.items ≡ runs.old.items) }
{
    match joined_run(runs, span) {
        Some(index) => {
            let lo = runs[index].lo;
            runs[index] = Span { lo, hi: span.hi };
        }
        None => runs.push(span)?,
    }
    Ok(())
}

// The index of the run that a span makes longer, which is the last one where no tick is between them.
#[inline]
fn joined_run(runs: &[Span], span: Span) -> Option<usize>
    requires normal { IsNormal runs.now }
    requires past { (t : ℕ) → spans_have runs.now t ≡ true → t < span.lo }
    ensures last { IfSome result (λ index. index + 1 ≡ length runs.now) }
    ensures joined { IfSome result
        (λ index. IfSome (slice_get runs.now index) (λ run. run.hi + 1 ≡ span.lo)) }
    ensures apart { IfNone result ((t : ℕ) → spans_have runs.now t ≡ true → t + 2 ≤ span.lo) }
{
    let last = runs.len().checked_sub(1)?;
    if runs[last].hi + 1 == span.lo {
        Some(last)
    } else {
        None
    }
}
