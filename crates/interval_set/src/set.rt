//! The set as its spans.
ghost use Rattle.std.specs.Prelude.{◌≡◌, ℕ, IfOk};
ghost use Rattle.std.specs.List.{list_any};
ghost use Rattle.tick_set.specs.Runs.{IsNormal, spans_have};

use crate::cursor::contains;
use crate::gaps::{gaps_in, rest_of};
use crate::merge::{union_of, union_of_spans};
use crate::overlap::{have_shared, meet_of, part_in};
use crate::splice::spliced;
use std::alloc::{AllocError, Global};
use std::marker::Model;
use tick_set::{Span, TickSet, Window};

/// A set of ticks as its maximal runs: the spans ascend, and each next `lo` is at least the previous
/// `hi + 2`.
#[derive(Drop)]
pub struct IntervalSet {
    spans: Vec<Span>,
}

impl Model for IntervalSet {
    ghost use Rattle.std.specs.Prelude.{List};
    ghost use Rattle.tick_set.specs.declared.spans.Span.{Span};
    ghost use Rattle.tick_set.specs.Runs.{IsNormal};

    ghost Value = { List Span };

    ghost view = { λ s. s.spans.items };

    ghost invariant = { λ s. IsNormal s.spans.items };
}

impl IntervalSet {
    /// The set whose maximal runs these are.
    #[inline]
    pub fn from_runs(runs: Vec<Span>) -> IntervalSet
        requires { IsNormal runs.items }
        ensures { result ≡ runs.items }
    {
        IntervalSet { spans: runs }
    }

    /// The maximal runs of the set, ascending. It takes no memory.
    #[inline]
    pub fn spans(&self) -> &[Span]
        ensures value { result.now ≡ self.now }
        ensures normal { IsNormal result.now }
    {
        &self.spans
    }
}

impl TickSet for IntervalSet {
    ghost member = { spans_have };

    fn empty(alloc: Global) -> Self {
        IntervalSet {
            spans: Vec::new(alloc),
        }
    }

    fn of_span(alloc: Global, s: Span) -> Result<Self, AllocError> {
        Ok(IntervalSet {
            spans: Vec::from_slice(alloc, &[s])?,
        })
    }

    fn of_runs(alloc: Global, runs: &[Span]) -> Result<Self, AllocError> {
        Ok(IntervalSet {
            spans: Vec::from_slice(alloc, runs)?,
        })
    }

    fn has(&self, t: u32) -> bool {
        contains(&self.spans, t)
    }

    #[inline]
    fn is_empty(&self) -> bool {
        self.spans.is_empty()
    }

    fn equal(&self, other: &Self) -> bool {
        self.spans.as_slice() == other.spans.as_slice()
    }

    fn shares_tick(&self, other: &Self) -> bool {
        have_shared(&self.spans, &other.spans)
    }

    fn copy(&self, alloc: Global) -> Result<Self, AllocError> {
        Ok(IntervalSet {
            spans: Vec::from_slice(alloc, &self.spans)?,
        })
    }

    fn union(&self, alloc: Global, other: &Self) -> Result<Self, AllocError> {
        Ok(IntervalSet {
            spans: union_of(alloc, &self.spans, &other.spans)?,
        })
    }

    fn union_all(alloc: Global, sets: &[&Self]) -> Result<Self, AllocError> {
        if let [only] = sets {
            return only.copy(alloc);
        }
        Ok(IntervalSet {
            spans: union_of_spans(alloc, spans_of_all(alloc, sets)?)?,
        })
    }

    fn meet(&self, alloc: Global, other: &Self) -> Result<Self, AllocError> {
        Ok(IntervalSet {
            spans: meet_of(alloc, &self.spans, &other.spans)?,
        })
    }

    fn without(&self, alloc: Global, other: &Self) -> Result<Self, AllocError> {
        Ok(IntervalSet {
            spans: rest_of(alloc, &self.spans, &other.spans)?,
        })
    }

    fn complement(&self, alloc: Global, w: Window) -> Result<Self, AllocError> {
        Ok(IntervalSet {
            spans: gaps_in(alloc, w, &self.spans)?,
        })
    }

    fn clip(&self, alloc: Global, w: Window) -> Result<Self, AllocError> {
        Ok(IntervalSet {
            spans: part_in(alloc, w, &self.spans)?,
        })
    }

    fn splice(&self, alloc: Global, at: u32, later: &Self) -> Result<Self, AllocError> {
        Ok(IntervalSet {
            spans: spliced(alloc, &self.spans, at, &later.spans)?,
        })
    }

    fn runs(&self, alloc: Global) -> Result<Vec<Span>, AllocError> {
        Vec::from_slice(alloc, &self.spans)
    }
}

// The spans of all sets, those of one after those of another.
fn spans_of_all(alloc: Global, sets: &[&IntervalSet]) -> Result<Vec<Span>, AllocError>
    ensures { IfOk result (λ all. (t : ℕ) → spans_have all.items t
        ≡ list_any (λ s. spans_have s.now t) sets.now) }
{
    let mut all = Vec::with_capacity(alloc, span_count(sets))?;
    for set in sets {
        all.extend_from_slice(set.spans())?;
    }
    Ok(all)
}

// How many spans the sets have, as far as it can be counted.
fn span_count(sets: &[&IntervalSet]) -> usize {
    sets.iter().fold(0, |count: usize, set| count.saturating_add(set.spans.len()))
}
