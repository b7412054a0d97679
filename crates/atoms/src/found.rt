//! Runs of ticks of one part, and runs that are gathered part by part.
ghost use Rattle.std.specs.Prelude.{◌≡◌, ◌<◌, ◌≤◌, ◌&&◌, ◌||◌, ◌+◌, ℕ, Bool, [], true, not, nat_le, nat_lt, IfOk, IsTrue, OnOk, option_to_list};
ghost use Rattle.distance_crossing.specs.Triples.{triple_spans};
ghost use Rattle.linear_crossing.specs.Zones.{spans_of};
ghost use Rattle.tick_set.specs.Runs.{IsNormal, IsRuns, spans_have};
ghost use Rattle.tick_set.specs.Ticks.{within};
ghost use Rattle.atoms.specs.Found.{AreRunsWhere};
ghost use Rattle.tick_set.specs.declared.spans.TheConstants.{LAST_TICK};

use distance_crossing::Triple;
use linear_crossing::Pair;
use std::alloc::{AllocError, Global};
use tick_set::{LAST_TICK, Runs, Span};

/// No tick.
pub fn nowhere() -> Triple
    ensures { triple_spans result ≡ [] }
{
    one_run(None)
}

/// One run, or none.
pub fn one_run(run: Option<Span>) -> Triple
    ensures { triple_spans result ≡ option_to_list run }
{
    Triple {
        first: run,
        second: None,
        third: None,
    }
}

/// The runs of a pair.
pub fn two_runs(pair: &Pair) -> Triple
    ensures { triple_spans result ≡ spans_of pair.now }
{
    Triple {
        first: pair.first,
        second: pair.second,
        third: None,
    }
}

/// The whole span or nothing.
pub fn all_or_none(all: bool, span: Span) -> Triple
    ensures { AreRunsWhere (λ t. within span.lo span.hi t && all) result }
{
    one_run(if all { Some(span) } else { None })
}

/// The ticks of the span that are not in the run, which has no others.
pub fn outside_of(span: Span, run: Option<Span>) -> Triple
    requires { (t : ℕ) → spans_have (option_to_list run) t ≡ true → within span.lo span.hi t ≡ true }
    ensures { AreRunsWhere (λ t. within span.lo span.hi t && not (spans_have (option_to_list run) t)) result }
{
    match run {
        Some(inner) => two_sides(span, inner),
        None => one_run(Some(span)),
    }
}

// The ticks of the span before and after a run inside it.
fn two_sides(span: Span, inner: Span) -> Triple
    requires first { span.lo ≤ inner.lo }
    requires last { inner.hi ≤ span.hi }
    ensures { AreRunsWhere (λ t. within span.lo span.hi t && not (within inner.lo inner.hi t)) result }
{
    Triple {
        first: stretch(span.lo, inner.lo),
        second: stretch(inner.hi + 1, span.hi + 1),
        third: None,
    }
}

// The ticks from `from` up to `until`, without `until`.
fn stretch(from: u32, until: u32) -> Option<Span>
    requires { until ≤ LAST_TICK + 1 }
    ensures { IsRuns (λ t. nat_le from t && nat_lt t until) (option_to_list result) }
{
    if from < until {
        Some(Span {
            lo: from,
            hi: until - 1,
        })
    } else {
        None
    }
}

/// Adds the runs that were found in a part, all of whose ticks are past those of the runs before.
pub fn append(runs: &mut Runs, found: &Triple) -> Result<(), AllocError>
    requires normal { IsNormal (triple_spans found.now) }
    requires past { (t u : ℕ) → spans_have runs.old t ≡ true → spans_have (triple_spans found.now) u ≡ true → t < u }
    ensures ticks { OnOk result ((u : ℕ) → spans_have runs.new u
        ≡ (spans_have runs.old u || spans_have (triple_spans found.now) u)) }
{
    runs.append(found.first)?;
    runs.append(found.second)?;
    runs.append(found.third)
}

// Whether no run was found.
#[inline(always)]
fn is_nowhere(found: &Triple) -> bool
    ensures { IsTrue result → triple_spans found.now ≡ [] }
{
    found.first.is_none() && found.second.is_none() && found.third.is_none()
}

/// The runs that were found. Where there is none, as at most bindings of a distance, nothing is gathered.
#[inline(always)]
pub fn runs_of(alloc: Global, found: &Triple) -> Result<Vec<Span>, AllocError>
    requires { IsNormal (triple_spans found.now) }
    ensures { (test : ℕ → Bool) → AreRunsWhere test found.now → IfOk result (λ runs. IsRuns test runs.items) }
{
    if is_nowhere(found) {
        return Ok(Vec::new(alloc));
    }
    gathered(alloc, found)
}

// The runs that were found, one after the other.
fn gathered(alloc: Global, found: &Triple) -> Result<Vec<Span>, AllocError>
    requires { IsNormal (triple_spans found.now) }
    ensures { (test : ℕ → Bool) → AreRunsWhere test found.now → IfOk result (λ runs. IsRuns test runs.items) }
{
    let mut runs = Runs::new(alloc);
    append(&mut runs, found)?;
    Ok(runs.finish())
}
