//! The runs of a term's value as far as a formula tells them apart.

ghost use Rattle.std.specs.Prelude.{◌≡◌, ◌≤◌, ◌+◌, ℕ, false, All, Option, length, slice_index, IfOk, IfSome};
ghost use Rattle.formula.specs.declared.value.Value.{Value};
ghost use Rattle.formula.specs.Tree.{formula_view};
ghost use Rattle.interpreting.specs.Names.{formula_uses_value};
ghost use Rattle.interpreting.specs.ValueRuns.{IsRunOf, value_runs_have};
ghost use Rattle.meaning.specs.Reads.{term_variables};
ghost use Rattle.evaluator.specs.Stretched.{AreStretches, IsStretch};
ghost use Rattle.steps.specs.Counting.{StepsAtMost};

use crate::assignment::Assignment;
use crate::here::Here;
use crate::naming::formula_names;
use interpreting::{Interpreter, ValueRun};
use std::alloc::{AllocError, Global};
use std::sync::ledger::Ledger;
use steps::Steps;
use tick_set::{Span, Window};
use until_merge::Temporal;

// The runs of the term's value; where the formula doesn't name it, those without a tick between them are one, so that the
// formula is evaluated once for them all.
pub(crate) fn stretches_of<S: Temporal, I: Interpreter<S>, L: Ledger>(
    alloc: Global,
    here: &Here<'_, I>,
    a: &Assignment<'_>,
    w: Window,
    reads: &mut Steps<L>,
) -> Result<Vec<ValueRun>, AllocError>
    requires { I.term_fits here.now.source.now w.lo w.hi (slice_index here.now.binding.now) a.now.term.now
        here.now.values.now }
    ensures runs { IfOk result (λ runs. AreStretches (formula_uses_value a.now.depth (formula_view a.now.body.now))
        ((I.interpretation here.now.source.now (slice_index here.now.binding.now)).term a.now.term.now
        here.now.values.now) w.lo (w.hi + 1) runs.items) }
    ensures reads { StepsAtMost reads.old reads.new (length (term_variables a.now.term.now)) }
{
    let runs = here
        .source
        .runs(alloc, a.term, here.binding, here.values, w, reads)?;
    if formula_names(a.body, a.depth) {
        return Ok(runs);
    }
    let stretches = joined_runs(alloc, &runs)?;
    Ok(stretches)
}

// The runs, where those without a tick between them are one, with the value of the first.
fn joined_runs(alloc: Global, runs: &[ValueRun]) -> Result<Vec<ValueRun>, AllocError>
    ensures each { IfOk result (λ made. (value : ℕ → Option Value) (from until : ℕ) → All (IsRunOf value from until) runs.now
        → All (IsStretch false value from until) made.items) }
    ensures ticks { IfOk result (λ made. (t : ℕ) → value_runs_have made.items t ≡ value_runs_have runs.now t) }
    ensures few { IfOk result (λ made. length made.items ≤ length runs.now) }
{
    let mut made = Vec::new(alloc);
    let Some((first, later)) = runs.split_first() else {
        return Ok(made);
    };
    // The run that may still grow.
    let mut last = *first;
    'runs: for run in later {
        match both(&last, run) {
            Some(longer) => last = longer,
            None => {
                made.push(last)?;
                last = *run;
            }
        }
    }
    made.push(last)?;
    Ok(made)
}

// Two runs as one with the value of the first, where no tick is between them.
fn both(last: &ValueRun, run: &ValueRun) -> Option<ValueRun>
    ensures value { IfSome result (λ made. made.value ≡ last.now.value) }
    ensures ends { IfSome result (λ made. (made.span.lo ≡ last.now.span.lo) × (made.span.hi ≡ run.now.span.hi)) }
    ensures next { IfSome result (λ _. last.now.span.hi + 1 ≡ run.now.span.lo) }
{
    if last.span.hi + 1 != run.span.lo {
        return None;
    }
    Some(ValueRun {
        span: Span {
            lo: last.span.lo,
            hi: run.span.hi,
        },
        value: last.value,
    })
}
