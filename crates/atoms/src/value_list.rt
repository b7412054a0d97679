//! Runs of equal value that are gathered from the first tick to the last.
ghost use Rattle.std.specs.Prelude.{◌≡◌, ◌+◌, ◌-◌, ◌≤◌, ℕ, false, Some, IfSome, IfNone, OnOk, Option, length, slice_get};
ghost use Rattle.formula.specs.declared.value.Value.{Value};
ghost use Rattle.atoms.specs.ValueRuns.{AreMaximalRuns, IsJoined, are_equal, goes_on};

use formula::Value;
use interpreting::ValueRun;
use std::alloc::AllocError;
use tick_set::Span;

/// Adds the ticks of a run, which begins with the first tick that isn't told yet. Where it goes on with the
/// value of the tick before, it makes the last run longer.
pub fn append_run(runs: &mut Vec<ValueRun>, run: ValueRun) -> Result<(), AllocError>
    ensures { OnOk result ((value : ℕ → Option Value) (from : ℕ) → from ≤ run.span.lo
        → AreMaximalRuns value from run.span.lo runs.old.items
        → ((t : ℕ) → run.span.lo ≤ t → t ≤ run.span.hi → value t ≡ Some run.value)
        → AreMaximalRuns value from (run.span.hi + 1) runs.new.items) }
{
    match joined(runs, &run) {
        Some(longer) => {
            let place = runs.len() - 1;
            runs[place] = longer;
        }
        None => runs.push(run)?,
    }
    Ok(())
}

// The last run with the ticks of the next one, where no tick is between them and their values are equal.
fn joined(runs: &[ValueRun], run: &ValueRun) -> Option<ValueRun>
    ensures joined { IfSome result (IsJoined runs.now run.now) }
    ensures apart { IfNone result (IfSome (slice_get runs.now (length runs.now - 1)) (λ last. goes_on last run.now ≡ false)) }
{
    let last = runs.last()?;
    if last.span.hi + 1 == run.span.lo && are_equal(&last.value, &run.value) {
        Some(ValueRun {
            span: Span {
                lo: last.span.lo,
                hi: run.span.hi,
            },
            value: last.value,
        })
    } else {
        None
    }
}

fn are_equal(a: &Value, b: &Value) -> bool
    ensures { result ≡ are_equal a.now b.now }
{
    match a {
        Value::Num(first) => match b {
            Value::Num(second) => first.raw() == second.raw(),
            Value::Text(_) => false,
        },
        Value::Text(first) => match b {
            Value::Num(_) => false,
            Value::Text(second) => first == second,
        },
    }
}
