//! The maximal runs of equal value of a term.
ghost use Rattle.std.specs.Prelude.{◌≡◌, ◌+◌, ◌-◌, ◌≤◌, ℕ, ℤ, pos, ◌+ℤ◌, ◌*ℤ◌, true, unsigned_abs, Option, Some, IfSome, OnOk, IfOk, IsTrue, length, slice_index};
ghost use Rattle.courses.specs.Parts.{AreFewTimelines, epochs_of_each};
ghost use Rattle.fixed_point.specs.declared.number.TheConstants.{FIX_LIMIT};
ghost use Rattle.fixed_point.specs.Sizes.{IsFix};
ghost use Rattle.formula.specs.Variables.{term_has};
ghost use Rattle.formula_shape.specs.declared.limits.TheConstants.{FACTOR_LIMIT};
ghost use Rattle.formula.specs.declared.value.Value.{Value};
ghost use Rattle.formula.specs.declared.value.Value.TheVariants as values;
ghost use Rattle.linear_crossing.specs.Zones.{line_at};
ghost use Rattle.meaning.specs.Reads.{term_variables};
ghost use Rattle.meaning.specs.Trace.{trace_of};
ghost use Rattle.meaning.specs.Value.{term_value};
ghost use Rattle.object_store.specs.Contents.{history_of};
ghost use Rattle.atoms.specs.Courses.{IsCourseOf, IsTrendOf, course_value, value_along};
ghost use Rattle.atoms.specs.Parts.{AreAscending, HasObject, trace_by};
ghost use Rattle.atoms.specs.Sizes.{is_sized_term};
ghost use Rattle.atoms.specs.ValueRuns.{AreMaximalRuns, HasValuesInRange};
ghost use Rattle.exact.specs.Lists.{SameLength};

use crate::parts::{Traces, part_from, timelines_of};
use crate::terms::{Course, course_of};
use crate::trends::Trend;
use crate::value_list::append_run;
use crate::variables::variables_of_term;
use courses::begun_by;
use fixed_point::{FIX_LIMIT, Fix};
use formula::{Binding, Env, FACTOR_LIMIT, RTerm, Value};
use interpreting::ValueRun;
use motion::{Asked, Timeline};
use object_store::Store;
use std::alloc::{AllocError, Global};
use std::sync::ledger::Ledger;
use steps::Steps;
use tick_set::{Span, Window};

/// The maximal runs of equal value of the term in the window, ascending: `from` is the window's first tick,
/// `until` the tick past its last. A tick at which the term has no value is in none. Each variable of the term
/// has an object in the binding, and a number that the term is in the window is within 10^18 thousandths of 0.
///
/// It takes one step of `reads` for each different variable, and fails only where memory is out. A number that
/// moves gives a run for each tick.
pub fn value_runs<L: Ledger>(
    alloc: Global,
    term: &RTerm,
    b: &Binding,
    env: &Env,
    store: &Store,
    w: Window,
    reads: &mut Steps<L>,
) -> Result<Vec<ValueRun>, AllocError>
    requires sized { IsTrue (is_sized_term term.now) }
    requires bound { (v : ℕ) → term_has v term.now ≡ true → HasObject b.now store.now v }
    requires in_range { HasValuesInRange
        (term_value (trace_of (history_of store.now) (slice_index b.now)) term.now env.now) w.lo (w.hi + 1) }
    ensures runs { IfOk result (λ runs. AreMaximalRuns
        (term_value (trace_of (history_of store.now) (slice_index b.now)) term.now env.now)
        w.lo (w.hi + 1) runs.items) }
    ensures reads { reads.new ≡ reads.old + length (term_variables term.now) }
{
    // It stands for each timeline that isn't asked for.
    let none = Timeline::new(alloc);
    let variables = variables_of_term(term);
    let timelines = timelines_of(variables, b, store, &none, reads);
    let traces = Traces {
        variables,
        timelines: &timelines[..variables.len()],
        w,
    };
    let runs = term_runs(alloc, term, env, &traces)?;
    Ok(runs)
}

// The same, where the variables of the term have these timelines.
fn term_runs(
    alloc: Global,
    term: &RTerm,
    env: &Env,
    traces: &Traces,
) -> Result<Vec<ValueRun>, AllocError>
    requires sized { IsTrue (is_sized_term term.now) }
    requires few { AreFewTimelines traces.now.timelines.now }
    requires same { SameLength traces.now.variables.now traces.now.timelines.now }
    requires ascending { AreAscending traces.now.variables.now }
    requires in_range { HasValuesInRange
        (term_value (trace_by traces.now.variables.now (epochs_of_each traces.now.timelines.now)) term.now env.now) traces.now.w.lo (traces.now.w.hi + 1) }
    ensures { IfOk result (λ runs. AreMaximalRuns
        (term_value (trace_by traces.now.variables.now (epochs_of_each traces.now.timelines.now)) term.now env.now)
        traces.now.w.lo (traces.now.w.hi + 1) runs.items) }
{
    let mut begun = begun_by(traces.timelines, traces.w.lo);
    let mut runs = Vec::new(alloc);
    let mut at = traces.w.lo;
    'joining: while at <= traces.w.hi {
        let part = part_from(
            traces.variables,
            Asked::All,
            traces.timelines,
            &mut begun,
            at,
            traces.w.hi,
        );
        append_course(&mut runs, &course_of(term, &part, env), part.span)?;
        at = part.span.hi + 1;
    }
    Ok(runs)
}

// Adds the values of a course in the span, where it has any.
fn append_course(
    runs: &mut Vec<ValueRun>,
    course: &Option<Course>,
    span: Span,
) -> Result<(), AllocError>
    requires small { IfSome course.now (IsCourseOf FACTOR_LIMIT) }
    requires in_range { HasValuesInRange (value_along course.now span.lo) span.lo (span.hi + 1) }
    ensures { OnOk result ((value : ℕ → Option Value) (from : ℕ) → from ≤ span.lo → AreMaximalRuns value from span.lo runs.old.items
        → ((t : ℕ) → span.lo ≤ t → t ≤ span.hi → value t ≡ value_along course.now span.lo t)
        → AreMaximalRuns value from (span.hi + 1) runs.new.items) }
{
    match course {
        Some(course) => append_values(runs, course, span),
        None => Ok(()),
    }
}

// Adds the values of a course in the span.
fn append_values(runs: &mut Vec<ValueRun>, course: &Course, span: Span) -> Result<(), AllocError>
    requires small { IsCourseOf FACTOR_LIMIT course.now }
    requires in_range { HasValuesInRange (λ t. Some (course_value span.lo t course.now)) span.lo (span.hi + 1) }
    ensures { OnOk result ((value : ℕ → Option Value) (from : ℕ) → from ≤ span.lo → AreMaximalRuns value from span.lo runs.old.items
        → ((t : ℕ) → span.lo ≤ t → t ≤ span.hi → value t ≡ Some (course_value span.lo t course.now))
        → AreMaximalRuns value from (span.hi + 1) runs.new.items) }
{
    match course {
        Course::Number(trend) => append_trend(runs, *trend, span),
        Course::Text(text) => append_run(
            runs,
            ValueRun {
                span,
                value: Value::Text(*text),
            },
        ),
    }
}

// Adds the numbers of a trend in the span: one run where it rests.
fn append_trend(runs: &mut Vec<ValueRun>, trend: Trend, span: Span) -> Result<(), AllocError>
    requires small { IsTrendOf FACTOR_LIMIT trend }
    requires in_range { (t : ℕ) → span.lo ≤ t → t ≤ span.hi → unsigned_abs (line_at trend.rise trend.start span.lo t) ≤ FIX_LIMIT }
    ensures { OnOk result ((value : ℕ → Option Value) (from : ℕ) → from ≤ span.lo → AreMaximalRuns value from span.lo runs.old.items
        → ((t : ℕ) → span.lo ≤ t → t ≤ span.hi → value t ≡ Some (values.Num (line_at trend.rise trend.start span.lo t)))
        → AreMaximalRuns value from (span.hi + 1) runs.new.items) }
{
    if trend.rise == 0 {
        append_run(
            runs,
            ValueRun {
                span,
                value: number(trend.start),
            },
        )
    } else {
        append_each(runs, trend, span)
    }
}

// Adds the number of each tick of the span.
fn append_each(runs: &mut Vec<ValueRun>, trend: Trend, span: Span) -> Result<(), AllocError>
    requires small { IsTrendOf FACTOR_LIMIT trend }
    requires in_range { (t : ℕ) → span.lo ≤ t → t ≤ span.hi → unsigned_abs (line_at trend.rise trend.start span.lo t) ≤ FIX_LIMIT }
    ensures { OnOk result ((value : ℕ → Option Value) (from : ℕ) → from ≤ span.lo → AreMaximalRuns value from span.lo runs.old.items
        → ((t : ℕ) → span.lo ≤ t → t ≤ span.hi → value t ≡ Some (values.Num (line_at trend.rise trend.start span.lo t)))
        → AreMaximalRuns value from (span.hi + 1) runs.new.items) }
{
    for tick in span.lo..span.hi + 1 {
        let value = number(trend.after(tick - span.lo));
        let span = Span { lo: tick, hi: tick };
        append_run(runs, ValueRun { span, value })?;
    }
    Ok(())
}

// A number of thousandths as a value.
fn number(thousandths: i128) -> Value
    requires { IsFix thousandths }
    ensures { result ≡ values.Num thousandths }
{
    Value::Num(Fix::of(thousandths as i64).unwrap())
}
