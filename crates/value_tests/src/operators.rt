ghost use Rattle.std.specs.Prelude.{IfOk};
ghost use Rattle.tick_set.specs.Ticks.{LiesIn};

use interval_set::IntervalSet;
use std::alloc::{AllocError, Global};
use std::test::Fail;
use tick_set::{Span, TickList, TickSet, Window};
use until_merge::Temporal;

// An operator on sets of ticks, with its ticks where it has some.
#[derive(Clone, Copy)]
enum Operator {
    Union,
    Meet,
    Without,
    Complement,
    Next,
    Until,
    UntilWithin(u32),
    UntilAfter(u32),
    EventuallyWithin(u32),
    EventuallyAfter(u32),
    AlwaysFor(u32),
}

type Ends = (u32, u32);

// The window, the ticks of the first and of the second set, of which those in the window count, and what the operator
// makes of them.
type Row = (Operator, Ends, Ends, Ends, Ends);

const ROWS: &[Row] = &[
    (Operator::Union, (0, 10), (0, 4), (4, 8), (0, 8)),
    // Neighbors are one run.
    (Operator::Union, (0, 10), (3, 5), (6, 9), (3, 9)),
    (Operator::Meet, (0, 10), (0, 4), (4, 8), (4, 4)),
    (Operator::Meet, (3, 8), (0, 4), (0, 10), (3, 4)),
    (Operator::Without, (0, 10), (0, 4), (4, 8), (0, 3)),
    (Operator::Complement, (3, 8), (0, 4), (4, 8), (5, 8)),
    (Operator::Next, (0, 10), (0, 4), (5, 5), (0, 3)),
    (Operator::Until, (0, 10), (0, 4), (5, 5), (0, 5)),
    // Over a gap.
    (Operator::Until, (0, 10), (0, 4), (6, 6), (6, 6)),
    (Operator::UntilWithin(1), (0, 10), (0, 4), (5, 5), (4, 5)),
    (Operator::UntilAfter(2), (0, 10), (0, 4), (5, 5), (0, 3)),
    (
        Operator::EventuallyWithin(2),
        (0, 10),
        (0, 4),
        (5, 5),
        (3, 5),
    ),
    (
        Operator::EventuallyAfter(2),
        (0, 10),
        (0, 4),
        (5, 5),
        (0, 3),
    ),
    (Operator::AlwaysFor(2), (0, 10), (3, 6), (5, 5), (3, 4)),
];

fn applied<S: Temporal>(
    alloc: Global,
    operator: Operator,
    g: &S,
    h: &S,
    w: Window,
) -> Result<S, AllocError>
    requires first { LiesIn w.lo w.hi (S.member g.now) }
    requires second { LiesIn w.lo w.hi (S.member h.now) }
{
    match operator {
        Operator::Union => g.union(alloc, h),
        Operator::Meet => g.meet(alloc, h),
        Operator::Without => g.without(alloc, h),
        Operator::Complement => g.complement(alloc, w),
        Operator::Next => g.next(alloc, w),
        Operator::Until => g.until(alloc, h, w),
        Operator::UntilWithin(c) => g.until_within(alloc, h, c, w),
        Operator::UntilAfter(c) => g.until_after(alloc, h, c, w),
        Operator::EventuallyWithin(c) => h.eventually_within(alloc, c, w),
        Operator::EventuallyAfter(c) => h.eventually_after(alloc, c, w),
        Operator::AlwaysFor(c) => g.always_for(alloc, c, w),
    }
}

// The ticks of a span that are in the window.
fn set_of<S: TickSet>(alloc: Global, ends: Ends, w: Window) -> Result<S, Fail>
    ensures { IfOk result (λ s. LiesIn w.lo w.hi (S.member s)) }
{
    let span = Span::new(ends.0, ends.1).ok_or("no such span")?;
    let all = S::of_span(alloc, span)?;
    let inside = all.clip(alloc, w)?;
    Ok(inside)
}

// The run of a set that has one.
fn only_run<S: TickSet>(alloc: Global, set: &S) -> Result<Ends, Fail> {
    match set.runs(alloc)?.as_slice() {
        [s] => Ok((s.lo, s.hi)),
        _ => Err("not one run".into()),
    }
}

fn run_over<S: Temporal>(
    alloc: Global,
    operator: Operator,
    g: &S,
    h: &S,
    w: Window,
) -> Result<Ends, Fail>
    requires first { LiesIn w.lo w.hi (S.member g.now) }
    requires second { LiesIn w.lo w.hi (S.member h.now) }
{
    let made = applied(alloc, operator, g, h, w)?;
    only_run(alloc, &made)
}

// Whether the operator makes the run of a row.
fn holds<S: Temporal>(alloc: Global, row: &Row) -> Result<bool, Fail> {
    let w = Window::new(row.1.0, row.1.1).ok_or("no such window")?;
    let g: S = set_of(alloc, row.2, w)?;
    let h: S = set_of(alloc, row.3, w)?;
    let run = run_over(alloc, row.0, &g, &h, w)?;
    Ok(run == row.4)
}

#[test]
fn operators_hold_where_they_should(rt: HostRuntime) -> Result<(), Fail> {
    for (place, row) in ROWS.iter().enumerate() {
        let listed = holds::<TickList>(rt.alloc(), row)?;
        assert!(rt; listed, "row {place} tick by tick");
        let on_spans = holds::<IntervalSet>(rt.alloc(), row)?;
        assert!(rt; on_spans, "row {place} on spans");
    }
    Ok(())
}
