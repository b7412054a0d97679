use interval_set::IntervalSet;
use std::alloc::{AllocError, Global};
use std::process::Abort;
use std::test::Fail;
use tick_set::{Runs, Span, TickList, TickSet};

fn span(lo: u32, hi: u32) -> Result<Span, Fail> {
    Ok(Span::new(lo, hi).ok_or("no such span")?)
}

// The set of the ticks 9 to 12.
fn made<S: TickSet>(alloc: Global) -> Result<S, Fail> {
    let runs = [span(9, 12)?];
    let set = S::of_runs(alloc, &runs)?;
    Ok(set)
}

fn is_equal_to_it_alone<S: TickSet>(alloc: Global, copy: &S, set: &S) -> bool {
    copy.equal(set) && !copy.equal(&S::empty(alloc))
}

const TICKS: &[(u32, bool)] = &[
    (8, false),
    (9, true),
    (12, true),
    (13, false),
    (u32::MAX, false),
];

fn has_its_ticks<S: TickSet>(rt: &impl Abort, set: &S) {
    assert!(rt; !set.is_empty());
    for &(t, wanted) in TICKS {
        assert!(rt; set.has(t) == wanted, "the tick {t}");
    }
}

// A copy of the set has its ticks.
fn knows_its_ticks<S: TickSet>(rt: &impl Abort, alloc: Global) -> Result<(), Fail> {
    let set: S = made(alloc)?;
    let copy = set.copy(alloc)?;
    assert!(rt; is_equal_to_it_alone(alloc, &copy, &set));
    has_its_ticks(rt, &copy);
    Ok(())
}

#[test]
fn sets_know_their_ticks(rt: HostRuntime) -> Result<(), Fail> {
    knows_its_ticks::<IntervalSet>(&rt, rt.alloc())?;
    knows_its_ticks::<TickList>(&rt, rt.alloc())
}

fn with_span<S: TickSet>(alloc: Global, set: &S, span: Span) -> Result<S, AllocError> {
    let ticks = S::of_span(alloc, span)?;
    let wider = set.union(alloc, &ticks)?;
    Ok(wider)
}

// The set of the ticks of some spans.
fn set_of<S: TickSet>(alloc: Global, spans: &[(u32, u32)]) -> Result<S, Fail> {
    let mut set = S::empty(alloc);
    for (lo, hi) in spans {
        set = with_span(alloc, &set, span(*lo, *hi)?)?;
    }
    Ok(set)
}

// Whether the first set up to tick 11 and the second from there on are these spans.
fn are_spliced<S: TickSet>(
    alloc: Global,
    first: &S,
    second: &S,
    spans: &[(u32, u32)],
) -> Result<bool, Fail> {
    let wanted = set_of(alloc, spans)?;
    let spliced = first.splice(alloc, 11, second)?;
    Ok(spliced.equal(&wanted))
}

// Whether all sets together are these spans.
fn are_joined<S: TickSet>(alloc: Global, sets: &[&S], spans: &[(u32, u32)]) -> Result<bool, Fail> {
    let wanted = set_of(alloc, spans)?;
    let joined = S::union_all(alloc, sets)?;
    Ok(joined.equal(&wanted))
}

fn two_are_joined<S: TickSet>(
    rt: &impl Abort,
    alloc: Global,
    first: &S,
    second: &S,
) -> Result<(), Fail> {
    let spliced = are_spliced(alloc, first, second, &[(3, 5), (9, 10), (12, 20)])?;
    assert!(rt; spliced);
    let far = set_of(alloc, &[(6, 6)])?;
    let joined = are_joined(alloc, &[second, first, &far], &[(3, 6), (9, 20)])?;
    assert!(rt; joined);
    assert!(rt; first.shares_tick(second) && !second.shares_tick(&far));
    Ok(())
}

fn sets_are_joined<S: TickSet>(rt: &impl Abort, alloc: Global) -> Result<(), Fail> {
    let first: S = set_of(alloc, &[(3, 5), (9, 12)])?;
    let second = set_of(alloc, &[(12, 20)])?;
    two_are_joined(rt, alloc, &first, &second)
}

#[test]
fn sets_are_spliced_and_joined(rt: HostRuntime) -> Result<(), Fail> {
    sets_are_joined::<IntervalSet>(&rt, rt.alloc())?;
    sets_are_joined::<TickList>(&rt, rt.alloc())
}

#[test]
fn a_tick_is_pushed_to_a_list(rt: HostRuntime) -> Result<(), Fail> {
    let mut list = TickList::empty(rt.alloc());
    list.push(7)?;
    assert!(rt; list.has(7));
    Ok(())
}

#[test]
fn runs_are_built_and_cleared(rt: HostRuntime) -> Result<(), Fail> {
    let first = span(3, 5)?;
    let mut runs = Runs::new(rt.alloc());
    runs.append(Some(first))?;
    assert!(rt; runs.spans() == [first].as_slice());
    runs.clear();
    assert!(rt; runs.spans().is_empty());
    Ok(())
}
