ghost use Rattle.std.specs.Prelude.{◌≡◌, ◌∷◌, [], length, IfOk};
ghost use Rattle.tick_set.specs.Ticks.{LiesIn, between};
ghost use Rattle.tick_set.specs.Runs.{spans_have};
ghost use Rattle.formula.specs.Resolved.{IsResolved};
ghost use Rattle.formula.specs.Tree.{resolved_view};

use answers::{Answer, answer_over, spans_of};
use formula::{Binding, Items, RFormula, RQuery};
use interval_set::IntervalSet;
use relation::{Domains, Relation};
use std::alloc::{AllocError, Global};
use std::test::Fail;
use tick_set::{Span, TickSet, Window};

// Two objects for each of three variables.
fn domains(alloc: Global) -> Result<Domains, AllocError>
    ensures { IfOk result (λ d. d ≡ (1 ∷ 2 ∷ []) ∷ (3 ∷ 4 ∷ []) ∷ (5 ∷ 6 ∷ []) ∷ []) }
{
    let mut domains = Domains::new(alloc);
    domains.push(alloc, &[1, 2])?;
    domains.push(alloc, &[3, 4])?;
    domains.push(alloc, &[5, 6])?;
    Ok(domains)
}

fn key(first: u32, second: u32, third: u32) -> Binding
    ensures { result ≡ first ∷ second ∷ third ∷ [] }
{
    let mut key = Binding::new();
    key.push(first);
    key.push(second);
    key.push(third);
    key
}

// The ticks from the first to the last, of those in the window.
fn ticks(alloc: Global, ends: Ends, w: Window) -> Result<IntervalSet, Fail>
    ensures { IfOk result (λ s. LiesIn w.lo w.hi (spans_have s)) }
{
    let span = Span::new(ends.0, ends.1).ok_or("no such span")?;
    let all = IntervalSet::of_span(alloc, span)?;
    let inside = all.clip(alloc, w)?;
    Ok(inside)
}

type Ends = (u32, u32);

// Of the objects 1 and 6 there are rows with each object of the second variable.
fn rows_over_all<'d>(
    alloc: Global,
    domains: &'d Domains,
    w: Window,
) -> Result<Relation<'d, IntervalSet>, Fail>
    requires { domains.now ≡ (1 ∷ 2 ∷ []) ∷ (3 ∷ 4 ∷ []) ∷ (5 ∷ 6 ∷ []) ∷ [] }
    ensures { IfOk result (λ r. r.vars ≡ between 0 3) }
{
    let mut rows = Relation::empty(alloc, &[0, 1, 2], domains, w);
    rows.put(key(1, 3, 6), ticks(alloc, (2, 4), w)?)?;
    rows.put(key(1, 4, 6), ticks(alloc, (4, 6), w)?)?;
    rows.put(key(2, 3, 5), ticks(alloc, (8, 9), w)?)?;
    Ok(rows)
}

// RETRIEVE the third and the first variable, each of a class of its own.
fn query(alloc: Global) -> Result<RQuery, AllocError>
    ensures resolved { IfOk result (λ q. IsResolved (resolved_view q)) }
    ensures variables { IfOk result (λ q. length q.classes ≡ 3) }
{
    let mut targets = Items::new(alloc);
    targets.push(2)?;
    targets.push(0)?;
    let mut classes = Items::new(alloc);
    classes.push(0)?;
    classes.push(1)?;
    classes.push(2)?;
    Ok(RQuery {
        targets,
        classes,
        formula: RFormula::Truth(true),
    })
}

fn answered(alloc: Global, domains: &Domains) -> Result<Answer, Fail>
    requires { domains.now ≡ (1 ∷ 2 ∷ []) ∷ (3 ∷ 4 ∷ []) ∷ (5 ∷ 6 ∷ []) ∷ [] }
{
    let w = Window::new(0, 10).ok_or("no such window")?;
    let full = rows_over_all(alloc, domains, w)?;
    let query = query(alloc)?;
    let answer = answer_over(alloc, full, &query, w)?;
    Ok(answer)
}

// The objects and the runs of the rows, in the order of the targets.
const ROWS: &[Option<(u32, u32, Ends)>] = &[Some((5, 2, (8, 9))), Some((6, 1, (2, 6))), None];

// The two objects of a row, and its only run.
fn row_at(answer: &Answer, place: usize) -> Option<(u32, u32, Ends)> {
    let row = answer.rows().get(place)?;
    match (row.key.ids(), spans_of(row)) {
        ([first, second], [run]) => Some((*first, *second, (run.lo, run.hi))),
        _ => None,
    }
}

#[test]
fn rows_over_all_variables_are_answered_over_the_targets(rt: HostRuntime) -> Result<(), Fail> {
    let domains = domains(rt.alloc())?;
    let answer = answered(rt.alloc(), &domains)?;
    assert_eq!(rt; answer.rows().len(), 2);
    for (place, row) in ROWS.iter().enumerate() {
        assert_eq!(rt; row_at(&answer, place), *row, "row {place}");
    }
    Ok(())
}
