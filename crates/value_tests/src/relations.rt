ghost use Rattle.std.specs.Prelude.{◌≡◌, ◌∷◌, [], length, IfOk};
ghost use Rattle.std.specs.List.Sorted.{IsStrictlyIncreasing};
ghost use Rattle.relation.specs.Frames.{frame, frame_of};

use fixed_point::{BoundForm, UntilForm};
use interval_set::IntervalSet;
use relation::{Domains, Relation};
use std::alloc::{AllocError, Global};
use std::test::Fail;
use tick_set::Window;

// These objects for one variable.
fn domains_of(alloc: Global, ids: &[u32]) -> Result<Domains, AllocError>
    requires { IsStrictlyIncreasing ids.now }
    ensures { IfOk result (λ d. d ≡ ids.now ∷ []) }
{
    let mut domains = Domains::new(alloc);
    domains.push(alloc, ids)?;
    Ok(domains)
}

// All ticks of a window for each object.
fn whole<'d>(
    alloc: Global,
    domains: &'d Domains,
    w: Window,
) -> Result<Relation<'d, IntervalSet>, AllocError>
    requires { length domains.now ≡ 1 }
    ensures vars { IfOk result (λ r. r.vars ≡ 0 ∷ []) }
    ensures frame { IfOk result (λ r. frame r ≡ frame_of domains.now w.lo w.hi) }
{
    let nothing: Relation<'d, IntervalSet> = Relation::empty(alloc, &[0], domains, w);
    let all = nothing.complement(alloc)?;
    Ok(all)
}

// The ticks of a part of the window for each object.
fn each<'d>(
    alloc: Global,
    domains: &'d Domains,
    part: (u32, u32),
) -> Result<Relation<'d, IntervalSet>, Fail>
    requires { length domains.now ≡ 1 }
    ensures vars { IfOk result (λ r. r.vars ≡ 0 ∷ []) }
    ensures frame { IfOk result (λ r. frame r ≡ frame_of domains.now 0 10) }
{
    let w = Window::new(0, 10).ok_or("no such window")?;
    let part = Window::new(part.0, part.1).ok_or("no such window")?;
    let all = whole(alloc, domains, w)?;
    let made = all.clip(alloc, part)?;
    Ok(made)
}

type Ends = (u32, u32);

// The only run of a row.
fn run_at(relation: &Relation<'_, IntervalSet>, place: usize) -> Option<Ends> {
    match relation.set_at(place)?.spans() {
        [run] => Some((run.lo, run.hi)),
        _ => None,
    }
}

#[derive(Clone, Copy)]
enum Operator {
    Join,
    Unite,
    Until,
    Next,
    Within(u32),
}

// What an operator makes of the ticks 2 to 4 and 4 to 6 of each object.
const ROWS: &[(Operator, Ends)] = &[
    (Operator::Join, (4, 4)),
    (Operator::Unite, (2, 6)),
    (Operator::Until, (2, 6)),
    (Operator::Next, (1, 3)),
    (Operator::Within(1), (1, 4)),
];

fn applied<'d>(
    alloc: Global,
    operator: Operator,
    first: &Relation<'d, IntervalSet>,
    second: &Relation<'d, IntervalSet>,
) -> Result<Relation<'d, IntervalSet>, AllocError>
    requires frame { frame second.now ≡ frame first.now }
    requires left { IsStrictlyIncreasing first.now.vars }
    requires right { IsStrictlyIncreasing second.now.vars }
{
    match operator {
        Operator::Join => first.join(alloc, second),
        Operator::Unite => first.unite(alloc, second),
        Operator::Until => first.until(alloc, second, UntilForm::Plain, 0),
        Operator::Next => first.next(alloc),
        Operator::Within(c) => first.bounded(alloc, BoundForm::Within, c),
    }
}

// What the operator makes of the second object.
fn run_made<'d>(
    alloc: Global,
    operator: Operator,
    first: &Relation<'d, IntervalSet>,
    second: &Relation<'d, IntervalSet>,
) -> Result<Option<Ends>, AllocError>
    requires frame { frame second.now ≡ frame first.now }
    requires left { IsStrictlyIncreasing first.now.vars }
    requires right { IsStrictlyIncreasing second.now.vars }
{
    let made = applied(alloc, operator, first, second)?;
    Ok(run_at(&made, 1))
}

fn answered_over(alloc: Global, domains: &Domains, operator: Operator) -> Result<Option<Ends>, Fail>
    requires { length domains.now ≡ 1 }
{
    let first = each(alloc, domains, (2, 4))?;
    let second = each(alloc, domains, (4, 6))?;
    let run = run_made(alloc, operator, &first, &second)?;
    Ok(run)
}

fn answered(alloc: Global, operator: Operator) -> Result<Option<Ends>, Fail> {
    let domains = domains_of(alloc, &[1, 2])?;
    answered_over(alloc, &domains, operator)
}

#[test]
fn operators_answer_for_each_object(rt: HostRuntime) -> Result<(), Fail> {
    for (place, row) in ROWS.iter().enumerate() {
        let found = answered(rt.alloc(), row.0)?;
        assert!(rt; found == Some(row.1), "row {place}");
    }
    Ok(())
}

// The runs of both objects where the second is given those of a column.
fn runs_with<'d>(
    alloc: Global,
    first: &Relation<'d, IntervalSet>,
    column: &Relation<'d, IntervalSet>,
) -> Result<[Option<Ends>; 2], AllocError>
    requires first { frame first.now ≡ frame_of ((1 ∷ 2 ∷ []) ∷ []) 0 10 }
    requires vars { first.now.vars ≡ 0 ∷ [] }
    requires column { frame column.now ≡ frame_of ((2 ∷ []) ∷ []) 0 10 }
    requires column_vars { column.now.vars ≡ 0 ∷ [] }
{
    let made = first.replace_column(alloc, 0, 2, column)?;
    Ok([run_at(&made, 0), run_at(&made, 1)])
}

// The runs of both objects, of which the second is given others.
fn replaced(alloc: Global, domains: &Domains, second: &Domains) -> Result<[Option<Ends>; 2], Fail>
    requires both { domains.now ≡ (1 ∷ 2 ∷ []) ∷ [] }
    requires second { second.now ≡ (2 ∷ []) ∷ [] }
{
    let first = each(alloc, domains, (2, 4))?;
    let column = each(alloc, second, (6, 8))?;
    let runs = runs_with(alloc, &first, &column)?;
    Ok(runs)
}

#[test]
fn a_column_is_replaced(rt: HostRuntime) -> Result<(), Fail> {
    let domains = domains_of(rt.alloc(), &[1, 2])?;
    let second = domains_of(rt.alloc(), &[2])?;
    let runs = replaced(rt.alloc(), &domains, &second)?;
    assert!(rt; runs == [Some((2, 4)), Some((6, 8))]);
    Ok(())
}
