ghost use Rattle.std.specs.Prelude.{◌≡◌, ◌<◌, ◌∷◌, [], IfOk};
ghost use Rattle.kept_rows.specs.Changes.{AreRising};
ghost use Rattle.kept_rows.specs.Numbers.{ArePlaces, size_of};
ghost use Rattle.kept_rows.specs.Rows.{HasRoom};

use interval_set::IntervalSet;
use kept_rows::{
    Changes, Judge, KeptRows, Line, Move, Targets, Variable, answer, held_numbers, moves, number,
    place, refresh, size_within,
};
use std::alloc::Global;
use std::process::Abort;
use std::test::Fail;
use tick_set::{Span, TickSet, Window};

// How many objects a class has, how many it may have, and the place of the object that was written.
type Counts = (u32, u32, u32);

fn variable(counts: Counts) -> Result<Variable, Fail>
    ensures { IfOk result (λ v. v.capacity ≡ counts.1) }
{
    let made = Variable::new(counts.0, counts.1, counts.2);
    Ok(made.ok_or("no such variable")?)
}

// Whether the bindings that hold the object that was written have these numbers.
fn are_held(alloc: Global, first: Counts, second: Counts, numbers: &[u32]) -> Result<bool, Fail> {
    let variables = [variable(first)?, variable(second)?];
    let _size = size_within(&variables).ok_or("too many bindings")?;
    let found = held_numbers(alloc, &variables)?;
    Ok(found.as_slice() == numbers)
}

// One object of a class, where the other class has many.
const HELD: &[(Counts, Counts, &[u32])] = &[
    ((1, 1, 1), (1_000_000, 1_000_000, 7), &[7]),
    ((2, 2, 2), (500_000, 500_000, 3), &[3, 500_003]),
];

fn hold_their_object(rt: &impl Abort, alloc: Global) -> Result<(), Fail> {
    for &(first, second, numbers) in HELD {
        let right = are_held(alloc, first, second, numbers)?;
        assert!(rt; right);
    }
    Ok(())
}

// Where all numbers were walked this would take minutes.
#[test]
fn an_update_visits_the_bindings_that_it_changes(rt: HostRuntime) -> Result<(), Fail> {
    for _ in 0..100_000 {
        hold_their_object(&rt, rt.alloc())?;
    }
    Ok(())
}

// Two variables of one class of two objects, which may have three.
fn two_of_a_class(own: u32) -> Result<[Variable; 2], Fail>
    ensures size { IfOk result (λ v. size_of v ≡ 9) }
    ensures places { IfOk result (λ v. ArePlaces v (1 ∷ 0 ∷ [])) }
{
    let one = variable((2, 3, own))?;
    Ok([one, one])
}

#[test]
fn bindings_have_numbers_and_places(rt: HostRuntime) -> Result<(), Fail> {
    let variables = two_of_a_class(2)?;
    assert!(rt; number(&variables, &[1, 0]) == 3);
    assert!(rt; place(&variables, 3, 0) == 1);
    Ok(())
}

// Gives each binding the same ticks.
#[derive(Drop)]
struct Same {
    ticks: IntervalSet,
}

impl Judge<IntervalSet> for Same {
    ghost use Rattle.tick_set.specs.Runs.{spans_have};

    ghost full = { λ s n t. spans_have s.ticks t };

    fn judge(&self, _number: u32) -> &IntervalSet {
        &self.ticks
    }
}

fn judge_of(alloc: Global, lo: u32, hi: u32) -> Result<Same, Fail> {
    let span = Span::new(lo, hi).ok_or("no such span")?;
    let ticks = IntervalSet::of_span(alloc, span)?;
    Ok(Same { ticks })
}

// A binding holds at the ticks 5 and 6.
fn early_row(alloc: Global, kept: &mut KeptRows<IntervalSet>, number: u32) -> Result<(), Fail>
    requires below { number < 9 }
    requires room { HasRoom kept.old 9 }
    ensures { HasRoom kept.new 9 }
{
    let span = Span::new(5, 6).ok_or("no such span")?;
    let ticks = IntervalSet::of_span(alloc, span)?;
    Ok(kept.set_row(alloc, number, ticks)?)
}

// Each binding of two objects to two variables does.
fn early_rows(alloc: Global) -> Result<KeptRows<IntervalSet>, Fail>
    ensures { IfOk result (λ kept. HasRoom kept 9) }
{
    let mut kept = KeptRows::new(alloc, 9)?;
    early_row(alloc, &mut kept, 0)?;
    early_row(alloc, &mut kept, 1)?;
    early_row(alloc, &mut kept, 3)?;
    early_row(alloc, &mut kept, 4)?;
    kept.mark(alloc)?;
    Ok(kept)
}

// Those that hold the first object hold at the ticks 8 and 9 from now on.
fn later_rows(alloc: Global, kept: &KeptRows<IntervalSet>) -> Result<Changes<IntervalSet>, Fail>
    requires { HasRoom kept.now 9 }
    ensures { IfOk result (AreRising 9) }
{
    let variables = two_of_a_class(0)?;
    let judge = judge_of(alloc, 8, 9)?;
    let changes = refresh(alloc, kept, &variables, &judge, 0)?;
    Ok(changes)
}

// How many runs each of two targets gains and loses.
fn counts(found: &[Move]) -> Option<[(usize, usize); 2]> {
    match found {
        [first, second] => Some([
            (first.gained().len(), first.lost().len()),
            (second.gained().len(), second.lost().len()),
        ]),
        _ => None,
    }
}

// The counts from tick 0 to 20.
fn counted(
    alloc: Global,
    kept: &KeptRows<IntervalSet>,
    changes: &Changes<IntervalSet>,
) -> Result<Option<[(usize, usize); 2]>, Fail>
    requires kept { HasRoom kept.now 9 }
    requires changes { AreRising 9 changes.now }
{
    let targets = Targets::new(3, 3).ok_or("no such targets")?;
    let window = Window::new(0, 20).ok_or("no such window")?;
    let found = moves(alloc, kept, changes, targets, window, 5)?;
    Ok(counts(&found))
}

#[test]
fn what_another_binding_has_is_not_lost(rt: HostRuntime) -> Result<(), Fail> {
    let kept = early_rows(rt.alloc())?;
    let changes = later_rows(rt.alloc(), &kept)?;
    assert!(rt; !changes.is_empty());
    let found = counted(rt.alloc(), &kept, &changes)?;
    assert!(rt; found == Some([(1, 1), (1, 0)]));
    Ok(())
}

// The only span of the first line.
fn first_span(lines: &[Line]) -> Option<(u32, u32)> {
    match lines.first()?.spans() {
        [span] => Some((span.lo, span.hi)),
        _ => None,
    }
}

#[test]
fn a_target_has_the_ticks_of_its_bindings(rt: HostRuntime) -> Result<(), Fail> {
    let targets = Targets::new(3, 3).ok_or("no such targets")?;
    let window = Window::new(6, 20).ok_or("no such window")?;
    let kept = early_rows(rt.alloc())?;
    let lines = answer(rt.alloc(), &kept, targets, window)?;
    assert!(rt; first_span(&lines) == Some((6, 6)));
    Ok(())
}
