ghost use Rattle.std.specs.Prelude.{◌≡◌, ◌<◌, ◌∷◌, [], None, false, length, IfOk};
ghost use Rattle.formula.specs.declared.tree.RUnit.TheVariants as units;

use crate::owned::{kept, spent};
use atoms::{presence, value_runs};
use fixed_point::Word;
use formula::{Binding, Env, Items, RSigned, RTerm, RUnit, Value};
use interpreting::ValueRun;
use interval_set::IntervalSet;
use motion::Place;
use object_store::Store;
use std::alloc::{AllocError, Global};
use std::marker::Brand;
use std::process::Abort;
use std::sync::ledger::{Blank, Ledger};
use std::test::Fail;
use steps::Steps;
use tick_set::Window;

fn word(text: &[u8]) -> Result<Word, Fail> {
    Ok(Word::of(text).ok_or("a word past its length")?)
}

fn window(ends: (u32, u32)) -> Result<Window, Fail> {
    Ok(Window::new(ends.0, ends.1).ok_or("no such window")?)
}

const NOWHERE: Place = Place {
    at: None,
    moving: None,
};

// A car is there from tick 5 to 11.
fn come_and_go(rt: &impl Abort, store: &mut Store) -> Result<(), Fail> {
    let class = word(b"car")?;
    let name = word(b"a")?;
    store.add_class(class, 9, true, &[])?;
    assert!(rt; store.last_tick() <= 5);
    store.insert(5, &class, &name, &NOWHERE, &[])?;
    assert!(rt; store.last_tick() <= 12);
    store.remove(12, &name)?;
    Ok(())
}

// The store of one car.
fn one_car(rt: &impl Abort, alloc: Global) -> Result<Store, Fail> {
    let mut store = Store::new(alloc);
    let done = come_and_go(rt, &mut store);
    kept(store, done)
}

// How many classes are left.
fn take_a_class_back(store: &mut Store) -> Result<u32, Fail> {
    store.add_class(word(b"car")?, 1, false, &[])?;
    store.remove_last_class();
    Ok(store.schema().count())
}

fn no_class_is_left(rt: &impl Abort, store: &mut Store) -> Result<(), Fail> {
    let left = take_a_class_back(store)?;
    assert_eq!(rt; left, 0);
    Ok(())
}

#[test]
fn a_class_is_taken_back(rt: HostRuntime) -> Result<(), Fail> {
    let mut store = Store::new(rt.alloc());
    let done = no_class_is_left(&rt, &mut store);
    spent(store, done)
}

#[derive(Clone, Copy)]
enum Asked {
    Presence,
    Values,
}

// Asks with a counter of the looks at timelines.
fn with_reads<L: Ledger>(
    rt: &impl Abort,
    host: &HostRuntime,
    blank: Blank,
    asked: Asked,
) -> Result<(), Fail>
    requires name { blank.name ≡ L.name }
    requires parts { blank.parts ≡ L.parts }
    requires some_part { 0 < blank.parts }
{
    let mut reads: Steps<L> = Steps::new(host, blank);
    answers_of_one_car(rt, host.alloc(), asked, &mut reads)
}

fn answers_of_one_car<L: Ledger>(
    rt: &impl Abort,
    alloc: Global,
    asked: Asked,
    reads: &mut Steps<L>,
) -> Result<(), Fail> {
    let store = one_car(rt, alloc)?;
    let done = answers_of(rt, alloc, &store, asked, reads);
    spent(store, done)
}

fn answers_of<L: Ledger>(
    rt: &impl Abort,
    alloc: Global,
    store: &Store,
    asked: Asked,
    reads: &mut Steps<L>,
) -> Result<(), Fail> {
    match asked {
        Asked::Presence => is_there_at_times(rt, alloc, store, reads),
        Asked::Values => time_runs_for_a_tick(rt, alloc, store, reads),
    }
}

fn answers(rt: &impl Abort, host: &HostRuntime, asked: Asked) -> Result<(), Fail> {
    with_reads::<Brand>(rt, host, Blank::new(1), asked)
}

// A window, and the ticks of it at which the car is there.
const PRESENCE: &[((u32, u32), Option<(u32, u32)>)] = &[
    ((0, 20), Some((5, 11))),
    ((7, 8), Some((7, 8))),
    ((12, 20), None),
];

fn only_run(set: &IntervalSet) -> Option<(u32, u32)> {
    let run = set.spans().first()?;
    Some((run.lo, run.hi))
}

fn is_there_at_times<L: Ledger>(
    rt: &impl Abort,
    alloc: Global,
    store: &Store,
    reads: &mut Steps<L>,
) -> Result<(), Fail> {
    assert!(rt; 0 < store.object_count());
    for &(ends, run) in PRESENCE {
        let found = presence(alloc, 0, store, window(ends)?, reads)?;
        assert_eq!(rt; only_run(&found), run, "in {ends:?}");
    }
    Ok(())
}

#[test]
fn an_object_is_there_from_its_insert_to_its_removal(rt: HostRuntime) -> Result<(), Fail> {
    answers(&rt, &rt, Asked::Presence)
}

fn time(alloc: Global) -> Result<RTerm, AllocError>
    ensures { IfOk result (λ q. q.factors ≡ record { minus = false; times = None; unit = units.Time } ∷ []) }
{
    let mut factors = Items::new(alloc);
    factors.push(RSigned {
        minus: false,
        times: None,
        unit: RUnit::Time,
    })?;
    Ok(RTerm { factors })
}

const VALUES: &[Option<(u32, u32, i64)>] = &[
    Some((7, 7, 7000)),
    Some((8, 8, 8000)),
    Some((9, 9, 9000)),
    None,
];

fn number_at(runs: &[ValueRun], index: usize) -> Option<(u32, u32, i64)> {
    let run = runs.get(index)?;
    match run.value {
        Value::Num(number) => Some((run.span.lo, run.span.hi, number.raw())),
        Value::Text(_) => None,
    }
}

fn time_runs_for_a_tick<L: Ledger>(
    rt: &impl Abort,
    alloc: Global,
    store: &Store,
    reads: &mut Steps<L>,
) -> Result<(), Fail> {
    let time = time(alloc)?;
    let w = window((7, 9))?;
    let none = Binding::new();
    let runs = value_runs(alloc, &time, &none, &Env::new(), store, w, reads)?;
    for (index, run) in VALUES.iter().enumerate() {
        assert_eq!(rt; number_at(&runs, index), *run, "run {index}");
    }
    Ok(())
}

#[test]
fn a_number_that_moves_runs_for_a_tick(rt: HostRuntime) -> Result<(), Fail> {
    answers(&rt, &rt, Asked::Values)
}
