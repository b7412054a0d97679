use fixed_point::{BoundForm, UntilForm};
use formula::{Binding, Items, OBJECT_LIMIT, RFormula, RSigned, RTerm, RUnit, bound_of, reach_of};
use std::alloc::{AllocError, Global};
use std::test::Fail;

#[test]
fn a_bound_is_multiplied(rt: HostRuntime) -> Result<(), Fail> {
    let mut factors = Items::new(rt.alloc());
    factors.push(RSigned {
        minus: true,
        times: Some(3),
        unit: RUnit::Var(1, 7),
    })?;
    let bound = bound_of(&RTerm { factors });
    assert!(rt; bound == 21);
    Ok(())
}

fn binding(ids: &[u32]) -> Binding {
    let mut made = Binding::new();
    for id in ids {
        if made.len() < OBJECT_LIMIT {
            made.push(*id);
        }
    }
    made
}

#[test]
fn bindings_are_compared(rt: HostRuntime) {
    assert!(rt; Binding::new().is_empty());
    assert!(rt; binding(&[1, 0, 0, 0]) < binding(&[1, 0, 3]));
    assert!(rt; binding(&[1, 0]) == binding(&[1, 0]));
}

// What is put round a formula.
#[derive(Clone, Copy)]
enum Around {
    Next,
    Bounded(BoundForm, u32),
    UntilWithin(u32),
    Or,
}

// With TRUE before it, in the order of time.
fn until_within(alloc: Global, count: u32, to: Box<RFormula>) -> Result<RFormula, AllocError> {
    let led = Box::new(alloc, RFormula::Truth(true))?;
    Ok(RFormula::Until(UntilForm::Within, count, led, to))
}

fn either(alloc: Global, second: Box<RFormula>) -> Result<RFormula, AllocError> {
    let first = Box::new(alloc, RFormula::Truth(false))?;
    Ok(RFormula::Or(first, second))
}

fn put_around(alloc: Global, around: Around, inner: Box<RFormula>) -> Result<RFormula, AllocError> {
    match around {
        Around::Next => Ok(RFormula::Next(inner)),
        Around::Bounded(form, count) => Ok(RFormula::Bounded(form, count, inner)),
        Around::UntilWithin(count) => until_within(alloc, count, inner),
        Around::Or => either(alloc, inner),
    }
}

fn wrapped(alloc: Global, around: Around, inner: RFormula) -> Result<RFormula, AllocError> {
    let inner = Box::new(alloc, inner)?;
    put_around(alloc, around, inner)
}

// What is put round TRUE, one after the other, and the reach of what it makes.
const REACHES: &[(Around, Option<u32>)] = &[
    (Around::Next, Some(1)),
    (Around::Bounded(BoundForm::Within, 5), Some(6)),
    (Around::UntilWithin(3), Some(9)),
    (Around::Bounded(BoundForm::Always, u32::MAX), Some(u32::MAX)),
    (Around::Bounded(BoundForm::After, 2), None),
    (Around::Or, None),
];

#[test]
fn reaches_add_up(rt: HostRuntime) -> Result<(), Fail> {
    let mut formula = RFormula::Truth(true);
    for &(around, reach) in REACHES {
        formula = wrapped(rt.alloc(), around, formula)?;
        assert!(rt; reach_of(&formula) == reach, "{reach:?}");
    }
    Ok(())
}
