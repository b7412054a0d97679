use fixed_point::Fix;
use places::{Boxes, Extent, HORIZONS, Patch, Patches, Places};
use std::alloc::{AllocError, Global};
use std::process::Abort;
use std::test::Fail;

fn fix(units: i32) -> Fix {
    match Fix::of(i64::from(units) * 1000) {
        Some(number) => number,
        None => unreachable!(),
    }
}

// A square of units from (x, y) on.
fn square(x: i16, y: i16, side: i16) -> Patch {
    let (x, y, side) = (i32::from(x), i32::from(y), i32::from(side));
    Patch {
        x: Extent::of(fix(x), fix(x + side)),
        y: Extent::of(fix(y), fix(y + side)),
    }
}

fn same(patch: Patch) -> Patches {
    Patches {
        short: patch,
        middle: patch,
        long: patch,
        longest: patch,
    }
}

// Thousandths, and the unit that they are in.
const UNITS: &[(i64, i32)] = &[
    (0, 0),
    (999, 0),
    (1000, 1),
    (-1, -1),
    (-1000, -1),
    (-1001, -2),
    (1_000_000_000_000_000_000, i32::MAX),
];

#[test]
fn numbers_lie_in_the_unit_below(rt: HostRuntime) {
    for &(thousandths, unit) in UNITS {
        let number = Fix::of(thousandths).unwrap();
        assert!(rt; Extent::of(number, number).least == unit, "{thousandths}");
    }
}

#[test]
fn patches_that_touch_meet(rt: HostRuntime) {
    let patch = square(-2, 0, 4);
    assert!(rt; patch.meets(&square(2, 4, 1)));
    assert!(rt; !patch.meets(&square(3, 0, 1)));
    assert!(rt; !patch.meets(&square(0, -9, 8)));
    assert!(rt; patch.meets(&Patch::everywhere()));
    assert!(rt; !patch.meets(&Patch::nowhere()));
}

// Objects on a line, ten units apart, of which each tenth is far away.
fn place_of(n: u8) -> Patch {
    if n % 10 == 0 {
        square(0, 5000, 1)
    } else {
        square(i16::from(n) * 10, 0, 1)
    }
}

fn line(alloc: Global) -> Result<Boxes, AllocError> {
    let mut boxes = Boxes::new(alloc, 9);
    for n in 0..100 {
        boxes.push(place_of(n))?;
    }
    Ok(boxes)
}

// How many are near, and whether the first ones have these numbers.
fn near_from(
    alloc: Global,
    boxes: &Boxes,
    area: &Patch,
    first: &[u32],
) -> Result<(usize, bool), AllocError> {
    let near = boxes.near(alloc, area)?;
    Ok((near.len(), near.starts_with(first)))
}

fn are_told_by_their_numbers(
    rt: &impl Abort,
    alloc: Global,
    boxes: &mut Boxes,
) -> Result<(), AllocError> {
    let near = near_from(alloc, boxes, &square(295, -5, 40), &[31, 32, 33])?;
    assert!(rt; near == (3, true));
    boxes.renew(20);
    assert!(rt; boxes.upto() == 20);
    let far = near_from(alloc, boxes, &square(0, 4990, 20), &[])?;
    assert!(rt; far == (10, true));
    boxes.pop();
    assert!(rt; boxes.len() == 99);
    Ok(())
}

#[test]
fn objects_near_are_told_by_their_numbers(rt: HostRuntime) -> Result<(), Fail> {
    let mut boxes = line(rt.alloc())?;
    are_told_by_their_numbers(&rt, rt.alloc(), &mut boxes)?;
    Ok(())
}

// The place of the second object, and over the shortest horizon that of the first one too.
fn two_objects(alloc: Global) -> Result<Places, AllocError> {
    let mut places = Places::new(alloc);
    places.push(&same(Patch::nowhere()))?;
    places.push(&same(square(7, 7, 2)))?;
    places.short.set(0, square(7, 7, 2));
    Ok(places)
}

// How many are told from tick 3 to another, if any are told.
fn told_to(alloc: Global, places: &Places, hi: u32) -> Result<Option<usize>, AllocError> {
    let near = places.near(alloc, 3, hi, &square(8, 8, 1))?;
    Ok(match near {
        Some(numbers) => Some(numbers.len()),
        None => None,
    })
}

fn horizons_tell(rt: &impl Abort, alloc: Global, places: &mut Places) -> Result<(), AllocError> {
    let short = told_to(alloc, places, HORIZONS[0])?;
    assert!(rt; short == Some(2));
    let middle = told_to(alloc, places, HORIZONS[0] + 1)?;
    assert!(rt; middle == Some(1));
    let past = told_to(alloc, places, HORIZONS[3] + 1)?;
    assert!(rt; past.is_none());
    places.from = 4;
    let before = told_to(alloc, places, 9)?;
    assert!(rt; before.is_none());
    places.pop();
    assert!(rt; places.longest.len() == 1);
    Ok(())
}

#[test]
fn the_shortest_horizon_that_reaches_tells(rt: HostRuntime) -> Result<(), Fail> {
    let mut places = two_objects(rt.alloc())?;
    horizons_tell(&rt, rt.alloc(), &mut places)?;
    Ok(())
}
