ghost use Rattle.std.specs.Prelude.{◌≡◌, ◌≤◌, IfOk, IfSome};
ghost use Rattle.motion.specs.Cells.{IsCellAt};

use courses::{begun_by, common_for};
use fixed_point::{Fix, Slope};
use motion::{Asked, Cell, Legs, Timeline, Vector};
use std::alloc::Global;
use std::process::Abort;
use std::test::Fail;

fn slope(thousandths: i64) -> Result<Slope, Fail> {
    Ok(Slope::of(thousandths).ok_or("a slope past its range")?)
}

// 0 at tick 2, from where on it rises by 1 a tick for 3 ticks, falls by 2 a tick for 4, and rests.
fn turning() -> Result<Vector, Fail>
    ensures { IfOk result (λ v. v.updatetime ≡ 2) }
{
    let start = Fix::of(0).ok_or("a number past its range")?;
    let firsts = [(slope(1000)?, 3), (slope(-2000)?, 4)];
    let legs = Legs::of(&firsts, slope(0)?).ok_or("no such legs")?;
    Ok(Vector::begun(2, start, legs))
}

// The first and the last of some ticks, and the least and the greatest value over them, in thousandths.
const RANGES: &[((u32, u32), (i64, i64))] = &[
    ((2, 2), (0, 0)),
    ((2, 5), (0, 3000)),
    ((6, 8), (-3000, 1000)),
    ((2, 30), (-5000, 3000)),
];

fn range_over(vector: &Vector, ticks: (u32, u32)) -> Option<(i64, i64)>
    requires { vector.now.updatetime ≡ 2 }
{
    if ticks.0 < 2 || ticks.1 < ticks.0 || 100 < ticks.1 {
        return None;
    }
    let (least, greatest) = vector.range(ticks.0, ticks.1);
    Some((least.raw(), greatest.raw()))
}

#[test]
fn a_vector_ranges_over_the_ends_of_its_legs(rt: HostRuntime) -> Result<(), Fail> {
    let vector = turning()?;
    for &(ticks, wanted) in RANGES {
        assert!(rt; range_over(&vector, ticks) == Some(wanted), "{ticks:?}");
    }
    Ok(())
}

// One attribute that turns at the ticks 5 and 9.
fn turned(alloc: Global) -> Result<Timeline, Fail> {
    let vector = turning()?;
    let mut timeline = Timeline::new(alloc);
    timeline.begin(2, &[Cell::Dyn(vector)])?;
    Ok(timeline)
}

// No attribute, and an epoch that begins at tick 3 and one at tick 12.
fn written(alloc: Global) -> Result<Timeline, Fail> {
    let mut timeline = Timeline::new(alloc);
    timeline.begin(3, &[])?;
    timeline.begin(12, &[])?;
    Ok(timeline)
}

// The first two common parts of two timelines from tick 4 on, for what is asked of each.
fn first_parts(timelines: &[&Timeline; 2], asked: &[Asked]) -> Option<[(u32, u32); 2]> {
    let mut begun = begun_by(timelines, 4);
    let first = common_for(timelines, asked, &mut begun, 4, 20).span;
    if 20 <= first.hi {
        return None;
    }
    let second = common_for(timelines, asked, &mut begun, first.hi + 1, 20).span;
    Some([(first.lo, first.hi), (second.lo, second.hi)])
}

fn are_cut(rt: &impl Abort, timelines: &[&Timeline; 2]) {
    let all = first_parts(timelines, &[]);
    assert!(rt; all == Some([(4, 4), (5, 8)]));
    let some = first_parts(timelines, &[Asked::These(&[1])]);
    assert!(rt; some == Some([(4, 11), (12, 20)]));
}

#[test]
fn common_parts_are_cut_by_what_is_asked(rt: HostRuntime) -> Result<(), Fail> {
    let turned = turned(rt.alloc())?;
    let written = written(rt.alloc())?;
    are_cut(&rt, &[&turned, &written]);
    Ok(())
}
