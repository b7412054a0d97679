ghost use Rattle.std.specs.Prelude.{◌≡◌, IfOk};
ghost use Rattle.motion.specs.Cells.{IsCellAt};

use fixed_point::{Fix, Slope};
use motion::{Cell, Legs, Piece, Timeline, Vector};
use std::test::Fail;
use tick_set::Window;

fn slope(thousandths: i64) -> Result<Slope, Fail> {
    Ok(Slope::of(thousandths).ok_or("a slope past its range")?)
}

// An attribute that turns 3 and 7 ticks after tick 2, from where on it rests.
fn turning() -> Result<Cell, Fail>
    ensures { IfOk result (λ cell. IsCellAt cell 2) }
{
    let start = Fix::of(0).ok_or("a number past its range")?;
    let firsts = [(slope(1000)?, 3), (slope(2000)?, 4)];
    let legs = Legs::of(&firsts, slope(0)?).ok_or("no such legs")?;
    Ok(Cell::Dyn(Vector::begun(2, start, legs)))
}

const PIECES: &[Option<(u32, u32)>] = &[Some((4, 4)), Some((5, 8)), Some((9, 10)), None];

fn ends_at(pieces: &[Piece], index: usize) -> Option<(u32, u32)> {
    let span = pieces.get(index)?.span;
    Some((span.lo, span.hi))
}

#[test]
fn pieces_end_where_a_leg_ends(rt: HostRuntime) -> Result<(), Fail> {
    let mut timeline = Timeline::new(rt.alloc());
    assert!(rt; timeline.is_empty());
    timeline.begin(2, &[turning()?])?;
    assert_eq!(rt; timeline.len(), 1);
    let window = Window::new(4, 10).ok_or("no such window")?;
    let pieces = timeline.pieces(rt.alloc(), window)?;
    for (index, ends) in PIECES.iter().enumerate() {
        assert_eq!(rt; ends_at(&pieces, index), *ends, "piece {index}");
    }
    Ok(())
}
