//! The line along which an object moves from its last epoch on.
ghost use Rattle.std.specs.Prelude.{◌≡◌, ◌≤◌, [], IfSome, Some, is_some, slice_get};
ghost use Rattle.motion.specs.declared.cell.Cell.TheVariants as cells;
ghost use Rattle.motion.specs.Timeline.{IsRising, cells_of};
ghost use Rattle.motion.specs.Straight.{IsStraightOf, MovesFrom, moves_by_one_leg, tells_line};

use crate::cell::Cell;
use crate::epoch::Epoch;
use crate::vector::Vector;
use fixed_point::{Fix, Slope};

/// The line along which the first two attributes move from a tick on: their values at that tick in
/// thousandths, and their slopes in thousandths per tick.
#[derive(Clone, Copy, Debug)]
pub struct Straight {
    pub from: u32,
    pub x: Fix,
    pub y: Fix,
    pub dx: Slope,
    pub dy: Slope,
}

/// The line that the last of these epochs tells. None exactly where there is no epoch, the object is
/// absent then, or one of its first two attributes isn't dynamic or has several legs.
pub fn straight_of(epochs: &[Epoch]) -> Option<Straight>
    requires { IsRising epochs.now }
    ensures told { IfSome result (IsStraightOf epochs.now) }
    ensures exact { is_some result ≡ tells_line epochs.now }
{
    let last = epochs.last()?;
    let (x, dx) = motion(last, 0)?;
    let (y, dy) = motion(last, 1)?;
    Some(Straight {
        from: last.from(),
        x,
        y,
        dx,
        dy,
    })
}

/// The value of an attribute at the first tick of an epoch, and the one slope by which it moves from
/// then on. None exactly where it isn't dynamic or has several legs.
fn motion(epoch: &Epoch, index: usize) -> Option<(Fix, Slope)>
    ensures moves { IfSome result (λ m. MovesFrom epoch.now index epoch.now.from m.0 m.1) }
    ensures exact { is_some result ≡ moves_by_one_leg epoch.now index }
{
    let vector = one_leg(epoch, index)?;
    Some((vector.at(epoch.from()), vector.function().last()))
}

/// The dynamic attribute of an index. None exactly where there is none, or its function has several legs.
fn one_leg(epoch: &Epoch, index: usize) -> Option<&Vector>
    ensures cell { IfSome result (λ v. slice_get (cells_of epoch.now) index ≡ Some (cells.Dyn v.now)) }
    ensures written { IfSome result (λ v. v.now.updatetime ≤ epoch.now.from) }
    ensures one { IfSome result (λ v. v.now.function.firsts ≡ []) }
    ensures exact { is_some result ≡ moves_by_one_leg epoch.now index }
{
    match epoch.cell(index)? {
        Cell::Dyn(vector) if vector.function().firsts().is_empty() => Some(vector),
        _ => None,
    }
}
