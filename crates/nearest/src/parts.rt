//! The common parts of the timelines of two objects and of the one that they are seen from.
ghost use Rattle.std.specs.Prelude.{◌≡◌, ◌-◌, ◌≤◌, ◌&&◌, ℕ, IfSome, option_map};
ghost use Rattle.linear_crossing.specs.Moving.{IsInReach, position_after};
ghost use Rattle.linear_crossing.specs.Zones.{spans_of};
ghost use Rattle.nearness.specs.Nearest.{stands_before};
ghost use Rattle.tick_set.specs.Ticks.{within};
ghost use Rattle.nearest.specs.Courses.{squared_in};
ghost use Rattle.nearest.specs.Depth.{depth_at, one_if};
ghost use Rattle.nearest.specs.Order.{separation_after};
ghost use Rattle.courses.specs.CommonParts.{IsSteadyPart, place_in};

use crate::nearer::nearer;
use crate::squares::Separation;
use courses::{Common, line_from};
use linear_crossing::{Line, Pair};
use object_store::ObjectId;

/// The ticks of the part at which the object of its second timeline stands before that of its third, as seen from that
/// of its first.
pub fn before_in(common: &Common, first: ObjectId, second: ObjectId) -> Pair
    requires { IsSteadyPart common.now }
    ensures { (t : ℕ) → depth_at (spans_of result) t ≡ one_if (within common.now.span.lo common.now.span.hi t
        && stands_before (squared_in common.now 1 t) first (squared_in common.now 2 t) second) }
{
    match separation_in(common, 1) {
        Some(of_first) => match separation_in(common, 2) {
            Some(of_second) => nearer(&of_first, &of_second, first < second, common.span.window()),
            None => Pair::single(None),
        },
        None => Pair::single(None),
    }
}

/// The separation of the object of the timeline of an index, in the part. None where one of the two has no place.
pub fn separation_in(common: &Common, index: usize) -> Option<Separation>
    requires { IsSteadyPart common.now }
    ensures { (t : ℕ) → common.now.span.lo ≤ t → t ≤ common.now.span.hi
        → squared_in common.now index t ≡ option_map (λ s. separation_after s (t - common.now.span.lo)) result }
{
    let from = line_in(common, 0)?;
    let to = line_in(common, index)?;
    Some(Separation::between(&from, &to))
}

// The line along which the object of the timeline of an index moves in the part. None where it has no place.
fn line_in(common: &Common, index: usize) -> Option<Line>
    requires { IsSteadyPart common.now }
    ensures reach { IfSome result IsInReach }
    ensures places { (t : ℕ) → common.now.span.lo ≤ t → t ≤ common.now.span.hi
        → place_in common.now index t ≡ option_map (λ l. position_after l (t - common.now.span.lo)) result }
{
    line_from(common.epoch(index)?, common.span)
}
