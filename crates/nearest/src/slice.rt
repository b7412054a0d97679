//! The ticks of one slice of time at which objects are near.
ghost use Rattle.std.specs.Prelude.{◌≡◌, ◌+◌, ◌&&◌, ℕ, nat_lt, All, IfOk, OnOk, length};
ghost use Rattle.tick_set.specs.Runs.{IsRuns, spans_have};
ghost use Rattle.tick_set.specs.Ticks.{within};
ghost use Rattle.nearest.specs.Courses.{is_near_along, rank_along};
ghost use Rattle.nearest.specs.Found.{FitSlice, HaveMore};
ghost use Rattle.nearest.specs.Sights.{AreFewWithin, IsSeenFrom};
ghost use Rattle.exact.specs.Lists.{SameLength};

use crate::aim::Aim;
use crate::certain::sure_bound;
use crate::course::Course;
use crate::found::append_at;
use crate::pairs::gather;
use crate::placed::placed_runs;
use crate::rivals::Rivals;
use crate::sweep::ticks_below;
use interval_set::IntervalSet;
use std::alloc::{AllocError, Global};
use tick_set::{Runs, Span, TickSet, Window};

/// Adds the ticks of the slice at which each of the courses' objects is near among them, to the runs of its index.
pub fn add_near(
    found: &mut Vec<Runs>,
    alloc: Global,
    courses: &[Course],
    aim: &Aim,
    slice: Window,
) -> Result<(), AllocError>
    requires { FitSlice aim.now.target.now slice courses.now found.old.items }
    ensures length { SameLength found.new.items found.old.items }
    ensures found { OnOk result
        (HaveMore aim.now.target.now courses.now aim.now.k slice.lo (slice.hi + 1) found.old.items found.new.items) }
{
    let mut stretches = Vec::new(alloc);
    let sure = sure_bound(alloc, courses, aim.k)?;
    let rivals = Rivals { courses, sure };
    'objects: for o in courses {
        let ticks = near_ticks(alloc, &mut stretches, &rivals, o, aim, slice)?;
        append_at(found, o.index, ticks.spans())?;
    }
    Ok(())
}

// The ticks of the slice at which one of the objects is near: it has a place, as the object that is aimed from has, and
// fewer than `k` of its rivals stand before it.
fn near_ticks(
    alloc: Global,
    stretches: &mut Vec<Span>,
    rivals: &Rivals,
    o: &Course,
    aim: &Aim,
    slice: Window,
) -> Result<IntervalSet, AllocError>
    requires seen { All (IsSeenFrom aim.now.target.now slice) rivals.now.courses.now }
    requires o_seen { IsSeenFrom aim.now.target.now slice o.now }
    requires sure { AreFewWithin aim.now.k rivals.now.sure rivals.now.courses.now }
    ensures { IfOk result (λ ticks. (t : ℕ) → spans_have ticks t
        ≡ (within slice.lo slice.hi t && is_near_along aim.now.target.now rivals.now.courses.now aim.now.k o.now t)) }
{
    let below = few_before(alloc, stretches, rivals, o, aim, slice)?;
    let few = IntervalSet::from_runs(below);
    if o.sight.is_straight() {
        return Ok(few);
    }
    let there = placed_runs(alloc, aim.target, o.timeline, slice)?;
    let placed = IntervalSet::from_runs(there);
    let both = few.meet(alloc, &placed)?;
    Ok(both)
}

// The ticks of the slice at which fewer than `k` of the rivals stand before one of the objects. The stretches are for the
// memory that they have.
fn few_before(
    alloc: Global,
    stretches: &mut Vec<Span>,
    rivals: &Rivals,
    o: &Course,
    aim: &Aim,
    slice: Window,
) -> Result<Vec<Span>, AllocError>
    requires seen { All (IsSeenFrom aim.now.target.now slice) rivals.now.courses.now }
    requires o_seen { IsSeenFrom aim.now.target.now slice o.now }
    requires sure { AreFewWithin aim.now.k rivals.now.sure rivals.now.courses.now }
    ensures { IfOk result (λ runs. IsRuns (λ t. within slice.lo slice.hi t
        && nat_lt (rank_along aim.now.target.now rivals.now.courses.now o.now t) aim.now.k) runs.items) }
{
    stretches.clear();
    let throughout = gather(stretches, rivals, o, aim, slice)?;
    let runs = ticks_below(alloc, stretches, aim.k.saturating_sub(throughout), slice)?;
    Ok(runs)
}
