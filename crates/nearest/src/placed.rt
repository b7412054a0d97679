//! The ticks at which two objects have places.
ghost use Rattle.std.specs.Prelude.{◌&&◌, is_some, IfOk};
ghost use Rattle.tick_set.specs.Runs.{IsRuns};
ghost use Rattle.tick_set.specs.Ticks.{within};
ghost use Rattle.nearest.specs.Courses.{squared_along};

use crate::parts::separation_in;
use crate::sweep::stretch_where;
use courses::common_from;
use motion::Timeline;
use std::alloc::{AllocError, Global};
use tick_set::{Runs, Span, Window};

/// The ticks of the window at which the objects of two timelines have places.
pub fn placed_runs(
    alloc: Global,
    from: &Timeline,
    to: &Timeline,
    w: Window,
) -> Result<Vec<Span>, AllocError>
    ensures { IfOk result (λ runs. IsRuns (λ t. within w.lo w.hi t
        && is_some (squared_along from.now to.now t)) runs.items) }
{
    let timelines = [from, to];
    let mut runs = Runs::new(alloc);
    let mut at = w.lo;
    'joining: while at <= w.hi {
        let common = common_from(&timelines, at, w.hi);
        let placed = separation_in(&common, 1).is_some();
        let next = common.span.hi + 1;
        runs.append(stretch_where(placed, at, next))?;
        at = next;
    }
    Ok(runs.finish())
}
