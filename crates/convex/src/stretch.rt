//! The ticks at which a convex function is at most a limit.
ghost use Rattle.std.specs.Prelude.{◌≤◌, ◌-◌, option_to_list};
ghost use Rattle.tick_set.specs.Runs.{IsRuns};
ghost use Rattle.convex.specs.Stretch.{is_low};

use crate::Convex;
use crate::ends::ends_of;
use tick_set::{Span, Window};

/// The ticks of the window at which the function is at most the limit; it is the function of the ticks that have
/// passed since the window's first. They are one span, None exactly where there is none.
///
/// It takes no memory. It asks for the values at both ends of the window; where one of them or both are above the
/// limit, it goes on by halves, and asks for at most four values for each.
pub fn at_most<C: Convex>(f: &C, limit: i128, w: Window) -> Option<Span>
    requires { w.hi - w.lo ≤ C.reach f.now }
    ensures { IsRuns (is_low (C.value f.now) limit w) (option_to_list result) }
{
    let (first, end) = ends_of(f, limit, w.hi - w.lo)?;
    Some(Span {
        lo: w.lo + first,
        hi: w.lo + end,
    })
}
