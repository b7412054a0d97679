//! Slices of time that grow.
ghost use Rattle.std.specs.Prelude.{◌≡◌, ◌+◌, ◌≤◌, IfOk, length};
ghost use Rattle.tick_set.specs.Ticks.{IsTick};
ghost use Rattle.nearest.specs.Courses.{HaveAscendingIndexes};
ghost use Rattle.nearest.specs.Found.{AreBefore, HaveMore};
ghost use Rattle.exact.specs.Lists.{SameLength};

use crate::aim::Aim;
use crate::course::Course;
use crate::outset::first_slice;
use crate::slices::add_slices;
use std::alloc::{AllocError, Global};
use tick_set::{Runs, Window};

/// Adds what is found in the window, up to the tick that is told: that is past the window, or not where the cost that is
/// left is spent. It goes by slices each of which is twice as long as the one before.
pub fn add_growing(
    found: &mut Vec<Runs>,
    alloc: Global,
    courses: &[Course],
    aim: &Aim,
    w: Window,
    left: &mut u64,
) -> Result<u32, AllocError>
    requires ascending { HaveAscendingIndexes 0 (length found.old.items) courses.now }
    requires before { AreBefore w.lo found.old.items }
    ensures length { SameLength found.new.items found.old.items }
    ensures bounds { IfOk result (λ until. (w.lo ≤ until) × (until ≤ w.hi + 1)) }
    ensures found { IfOk result (λ until. HaveMore aim.now.target.now courses.now aim.now.k w.lo until found.old.items found.new.items) }
{
    let first = first_slice(alloc, courses, aim, w)?;
    let mut more = first.hi - first.lo;
    let mut at = w.lo;
    'growing: while at <= w.hi {
        let slice = slice_from(at, more, w.hi);
        let until = add_slices(found, alloc, courses, aim, slice, left)?;
        if until <= slice.hi {
            return Ok(until);
        }
        at = until;
        more = more.saturating_add(more);
    }
    Ok(at)
}

// The slice from a tick on, with as many more ticks, if there are so many up to the last one.
fn slice_from(at: u32, more: u32, last: u32) -> Window
    requires order { at ≤ last }
    requires tick { IsTick last }
    ensures begins { result.lo ≡ at }
    ensures ends { result.hi ≤ last }
{
    Window {
        lo: at,
        hi: at.saturating_add(more).min(last),
    }
}
