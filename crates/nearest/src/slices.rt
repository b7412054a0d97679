//! The slices of time.
ghost use Rattle.std.specs.Prelude.{◌≡◌, ◌+◌, ◌<◌, ◌≤◌, ◌&&◌, ℕ, IfOk, OnOk, length};
ghost use Rattle.tick_set.specs.Runs.{spans_have};
ghost use Rattle.tick_set.specs.Ticks.{within};
ghost use Rattle.nearest.specs.Courses.{AreNumbered, HaveAscendingIndexes, index_near};
ghost use Rattle.nearest.specs.Found.{AreBefore, FitSlice, HaveMore, runs_at};
ghost use Rattle.exact.specs.Lists.{SameLength};

use crate::aim::Aim;
use crate::course::Course;
use crate::found::none_found;
use crate::growing::add_growing;
use crate::slice::add_near;
use crate::thinning::thinned;
use std::alloc::{AllocError, Global};
use tick_set::{Runs, Window};

/// The ticks of the window at which the objects of the courses are near, by their indexes.
pub fn near_runs(
    alloc: Global,
    courses: &[Course],
    aim: &Aim,
    w: Window,
) -> Result<Vec<Runs>, AllocError>
    requires { AreNumbered 0 courses.now }
    ensures length { IfOk result (λ found. SameLength found.items courses.now) }
    ensures found { IfOk result (λ found. (i t : ℕ) → i < length courses.now → spans_have (runs_at found.items i) t
        ≡ (within w.lo w.hi t && index_near aim.now.target.now courses.now aim.now.k courses.now i t)) }
{
    let mut found = none_found(alloc, courses.len())?;
    let mut left = cost_of_pairs(courses.len());
    let until = add_growing(&mut found, alloc, courses, aim, w, &mut left)?;
    if w.hi < until {
        return Ok(found);
    }
    let rest = Window {
        lo: until,
        hi: w.hi,
    };
    add_rest(&mut found, alloc, courses, aim, rest)?;
    Ok(found)
}

// How many looks at objects cost as much as all pairs of so many.
fn cost_of_pairs(count: usize) -> u64 {
    let count = count as u64;
    count.saturating_mul(count)
}

/// Adds what is found in the slice, slice by slice, up to the tick that is told: that is past the slice, or not where the
/// cost that is left is spent.
pub fn add_slices(
    found: &mut Vec<Runs>,
    alloc: Global,
    courses: &[Course],
    aim: &Aim,
    slice: Window,
    left: &mut u64,
) -> Result<u32, AllocError>
    requires ascending { HaveAscendingIndexes 0 (length found.old.items) courses.now }
    requires before { AreBefore slice.lo found.old.items }
    ensures length { SameLength found.new.items found.old.items }
    ensures bounds { IfOk result (λ until. (slice.lo ≤ until) × (until ≤ slice.hi + 1)) }
    ensures found { IfOk result (λ until. HaveMore aim.now.target.now courses.now aim.now.k slice.lo until found.old.items found.new.items) }
{
    let few = thinned(alloc, courses, aim, slice)?;
    spend(left, courses.len() as u64);
    if is_few(few.len(), aim.k) || slice.lo == slice.hi {
        let done = add_slice(found, alloc, &few, aim, slice, left)?;
        return Ok(done);
    }
    let (first, second) = halves(slice);
    let reached = add_slices(found, alloc, &few, aim, first, left)?;
    if reached <= first.hi {
        return Ok(reached);
    }
    let until = add_slices(found, alloc, &few, aim, second, left)?;
    Ok(until)
}

/// The first half of the ticks, and the others.
pub fn halves(slice: Window) -> (Window, Window)
    requires { slice.lo < slice.hi }
    ensures begins { result.0.lo ≡ slice.lo }
    ensures meets { result.1.lo ≡ result.0.hi + 1 }
    ensures ends { result.1.hi ≡ slice.hi }
{
    let middle = slice.lo + (slice.hi - slice.lo) / 2;
    let first = Window {
        lo: slice.lo,
        hi: middle,
    };
    let second = Window {
        lo: middle + 1,
        hi: slice.hi,
    };
    (first, second)
}

// Whether a slice with so many objects is not halved.
fn is_few(count: usize, k: u32) -> bool {
    count as u64 <= u64::from(k) + u64::from(k) / 2 + 8
}

fn spend(left: &mut u64, cost: u64) {
    *left = left.saturating_sub(cost);
}

// Adds what is found in the slice by all pairs of the courses, if the cost that is left is enough for these.
fn add_slice(
    found: &mut Vec<Runs>,
    alloc: Global,
    courses: &[Course],
    aim: &Aim,
    slice: Window,
    left: &mut u64,
) -> Result<u32, AllocError>
    requires { FitSlice aim.now.target.now slice courses.now found.old.items }
    ensures length { SameLength found.new.items found.old.items }
    ensures bounds { IfOk result (λ until. (slice.lo ≤ until) × (until ≤ slice.hi + 1)) }
    ensures found { IfOk result (λ until. HaveMore aim.now.target.now courses.now aim.now.k slice.lo until found.old.items found.new.items) }
{
    let cost = cost_of_pairs(courses.len());
    if *left < cost {
        return Ok(slice.lo);
    }
    spend(left, cost);
    add_near(found, alloc, courses, aim, slice)?;
    Ok(slice.hi + 1)
}

// Adds what is found in the slice by all pairs.
fn add_rest(
    found: &mut Vec<Runs>,
    alloc: Global,
    courses: &[Course],
    aim: &Aim,
    slice: Window,
) -> Result<(), AllocError>
    requires ascending { HaveAscendingIndexes 0 (length found.old.items) courses.now }
    requires before { AreBefore slice.lo found.old.items }
    ensures length { SameLength found.new.items found.old.items }
    ensures found { OnOk result
        (HaveMore aim.now.target.now courses.now aim.now.k slice.lo (slice.hi + 1) found.old.items found.new.items) }
{
    let few = thinned(alloc, courses, aim, slice)?;
    add_near(found, alloc, &few, aim, slice)?;
    Ok(())
}
