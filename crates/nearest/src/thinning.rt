//! The objects that suffice in a slice of time.
ghost use Rattle.std.specs.Prelude.{◌≡◌, ◌+◌, ◌≤◌, ℕ, pos, int_le, All, IfOk, IfSome, OnOk, count_by, map};
ghost use Rattle.std.specs.List.{filter};
ghost use Rattle.std.specs.List.Sorted.{IsNonDecreasing};
ghost use Rattle.nearest.specs.Courses.{HaveAscendingIndexes};
ghost use Rattle.nearest.specs.Depth.{count_to, one_if};
ghost use Rattle.nearest.specs.Sights.{AreEnough, IsSeenFrom, course_body, is_surely_within, may_come_within};

use crate::aim::Aim;
use crate::course::Course;
use crate::sight::{Sight, sight_of};
use motion::Timeline;
use std::alloc::{AllocError, Global};
use tick_set::Window;

/// Those of the courses that suffice to tell who is near at the ticks of the slice, with what is seen of each there. Left
/// out are those that are absent, and those that stay farther away than `k` of the others ever are.
pub fn thinned<'a>(
    alloc: Global,
    courses: &[Course<'a>],
    aim: &Aim,
    slice: Window,
) -> Result<Vec<Course<'a>>, AllocError>
    ensures seen { IfOk result (λ few. All (IsSeenFrom aim.now.target.now slice) few.items) }
    ensures ascending { IfOk result (λ few. (n : ℕ) → HaveAscendingIndexes 0 n courses.now → HaveAscendingIndexes 0 n few.items) }
    ensures enough { IfOk result (λ few. AreEnough aim.now.target.now aim.now.k slice few.items courses.now) }
{
    let seen = seen_in(alloc, courses, aim.target, slice)?;
    let bound = bound_of(alloc, &seen, aim.k)?;
    let few = kept(seen, bound);
    Ok(few)
}

// The courses with what is seen of each in the slice.
fn seen_in<'a>(
    alloc: Global,
    courses: &[Course<'a>],
    target: &Timeline,
    slice: Window,
) -> Result<Vec<Course<'a>>, AllocError>
    ensures bodies { IfOk result (λ seen. map course_body seen.items ≡ map course_body courses.now) }
    ensures seen { IfOk result (λ seen. All (IsSeenFrom target.now slice) seen.items) }
{
    let mut seen = Vec::with_capacity(alloc, courses.len())?;
    'courses: for c in courses {
        let now = sight_of(target, c.timeline, slice);
        seen.push(Course {
            id: c.id,
            index: c.index,
            timeline: c.timeline,
            sight: now,
        })?;
    }
    Ok(seen)
}

// A square that `k` of the objects never pass. None tells nothing.
fn bound_of(alloc: Global, seen: &[Course], k: u32) -> Result<Option<u128>, AllocError>
    ensures { IfOk result (λ bound. IfSome bound (λ m. k ≤ count_by (λ c. is_surely_within m c.sight) seen.now)) }
{
    let found = mosts_of(alloc, seen, k)?;
    let mosts = ascending(found);
    Ok(least_of(&mosts, k))
}

// Of the squares that the objects never pass, as far as they are known, the least, as many as `k` if there are so many.
fn mosts_of(alloc: Global, seen: &[Course], k: u32) -> Result<Vec<u128>, AllocError>
    ensures { IfOk result (λ mosts. (m : ℕ) → count_to mosts.items m ≤ count_by (λ c. is_surely_within m c.sight) seen.now) }
{
    let mut mosts = Vec::new(alloc);
    let mut limit = u128::MAX;
    // What isn't below the limit is not among the least.
    'courses: for c in seen {
        add_most(&mut mosts, &c.sight, limit)?;
        limit = shorten(&mut mosts, k, limit);
    }
    Ok(mosts)
}

// Adds the square that an object never passes, if that is known and below a limit.
#[inline]
fn add_most(mosts: &mut Vec<u128>, sight: &Sight, limit: u128) -> Result<(), AllocError>
    ensures { OnOk result ((m : ℕ) → count_to mosts.new.items m
        ≤ count_to mosts.old.items m + one_if (is_surely_within m sight.now)) }
{
    if let Sight::Straight(band) = sight
        && band.most < limit
    {
        mosts.push(band.most)?;
    }
    Ok(())
}

// Leaves the least numbers alone, as many as `k`, where there are many more, and tells the limit that the next ones have.
fn shorten(mosts: &mut Vec<u128>, k: u32, limit: u128) -> u128
    ensures { (m : ℕ) → count_to mosts.new.items m ≤ count_to mosts.old.items m }
{
    if (mosts.len() as u64) < 2 * u64::from(k) + 8 {
        return limit;
    }
    mosts.sort_unstable();
    mosts.truncate(k as usize);
    last_of(mosts)
}

fn last_of(numbers: &[u128]) -> u128 {
    match numbers.last() {
        Some(number) => *number,
        None => 0,
    }
}

// The same numbers, ascending.
fn ascending(numbers: Vec<u128>) -> Vec<u128>
    ensures sorted { IsNonDecreasing result.items }
    ensures counts { (m : ℕ) → count_to result.items m ≡ count_to numbers.items m }
{
    let mut numbers = numbers;
    numbers.sort_unstable();
    numbers
}

// The number that as many as `k` are at most. None where there are fewer than `k`, or `k` is 0.
fn least_of(ascending: &[u128], k: u32) -> Option<u128>
    requires { IsNonDecreasing ascending.now }
    ensures { IfSome result (λ m. k ≤ count_to ascending.now m) }
{
    let count = k as usize;
    if count == 0 || ascending.len() < count {
        return None;
    }
    Some(ascending[count - 1])
}

// The courses without those that are absent or stay past the bound.
fn kept<'a>(seen: Vec<Course<'a>>, bound: Option<u128>) -> Vec<Course<'a>>
    ensures { result.items ≡ filter (λ c. may_come_within bound c.sight) seen.entry.items }
{
    let mut few = seen;
    few.retain(|c| is_kept(&c.sight, bound));
    few
}

/// Whether an object may come within the bound.
pub fn is_kept(sight: &Sight, bound: Option<u128>) -> bool
    ensures { result ≡ may_come_within bound sight.now }
{
    match sight {
        Sight::Straight(band) => match bound {
            Some(most) => is_at_most(band.least, most),
            None => true,
        },
        Sight::Absent => false,
        Sight::Unknown => true,
    }
}

fn is_at_most(least: i128, most: u128) -> bool
    ensures { result ≡ int_le least (pos most) }
{
    least <= 0 || least.unsigned_abs() <= most
}
