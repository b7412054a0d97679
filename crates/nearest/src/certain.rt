//! The objects that are near throughout a slice of time.
ghost use Rattle.std.specs.Prelude.{◌≡◌, ◌<◌, true, IfOk, Some, count_by};
ghost use Rattle.nearest.specs.Sights.{AreFewWithin, may_come_within, never_passes};

use crate::course::Course;
use crate::sight::Sight;
use crate::thinning::is_kept;
use std::alloc::{AllocError, Global};

/// A square within which fewer than `k` of the objects may come: who never passes it is near throughout. None tells nothing.
pub fn sure_bound(alloc: Global, courses: &[Course], k: u32) -> Result<Option<u128>, AllocError>
    ensures { IfOk result (λ sure. AreFewWithin k sure courses.now) }
{
    let mut leasts = leasts_of(alloc, courses)?;
    leasts.sort_unstable();
    let bound = before_last(&leasts, k);
    if are_few_within(courses, bound, k) {
        return Ok(Some(bound));
    }
    Ok(None)
}

/// Whether an object never passes the bound.
pub fn stays_within(sight: &Sight, bound: Option<u128>) -> bool
    ensures { result ≡ never_passes bound sight.now }
{
    match bound {
        Some(most) => match sight {
            Sight::Straight(band) => band.most <= most,
            Sight::Absent => false,
            Sight::Unknown => false,
        },
        None => false,
    }
}

// The least square that each of the objects may have.
fn leasts_of(alloc: Global, courses: &[Course]) -> Result<Vec<u128>, AllocError> {
    courses.iter().map(|c| least_of(&c.sight)).collect(alloc)
}

fn least_of(sight: &Sight) -> u128 {
    match sight {
        Sight::Straight(band) => band.least.max(0).unsigned_abs(),
        Sight::Absent => u128::MAX,
        Sight::Unknown => 0,
    }
}

// The number before the one that comes `k`th in this order, which fewer than `k` are at most.
fn before_last(ascending: &[u128], k: u32) -> u128 {
    match ascending.get((k as usize).saturating_sub(1)) {
        Some(number) => number.saturating_sub(1),
        None => u128::MAX,
    }
}

// Whether fewer than `k` of the objects may come within the bound.
fn are_few_within(courses: &[Course], bound: u128, k: u32) -> bool
    ensures { result ≡ true → count_by (λ c. may_come_within (Some bound) c.sight) courses.now < k }
{
    if k == 0 {
        return false;
    }
    let mut left = k;
    'courses: for c in courses {
        if is_kept(&c.sight, Some(bound)) {
            left -= 1;
        }
        if left == 0 {
            return false;
        }
    }
    true
}
