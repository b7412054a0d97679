//! How long the first slice of time is.
ghost use Rattle.std.specs.Prelude.{◌≡◌, ◌≤◌, IfOk};

use crate::aim::Aim;
use crate::course::Course;
use crate::slices::halves;
use crate::thinning::thinned;
use std::alloc::{AllocError, Global};
use tick_set::Window;

/// A slice at the window's begin, so long that few of the objects may be near in it. How many that are, a sample of them
/// tells, so nothing is promised of it. It is the whole window where there are too few objects for a sample.
pub fn first_slice(
    alloc: Global,
    courses: &[Course],
    aim: &Aim,
    w: Window,
) -> Result<Window, AllocError>
    ensures begins { IfOk result (λ first. first.lo ≡ w.lo) }
    ensures ends { IfOk result (λ first. first.hi ≤ w.hi) }
{
    let sample = sample_of(alloc, courses, aim.k)?;
    let mut slice = w;
    let mut crowded = is_crowded(alloc, &sample, aim, slice)?;
    'halving: while crowded && slice.lo < slice.hi {
        let (first, _) = halves(slice);
        slice = first;
        crowded = is_crowded(alloc, &sample, aim, slice)?;
    }
    Ok(slice)
}

// Some of the courses, as far apart from each other. None where that would be more than an eighth of them.
fn sample_of<'a>(
    alloc: Global,
    courses: &[Course<'a>],
    k: u32,
) -> Result<Vec<Course<'a>>, AllocError> {
    let step = courses.len() as u64 / (32 * u64::from(k) + 64);
    if step < 8 {
        return Ok(Vec::new(alloc));
    }
    let mut sample = Vec::new(alloc);
    'courses: for c in courses.iter().step_by(step as usize) {
        sample.push(*c)?;
    }
    Ok(sample)
}

// Whether more than half of the objects may be near in the slice.
fn is_crowded(
    alloc: Global,
    courses: &[Course],
    aim: &Aim,
    slice: Window,
) -> Result<bool, AllocError> {
    let few = thinned(alloc, courses, aim, slice)?;
    Ok(courses.len() < few.len().saturating_mul(2))
}
