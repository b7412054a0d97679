//! The line along which an object moves throughout the window, as most do.
ghost use Rattle.std.specs.Prelude.{◌≡◌, ◌-◌, ◌<◌, ◌≤◌, ℕ, Some, IfSome, slice_get};
ghost use Rattle.std.specs.Option.{option_copied};
ghost use Rattle.courses.specs.Parts.{epochs_of_each, pieces_of_all};
ghost use Rattle.linear_crossing.specs.Moving.{IsInReach, position_after};
ghost use Rattle.meaning.specs.Atom.{position_in};
ghost use Rattle.atoms.specs.Parts.{beside, trace_by};

use crate::parts::Traces;
use courses::straight_line;
use linear_crossing::Line;
use motion::Timeline;

/// The line along which the object of a variable moves throughout the window. None tells nothing.
#[inline(always)]
pub fn line_of(v: u8, traces: &Traces) -> Option<Line>
    ensures reach { IfSome result IsInReach }
    ensures places { IfSome result (λ l. (t : ℕ) → traces.now.w.lo ≤ t → t ≤ traces.now.w.hi
        → position_in t (trace_by traces.now.variables.now (epochs_of_each traces.now.timelines.now) v t) ≡ Some (position_after l (t - traces.now.w.lo))) }
    ensures counted { IfSome result (λ l. 0 < pieces_of_all (epochs_of_each traces.now.timelines.now) traces.now.w.lo traces.now.w.hi) }
{
    let timeline = timeline_of(v, traces.variables, traces.timelines)?;
    straight_line(timeline, traces.w.span())
}

/// The timeline of a variable.
#[inline(always)]
pub fn timeline_of<'a>(v: u8, variables: &[u8], timelines: &[&'a Timeline]) -> Option<&'a Timeline>
    ensures { option_copied result ≡ beside variables.now (epochs_of_each timelines.now) v }
{
    for k in 0..variables.len() {
        if variables[k] == v {
            return timeline_at(timelines, k);
        }
    }
    None
}

#[inline(always)]
fn timeline_at<'a>(timelines: &[&'a Timeline], place: usize) -> Option<&'a Timeline>
    ensures { option_copied result ≡ slice_get (epochs_of_each timelines.now) place }
{
    timelines.get(place).copied()
}
