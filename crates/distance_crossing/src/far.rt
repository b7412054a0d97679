//! Whether two motions keep further apart than a distance on one axis, told by the two ends of a window alone.
ghost use Rattle.std.specs.Prelude.{◌≡◌, ℕ, ◌*◌, ◌≤◌, ◌&&◌, true, pos, ◌+ℤ◌, ◌-ℤ◌, ◌*ℤ◌, ◌≤ℤ◌, ◌<ℤ◌, int_lt};
ghost use Rattle.fixed_point.specs.Sizes.{IsFixDifference, IsSlopeDifference};
ghost use Rattle.geometry.specs.Plane.{square};
ghost use Rattle.linear_crossing.specs.Moving.{distance_after};
ghost use Rattle.distance_crossing.specs.Far.{pass_by, stays_past};

use fixed_point::{Fix, Slope};
use geometry::apart;
use linear_crossing::Line;

/// Whether the motions are further apart than `c` on one axis, and on one side of each other, both at a window's
/// first tick and `last` ticks after it. Their difference on an axis changes by the same at each tick, so it is past
/// `c` at each tick between too, and the distance is no less than that difference.
#[inline]
pub fn pass_by(p: &Line, q: &Line, c: Fix, last: u32) -> bool
    ensures value { result ≡ pass_by c p.now q.now last }
    ensures far { result ≡ true → pos 0 ≤ℤ c → (k : ℕ) → k ≤ last → square c <ℤ distance_after p.now q.now k }
{
    stays_past(p.at.x, q.at.x, p.dx, q.dx, c, last)
        || stays_past(p.at.y, q.at.y, p.dy, q.dy, c, last)
}

// Whether the second of two coordinates is past the first one by more than `c`, on one side, both where they begin
// and `last` ticks later.
#[inline]
fn stays_past(from: Fix, to: Fix, from_step: Slope, to_step: Slope, c: Fix, last: u32) -> bool
    ensures { result ≡ stays_past c (to -ℤ from) (to_step -ℤ from_step) last }
{
    let start = apart(to, from);
    let end = later(start, step_apart(to_step, from_step), last);
    let limit = c.raw();
    are_above(limit, start, end) || are_below(-limit, start, end)
}

// The first change per tick less the second.
#[inline]
fn step_apart(a: Slope, b: Slope) -> i64
    ensures value { result ≡ a -ℤ b }
    ensures size { IsSlopeDifference result }
{
    a.raw() - b.raw()
}

// A difference of coordinates so many ticks later.
#[inline]
fn later(start: i64, step: i64, ticks: u32) -> i64
    requires start_size { IsFixDifference start }
    requires step_size { IsSlopeDifference step }
    ensures { result ≡ start +ℤ step *ℤ pos ticks }
{
    start + step * i64::from(ticks)
}

#[inline]
fn are_above(c: i64, a: i64, b: i64) -> bool
    ensures { result ≡ (int_lt c a && int_lt c b) }
{
    c < a && c < b
}

#[inline]
fn are_below(c: i64, a: i64, b: i64) -> bool
    ensures { result ≡ (int_lt a c && int_lt b c) }
{
    a < c && b < c
}
