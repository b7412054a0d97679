//! The line along which a point object moves.
ghost use Rattle.std.specs.Prelude.{◌≡◌, ◌<◌, ◌+◌, ◌*◌, ◌-◌, ◌≤◌, ℕ, pos, ◌+ℤ◌, ◌*ℤ◌, unsigned_abs, Some, None, is_some, IfSome, IfNone};
ghost use Rattle.std.specs.Option.{option_copied};
ghost use Rattle.fixed_point.specs.declared.number.TheConstants.{READ_LIMIT, SLOPE_LIMIT};
ghost use Rattle.fixed_point.specs.Sizes.{IsSlope};
ghost use Rattle.geometry.specs.Plane.{point};
ghost use Rattle.motion.specs.Dynamic.{value_at};
ghost use Rattle.motion.specs.Pieces.{AreSteadyCells, IsLinear};
ghost use Rattle.linear_crossing.specs.Moving.{IsInReach, position_after};
ghost use Rattle.linear_crossing.specs.declared.quad.TheConstants.{COORDINATE_LIMIT};
ghost use Rattle.tick_set.specs.Ticks.{IsTick};
ghost use Rattle.courses.specs.Parts.{piece_count};
ghost use Rattle.courses.specs.Places.{dynamic_at, place_at, place_of, tells_line_from, IsPlaceSteady};

use fixed_point::{Fix, Point, Slope};
use linear_crossing::Line;
use motion::{Cell, Epoch, Timeline, Vector};
use tick_set::Span;

/// The line along which a point object moves in the ticks of the span, in which the epoch is in force and
/// its dynamic attributes are steady. It begins at the place at `span.lo`, so it stands for no other first
/// tick. None exactly where the object is absent, or one of its first two attributes isn't dynamic.
pub fn line_from(epoch: &Epoch, span: Span) -> Option<Line>
    requires { AreSteadyCells epoch.now span.lo span.hi }
    ensures reach { IfSome result IsInReach }
    ensures places { IfSome result (λ l. (t : ℕ) → span.lo ≤ t → t ≤ span.hi
        → place_of epoch.now t ≡ Some (position_after l (t - span.lo))) }
    ensures none { IfNone result ((t : ℕ) → place_of epoch.now t ≡ None) }
{
    place_line(epoch, span)
}

/// As [`line_from`], where of the epoch's dynamic attributes the first two are steady in the ticks of the span, and the others
/// may turn.
pub fn place_line(epoch: &Epoch, span: Span) -> Option<Line>
    requires { IsPlaceSteady epoch.now span.lo span.hi }
    ensures reach { IfSome result IsInReach }
    ensures places { IfSome result (λ l. (t : ℕ) → span.lo ≤ t → t ≤ span.hi
        → place_of epoch.now t ≡ Some (position_after l (t - span.lo))) }
    ensures none { IfNone result ((t : ℕ) → place_of epoch.now t ≡ None) }
{
    let x = vector(epoch, 0)?;
    let y = vector(epoch, 1)?;
    Some(line(x, y, span))
}

/// The line along which a point object moves throughout the span, where its timeline tells it at once: the last epoch is in
/// force from the first tick on, and the object's first two attributes have one leg each. None exactly where the timeline
/// tells no line, or its last epoch begins after `span.lo`.
#[inline(always)]
pub fn straight_line(timeline: &Timeline, span: Span) -> Option<Line>
    ensures reach { IfSome result IsInReach }
    ensures places { IfSome result (λ l. (t : ℕ) → span.lo ≤ t → t ≤ span.hi
        → place_at timeline.now t ≡ Some (position_after l (t - span.lo))) }
    ensures exact { is_some result ≡ tells_line_from timeline.now span.lo }
    ensures counted { IfSome result (λ l. 0 < piece_count timeline.now span.lo span.hi) }
{
    let line = timeline.straight()?;
    if span.lo < line.from {
        return None;
    }
    Some(Line {
        at: Point {
            x: value_after(line.x, line.dx, line.from, span.lo),
            y: value_after(line.y, line.dy, line.from, span.lo),
        },
        dx: line.dx,
        dy: line.dy,
    })
}

// The value at tick `to` of what moves by one slope, and has the value `start` at tick `from`.
#[inline(always)]
fn value_after(start: Fix, slope: Slope, from: u32, to: u32) -> Fix
    requires order { from ≤ to }
    requires tick { IsTick to }
    requires near { unsigned_abs start ≤ READ_LIMIT + SLOPE_LIMIT * from }
    ensures value { result ≡ start +ℤ slope *ℤ pos (to - from) }
    ensures reach { unsigned_abs result ≤ COORDINATE_LIMIT }
{
    Fix::of(start.raw() + rise(slope, to - from)).unwrap()
}

// How far a slope rises in these ticks, in thousandths.
#[inline(always)]
fn rise(slope: Slope, ticks: u32) -> i64
    requires { IsTick ticks }
    ensures value { result ≡ slope *ℤ pos ticks }
    ensures in_range { IsSlope slope }
{
    slope.raw() * i64::from(ticks)
}

// The dynamic attribute of an index.
#[inline(always)]
fn vector(epoch: &Epoch, index: usize) -> Option<&Vector>
    ensures value { option_copied result ≡ dynamic_at epoch.now index }
    ensures written { IfSome result (λ v. v.now.updatetime ≤ epoch.now.from) }
{
    match epoch.cell(index)? {
        Cell::Dyn(vector) => Some(vector),
        _ => None,
    }
}

// The line of two attributes that move by one slope each in the ticks of the span.
fn line(x: &Vector, y: &Vector, span: Span) -> Line
    requires x_steady { IsLinear x.now span.lo span.hi }
    requires y_steady { IsLinear y.now span.lo span.hi }
    ensures reach { IsInReach result }
    ensures places { (t : ℕ) → span.lo ≤ t → t ≤ span.hi
        → point (value_at x.now t) (value_at y.now t) ≡ position_after result (t - span.lo) }
{
    Line {
        at: Point {
            x: x.at(span.lo),
            y: y.at(span.lo),
        },
        dx: x.slope_at(span.lo),
        dy: y.slope_at(span.lo),
    }
}
