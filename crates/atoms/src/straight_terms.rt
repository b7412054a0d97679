//! The course of a term of one factor, whose attribute moves by one slope throughout the window, or rests.
ghost use Rattle.std.specs.Prelude.{◌≡◌, ℕ, ◌-◌, ◌≤◌, pos, ◌+ℤ◌, ◌*ℤ◌, Some, IfSome, IsTrue, option_map, [], ◌∷◌};
ghost use Rattle.courses.specs.Parts.{epochs_of_each};
ghost use Rattle.formula.specs.declared.value.Value.TheVariants as values;
ghost use Rattle.formula_shape.specs.declared.limits.TheConstants.{FACTOR_LIMIT};
ghost use Rattle.linear_crossing.specs.Moving.{IsInReach, position_after};
ghost use Rattle.linear_crossing.specs.Zones.{line_at};
ghost use Rattle.meaning.specs.Value.{cell_in, cell_value, term_value, unit_value};
ghost use Rattle.atoms.specs.Courses.{IsTrendOf, IsUnitCourse, coordinate, course_value, value_along};
ghost use Rattle.atoms.specs.Parts.{trace_by};
ghost use Rattle.atoms.specs.Sizes.{is_sized_term};

use crate::attributes::cell_throughout;
use crate::lines::line_of;
use crate::parts::Traces;
use crate::terms::{
    Course, course_of_cell, course_of_sub, course_of_value, resting, signed, time_from,
};
use crate::trends::Trend;
use fixed_point::{Fix, Slope};
use formula::{Env, RSigned, RTerm, RUnit};
use linear_crossing::Line;

/// How a term goes throughout the window, where it is one number. None tells nothing.
pub fn straight_trend(term: &RTerm, traces: &Traces, env: &Env) -> Option<Trend>
    requires sized { IsTrue (is_sized_term term.now) }
    ensures value { IfSome result (λ trend. (t : ℕ) → traces.now.w.lo ≤ t → t ≤ traces.now.w.hi
        → term_value (trace_by traces.now.variables.now (epochs_of_each traces.now.timelines.now)) term.now env.now t
        ≡ Some (values.Num (line_at trend.rise trend.start traces.now.w.lo t))) }
    ensures small { IfSome result (IsTrendOf FACTOR_LIMIT) }
{
    let factor = only(term.factors.items())?;
    let unit = straight_unit(&factor.unit, traces, env)?;
    match signed(unit, factor)? {
        Course::Number(trend) => Some(trend),
        Course::Text(_) => None,
    }
}

/// The factor of a term that has one.
#[inline]
pub fn only(factors: &[RSigned]) -> Option<&RSigned>
    ensures { IfSome result (λ factor. factors.now ≡ factor.now ∷ []) }
{
    let (first, later) = factors.split_first()?;
    if later.is_empty() { Some(first) } else { None }
}

// The course of a unit throughout the window. None tells nothing.
fn straight_unit(unit: &RUnit, traces: &Traces, env: &Env) -> Option<Course>
    ensures value { IfSome result (λ course. (t : ℕ) → traces.now.w.lo ≤ t → t ≤ traces.now.w.hi
        → unit_value (trace_by traces.now.variables.now (epochs_of_each traces.now.timelines.now)) env.now unit.now t
        ≡ Some (course_value traces.now.w.lo t course)) }
    ensures small { IfSome result IsUnitCourse }
{
    match unit {
        RUnit::Literal(number) => Some(resting(*number)),
        RUnit::Var(depth, _) => Some(course_of_value(&env.get(*depth)?)),
        RUnit::Attr(v, a, _) => straight_attribute(*v, *a, traces),
        RUnit::Sub(v, a, name) => {
            let cell = cell_throughout(*v, *a, traces)?;
            course_of_sub(*name, cell, traces.w.span())
        }
        RUnit::Time => Some(time_from(traces.w.lo)),
        RUnit::Text(_) => None,
    }
}

// The course of an attribute throughout the window. None tells nothing.
fn straight_attribute(v: u8, a: u8, traces: &Traces) -> Option<Course>
    ensures value { IfSome result (λ course. (t : ℕ) → traces.now.w.lo ≤ t → t ≤ traces.now.w.hi
        → option_map (λ cell. cell_value cell t) (cell_in (trace_by traces.now.variables.now (epochs_of_each traces.now.timelines.now) v t) a)
        ≡ Some (course_value traces.now.w.lo t course)) }
    ensures small { IfSome result IsUnitCourse }
{
    match coordinate_of(v, a, traces) {
        Some(course) => Some(course),
        None => {
            let cell = cell_throughout(v, a, traces)?;
            Some(course_of_cell(cell, traces.w.span()))
        }
    }
}

// The course of an attribute that is a coordinate of the line along which its object moves, with no look at the epochs. None
// tells nothing.
#[inline]
fn coordinate_of(v: u8, a: u8, traces: &Traces) -> Option<Course>
    ensures value { IfSome result (λ course. (t : ℕ) → traces.now.w.lo ≤ t → t ≤ traces.now.w.hi
        → option_map (λ cell. cell_value cell t) (cell_in (trace_by traces.now.variables.now (epochs_of_each traces.now.timelines.now) v t) a)
        ≡ Some (course_value traces.now.w.lo t course)) }
    ensures small { IfSome result IsUnitCourse }
{
    if a > 1 {
        return None;
    }
    let line = line_of(v, traces)?;
    coordinate_along(&line, a)
}

// The coordinate of an index along a line.
#[inline]
fn coordinate_along(line: &Line, a: u8) -> Option<Course>
    ensures value { (lo t : ℕ) → lo ≤ t → value_along result lo t
        ≡ option_map values.Num (coordinate (position_after line.now (t - lo)) a) }
    ensures small { IfSome result IsUnitCourse }
{
    match a {
        0 => Some(along(line.at.x, line.dx)),
        1 => Some(along(line.at.y, line.dy)),
        _ => None,
    }
}

#[inline]
fn along(start: Fix, slope: Slope) -> Course
    ensures value { (lo t : ℕ) → lo ≤ t → course_value lo t result ≡ values.Num (start +ℤ slope *ℤ pos (t - lo)) }
    ensures small { IsUnitCourse result }
{
    Course::Number(Trend {
        rise: i128::from(slope.raw()),
        start: i128::from(start.raw()),
    })
}
