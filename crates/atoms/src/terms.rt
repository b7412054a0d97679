//! The course of a term in a part.
ghost use Rattle.std.specs.Prelude.{◌≡◌, ℕ, ◌<◌, ◌≤◌, ◌+◌, ◌*◌, pos, IfSome, IsTrue, None, length, map, nat_le, option_map, option_and_then, unwrap_or};
ghost use Rattle.std.specs.List.{fold, list_all};
ghost use Rattle.tick_set.specs.Ticks.{IsTick};
ghost use Rattle.formula_shape.specs.declared.limits.TheConstants.{FACTOR_LIMIT, TIMES_LIMIT};
ghost use Rattle.formula.specs.declared.value.Value.TheVariants as values;
ghost use Rattle.motion.specs.Dynamic.{slope_at, value_at};
ghost use Rattle.motion.specs.Pieces.{IsLinear};
ghost use Rattle.meaning.specs.Value.{cell_value, factor_value, part_at, part_value, plus, signed_value, term_value, unit_value};
ghost use Rattle.atoms.specs.Courses.{IsCourseOf, IsUnitCourse, course_value, value_along};
ghost use Rattle.atoms.specs.Naming.{asks_factor, asks_term, asks_unit};
ghost use Rattle.atoms.specs.Parts.{AreSteady, IsSteadyCell, shown};
ghost use Rattle.atoms.specs.Sizes.{is_sized_factor, is_sized_term};

use crate::parts::Part;
use crate::trends::Trend;
use fixed_point::{Fix, SubName, Word};
use formula::{Env, RSigned, RTerm, RUnit, Value};
use motion::{Cell, Vector};
use tick_set::Span;

/// What a term has at the ticks of a part.
#[derive(Clone, Copy, Debug)]
pub enum Course {
    Number(Trend),
    Text(Word),
}

/// The course of a term in a part. None where it has no value.
pub fn course_of(term: &RTerm, part: &Part, env: &Env) -> Option<Course>
    requires sized { IsTrue (is_sized_term term.now) }
    requires steady { AreSteady part.now }
    requires asked { IsTrue (asks_term part.now.asked term.now) }
    ensures value { (t : ℕ) → part.now.span.lo ≤ t → t ≤ part.now.span.hi
        → term_value (shown part.now) term.now env.now t ≡ value_along result part.now.span.lo t }
    ensures small { IfSome result (IsCourseOf FACTOR_LIMIT) }
{
    let (first, later) = term.factors.items().split_first()?;
    sum_from(course_of_factor(first, part, env), later, part, env)
}

// The sum of a first course and more factors.
fn sum_from(first: Option<Course>, factors: &[RSigned], part: &Part, env: &Env) -> Option<Course>
    requires first { IfSome first (IsCourseOf 1) }
    requires few { length factors.now + 1 ≤ FACTOR_LIMIT }
    requires sized { IsTrue (list_all is_sized_factor factors.now) }
    requires steady { AreSteady part.now }
    requires asked { IsTrue (list_all (asks_factor part.now.asked) factors.now) }
    ensures value { (t : ℕ) → part.now.span.lo ≤ t → t ≤ part.now.span.hi
        → fold plus (value_along first part.now.span.lo t) (map (factor_value (shown part.now) env.now t) factors.now)
        ≡ value_along result part.now.span.lo t }
    ensures small { IfSome result (IsCourseOf FACTOR_LIMIT) }
{
    let mut sum = first;
    for factor in factors {
        sum = sum_of(&sum, &course_of_factor(factor, part, env));
    }
    sum
}

// Two numbers have a sum, and nothing else has.
fn sum_of(left: &Option<Course>, right: &Option<Course>) -> Option<Course>
    requires left { IfSome left.now (IsCourseOf FACTOR_LIMIT) }
    requires right { IfSome right.now (IsCourseOf 1) }
    ensures value { (lo t : ℕ) → value_along result lo t
        ≡ plus (value_along left.now lo t) (value_along right.now lo t) }
    ensures small { (n : ℕ) → IfSome left.now (IsCourseOf n) → IfSome result (IsCourseOf (n + 1)) }
{
    match (left, right) {
        (Some(Course::Number(first)), Some(Course::Number(second))) => {
            Some(Course::Number(first.plus(*second)))
        }
        _ => None,
    }
}

// The course of a factor.
fn course_of_factor(factor: &RSigned, part: &Part, env: &Env) -> Option<Course>
    requires sized { IsTrue (is_sized_factor factor.now) }
    requires steady { AreSteady part.now }
    requires asked { IsTrue (asks_factor part.now.asked factor.now) }
    ensures value { (t : ℕ) → part.now.span.lo ≤ t → t ≤ part.now.span.hi
        → factor_value (shown part.now) env.now t factor.now ≡ value_along result part.now.span.lo t }
    ensures small { IfSome result (IsCourseOf 1) }
{
    signed(course_of_unit(&factor.unit, part, env)?, factor)
}

/// The course of a unit with the sign and the multiplier of its factor, of which a text takes neither.
pub fn signed(unit: Course, factor: &RSigned) -> Option<Course>
    requires sized { IsTrue (is_sized_factor factor.now) }
    requires small { IsUnitCourse unit }
    ensures value { (lo t : ℕ) → value_along result lo t ≡ signed_value factor.now.minus factor.now.times (course_value lo t unit) }
    ensures small { IfSome result (IsCourseOf 1) }
{
    match unit {
        Course::Number(trend) => {
            let count = factor.times.unwrap_or(1);
            Some(Course::Number(trend.scaled(factor.minus, count)))
        }
        Course::Text(text) => {
            if factor.minus || factor.times.is_some() {
                None
            } else {
                Some(Course::Text(text))
            }
        }
    }
}

fn course_of_unit(unit: &RUnit, part: &Part, env: &Env) -> Option<Course>
    requires steady { AreSteady part.now }
    requires asked { IsTrue (asks_unit part.now.asked unit.now) }
    ensures value { (t : ℕ) → part.now.span.lo ≤ t → t ≤ part.now.span.hi
        → unit_value (shown part.now) env.now unit.now t ≡ value_along result part.now.span.lo t }
    ensures small { IfSome result IsUnitCourse }
{
    match unit {
        RUnit::Literal(number) => Some(resting(*number)),
        RUnit::Text(text) => Some(Course::Text(*text)),
        RUnit::Var(depth, _) => Some(course_of_value(&env.get(*depth)?)),
        RUnit::Attr(v, a, _) => Some(course_of_cell(part.cell(*v, *a)?, part.span)),
        RUnit::Sub(v, a, name) => course_of_sub(*name, part.cell(*v, *a)?, part.span),
        RUnit::Time => Some(time_from(part.span.lo)),
    }
}

/// A number that rests.
pub fn resting(number: Fix) -> Course
    ensures value { (lo t : ℕ) → course_value lo t result ≡ values.Num number }
    ensures small { IsUnitCourse result }
{
    Course::Number(Trend::constant(i128::from(number.raw())))
}

/// A value that is bound.
pub fn course_of_value(value: &Value) -> Course
    ensures value { (lo t : ℕ) → course_value lo t result ≡ value.now }
    ensures small { IsUnitCourse result }
{
    match value {
        Value::Num(number) => resting(*number),
        Value::Text(text) => Course::Text(*text),
    }
}

/// The value in a cell. What moves does so by one slope in the span.
pub fn course_of_cell(cell: &Cell, span: Span) -> Course
    requires { IsSteadyCell cell.now span.lo span.hi }
    ensures value { (t : ℕ) → span.lo ≤ t → t ≤ span.hi → course_value span.lo t result ≡ cell_value cell.now t }
    ensures small { IsUnitCourse result }
{
    match cell {
        Cell::Num(number) => resting(*number),
        Cell::Text(text) => Course::Text(*text),
        Cell::Dyn(vector) => moving(vector, span),
    }
}

fn moving(vector: &Vector, span: Span) -> Course
    requires { IsLinear vector.now span.lo span.hi }
    ensures value { (t : ℕ) → span.lo ≤ t → t ≤ span.hi → course_value span.lo t result ≡ values.Num (value_at vector.now t) }
    ensures small { IsUnitCourse result }
{
    Course::Number(Trend {
        rise: i128::from(vector.slope_at(span.lo).raw()),
        start: i128::from(vector.at(span.lo).raw()),
    })
}

/// A part of what is in a cell. A cell that doesn't move has none.
pub fn course_of_sub(name: SubName, cell: &Cell, span: Span) -> Option<Course>
    requires { IsSteadyCell cell.now span.lo span.hi }
    ensures value { (t : ℕ) → span.lo ≤ t → t ≤ span.hi → value_along result span.lo t ≡ part_value name cell.now t }
    ensures small { IfSome result IsUnitCourse }
{
    match cell {
        Cell::Dyn(vector) => Some(course_of_part(name, vector, span)),
        _ => None,
    }
}

fn course_of_part(name: SubName, vector: &Vector, span: Span) -> Course
    requires { IsLinear vector.now span.lo span.hi }
    ensures value { (t : ℕ) → span.lo ≤ t → t ≤ span.hi → course_value span.lo t result ≡ values.Num (part_at name vector.now t) }
    ensures small { IsUnitCourse result }
{
    match name {
        SubName::Value => resting(vector.value()),
        SubName::UpdateTime => ticks_in_thousandths(vector.updatetime()),
        SubName::Function => slope_in_force(vector, span.lo),
    }
}

fn ticks_in_thousandths(tick: u32) -> Course
    requires { IsTick tick }
    ensures value { (lo t : ℕ) → course_value lo t result ≡ values.Num (pos (1000 * tick)) }
    ensures small { IsUnitCourse result }
{
    Course::Number(Trend::constant(1000 * i128::from(tick)))
}

fn slope_in_force(vector: &Vector, tick: u32) -> Course
    requires { vector.now.updatetime ≤ tick }
    ensures value { (lo t : ℕ) → course_value lo t result ≡ values.Num (slope_at vector.now tick) }
    ensures small { IsUnitCourse result }
{
    Course::Number(Trend::constant(i128::from(vector.slope_at(tick).raw())))
}

/// TIME in a part that begins at this tick.
pub fn time_from(lo: u32) -> Course
    requires { IsTick lo }
    ensures value { (t : ℕ) → course_value lo t result ≡ values.Num (pos (1000 * t)) }
    ensures small { IsUnitCourse result }
{
    Course::Number(Trend {
        rise: 1000,
        start: 1000 * i128::from(lo),
    })
}
