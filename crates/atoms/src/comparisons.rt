//! The ticks of a part at which two terms compare.
ghost use Rattle.std.specs.Prelude.{◌≡◌, ◌&&◌, IfSome, IsTrue};
ghost use Rattle.case_table.specs.Comparison.{compares};
ghost use Rattle.formula_shape.specs.declared.limits.TheConstants.{FACTOR_LIMIT};
ghost use Rattle.linear_crossing.specs.Zones.{line_at};
ghost use Rattle.meaning.specs.Value.{term_value, texts_compare, values_compare};
ghost use Rattle.tick_set.specs.Ticks.{within};
ghost use Rattle.atoms.specs.Courses.{IsCourseOf, IsTrendOf, value_along};
ghost use Rattle.atoms.specs.Found.{AreRunsWhere};
ghost use Rattle.atoms.specs.Naming.{asks_term};
ghost use Rattle.atoms.specs.Parts.{AreSteady, shown};
ghost use Rattle.atoms.specs.Sizes.{is_sized_term};

use crate::found::{all_or_none, nowhere, two_runs};
use crate::parts::Part;
use crate::terms::{Course, course_of};
use crate::trends::Trend;
use case_table::Op;
use distance_crossing::Triple;
use fixed_point::Word;
use formula::{Env, RTerm};
use linear_crossing::solve;
use tick_set::Span;

/// The ticks of the part at which the first term compares so with the second one.
pub fn compared(left: &RTerm, op: Op, right: &RTerm, part: &Part, env: &Env) -> Triple
    requires left_sized { IsTrue (is_sized_term left.now) }
    requires right_sized { IsTrue (is_sized_term right.now) }
    requires steady { AreSteady part.now }
    requires left_asked { IsTrue (asks_term part.now.asked left.now) }
    requires right_asked { IsTrue (asks_term part.now.asked right.now) }
    ensures { AreRunsWhere (λ t. within part.now.span.lo part.now.span.hi t
        && values_compare op (term_value (shown part.now) left.now env.now t) (term_value (shown part.now) right.now env.now t))
        result }
{
    let left = course_of(left, part, env);
    let right = course_of(right, part, env);
    courses_compared(&left, op, &right, part.span)
}

// The ticks of the span at which two courses compare. Numbers and texts compare in no way.
fn courses_compared(left: &Option<Course>, op: Op, right: &Option<Course>, span: Span) -> Triple
    requires left_small { IfSome left.now (IsCourseOf FACTOR_LIMIT) }
    requires right_small { IfSome right.now (IsCourseOf FACTOR_LIMIT) }
    ensures { AreRunsWhere (λ t. within span.lo span.hi t
        && values_compare op (value_along left.now span.lo t) (value_along right.now span.lo t)) result }
{
    match (left, right) {
        (Some(Course::Number(first)), Some(Course::Number(second))) => {
            numbers_compared(*first, op, *second, span)
        }
        (Some(Course::Text(first)), Some(Course::Text(second))) => {
            all_or_none(texts_compare(first, op, second), span)
        }
        _ => nowhere(),
    }
}

/// The ticks of the span at which two numbers compare.
pub fn numbers_compared(left: Trend, op: Op, right: Trend, span: Span) -> Triple
    requires left_small { IsTrendOf FACTOR_LIMIT left }
    requires right_small { IsTrendOf FACTOR_LIMIT right }
    ensures { AreRunsWhere (λ t. within span.lo span.hi t
        && compares op (line_at left.rise left.start span.lo t) (line_at right.rise right.start span.lo t)) result }
{
    let above = left.minus(right);
    two_runs(&solve(above.rise, above.start, op, span.window()))
}

// Texts are equal or they differ.
fn texts_compare(left: &Word, op: Op, right: &Word) -> bool
    ensures { result ≡ texts_compare op left.now right.now }
{
    match op {
        Op::Eq => left == right,
        Op::Ne => left != right,
        _ => false,
    }
}
