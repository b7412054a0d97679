//! How large the value of a term can be.

ghost use Rattle.std.specs.Prelude.{◌≡◌, ◌≤◌, ◌*◌, ◌^◌, pos};
ghost use Rattle.formula.specs.Bounds.{HasBoundInRange, IsBounded, factor_bound, sub_bound, term_bound, unit_bound};

use crate::limits::{DYNAMIC_BOUND, TIME_BOUND};
use crate::{RSigned, RTerm, RUnit};
use fixed_point::{FIX_LIMIT, SLOPE_LIMIT, SubName};

fn bound_of_sub(part: SubName) -> u64
    ensures { result ≡ sub_bound part }
{
    match part {
        SubName::Value => DYNAMIC_BOUND,
        SubName::UpdateTime => TIME_BOUND,
        SubName::Function => SLOPE_LIMIT,
    }
}

fn bound_of_unit(unit: &RUnit) -> u128
    requires { HasBoundInRange unit.now }
    ensures value { result ≡ unit_bound unit.now }
    ensures small { result ≤ FIX_LIMIT }
{
    match unit {
        RUnit::Literal(number) => u128::from(number.raw().unsigned_abs()),
        RUnit::Text(_) => 0,
        RUnit::Var(_, bound) | RUnit::Attr(_, _, bound) => bound.unsigned_abs(),
        RUnit::Sub(_, _, part) => u128::from(bound_of_sub(*part)),
        RUnit::Time => u128::from(TIME_BOUND),
    }
}

fn bound_of_factor(factor: &RSigned) -> u128
    requires { HasBoundInRange factor.now.unit }
    ensures value { result ≡ factor_bound factor.now }
    ensures small { result ≤ 2 ^ 32 * FIX_LIMIT }
{
    let bound = bound_of_unit(&factor.unit);
    u128::from(factor.times.unwrap_or(1)) * bound
}

/// The bound of a term, in thousandths: no value of it is further from 0. It is 0 for a text. Takes no memory.
pub fn bound_of(t: &RTerm) -> i128
    requires { IsBounded t.now }
    ensures { result ≡ pos (term_bound t.now) }
{
    let mut sum: u128 = 0;
    for factor in t.factors.items() {
        sum += bound_of_factor(factor);
    }
    sum as i128
}
