//! Terms that are a coordinate of a variable's object, or a constant.
ghost use Rattle.std.specs.Prelude.{◌≡◌, ◌<◌, ◌∷◌, [], IfSome, neg_ℤ, if◌then◌else◌};
ghost use Rattle.formula.specs.declared.tree.RUnit.TheVariants as units;
ghost use Rattle.narrowing.specs.Terms.{IsConstant, IsCoordinate};

use fixed_point::Fix;
use formula::{RSigned, RTerm, RUnit};

/// Which of the first two attributes of the object of a variable a term is. None where it is neither.
pub(crate) fn coordinate_of(q: &RTerm, var: u8) -> Option<u8>
    ensures first { IfSome result (λ a. a < 2) }
    ensures term { IfSome result (λ a. IsCoordinate var a q.now) }
{
    let factor = sole_factor(q)?;
    if factor.minus || factor.times.is_some() {
        return None;
    }
    match factor.unit {
        RUnit::Attr(v, a, _) => { if v == var && a < 2 { Some(a) } else { None } }
        _ => None,
    }
}

/// The number that a term is, whatever the objects are. None where it isn't a number that was written.
pub(crate) fn constant_of(q: &RTerm) -> Option<Fix>
    ensures { IfSome result (λ c. IsConstant c q.now) }
{
    let factor = sole_factor(q)?;
    if factor.times.is_some() {
        return None;
    }
    let number = literal_of(&factor.unit)?;
    with_sign(factor.minus, number)
}

/// The factor of a term that has one alone.
fn sole_factor(q: &RTerm) -> Option<RSigned>
    ensures { IfSome result (λ f. q.now.factors ≡ f ∷ []) }
{
    let (first, later) = q.factors.items().split_first()?;
    if later.is_empty() { Some(*first) } else { None }
}

/// The number of a unit that is one.
fn literal_of(unit: &RUnit) -> Option<Fix>
    ensures { IfSome result (λ number. unit.now ≡ units.Literal number) }
{
    match unit {
        RUnit::Literal(number) => Some(*number),
        RUnit::Text(_) => None,
        RUnit::Var(_, _) => None,
        RUnit::Attr(_, _, _) => None,
        RUnit::Sub(_, _, _) => None,
        RUnit::Time => None,
    }
}

/// The number, or what is opposite to it.
fn with_sign(minus: bool, number: Fix) -> Option<Fix>
    ensures { IfSome result (λ c. c ≡ (if minus then neg_ℤ number else number)) }
{
    if minus {
        Fix::of(-number.raw())
    } else {
        Some(number)
    }
}
