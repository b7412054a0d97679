//! The kinds and the bounds of terms, and their faults.
#![tactic(auto, using(crate::proofs::FoundLemmas::found_none, crate::proofs::FoundLemmas::found_on))]

ghost use Rattle.std.specs.Prelude.{◌≡◌, ◌+◌, ◌*◌, ◌^◌, ◌<◌, ◌≤◌, length, false};
ghost use Rattle.std.specs.Option.{option_map_or};
ghost use Rattle.formula.specs.Bounds.{factor_bound, sub_bound, term_bound, unit_bound};
ghost use Rattle.ftl_parser.specs.Order.{factors_list, names_alone, term_names};
ghost use Rattle.formula_shape.specs.Sizes.{AreFewFactors};
ghost use Rattle.ftl_parser.specs.declared.tree.Unit.TheVariants as units;
ghost use Rattle.meaning.specs.Value.{attribute_bound};
ghost use Rattle.ftl_typer.specs.Faults.{factors_faults, term_faults};
ghost use Rattle.ftl_typer.specs.Context.{scope_in};
ghost use Rattle.ftl_typer.specs.First.{found_after};
ghost use Rattle.ftl_typer.specs.Scope.{assigned, bound_in_range, bound_of_attribute, bound_of_value, has_text, is_bare, is_misplaced_text, is_past_range, is_text_kind, is_text_unit, named_term_kind, resolved_factor, resolved_term, resolved_unit};

use crate::found::{FaultKind, Found};
use crate::scope::Scope;
use crate::units::note_unit;
use crate::values::{Assigned, is_text};
use fixed_point::{FIX_LIMIT, READ_LIMIT, SLOPE_LIMIT, SubName, Word};
use formula::{DYNAMIC_BOUND, TIME_BOUND, ValueKind};
use ftl_parser::{Signed, Term, Unit};
use motion::AttrKind;

fn is_text_kind(kind: AttrKind) -> bool
    ensures { result ≡ is_text_kind kind }
{
    match kind {
        AttrKind::Text => true,
        AttrKind::Num | AttrKind::Dyn => false,
    }
}

/// The largest size that the values of an attribute have, in thousandths; 0 for texts.
fn attribute_bound(kind: AttrKind) -> u64
    ensures { result ≡ attribute_bound kind }
{
    match kind {
        AttrKind::Num => READ_LIMIT,
        AttrKind::Text => 0,
        AttrKind::Dyn => DYNAMIC_BOUND,
    }
}

fn is_text_value(scope: &Scope, name: &Word) -> bool
    ensures { result ≡ is_text_unit (scope_in scope.now) (units.Alone name.now) }
{
    match scope.value(name) {
        Some((_, value)) => is_text(value.kind),
        None => false,
    }
}

fn is_text_attribute(scope: &Scope, variable: &Word, name: &Word) -> bool
    ensures { result ≡ is_text_unit (scope_in scope.now) (units.Attr variable.now name.now) }
{
    match scope.attribute_kind(variable, name) {
        Some(kind) => is_text_kind(kind),
        None => false,
    }
}

fn is_text_unit(scope: &Scope, unit: &Unit) -> bool
    ensures { result ≡ is_text_unit (scope_in scope.now) unit.now }
{
    match unit {
        Unit::Text(_) => true,
        Unit::Alone(name) => is_text_value(scope, name),
        Unit::Attr(variable, name) => is_text_attribute(scope, variable, name),
        Unit::Literal(_) | Unit::Sub(_, _, _) | Unit::Time => false,
    }
}

/// Whether a term has a text among its factors.
fn has_text(scope: &Scope, term: &Term) -> bool
    ensures { result ≡ has_text (scope_in scope.now) term.now }
{
    term.factors
        .items()
        .iter()
        .any(|factor| is_text_unit(scope, &factor.unit))
}

/// What the values of a term are.
pub fn term_kind(scope: &Scope, term: &Term) -> ValueKind
    ensures { result ≡ named_term_kind (scope_in scope.now) term.now }
{
    if has_text(scope, term) {
        ValueKind::Text
    } else {
        ValueKind::Number
    }
}

/// Whether there is one factor, with neither a sign nor a multiplier.
fn is_bare(factors: &[Signed]) -> bool
    ensures { result ≡ is_bare factors.now }
{
    match factors {
        [factor] => !factor.minus && factor.times.is_none(),
        _ => false,
    }
}

/// Whether a text stands with a sign, a multiplier or a second factor.
fn is_misplaced(scope: &Scope, term: &Term) -> bool
    ensures { result ≡ is_misplaced_text (scope_in scope.now) term.now }
{
    has_text(scope, term) && !is_bare(term.factors.items())
}

/// The largest size of a value variable, in thousandths; 0 where there is none of the name.
pub fn bound_of_value(scope: &Scope, name: &Word) -> u64
    ensures { result ≡ bound_of_value (scope_in scope.now) name.now }
{
    match scope.value(name) {
        Some((_, value)) => value.bound,
        None => 0,
    }
}

/// The largest size of an attribute of a variable, in thousandths; 0 where there is no such attribute.
pub fn bound_of_attribute(scope: &Scope, variable: &Word, name: &Word) -> u64
    ensures { result ≡ bound_of_attribute (scope_in scope.now) variable.now name.now }
{
    match scope.attribute_kind(variable, name) {
        Some(kind) => attribute_bound(kind),
        None => 0,
    }
}

fn bound_of_sub(part: SubName) -> u64
    ensures { result ≡ sub_bound part }
{
    match part {
        SubName::Value => DYNAMIC_BOUND,
        SubName::UpdateTime => TIME_BOUND,
        SubName::Function => SLOPE_LIMIT,
    }
}

fn bound_of_unit(scope: &Scope, unit: &Unit) -> u64
    ensures { result ≡ unit_bound (resolved_unit (scope_in scope.now) unit.now) }
{
    match unit {
        Unit::Literal(number) => number.raw().unsigned_abs(),
        Unit::Text(_) => 0,
        Unit::Alone(name) => bound_of_value(scope, name),
        Unit::Attr(variable, name) => bound_of_attribute(scope, variable, name),
        Unit::Sub(_, _, part) => bound_of_sub(*part),
        Unit::Time => TIME_BOUND,
    }
}

fn bound_of_factor(scope: &Scope, factor: &Signed) -> u128
    ensures value { result ≡ factor_bound (resolved_factor (scope_in scope.now) factor.now) }
    ensures small { result ≤ 2 ^ 32 * 2 ^ 64 }
{
    let bound = bound_of_unit(scope, &factor.unit);
    u128::from(factor.times.unwrap_or(1)) * u128::from(bound)
}

/// The bound of a term, in thousandths: the sum of the bounds of its factors.
fn bound_of_term(scope: &Scope, term: &Term) -> u128
    requires { AreFewFactors term.now.factors }
    ensures { result ≡ term_bound (resolved_term (scope_in scope.now) term.now) }
{
    let mut sum: u128 = 0;
    for factor in term.factors.items() {
        sum += bound_of_factor(scope, factor);
    }
    sum
}

/// Whether the bound of a term passes 10^18.
fn is_past_range(scope: &Scope, term: &Term) -> bool
    requires { AreFewFactors term.now.factors }
    ensures { result ≡ is_past_range (scope_in scope.now) term.now }
{
    bound_of_term(scope, term) > u128::from(FIX_LIMIT)
}

fn bound_in_range(bound: u128) -> u64
    ensures { result ≡ bound_in_range bound }
{
    if bound <= u128::from(FIX_LIMIT) {
        bound as u64
    } else {
        0
    }
}

/// What an assignment of a term to a name binds.
pub fn assigned(scope: &Scope, name: &Word, term: &Term) -> Assigned
    requires { AreFewFactors term.now.factors }
    ensures { result ≡ assigned (scope_in scope.now) name.now term.now }
{
    Assigned {
        name: *name,
        kind: term_kind(scope, term),
        bound: bound_in_range(bound_of_term(scope, term)),
    }
}

/// Notes the faults of factors, and answers how many names stand before what comes behind them.
#[tactic(auto, using(crate::proofs::StepLemmas::factor_step, crate::proofs::StepLemmas::factors_end))]
fn note_factors(scope: &Scope, factors: &[Signed], at: usize, found: &mut Found) -> usize
    requires { at + length (factors_list names_alone factors.now) ≤ usize.MAX }
    ensures found { found.new ≡ found_after found.old (factors_faults (scope_in scope.now) at factors.now) }
    ensures behind { result ≡ at + length (factors_list names_alone factors.now) }
{
    let mut place = at;
    let mut rest = factors;
    while let Some((factor, later)) = rest.split_first() {
        place = note_unit(scope, &factor.unit, place, found);
        rest = later;
    }
    place
}

/// Notes the faults of the term of index `nth`, and answers how many names stand before what comes behind it.

pub fn note_term(scope: &Scope, term: &Term, at: usize, nth: usize, found: &mut Found) -> usize
    requires fits { at + length (term_names term.now) ≤ usize.MAX }
    requires few { AreFewFactors term.now.factors }
    ensures found { found.new ≡ found_after found.old (term_faults (scope_in scope.now) at nth term.now) }
    ensures behind { result ≡ at + length (term_names term.now) }
{
    found.note_if(is_misplaced(scope, term), FaultKind::WrongKind, at);
    let behind = note_factors(scope, term.factors.items(), at, found);
    found.note_if(is_past_range(scope, term), FaultKind::TermRange, nth);
    behind
}
