//! Trees by number. A name that isn't there stands for 0: trees are built only where there is no fault.
ghost use Rattle.std.specs.Prelude.{◌≡◌, ◌+◌, ◌<◌, ◌≤◌, length, map, IfOk, Ok};
ghost use Rattle.formula.specs.Tree.{formula_view};
ghost use Rattle.formula_shape.specs.declared.limits.TheConstants.{NESTING_LIMIT};
ghost use Rattle.formula_shape.specs.Sizes.{nesting};
ghost use Rattle.ftl_parser.specs.Sizes.{factors};
ghost use Rattle.ftl_parser.specs.Tree.{view};
ghost use Rattle.formula_shape.specs.declared.limits.TheConstants.{FACTOR_LIMIT};
ghost use Rattle.ftl_parser.specs.declared.tree.Unit.TheVariants as units;
ghost use Rattle.ftl_typer.specs.Context.{scope_in};
ghost use Rattle.ftl_typer.specs.Resolved.{class_place, region_place, resolved_atom, resolved_formula};
ghost use Rattle.ftl_typer.specs.Scope.{attribute_number, resolved_term, resolved_unit, variable_number};

use crate::scope::Scope;
use crate::terms::{assigned, bound_of_attribute, bound_of_value};
use fixed_point::Word;
use formula::{ClassNo, Items, RAtom, RFormula, RSigned, RTerm, RUnit};
use ftl_parser::{Atom, Formula, FromPart, Signed, Term, Unit};
use object_store::Schema;
use std::alloc::{AllocError, Global};

fn variable_number(scope: &Scope, name: &Word) -> u8
    ensures { result ≡ variable_number (scope_in scope.now) name.now }
{
    scope.variable(name).unwrap_or(0)
}

fn attribute_number(scope: &Scope, variable: &Word, name: &Word) -> u8
    ensures { result ≡ attribute_number (scope_in scope.now) variable.now name.now }
{
    match scope.attribute(variable, name) {
        Some((number, _)) => number,
        None => 0,
    }
}

fn region_place(scope: &Scope, name: &Word) -> u32
    ensures { result ≡ region_place (scope_in scope.now) name.now }
{
    scope.region(name).unwrap_or(0)
}

/// A value variable with its bound.
fn resolved_value(scope: &Scope, name: &Word) -> RUnit
    ensures { result ≡ resolved_unit (scope_in scope.now) (units.Alone name.now) }
{
    let bound = i128::from(bound_of_value(scope, name));
    match scope.value(name) {
        Some((depth, _)) => RUnit::Var(depth, bound),
        None => RUnit::Var(0, bound),
    }
}

fn resolved_unit(scope: &Scope, unit: &Unit) -> RUnit
    ensures { result ≡ resolved_unit (scope_in scope.now) unit.now }
{
    match unit {
        Unit::Literal(number) => RUnit::Literal(*number),
        Unit::Text(text) => RUnit::Text(*text),
        Unit::Alone(name) => resolved_value(scope, name),
        Unit::Attr(variable, name) => RUnit::Attr(
            variable_number(scope, variable),
            attribute_number(scope, variable, name),
            i128::from(bound_of_attribute(scope, variable, name)),
        ),
        Unit::Sub(variable, name, part) => RUnit::Sub(
            variable_number(scope, variable),
            attribute_number(scope, variable, name),
            *part,
        ),
        Unit::Time => RUnit::Time,
    }
}

fn build_term(alloc: Global, scope: &Scope, term: &Term) -> Result<RTerm, AllocError>
    ensures { IfOk result (λ q. q ≡ resolved_term (scope_in scope.now) term.now) }
{
    let mut factors = Items::new(alloc);
    for factor in term.factors.items() {
        let unit = resolved_unit(scope, &factor.unit);
        factors.push(RSigned {
            minus: factor.minus,
            times: factor.times,
            unit,
        })?;
    }
    Ok(RTerm { factors })
}

/// The numbers of variables.
pub fn build_variables(
    alloc: Global,
    scope: &Scope,
    names: &[Word],
) -> Result<Items<u8>, AllocError>
    ensures { IfOk result (λ vs. vs ≡ map (variable_number (scope_in scope.now)) names.now) }
{
    let mut variables = Items::new(alloc);
    for name in names {
        variables.push(variable_number(scope, name))?;
    }
    Ok(variables)
}

fn class_place(schema: &Schema, name: &Word) -> ClassNo
    ensures { result ≡ class_place schema.now name.now }
{
    schema.class_of(name).unwrap_or(0)
}

/// The numbers of the classes of FROM.
pub fn build_classes(
    alloc: Global,
    schema: &Schema,
    parts: &[FromPart],
) -> Result<Items<ClassNo>, AllocError>
    ensures { IfOk result (λ ks. ks ≡ map (λ part. class_place schema.now part.class) parts.now) }
{
    let mut classes = Items::new(alloc);
    for part in parts {
        classes.push(class_place(schema, &part.class))?;
    }
    Ok(classes)
}

fn build_atom(alloc: Global, scope: &Scope, atom: &Atom) -> Result<RAtom, AllocError>
    ensures { IfOk result (λ a. a ≡ resolved_atom (scope_in scope.now) atom.now) }
{
    let built = match atom {
        Atom::Compare(left, op, right) => RAtom::Compare(
            build_term(alloc, scope, left)?,
            *op,
            build_term(alloc, scope, right)?,
        ),
        Atom::Inside(object, region) => {
            RAtom::Inside(variable_number(scope, object), region_place(scope, region))
        }
        Atom::Outside(object, region) => {
            RAtom::Outside(variable_number(scope, object), region_place(scope, region))
        }
        Atom::Dist(from, to, op, limit) => RAtom::Dist(
            variable_number(scope, from),
            variable_number(scope, to),
            *op,
            *limit,
        ),
        Atom::Sphere(radius, names) => {
            RAtom::Sphere(*radius, build_variables(alloc, scope, names.items())?)
        }
    };
    Ok(built)
}

// The formula that was built, in a box.
fn boxed(alloc: Global, built: Result<RFormula, AllocError>) -> Result<Box<RFormula>, AllocError>
    ensures { IfOk result (λ formula. built ≡ Ok formula.value) }
{
    let formula = Box::new(alloc, built?)?;
    Ok(formula)
}

/// A formula by number. The scope has room for the assignments in it.
pub fn build_formula(
    alloc: Global,
    scope: &Scope,
    formula: &Formula,
) -> Result<RFormula, AllocError>
    requires few { factors (view formula.now) ≤ FACTOR_LIMIT }
    requires nested { length (scope_in scope.now).values + nesting (view formula.now) ≤ NESTING_LIMIT }
    ensures { IfOk result (λ f. formula_view f ≡ resolved_formula (scope_in scope.now) (view formula.now)) }
{
    let built = match formula {
        Formula::Truth(truth) => RFormula::Truth(*truth),
        Formula::Atom(atom) => RFormula::Atom(build_atom(alloc, scope, atom)?),
        Formula::Not(part) => RFormula::Not(boxed(alloc, build_formula(alloc, scope, part))?),
        Formula::And(left, right) => {
            let left = boxed(alloc, build_formula(alloc, scope, left))?;
            RFormula::And(left, boxed(alloc, build_formula(alloc, scope, right))?)
        }
        Formula::Or(left, right) => {
            let left = boxed(alloc, build_formula(alloc, scope, left))?;
            RFormula::Or(left, boxed(alloc, build_formula(alloc, scope, right))?)
        }
        Formula::Next(part) => RFormula::Next(boxed(alloc, build_formula(alloc, scope, part))?),
        Formula::Eventually(part) => {
            RFormula::Eventually(boxed(alloc, build_formula(alloc, scope, part))?)
        }
        Formula::Always(part) => RFormula::Always(boxed(alloc, build_formula(alloc, scope, part))?),
        Formula::Bounded(form, ticks, part) => {
            let part = boxed(alloc, build_formula(alloc, scope, part))?;
            RFormula::Bounded(*form, *ticks, part)
        }
        Formula::Until(form, ticks, left, right) => {
            let left = boxed(alloc, build_formula(alloc, scope, left))?;
            let right = boxed(alloc, build_formula(alloc, scope, right))?;
            RFormula::Until(*form, *ticks, left, right)
        }
        Formula::Assign(name, term, part) => {
            let bound = build_term(alloc, scope, term)?;
            let inner = scope.inside(assigned(scope, name, term));
            let part = boxed(alloc, build_formula(alloc, &inner, part))?;
            RFormula::Assign(scope.depth(), bound, part)
        }
    };
    Ok(built)
}
