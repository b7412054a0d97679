//! Faults of formulas.
ghost use Rattle.std.specs.Prelude.{◌≡◌, ◌+◌, ◌<◌, ◌≤◌, length};
ghost use Rattle.formula_shape.specs.declared.limits.TheConstants.{NESTING_LIMIT};
ghost use Rattle.formula_shape.specs.Sizes.{nesting};
ghost use Rattle.ftl_parser.specs.Order.{formula_names, formula_terms};
ghost use Rattle.ftl_parser.specs.Sizes.{factors};
ghost use Rattle.ftl_parser.specs.Tree.{view};
ghost use Rattle.formula_shape.specs.declared.limits.TheConstants.{FACTOR_LIMIT};
ghost use Rattle.ftl_typer.specs.Faults.{formula_faults};
ghost use Rattle.ftl_typer.specs.Context.{scope_in};
ghost use Rattle.ftl_typer.specs.First.{found_after};

use crate::atoms::{Place, note_atom};
use crate::found::{FaultKind, Found};
use crate::scope::Scope;
use crate::terms::{assigned, note_term};
use ftl_parser::Formula;

/// Notes the faults of a formula, and answers the place of what comes behind it.
#[tactic(auto, using(crate::proofs::FoundLemmas::found_none, crate::proofs::FoundLemmas::found_on))]
pub fn note_formula(scope: &Scope, formula: &Formula, at: Place, found: &mut Found) -> Place
    requires names { at.names + length (formula_names (view formula.now)) ≤ usize.MAX }
    requires terms { at.terms + length (formula_terms (view formula.now)) ≤ usize.MAX }
    requires few { factors (view formula.now) ≤ FACTOR_LIMIT }
    requires nested { length (scope_in scope.now).values + nesting (view formula.now) ≤ NESTING_LIMIT }
    ensures found { found.new ≡ found_after found.old (formula_faults (scope_in scope.now) at.names at.terms (view formula.now)) }
    ensures names { result.names ≡ at.names + length (formula_names (view formula.now)) }
    ensures terms { result.terms ≡ at.terms + length (formula_terms (view formula.now)) }
{
    match formula {
        Formula::Truth(_) => at,
        Formula::Atom(atom) => note_atom(scope, atom, at, found),
        Formula::Not(part) => note_formula(scope, part, at, found),
        Formula::And(left, right) => {
            let between = note_formula(scope, left, at, found);
            note_formula(scope, right, between, found)
        }
        Formula::Or(left, right) => {
            let between = note_formula(scope, left, at, found);
            note_formula(scope, right, between, found)
        }
        Formula::Next(part) => note_formula(scope, part, at, found),
        Formula::Eventually(part) => note_formula(scope, part, at, found),
        Formula::Always(part) => note_formula(scope, part, at, found),
        Formula::Bounded(_, _, part) => note_formula(scope, part, at, found),
        Formula::Until(_, _, left, right) => {
            let between = note_formula(scope, left, at, found);
            note_formula(scope, right, between, found)
        }
        Formula::Assign(name, term, part) => {
            found.note_if(scope.is_taken(name), FaultKind::NameTaken, at.names);
            let behind = note_term(scope, term, at.names + 1, at.terms, found);
            let inner = scope.inside(assigned(scope, name, term));
            let place = Place {
                names: behind,
                terms: at.terms + 1,
            };
            note_formula(&inner, part, place, found)
        }
    }
}
