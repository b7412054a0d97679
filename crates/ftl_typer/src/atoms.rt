//! Faults of atoms.
ghost use Rattle.std.specs.Prelude.{◌≡◌, ◌+◌, ◌<◌, ◌≤◌, length};
ghost use Rattle.ftl_parser.specs.Order.{atom_names, atom_terms, term_names};
ghost use Rattle.ftl_parser.specs.Sizes.{atom_factors};
ghost use Rattle.formula_shape.specs.declared.limits.TheConstants.{FACTOR_LIMIT};
ghost use Rattle.formula_shape.specs.Sizes.{AreFewFactors};
ghost use Rattle.formula.specs.Kinds.{is_equality, may_compare};
ghost use Rattle.ftl_typer.specs.Faults.{atom_faults, compare_faults, points_faults};
ghost use Rattle.ftl_typer.specs.Context.{scope_in};
ghost use Rattle.ftl_typer.specs.First.{found_after};

use crate::found::{FaultKind, Found};
use crate::scope::Scope;
use crate::terms::{note_term, term_kind};
use crate::units::{note_point, note_region};
use case_table::Op;
use fixed_point::Word;
use formula::ValueKind;
use ftl_parser::{Atom, Term};

fn is_equality(op: Op) -> bool
    ensures { result ≡ is_equality op }
{
    match op {
        Op::Eq | Op::Ne => true,
        Op::Lt | Op::Le | Op::Ge | Op::Gt => false,
    }
}

/// Whether values of these kinds may be compared.
fn may_compare(left: ValueKind, op: Op, right: ValueKind) -> bool
    ensures { result ≡ may_compare left op right }
{
    match (left, right) {
        (ValueKind::Number, ValueKind::Number) => true,
        (ValueKind::Text, ValueKind::Text) => is_equality(op),
        _ => false,
    }
}

/// Notes the faults of names where points must stand.
#[tactic(auto, using(crate::proofs::StepLemmas::point_step, crate::proofs::StepLemmas::points_end))]
fn note_points(scope: &Scope, names: &[Word], at: usize, found: &mut Found)
    requires { at + length names.now ≤ usize.MAX }
    ensures { found.new ≡ found_after found.old (points_faults (scope_in scope.now) at names.now) }
{
    let mut place = at;
    let mut rest = names;
    while let Some((name, later)) = rest.split_first() {
        note_point(scope, name, place, found);
        place += 1;
        rest = later;
    }
}

/// Where a part of a query stands: how many names and how many terms are written before it.
#[derive(Clone, Copy, Debug)]
pub struct Place {
    pub names: usize,
    pub terms: usize,
}

/// Notes the faults of a comparison, and answers how many names stand before what comes behind it.
#[tactic(auto, using(crate::proofs::FoundLemmas::found_none, crate::proofs::FoundLemmas::found_on))]
fn note_compare(
    scope: &Scope,
    left: &Term,
    op: Op,
    right: &Term,
    at: Place,
    found: &mut Found,
) -> usize
    requires names { at.names + length (term_names left.now) + length (term_names right.now) ≤ usize.MAX }
    requires terms { at.terms < usize.MAX }
    requires few_left { AreFewFactors left.now.factors }
    requires few_right { AreFewFactors right.now.factors }
    ensures found { found.new ≡ found_after found.old (compare_faults (scope_in scope.now) at.names at.terms left.now op right.now) }
    ensures behind { result ≡ at.names + length (term_names left.now) + length (term_names right.now) }
{
    let fit = may_compare(term_kind(scope, left), op, term_kind(scope, right));
    found.note_if(!fit, FaultKind::WrongKind, at.names);
    let between = note_term(scope, left, at.names, at.terms, found);
    note_term(scope, right, between, at.terms + 1, found)
}

/// Notes the faults of an atom, and answers the place of what comes behind it.
#[tactic(auto, using(crate::proofs::FoundLemmas::found_none, crate::proofs::FoundLemmas::found_on))]
pub fn note_atom(scope: &Scope, atom: &Atom, at: Place, found: &mut Found) -> Place
    requires names { at.names + length (atom_names atom.now) ≤ usize.MAX }
    requires terms { at.terms + length (atom_terms atom.now) ≤ usize.MAX }
    requires few { atom_factors atom.now ≤ FACTOR_LIMIT }
    ensures found { found.new ≡ found_after found.old (atom_faults (scope_in scope.now) at.names at.terms atom.now) }
    ensures names { result.names ≡ at.names + length (atom_names atom.now) }
    ensures terms { result.terms ≡ at.terms + length (atom_terms atom.now) }
{
    match atom {
        Atom::Compare(left, op, right) => Place {
            names: note_compare(scope, left, *op, right, at, found),
            terms: at.terms + 2,
        },
        Atom::Inside(object, region) | Atom::Outside(object, region) => {
            note_point(scope, object, at.names, found);
            note_region(scope, region, at.names + 1, found);
            Place {
                names: at.names + 2,
                terms: at.terms,
            }
        }
        Atom::Dist(from, to, _, _) => {
            note_point(scope, from, at.names, found);
            note_point(scope, to, at.names + 1, found);
            Place {
                names: at.names + 2,
                terms: at.terms,
            }
        }
        Atom::Sphere(_, objects) => {
            note_points(scope, objects.items(), at.names, found);
            Place {
                names: at.names + objects.items().len(),
                terms: at.terms,
            }
        }
    }
}
