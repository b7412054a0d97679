//! The object variables of atoms and terms.
ghost use Rattle.std.specs.Prelude.{◌≡◌, ◌==◌, ◌||◌, ℕ, false, IfSome, IsTrue};
ghost use Rattle.formula.specs.Variables.{atom_has, term_has, unit_has, variables_in};
ghost use Rattle.meaning.specs.Reads.{atom_variables, term_variables};

use crate::straight_terms::only;
use formula::{RAtom, RTerm, RUnit, free_in_atom, free_in_term};

/// The variables of an atom, ascending, each once. One whose place is told, or whose attribute is compared with what names
/// no variable, stands alone, as in most atoms.
pub fn variables_of_atom(atom: &RAtom) -> &'static [u8]
    ensures { result.now ≡ atom_variables atom.now }
{
    match variable_alone(atom) {
        Some(v) => listed_alone(v),
        None => free_in_atom(atom).list(),
    }
}

// The one variable of an atom. None tells nothing.
#[inline]
fn variable_alone(atom: &RAtom) -> Option<u8>
    ensures { IfSome result (λ v. (u : ℕ) → atom_has u atom.now ≡ (v == u)) }
{
    match atom {
        RAtom::Inside(v, _) | RAtom::Outside(v, _) => Some(*v),
        RAtom::Compare(left, _, right) => variable_compared(left, right),
        RAtom::Dist(_, _, _, _) | RAtom::Sphere(_, _) => None,
    }
}

// The variable of an attribute that is compared with one factor that names none. None tells nothing.
#[inline]
fn variable_compared(left: &RTerm, right: &RTerm) -> Option<u8>
    ensures { IfSome result (λ v. (u : ℕ) → (term_has u left.now || term_has u right.now) ≡ (v == u)) }
{
    let RUnit::Attr(v, _, _) = &only(left.factors.items())?.unit else {
        return None;
    };
    if names_none(&only(right.factors.items())?.unit) {
        Some(*v)
    } else {
        None
    }
}

// Whether a unit names no variable.
#[inline]
fn names_none(unit: &RUnit) -> bool
    ensures { IsTrue result → (u : ℕ) → unit_has u unit.now ≡ false }
{
    match unit {
        RUnit::Attr(_, _, _) | RUnit::Sub(_, _, _) => false,
        RUnit::Literal(_) | RUnit::Text(_) | RUnit::Var(_, _) | RUnit::Time => true,
    }
}

// One variable; none where it is past the fourth.
#[inline]
fn listed_alone(v: u8) -> &'static [u8]
    ensures { result.now ≡ variables_in (λ u. v == u) }
{
    match v {
        0 => &[0],
        1 => &[1],
        2 => &[2],
        3 => &[3],
        _ => &[],
    }
}

/// The variables of a term, ascending, each once.
pub fn variables_of_term(term: &RTerm) -> &'static [u8]
    ensures { result.now ≡ term_variables term.now }
{
    free_in_term(term).list()
}
