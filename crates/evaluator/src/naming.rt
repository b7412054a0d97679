//! The values that formulas name.

ghost use Rattle.std.specs.Prelude.{◌≡◌};
ghost use Rattle.std.specs.List.{list_any};
ghost use Rattle.formula.specs.Tree.{formula_view};
ghost use Rattle.interpreting.specs.Names.{atom_uses_value, formula_uses_value, term_uses_value, unit_uses_value};

use crate::node::Node;
use formula::{RAtom, RFormula, RSigned, RTerm, RUnit};

// Whether a formula names the value that is bound at a depth.
pub(crate) fn formula_names(f: &RFormula, depth: u8) -> bool
    ensures { result ≡ formula_uses_value depth (formula_view f.now) }
{
    match Node::of(f) {
        Node::Truth(_) => false,
        Node::Atom(atom) => atom_names(atom, depth),
        Node::One(_, part) => formula_names(part, depth),
        Node::Two(_, left, right) => formula_names(left, depth) || formula_names(right, depth),
        Node::Assign(a) => term_names(a.term, depth) || formula_names(a.body, depth),
    }
}

// Whether an atom does.
fn atom_names(atom: &RAtom, depth: u8) -> bool
    ensures { result ≡ atom_uses_value depth atom.now }
{
    match atom {
        RAtom::Compare(left, _, right) => term_names(left, depth) || term_names(right, depth),
        RAtom::Inside(_, _) | RAtom::Outside(_, _) => false,
        RAtom::Dist(_, _, _, _) | RAtom::Sphere(_, _) => false,
    }
}

// Whether a term does.
fn term_names(term: &RTerm, depth: u8) -> bool
    ensures { result ≡ term_uses_value depth term.now }
{
    factors_name(term.factors.items(), depth)
}

// Whether one of these factors does.
fn factors_name(factors: &[RSigned], depth: u8) -> bool
    ensures { result ≡ list_any (λ s. unit_uses_value depth s.unit) factors.now }
{
    match factors.split_first() {
        Some((factor, later)) => unit_names(&factor.unit, depth) || factors_name(later, depth),
        None => false,
    }
}

fn unit_names(unit: &RUnit, depth: u8) -> bool
    ensures { result ≡ unit_uses_value depth unit.now }
{
    match unit {
        RUnit::Var(bound, _) => *bound == depth,
        RUnit::Literal(_) | RUnit::Text(_) | RUnit::Time => false,
        RUnit::Attr(_, _, _) | RUnit::Sub(_, _, _) => false,
    }
}
