//! Queries for the pairs of objects that are near to each other.
ghost use Rattle.std.specs.Prelude.{◌≡◌, IfSome, length};
ghost use Rattle.formula_shape.specs.Shape as shapes;
ghost use Rattle.formula.specs.Tree.{resolved_view};
ghost use Rattle.formula.specs.declared.tree.RAtom.{RAtom};
ghost use Rattle.pairs.specs.Distance.{IsDistance, are_both};
ghost use Rattle.case_table.specs.Comparison.{is_at_most};

use case_table::Op;
use fixed_point::Fix;
use formula::{RAtom, RFormula, RQuery};

/// An atom that compares the distance of the objects of the first two variables with a number, and holds where it is no
/// greater.
#[derive(Clone, Copy)]
pub struct Distance<'a> {
    pub atom: &'a RAtom,
    pub most: Fix,
}

/// The distance that is the whole formula of a query of two variables. None where it isn't such a query.
pub fn distance_of(q: &RQuery) -> Option<Distance<'_>>
    ensures formula { IfSome result (λ found. (resolved_view q.now).formula ≡ shapes.Atom found.atom.now) }
    ensures two { IfSome result (λ found. length (resolved_view q.now).classes ≡ 2) }
    ensures distance { IfSome result IsDistance }
{
    if q.classes.items().len() != 2 {
        return None;
    }
    match &q.formula {
        RFormula::Atom(atom) => distance_in(atom),
        _ => None,
    }
}

// The same of an atom.
fn distance_in(atom: &RAtom) -> Option<Distance<'_>>
    ensures atom { IfSome result (λ found. found.atom.now ≡ atom.now) }
    ensures distance { IfSome result IsDistance }
{
    match atom {
        RAtom::Dist(v, u, op, most) => {
            if are_both(*v, *u) && is_at_most(*op) {
                Some(Distance { atom, most: *most })
            } else {
                None
            }
        }
        _ => None,
    }
}

// Whether two variables are the first and the second one, either way round.
fn are_both(v: u8, u: u8) -> bool
    ensures { result ≡ are_both v u }
{
    (v == 0 && u == 1) || (v == 1 && u == 0)
}

// Whether a number that compares so with another one is no greater.
fn is_at_most(op: Op) -> bool
    ensures { result ≡ is_at_most op }
{
    matches!(op, Op::Lt | Op::Le | Op::Eq)
}
