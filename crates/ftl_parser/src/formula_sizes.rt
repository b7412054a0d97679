//! What is asked of a formula that was read.

ghost use Rattle.std.specs.Prelude.{◌≡◌};
ghost use Rattle.ftl_parser.specs.inner.Measure.{saturated};
ghost use Rattle.ftl_parser.specs.Sizes.{atom_objects, has_circle, has_not, is_circle, nesting, objects};
ghost use Rattle.ftl_parser.specs.Tree.{view};

use crate::{Atom, Formula};

/// The most assignments in one another. It stays at the largest number; a query that was read has at most
/// [`NESTING_LIMIT`](crate::NESTING_LIMIT).
#[tactic(auto, using(crate::proofs::reader::MeasureLemmas::measures))]
pub fn nesting(formula: &Formula) -> usize
    ensures { result ≡ saturated (nesting (view formula.now)) }
{
    match formula {
        Formula::Truth(_) | Formula::Atom(_) => 0,
        Formula::Not(part) => nesting(part),
        Formula::And(left, right) => nesting(left).max(nesting(right)),
        Formula::Or(left, right) => nesting(left).max(nesting(right)),
        Formula::Next(part) => nesting(part),
        Formula::Eventually(part) => nesting(part),
        Formula::Always(part) => nesting(part),
        Formula::Bounded(_, _, part) => nesting(part),
        Formula::Until(_, _, left, right) => nesting(left).max(nesting(right)),
        Formula::Assign(_, _, part) => nesting(part).saturating_add(1),
    }
}

// The names of an atom's circle.
pub(crate) fn names_in(atom: &Atom) -> usize
    ensures { result ≡ atom_objects atom.now }
{
    match atom {
        Atom::Sphere(_, names) => names.items().len(),
        _ => 0,
    }
}

/// The most names in one WITHIN_SPHERE, as written; 0 where there is none.
pub fn most_names(formula: &Formula) -> usize
    ensures { result ≡ objects (view formula.now) }
{
    match formula {
        Formula::Truth(_) => 0,
        Formula::Atom(atom) => names_in(atom),
        Formula::Not(part) => most_names(part),
        Formula::And(left, right) => most_names(left).max(most_names(right)),
        Formula::Or(left, right) => most_names(left).max(most_names(right)),
        Formula::Next(part) => most_names(part),
        Formula::Eventually(part) => most_names(part),
        Formula::Always(part) => most_names(part),
        Formula::Bounded(_, _, part) => most_names(part),
        Formula::Until(_, _, left, right) => most_names(left).max(most_names(right)),
        Formula::Assign(_, _, part) => most_names(part),
    }
}

/// Whether there is a NOT.
pub fn has_not(formula: &Formula) -> bool
    ensures { result ≡ has_not (view formula.now) }
{
    match formula {
        Formula::Truth(_) | Formula::Atom(_) => false,
        Formula::Not(_) => true,
        Formula::And(left, right) => has_not(left) || has_not(right),
        Formula::Or(left, right) => has_not(left) || has_not(right),
        Formula::Next(part) => has_not(part),
        Formula::Eventually(part) => has_not(part),
        Formula::Always(part) => has_not(part),
        Formula::Bounded(_, _, part) => has_not(part),
        Formula::Until(_, _, left, right) => has_not(left) || has_not(right),
        Formula::Assign(_, _, part) => has_not(part),
    }
}

fn is_circle(atom: &Atom) -> bool
    ensures { result ≡ is_circle atom.now }
{
    matches!(atom, Atom::Sphere(..))
}

/// Whether there is a WITHIN_SPHERE.
pub fn has_circle(formula: &Formula) -> bool
    ensures { result ≡ has_circle (view formula.now) }
{
    match formula {
        Formula::Truth(_) => false,
        Formula::Atom(atom) => is_circle(atom),
        Formula::Not(part) => has_circle(part),
        Formula::And(left, right) => has_circle(left) || has_circle(right),
        Formula::Or(left, right) => has_circle(left) || has_circle(right),
        Formula::Next(part) => has_circle(part),
        Formula::Eventually(part) => has_circle(part),
        Formula::Always(part) => has_circle(part),
        Formula::Bounded(_, _, part) => has_circle(part),
        Formula::Until(_, _, left, right) => has_circle(left) || has_circle(right),
        Formula::Assign(_, _, part) => has_circle(part),
    }
}
