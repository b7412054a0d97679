//! The object variables of formulas.

ghost use Rattle.std.specs.Prelude.{◌≡◌, ◌==◌, ◌<◌, ◌||◌, false, ℕ};
ghost use Rattle.std.specs.List.{list_any};
ghost use Rattle.formula.specs.Tree.{formula_view};
ghost use Rattle.formula.specs.VarSet.{set_has};
ghost use Rattle.formula.specs.Variables.{atom_has, has_variable, term_has, unit_has, variables_in};

use crate::{RAtom, RFormula, RSigned, RTerm, RUnit};
use formula_shape::OBJECT_LIMIT;

/// A set of object variables.
#[derive(Clone, Copy, Debug, PartialEq, Eq)]
pub struct VarSet {
    members: [bool; OBJECT_LIMIT],
}

impl VarSet {
    /// Whether the variable is in the set; it isn't where it is past the fourth.
    #[inline]
    pub fn has(self, v: u8) -> bool
        ensures { result ≡ set_has self v }
    {
        self.members.get(v as usize).copied().unwrap_or(false)
    }

    /// The variables of the set, ascending, each once.
    pub fn list(self) -> &'static [u8]
        ensures { result.now ≡ variables_in (set_has self) }
    {
        match (self.has(0), self.has(1), self.has(2), self.has(3)) {
            (false, false, false, false) => &[],
            (false, false, false, true) => &[3],
            (false, false, true, false) => &[2],
            (false, false, true, true) => &[2, 3],
            (false, true, false, false) => &[1],
            (false, true, false, true) => &[1, 3],
            (false, true, true, false) => &[1, 2],
            (false, true, true, true) => &[1, 2, 3],
            (true, false, false, false) => &[0],
            (true, false, false, true) => &[0, 3],
            (true, false, true, false) => &[0, 2],
            (true, false, true, true) => &[0, 2, 3],
            (true, true, false, false) => &[0, 1],
            (true, true, false, true) => &[0, 1, 3],
            (true, true, true, false) => &[0, 1, 2],
            (true, true, true, true) => &[0, 1, 2, 3],
        }
    }

    // No variable.
    #[inline]
    fn none() -> VarSet
        ensures { (v : ℕ) → set_has result v ≡ false }
    {
        VarSet {
            members: [false; OBJECT_LIMIT],
        }
    }

    // One variable; none where it is past the fourth.
    #[inline]
    fn one(object: u8) -> VarSet
        ensures { (v : ℕ) → v < OBJECT_LIMIT → set_has result v ≡ (object == v) }
    {
        VarSet {
            members: [object == 0, object == 1, object == 2, object == 3],
        }
    }

    // The variables of either.
    #[inline]
    fn union(self, other: VarSet) -> VarSet
        ensures { (v : ℕ) → set_has result v ≡ (set_has self v || set_has other v) }
    {
        let [a, b, c, d] = self.members;
        let [k, l, m, n] = other.members;
        VarSet {
            members: [a | k, b | l, c | m, d | n],
        }
    }
}

// The variable of a factor, if it has one.
fn free_in_unit(unit: &RUnit) -> VarSet
    ensures { (v : ℕ) → v < OBJECT_LIMIT → set_has result v ≡ unit_has v unit.now }
{
    match unit {
        RUnit::Attr(object, _, _) | RUnit::Sub(object, _, _) => VarSet::one(*object),
        RUnit::Literal(_) | RUnit::Text(_) | RUnit::Var(_, _) | RUnit::Time => VarSet::none(),
    }
}

// The variables of these factors.
fn free_in_factors(factors: &[RSigned]) -> VarSet
    ensures { (v : ℕ) → v < OBJECT_LIMIT → set_has result v ≡ list_any (λ s. unit_has v s.unit) factors.now }
{
    match factors.split_first() {
        Some((factor, later)) => free_in_unit(&factor.unit).union(free_in_factors(later)),
        None => VarSet::none(),
    }
}

// These variables as a set.
fn listed(objects: &[u8]) -> VarSet
    ensures { (v : ℕ) → v < OBJECT_LIMIT → set_has result v ≡ list_any (λ o. o == v) objects.now }
{
    match objects.split_first() {
        Some((object, later)) => VarSet::one(*object).union(listed(later)),
        None => VarSet::none(),
    }
}

/// The object variables of an atom. Takes no memory.
pub fn free_in_atom(atom: &RAtom) -> VarSet
    ensures { (v : ℕ) → v < OBJECT_LIMIT → set_has result v ≡ atom_has v atom.now }
{
    match atom {
        RAtom::Compare(left, _, right) => free_in_term(left).union(free_in_term(right)),
        RAtom::Inside(object, _) | RAtom::Outside(object, _) => VarSet::one(*object),
        RAtom::Dist(from, to, _, _) => VarSet::one(*from).union(VarSet::one(*to)),
        RAtom::Sphere(_, objects) => listed(objects.items()),
    }
}

/// The object variables of a formula, by one walk over it. Takes no memory.
pub fn free(f: &RFormula) -> VarSet
    ensures { (v : ℕ) → v < OBJECT_LIMIT → set_has result v ≡ has_variable v (formula_view f.now) }
{
    match f {
        RFormula::Truth(_) => VarSet::none(),
        RFormula::Atom(atom) => free_in_atom(atom),
        RFormula::Not(part) => free(part),
        RFormula::And(left, right) => free(left).union(free(right)),
        RFormula::Or(left, right) => free(left).union(free(right)),
        RFormula::Next(part) => free(part),
        RFormula::Eventually(part) => free(part),
        RFormula::Always(part) => free(part),
        RFormula::Bounded(_, _, part) => free(part),
        RFormula::Until(_, _, left, right) => free(left).union(free(right)),
        RFormula::Assign(_, term, part) => free_in_term(term).union(free(part)),
    }
}

/// The object variables of a term. Takes no memory.
pub fn free_in_term(term: &RTerm) -> VarSet
    ensures { (v : ℕ) → v < OBJECT_LIMIT → set_has result v ≡ term_has v term.now }
{
    free_in_factors(term.factors.items())
}
