//! Formulas that are evaluated binding by binding.

ghost use Rattle.std.specs.Prelude.{◌≡◌, ◌<◌, true, IsTrue};
ghost use Rattle.formula.specs.Tree.{formula_view};
ghost use Rattle.relation.specs.Frames.{domain_size};
ghost use Rattle.relation.specs.Key.{are_known, has_id};
ghost use Rattle.evaluator.specs.inner.ByBinding.{adds_no_choice, asks_no_more, is_over};

use crate::node::Node;
use crate::variables::has_variable;
use formula::{RFormula, free, free_in_term};
use relation::Domains;

// Whether no atom of a formula is asked more often at each key of these variables than at each key of its own, and each
// term whose value it binds has exactly these variables.
pub(crate) fn is_over(f: &RFormula, vars: &[u8], d: &Domains) -> bool
    requires { are_known d.now vars.now ≡ true }
    ensures { result ≡ is_over (domain_size d.now) vars.now (formula_view f.now) }
{
    match Node::of(f) {
        Node::Truth(_) => true,
        Node::Atom(_) => asks_no_more(free(f).list(), vars, d),
        Node::One(_, part) => is_over(part, vars, d),
        Node::Two(_, left, right) => is_over(left, vars, d) && is_over(right, vars, d),
        Node::Assign(a) => free_in_term(a.term).list() == vars && is_over(a.body, vars, d),
    }
}

// Whether there are no more keys of these variables than of an atom's own ones. An atom without a variable takes no look
// at a timeline. One that has the one variable of these is told at once, as most are.
#[tactic(auto, using(crate::proofs::OverLemmas::asks_for_own))]
fn asks_no_more(own: &[u8], vars: &[u8], d: &Domains) -> bool
    requires { are_known d.now vars.now ≡ true }
    ensures { result ≡ asks_no_more (domain_size d.now) vars.now own.now }
{
    if are_same_one(own, vars) {
        return true;
    }
    own.is_empty()
        || adds_no_choice(own, vars, 0, d)
            && adds_no_choice(own, vars, 1, d)
            && adds_no_choice(own, vars, 2, d)
            && adds_no_choice(own, vars, 3, d)
}

// Whether these and those are one variable, and the same.
#[inline]
fn are_same_one(own: &[u8], vars: &[u8]) -> bool
    ensures { IsTrue result → own.now ≡ vars.now }
{
    match (own, vars) {
        ([one], [other]) => *one == *other,
        _ => false,
    }
}

// Whether a variable gives a key of these variables no more choices than it gives one of an atom's own ones.
#[tactic(auto, using(crate::proofs::VariableLemmas::known_one))]
fn adds_no_choice(own: &[u8], vars: &[u8], v: u8, d: &Domains) -> bool
    requires { are_known d.now vars.now ≡ true }
    ensures { result ≡ adds_no_choice (domain_size d.now) vars.now own.now v }
{
    if has_variable(own, v) {
        has_variable(vars, v)
    } else {
        !has_variable(vars, v) || d.of(v).len() <= 1
    }
}
