//! Formulas by their operators and their parts.

ghost use Rattle.std.specs.Prelude.{◌≡◌, length};
ghost use Rattle.formula.specs.Tree.{formula_view};
ghost use Rattle.formula.specs.Variables.{variables_of};
ghost use Rattle.evaluator.specs.inner.Nodes.{needs_left, needs_right, node_view, ordered_tree, pair_view, turns};

use crate::assignment::Assignment;
use fixed_point::{BoundForm, UntilForm};
use formula::{RAtom, RFormula, free};

// An operator on one formula.
#[derive(Clone, Copy)]
pub(crate) enum Change {
    Not,
    Next,
    Eventually,
    Always,
    Bounded(BoundForm, u32),
}

// An operator on two formulas.
#[derive(Clone, Copy)]
pub(crate) enum Pairing {
    And,
    Or,
    Until(UntilForm, u32),
}

impl Pairing {
    // Whether it holds nowhere where its left part does.
    pub(crate) fn needs_left(self) -> bool
        ensures { result ≡ needs_left self }
    {
        match self {
            Pairing::And => true,
            Pairing::Or => false,
            Pairing::Until(_, _) => false,
        }
    }

    // Whether it holds nowhere where its right part does.
    pub(crate) fn needs_right(self) -> bool
        ensures { result ≡ needs_right self }
    {
        !matches!(self, Pairing::Or)
    }
}

// An operator with its two formulas.
#[derive(Clone, Copy)]
pub(crate) struct Pair<'a> {
    pub(crate) pairing: Pairing,
    pub(crate) left: &'a RFormula,
    pub(crate) right: &'a RFormula,
}

impl<'a> Pair<'a> {
    // AND with the part of fewer variables on its right, which is the same; any other operator as it is.
    pub(crate) fn ordered(pairing: Pairing, left: &'a RFormula, right: &'a RFormula) -> Pair<'a>
        ensures tree { pair_view result ≡ ordered_tree pairing (formula_view left.now) (formula_view right.now) }
        ensures pairing { result.pairing ≡ pairing }
    {
        if turns(pairing, left, right) {
            Pair {
                pairing,
                left: right,
                right: left,
            }
        } else {
            Pair {
                pairing,
                left,
                right,
            }
        }
    }
}

// Whether the parts of AND are to be the other way round, so that the right one has no more variables.
fn turns(pairing: Pairing, left: &RFormula, right: &RFormula) -> bool
    ensures { result ≡ turns pairing (formula_view left.now) (formula_view right.now) }
{
    matches!(pairing, Pairing::And) && variable_count(left) <= variable_count(right)
}

// How many variables a formula has.
#[tactic(auto, using(crate::proofs::PairLemmas::count_of))]
fn variable_count(f: &RFormula) -> usize
    ensures { result ≡ length (variables_of (formula_view f.now)) }
{
    free(f).list().len()
}

// The last operator of a formula, with its parts.
#[derive(Clone, Copy)]
pub(crate) enum Node<'a> {
    Truth(bool),
    Atom(&'a RAtom),
    One(Change, &'a RFormula),
    Two(Pairing, &'a RFormula, &'a RFormula),
    Assign(Assignment<'a>),
}

impl<'a> Node<'a> {
    pub(crate) fn of(f: &'a RFormula) -> Node<'a>
        ensures { node_view result ≡ formula_view f.now }
    {
        match f {
            RFormula::Truth(holds) => Node::Truth(*holds),
            RFormula::Atom(atom) => Node::Atom(atom),
            RFormula::Not(part) => Node::One(Change::Not, part),
            RFormula::And(left, right) => Node::Two(Pairing::And, left, right),
            RFormula::Or(left, right) => Node::Two(Pairing::Or, left, right),
            RFormula::Next(part) => Node::One(Change::Next, part),
            RFormula::Eventually(part) => Node::One(Change::Eventually, part),
            RFormula::Always(part) => Node::One(Change::Always, part),
            RFormula::Bounded(form, c, part) => Node::One(Change::Bounded(*form, *c), part),
            RFormula::Until(form, c, left, right) => {
                Node::Two(Pairing::Until(*form, *c), left, right)
            }
            RFormula::Assign(depth, term, body) => Node::Assign(Assignment {
                depth: *depth,
                term,
                body,
            }),
        }
    }
}
