//! Formulas with their sizes, so that no formula is walked again.

ghost use Rattle.std.specs.Prelude.{◌≡◌, max, IfOk, length};
ghost use Rattle.formula_shape.specs.Shape.{Shape};
ghost use Rattle.ftl_parser.specs.Grammar.{prefixed, term_of};
ghost use Rattle.ftl_parser.specs.inner.Measure.{measure, leaf, under, assignment_sizes, operator_sizes};
ghost use Rattle.ftl_parser.specs.Sizes.{atom_objects, atom_factors};
ghost use Rattle.ftl_parser.specs.Tree.{view as tree_of};

use crate::formula_sizes::names_in;
use crate::prefix::Prefix;
use crate::{Atom, Formula, Term};
use fixed_point::{BoundForm, UntilForm, Word};
use std::alloc::{AllocError, Global};
use std::marker::Model;

/// The sizes of a formula that have limits. The first three stay at the largest number.
#[derive(Clone, Copy)]
pub(crate) struct Sizes {
    pub(crate) nodes: usize,
    pub(crate) depth: usize,
    pub(crate) nesting: usize,
    pub(crate) objects: usize,
    pub(crate) factors: usize,
}

impl Sizes {
    // Of a formula without parts.
    fn leaf(objects: usize, factors: usize) -> Sizes
        ensures { result ≡ leaf objects factors }
    {
        Sizes {
            nodes: 1,
            depth: 1,
            nesting: 0,
            objects,
            factors,
        }
    }

    // Of an operator on a formula of these sizes.
    fn under(&self) -> Sizes
        ensures { result ≡ under self.now }
    {
        Sizes {
            nodes: self.nodes.saturating_add(1),
            depth: self.depth.saturating_add(1),
            nesting: self.nesting,
            objects: self.objects,
            factors: self.factors,
        }
    }

    // Of an assignment of a term with so many factors, before a formula of these sizes.
    fn assigned(&self, factors: usize) -> Sizes
        ensures { result ≡ assignment_sizes self.now factors }
    {
        Sizes {
            nodes: self.nodes.saturating_add(1),
            depth: self.depth.saturating_add(1),
            nesting: self.nesting.saturating_add(1),
            objects: self.objects,
            factors: factors.max(self.factors),
        }
    }

    // Of an operator on two formulas of these sizes.
    fn joined(&self, other: &Sizes) -> Sizes
        ensures { result ≡ operator_sizes self.now other.now }
    {
        Sizes {
            nodes: self.nodes.saturating_add(other.nodes).saturating_add(1),
            depth: self.depth.max(other.depth).saturating_add(1),
            nesting: self.nesting.max(other.nesting),
            objects: self.objects.max(other.objects),
            factors: self.factors.max(other.factors),
        }
    }
}

// The most factors of one of an atom's terms.
fn factors_of(atom: &Atom) -> usize
    ensures { result ≡ atom_factors atom.now }
{
    match atom {
        Atom::Compare(left, _, right) => {
            let left = left.factors.items().len();
            left.max(right.factors.items().len())
        }
        _ => 0,
    }
}

/// A formula with its sizes. A contract sees the tree of the formula.
#[derive(Drop)]
pub(crate) struct Measured {
    formula: Formula,
    sizes: Sizes,
}

impl Model for Measured {
    ghost use Rattle.std.specs.Prelude.{◌≡◌, ℕ, List};
    ghost use Rattle.std.specs.Coded.{codes};
    ghost use Rattle.formula_shape.specs.ShapeCode.{shape_code};
    ghost use Rattle.ftl_parser.specs.declared.tree.Atom.{Atom};
    ghost use Rattle.ftl_parser.specs.declared.tree.Term.{Term};
    ghost use Rattle.ftl_parser.specs.inner.Measure.{measure};
    ghost use Rattle.ftl_parser.specs.Tree.{Tree, view as tree_of};

    ghost Value = { Tree };

    ghost coded = { Prim.hlevel (codes, shape_code {A = Atom} {B = List ℕ × Term} (Prim.hlevel codes)) };

    ghost view = { λ a. tree_of a.formula };

    ghost invariant = { λ a. a.sizes ≡ measure (tree_of a.formula) };
}

#[tactic(auto, using(crate::proofs::reader::MeasureLemmas::measures))]
impl Measured {
    pub(crate) fn truth(value: bool) -> Measured
        ensures { result ≡ Shape.Truth value }
    {
        Measured {
            formula: Formula::Truth(value),
            sizes: Sizes::leaf(0, 0),
        }
    }

    pub(crate) fn atom(atom: Atom) -> Measured
        ensures { result ≡ Shape.Atom atom }
    {
        let sizes = Sizes::leaf(names_in(&atom), factors_of(&atom));
        Measured {
            formula: Formula::Atom(atom),
            sizes,
        }
    }

    pub(crate) fn prefixed(self, alloc: Global, word: Prefix) -> Result<Measured, AllocError>
        ensures { IfOk result (λ m. m ≡ prefixed word self) }
    {
        let Measured { formula, sizes } = self;
        let sizes = sizes.under();
        let formula = Box::new(alloc, formula)?;
        let formula = match word {
            Prefix::Not => Formula::Not(formula),
            Prefix::Next => Formula::Next(formula),
            Prefix::Eventually => Formula::Eventually(formula),
            Prefix::Always => Formula::Always(formula),
        };
        Ok(Measured { formula, sizes })
    }

    pub(crate) fn bounded(
        self,
        alloc: Global,
        form: BoundForm,
        ticks: u32,
    ) -> Result<Measured, AllocError>
        ensures { IfOk result (λ m. m ≡ Shape.Bounded form ticks self) }
    {
        let Measured { formula, sizes } = self;
        let sizes = sizes.under();
        let formula = Box::new(alloc, formula)?;
        Ok(Measured {
            formula: Formula::Bounded(form, ticks, formula),
            sizes,
        })
    }

    pub(crate) fn assigned(
        self,
        alloc: Global,
        name: Word,
        term: Term,
    ) -> Result<Measured, AllocError>
        ensures { IfOk result (λ m. m ≡ Shape.Assign (name, term) self) }
    {
        let Measured { formula, sizes } = self;
        let sizes = sizes.assigned(term.factors.items().len());
        let formula = Box::new(alloc, formula)?;
        Ok(Measured {
            formula: Formula::Assign(name, term, formula),
            sizes,
        })
    }

    pub(crate) fn and(self, alloc: Global, right: Measured) -> Result<Measured, AllocError>
        ensures { IfOk result (λ m. m ≡ Shape.And self right) }
    {
        let sizes = self.sizes.joined(&right.sizes);
        let left = Box::new(alloc, self.formula)?;
        let right = Box::new(alloc, right.formula)?;
        Ok(Measured {
            formula: Formula::And(left, right),
            sizes,
        })
    }

    pub(crate) fn or(self, alloc: Global, right: Measured) -> Result<Measured, AllocError>
        ensures { IfOk result (λ m. m ≡ Shape.Or self right) }
    {
        let sizes = self.sizes.joined(&right.sizes);
        let left = Box::new(alloc, self.formula)?;
        let right = Box::new(alloc, right.formula)?;
        Ok(Measured {
            formula: Formula::Or(left, right),
            sizes,
        })
    }

    pub(crate) fn until(
        self,
        alloc: Global,
        form: UntilForm,
        ticks: u32,
        right: Measured,
    ) -> Result<Measured, AllocError>
        ensures { IfOk result (λ m. m ≡ Shape.Until form ticks self right) }
    {
        let sizes = self.sizes.joined(&right.sizes);
        let left = Box::new(alloc, self.formula)?;
        let right = Box::new(alloc, right.formula)?;
        Ok(Measured {
            formula: Formula::Until(form, ticks, left, right),
            sizes,
        })
    }

    // The sizes of the formula.
    pub(crate) fn sizes(&self) -> Sizes
        ensures { result ≡ measure self.now }
    {
        self.sizes
    }

    pub(crate) fn into_formula(self) -> Formula
        ensures { tree_of result ≡ self }
    {
        let Measured { formula, sizes: _ } = self;
        formula
    }
}
