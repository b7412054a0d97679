//! What is done with two relations, binding by binding.

ghost use Rattle.std.specs.Prelude.{◌≡◌, ◌≤◌, ◌+◌, ◌&&◌, ◌||◌, not, ℕ, true, length, IfOk};
ghost use Rattle.std.specs.List.Sorted.{IsStrictlyIncreasing};
ghost use Rattle.tick_set.specs.Ticks.{within};
ghost use Rattle.formula.specs.Forms.{until_form_at};
ghost use Rattle.formula_shape.specs.declared.limits.TheConstants.{OBJECT_LIMIT};
ghost use Rattle.formula_shape.specs.Sizes.{FitInQuery};
ghost use Rattle.relation.specs.Frames.{IsIn, SameFrame, frame, vars_of_both};
ghost use Rattle.formula.specs.Resolved.{are_distinct};
ghost use Rattle.relation.specs.Key.{are_known};
ghost use Rattle.relation.specs.Operations.{combined_between};
ghost use Rattle.relation.specs.Part.{IsRowPart, part_has};
ghost use Rattle.relation.specs.Rows.{table_has};
ghost use Rattle.relation.specs.Walk.{covers};

use crate::Relation;
use crate::operation::Operation;
use crate::part::Part;
use crate::union::vars_of_both;
use crate::walk::{Parts, walk};
use fixed_point::UntilForm;
use formula::Binding;
use std::alloc::{AllocError, Global};
use until_merge::Temporal;

impl<'d, S: Temporal> Relation<'d, S> {
    /// The ticks at which both have the binding, over the variables of both. In time linear in the rows of the one
    /// with fewer, but for searches among those of the other.
    pub fn join(&self, alloc: Global, other: &Self) -> Result<Self, AllocError>
        requires frame { SameFrame other.now self.now }
        requires left { IsStrictlyIncreasing self.now.vars }
        requires right { IsStrictlyIncreasing other.now.vars }
        ensures ticks { IfOk result (λ r. (b : ℕ → ℕ) → IsIn self.now.domains b → (t : ℕ) → table_has S.member r b t
            ≡ (table_has S.member self.now b t && table_has S.member other.now b t)) }
        ensures vars { IfOk result (λ r. r.vars ≡ vars_of_both self.now.vars other.now.vars) }
        ensures frame { IfOk result (λ r. SameFrame r self.now) }
    {
        let made = self.with(alloc, Operation::Meet, other)?;
        Ok(made)
    }

    /// The ticks at which either has the binding, over the variables of both. A variable that one of them lacks
    /// takes each object of its domain.
    pub fn unite(&self, alloc: Global, other: &Self) -> Result<Self, AllocError>
        requires frame { SameFrame other.now self.now }
        requires left { IsStrictlyIncreasing self.now.vars }
        requires right { IsStrictlyIncreasing other.now.vars }
        ensures ticks { IfOk result (λ r. (b : ℕ → ℕ) → IsIn self.now.domains b → (t : ℕ) → table_has S.member r b t
            ≡ (table_has S.member self.now b t || table_has S.member other.now b t)) }
        ensures vars { IfOk result (λ r. r.vars ≡ vars_of_both self.now.vars other.now.vars) }
        ensures frame { IfOk result (λ r. SameFrame r self.now) }
    {
        let made = self.with(alloc, Operation::Union, other)?;
        Ok(made)
    }

    /// The ticks from which this relation leads to the other one by the form, with `c` ticks, over the variables of
    /// both. A variable that one of them lacks takes each object of its domain.
    pub fn until(
        &self,
        alloc: Global,
        other: &Self,
        form: UntilForm,
        c: u32,
    ) -> Result<Self, AllocError>
        requires frame { SameFrame other.now self.now }
        requires left { IsStrictlyIncreasing self.now.vars }
        requires right { IsStrictlyIncreasing other.now.vars }
        ensures ticks { IfOk result (λ r. (b : ℕ → ℕ) → IsIn self.now.domains b → (t : ℕ) → table_has S.member r b t
            ≡ (within self.now.lo self.now.hi t
            && until_form_at form c (table_has S.member self.now b) (table_has S.member other.now b) self.now.hi t)) }
        ensures vars { IfOk result (λ r. r.vars ≡ vars_of_both self.now.vars other.now.vars) }
        ensures frame { IfOk result (λ r. SameFrame r self.now) }
    {
        let made = self.with(alloc, Operation::Until(form, c), other)?;
        Ok(made)
    }

    /// The ticks of the window that a binding does not have, for each binding of the domains.
    pub fn complement(&self, alloc: Global) -> Result<Self, AllocError>
        ensures ticks { IfOk result (λ r. (b : ℕ → ℕ) → IsIn self.now.domains b → (t : ℕ) → table_has S.member r b t
            ≡ (within self.now.lo self.now.hi t && not (table_has S.member self.now b t))) }
        ensures vars { IfOk result (λ r. r.vars ≡ self.now.vars) }
        ensures frame { IfOk result (λ r. SameFrame r self.now) }
    {
        let made = self.walked(alloc, Operation::Complement, self.vars(), self)?;
        Ok(made)
    }

    // Both put together over the variables of both.
    fn with(&self, alloc: Global, operation: Operation, other: &Self) -> Result<Self, AllocError>
        requires frame { SameFrame other.now self.now }
        requires left { IsStrictlyIncreasing self.now.vars }
        requires right { IsStrictlyIncreasing other.now.vars }
        ensures ticks { IfOk result (λ r. (b : ℕ → ℕ) → IsIn self.now.domains b → (t : ℕ) → table_has S.member r b t
            ≡ combined_between operation self.now.lo self.now.hi (table_has S.member self.now b) (table_has S.member other.now b) t) }
        ensures vars { IfOk result (λ r. r.vars ≡ vars_of_both self.now.vars other.now.vars) }
        ensures frame { IfOk result (λ r. SameFrame r self.now) }
    {
        // The number of domains bounds the variables.
        let _ = self.domains().len();
        let vars = vars_of_both(self.vars(), other.vars());
        let made = self.walked(alloc, operation, vars.vars(), other)?;
        Ok(made)
    }

    // Both put together over these variables, which cover those of both.
    pub(crate) fn walked(
        &self,
        alloc: Global,
        operation: Operation,
        vars: &[u8],
        other: &Self,
    ) -> Result<Self, AllocError>
        requires frame { SameFrame other.now self.now }
        requires few { FitInQuery vars.now }
        requires known { are_known self.now.domains vars.now ≡ true }
        requires distinct { are_distinct vars.now ≡ true }
        requires left { covers vars.now self.now.vars ≡ true }
        requires right { covers vars.now other.now.vars ≡ true }
        ensures ticks { IfOk result (λ r. (b : ℕ → ℕ) → IsIn self.now.domains b → (t : ℕ) → table_has S.member r b t
            ≡ combined_between operation self.now.lo self.now.hi (table_has S.member self.now b) (table_has S.member other.now b) t) }
        ensures vars { IfOk result (λ r. r.vars ≡ vars.now) }
        ensures frame { IfOk result (λ r. SameFrame r self.now) }
    {
        let mut made = Relation::empty(alloc, vars, self.domains(), self.window());
        let parts = Parts {
            left: self.part(),
            right: other.part(),
        };
        walk(alloc, &mut made, operation, Binding::new(), vars, &parts)?;
        Ok(made)
    }

    // All rows.
    fn part(&self) -> Part<'_, S>
        ensures part { IsRowPart S.member self.now.domains self.now.lo self.now.hi result }
        ensures same { (b : ℕ → ℕ) (t : ℕ) → part_has S.member result b t ≡ table_has S.member self.now b t }
        ensures vars { result.vars.now ≡ self.now.vars }
        ensures room { result.place + length result.vars.now ≤ OBJECT_LIMIT }
    {
        Part {
            vars: self.vars(),
            rows: self.rows(),
            place: 0,
        }
    }
}
