//! What is done with each row of a relation by itself.

ghost use Rattle.std.specs.Prelude.{◌≡◌, ◌&&◌, ℕ, [], IfOk};
ghost use Rattle.tick_set.specs.Operators.{next_at};
ghost use Rattle.tick_set.specs.Ticks.{within};
ghost use Rattle.formula.specs.Forms.{bounded_at};
ghost use Rattle.relation.specs.Frames.{IsWider};
ghost use Rattle.relation.specs.Operations.{changed_between};
ghost use Rattle.relation.specs.Rows.{IsSameHead, table, table_has};

use crate::operation::Change;
use crate::{Domains, Relation};
use fixed_point::BoundForm;
use std::alloc::{AllocError, Global};
use tick_set::Window;
use until_merge::Temporal;

#[tactic(auto, using(crate::proofs::ChangeLemmas::wider_same))]
impl<'d, S: Temporal> Relation<'d, S> {
    /// The ticks of each binding that are in another window. The relation keeps its own window.
    pub fn clip(&self, alloc: Global, w: Window) -> Result<Self, AllocError>
        ensures ticks { IfOk result (λ r. (b : ℕ → ℕ) (t : ℕ) → table_has S.member r b t
            ≡ (within w.lo w.hi t && table_has S.member self.now b t)) }
        ensures head { IfOk result (λ r. IsSameHead self.now r) }
    {
        let made = self.changed(alloc, Change::Clip(w), self.domains())?;
        Ok(made)
    }

    /// The ticks of each binding whose next one is a tick of it: NEXTTIME.
    pub fn next(&self, alloc: Global) -> Result<Self, AllocError>
        ensures ticks { IfOk result (λ r. (b : ℕ → ℕ) (t : ℕ) → table_has S.member r b t
            ≡ (within self.now.lo self.now.hi t && next_at (table_has S.member self.now b) self.now.hi t)) }
        ensures head { IfOk result (λ r. IsSameHead self.now r) }
    {
        let made = self.changed(alloc, Change::Next, self.domains())?;
        Ok(made)
    }

    /// The ticks of each binding at which the bounded form holds of it: EVENTUALLY_WITHIN, EVENTUALLY_AFTER or
    /// ALWAYS_FOR, with `c` ticks.
    pub fn bounded(&self, alloc: Global, form: BoundForm, c: u32) -> Result<Self, AllocError>
        ensures ticks { IfOk result (λ r. (b : ℕ → ℕ) (t : ℕ) → table_has S.member r b t
            ≡ (within self.now.lo self.now.hi t
            && bounded_at form c (table_has S.member self.now b) self.now.hi t)) }
        ensures head { IfOk result (λ r. IsSameHead self.now r) }
    {
        let made = self.changed(alloc, Change::Bounded(form, c), self.domains())?;
        Ok(made)
    }

    /// The same ticks of each binding, over wider domains.
    pub fn widen<'e>(
        &self,
        alloc: Global,
        domains: &'e Domains,
    ) -> Result<Relation<'e, S>, AllocError>
        requires { IsWider self.now.domains domains.now }
        ensures ticks { IfOk result (λ r. (b : ℕ → ℕ) (t : ℕ) → table_has S.member r b t
            ≡ table_has S.member self.now b t) }
        ensures head { IfOk result (λ r. IsSameHead
            (table self.now.vars domains.now self.now.lo self.now.hi self.now.rows) r) }
    {
        let made = self.changed(alloc, Change::Copy, domains)?;
        Ok(made)
    }

    // The rows with their sets changed, over the same or wider domains.
    fn changed<'e>(
        &self,
        alloc: Global,
        change: Change,
        domains: &'e Domains,
    ) -> Result<Relation<'e, S>, AllocError>
        requires { IsWider self.now.domains domains.now }
        ensures ticks { IfOk result (λ r. (b : ℕ → ℕ) (t : ℕ) → table_has S.member r b t
            ≡ changed_between change self.now.lo self.now.hi (table_has S.member self.now b) t) }
        ensures head { IfOk result (λ r. IsSameHead
            (table self.now.vars domains.now self.now.lo self.now.hi self.now.rows) r) }
    {
        let window = self.window();
        let mut made = Relation::empty(alloc, self.vars(), domains, window);
        'rows: for row in self.rows() {
            let set = change.apply(alloc, &row.set, window)?;
            made.put(row.key, set)?;
        }
        Ok(made)
    }
}
