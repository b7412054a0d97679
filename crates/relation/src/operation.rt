//! What is done with the sets of one binding, or of two.

ghost use Rattle.std.specs.Prelude.{◌≡◌, ℕ, true, IfOk};
ghost use Rattle.tick_set.specs.Ticks.{LiesIn};
ghost use Rattle.relation.specs.Operations.{changed_between, combined_between};

use fixed_point::{BoundForm, UntilForm};
use std::alloc::{AllocError, Global};
use tick_set::Window;
use until_merge::Temporal;

/// How the sets of two bindings are put together.
#[derive(Clone, Copy, PartialEq, Eq)]
pub(crate) enum Operation {
    /// The ticks of both.
    Meet,
    /// The ticks of either.
    Union,
    /// The ticks from which the first leads to the second, with the number of ticks of the form.
    Until(UntilForm, u32),
    /// The ticks of the window that are not in the first.
    Complement,
}

/// What becomes of the set of one binding.
#[derive(Clone, Copy, PartialEq, Eq)]
pub(crate) enum Change {
    Copy,
    Clip(Window),
    Next,
    Bounded(BoundForm, u32),
}

impl Operation {
    /// The set of the ticks at which the operation holds of two sets.
    pub(crate) fn combine<S: Temporal>(
        self,
        alloc: Global,
        left: &S,
        right: &S,
        w: Window,
    ) -> Result<S, AllocError>
        requires left { LiesIn w.lo w.hi (S.member left.now) }
        requires right { LiesIn w.lo w.hi (S.member right.now) }
        ensures ticks { IfOk result (λ s. (t : ℕ) → S.member s t
            ≡ combined_between self w.lo w.hi (S.member left.now) (S.member right.now) t) }
        ensures lies { IfOk result (λ s. LiesIn w.lo w.hi (S.member s)) }
    {
        let set = match self {
            Operation::Meet => left.meet(alloc, right)?,
            Operation::Union => left.union(alloc, right)?,
            Operation::Until(form, c) => left.until_by(alloc, form, right, c, w)?,
            Operation::Complement => left.complement(alloc, w)?,
        };
        Ok(set)
    }
}

impl Change {
    /// The set of the ticks at which the change holds of a set.
    pub(crate) fn apply<S: Temporal>(
        self,
        alloc: Global,
        set: &S,
        w: Window,
    ) -> Result<S, AllocError>
        requires { LiesIn w.lo w.hi (S.member set.now) }
        ensures ticks { IfOk result (λ s. (t : ℕ) → S.member s t
            ≡ changed_between self w.lo w.hi (S.member set.now) t) }
        ensures lies { IfOk result (λ s. LiesIn w.lo w.hi (S.member s)) }
    {
        let set = match self {
            Change::Copy => set.copy(alloc)?,
            Change::Clip(part) => set.clip(alloc, part)?,
            Change::Next => set.next(alloc, w)?,
            Change::Bounded(form, c) => set.bounded_by(alloc, form, c, w)?,
        };
        Ok(set)
    }
}
