//! What operators make of the ticks of their parts, and many sets of ticks put together.

ghost use Rattle.std.specs.Prelude.{◌≡◌, ◌&&◌, ℕ, IfOk};
ghost use Rattle.tick_set.specs.Ticks.{LiesIn, within};
ghost use Rattle.evaluator.specs.inner.ByBinding.{any_member};
ghost use Rattle.evaluator.specs.inner.Nodes.{changed_at, paired_in};

use crate::node::{Change, Pairing};
use std::alloc::{AllocError, Global};
use std::collections::VecDeque;
use tick_set::{LAST_TICK, TickSet, Window};
use until_merge::Temporal;

// The ticks of the window at which an operator holds of a set.
pub(crate) fn changed<S: Temporal>(
    alloc: Global,
    change: Change,
    set: &S,
    w: Window,
) -> Result<S, AllocError>
    requires { LiesIn w.lo w.hi (S.member set.now) }
    ensures { IfOk result (λ s. (t : ℕ) → S.member s t
        ≡ (within w.lo w.hi t && changed_at change (S.member set.now) w.hi t)) }
{
    match change {
        Change::Not => set.complement(alloc, w),
        Change::Next => set.next(alloc, w),
        Change::Eventually => set.eventually_after(alloc, 0, w),
        Change::Always => set.always_for(alloc, LAST_TICK, w),
        Change::Bounded(form, c) => set.bounded_by(alloc, form, c, w),
    }
}

// The ticks of the window at which an operator holds of two sets.
pub(crate) fn paired<S: Temporal>(
    alloc: Global,
    pairing: Pairing,
    left: &S,
    right: &S,
    w: Window,
) -> Result<S, AllocError>
    requires left { LiesIn w.lo w.hi (S.member left.now) }
    requires right { LiesIn w.lo w.hi (S.member right.now) }
    ensures { IfOk result (λ s. (t : ℕ) → S.member s t
        ≡ paired_in pairing w.lo w.hi (S.member left.now) (S.member right.now) t) }
{
    match pairing {
        Pairing::And => left.meet(alloc, right),
        Pairing::Or => left.union(alloc, right),
        Pairing::Until(form, c) => left.until_by(alloc, form, right, c, w),
    }
}

// The ticks of any of the sets. Two are put together and go behind all others, so that no run is copied once for each
// set.
pub(crate) fn union_of<S: TickSet>(alloc: Global, sets: VecDeque<S>) -> Result<S, AllocError>
    ensures { IfOk result (λ s. (t : ℕ) → S.member s t ≡ any_member S.member sets.items t) }
{
    let mut sets = sets;
    'sets: while let Some(first) = sets.pop_front() {
        let Some(second) = sets.pop_front() else {
            return Ok(first);
        };
        let both = first.union(alloc, &second)?;
        sets.push_back(both)?;
    }
    Ok(S::empty(alloc))
}
