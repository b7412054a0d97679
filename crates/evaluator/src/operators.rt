//! What operators make of the rows of their parts.

ghost use Rattle.std.specs.Prelude.{◌≡◌, ◌&&◌, ℕ, IfOk};
ghost use Rattle.std.specs.List.Sorted.{IsStrictlyIncreasing};
ghost use Rattle.tick_set.specs.Ticks.{within};
ghost use Rattle.relation.specs.Frames.{IsIn, SameFrame, frame, vars_of_both};
ghost use Rattle.relation.specs.Rows.{table_has};
ghost use Rattle.evaluator.specs.inner.Nodes.{changed_at, paired_in};

use crate::node::{Change, Pairing};
use fixed_point::BoundForm;
use relation::Relation;
use std::alloc::{AllocError, Global};
use tick_set::LAST_TICK;
use until_merge::Temporal;

// The ticks of the window at which an operator holds, for each binding.
pub(crate) fn changed_rows<'d, S: Temporal>(
    alloc: Global,
    change: Change,
    rows: &Relation<'d, S>,
) -> Result<Relation<'d, S>, AllocError>
    ensures ticks { IfOk result (λ r. (b : ℕ → ℕ) → IsIn rows.now.domains b → (t : ℕ) → table_has S.member r b t
        ≡ (within rows.now.lo rows.now.hi t && changed_at change (table_has S.member rows.now b) rows.now.hi t)) }
    ensures vars { IfOk result (λ r. r.vars ≡ rows.now.vars) }
    ensures frame { IfOk result (λ r. SameFrame r rows.now) }
{
    // No window goes past the last tick.
    let _ = rows.window();
    match change {
        Change::Not => rows.complement(alloc),
        Change::Next => rows.next(alloc),
        Change::Eventually => rows.bounded(alloc, BoundForm::After, 0),
        Change::Always => rows.bounded(alloc, BoundForm::Always, LAST_TICK),
        Change::Bounded(form, c) => rows.bounded(alloc, form, c),
    }
}

// The same of two parts, over the variables of both.
pub(crate) fn paired_rows<'d, S: Temporal>(
    alloc: Global,
    pairing: Pairing,
    left: &Relation<'d, S>,
    right: &Relation<'d, S>,
) -> Result<Relation<'d, S>, AllocError>
    requires frame { SameFrame right.now left.now }
    requires left { IsStrictlyIncreasing left.now.vars }
    requires right { IsStrictlyIncreasing right.now.vars }
    ensures ticks { IfOk result (λ r. (b : ℕ → ℕ) → IsIn left.now.domains b → (t : ℕ) → table_has S.member r b t
        ≡ paired_in pairing left.now.lo left.now.hi (table_has S.member left.now b) (table_has S.member right.now b) t) }
    ensures vars { IfOk result (λ r. r.vars ≡ vars_of_both left.now.vars right.now.vars) }
    ensures frame { IfOk result (λ r. SameFrame r left.now) }
{
    match pairing {
        Pairing::And => left.join(alloc, right),
        Pairing::Or => left.unite(alloc, right),
        Pairing::Until(form, c) => left.until(alloc, right, form, c),
    }
}
