//! Assignments, and the row of one key of their terms.

ghost use Rattle.std.specs.Prelude.{◌≡◌, true, IfOk};
ghost use Rattle.formula_shape.specs.Sizes.{FitInQuery};
ghost use Rattle.relation.specs.Frames.{agrees};
ghost use Rattle.formula.specs.Resolved.{are_distinct};
ghost use Rattle.relation.specs.Key.{are_known, key_in};
ghost use Rattle.evaluator.specs.Rows.{AreRowsWhere};

use formula::{Binding, RFormula, RTerm};
use relation::{Domains, Relation};
use std::alloc::{AllocError, Global};
use tick_set::{TickSet, Window};
use until_merge::Temporal;

// The value of a term, bound at a depth for a formula.
#[derive(Clone, Copy)]
pub(crate) struct Assignment<'a> {
    pub(crate) depth: u8,
    pub(crate) term: &'a RTerm,
    pub(crate) body: &'a RFormula,
}

// All ticks of the window for a key alone.
pub(crate) fn row_of_key<'d, S: Temporal>(
    alloc: Global,
    vars: &[u8],
    key: &Binding,
    d: &'d Domains,
    w: Window,
) -> Result<Relation<'d, S>, AllocError>
    requires few { FitInQuery vars.now }
    requires known { are_known d.now vars.now ≡ true }
    requires distinct { are_distinct vars.now ≡ true }
    requires inside { key_in d.now vars.now key.now ≡ true }
    ensures { IfOk result (λ r. AreRowsWhere S.member d.now w.lo w.hi vars.now (λ b t. agrees vars.now key.now b) r) }
{
    let mut made = Relation::empty(alloc, vars, d, w);
    let all = S::of_span(alloc, w.span())?;
    made.put(*key, all)?;
    Ok(made)
}
