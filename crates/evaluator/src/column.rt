//! Domains with the objects of some rows alone.

ghost use Rattle.std.specs.Prelude.{◌≡◌, ◌<◌, ◌∷◌, ◌++◌, [], ℕ, map, slice_index, IfOk, OnOk};
ghost use Rattle.std.specs.List.{filter};
ghost use Rattle.std.specs.List.Sorted.{IsStrictlyIncreasing};
ghost use Rattle.formula_shape.specs.Sizes.{OneMoreFits};
ghost use Rattle.relation.specs.Key.{ids_of_variable};
ghost use Rattle.evaluator.specs.inner.Column.{AreForRows, first_ids, ids_left};

use relation::{Domains, Relation};
use std::alloc::{AllocError, Global};
use until_merge::Temporal;

// Whether some objects of the domains are in no row: there is none, or not one for each object of the rows' only variable.
pub(crate) fn leave_out<S: Temporal>(rows: &Relation<'_, S>, d: &Domains) -> bool
    requires { rows.now.domains ≡ d.now }
{
    match rows.vars() {
        [var] => rows.len() < d.of(*var).len(),
        _ => rows.is_empty(),
    }
}

// Domains for what counts where there is a row alone: the objects of the rows where they have one variable, and none at all
// where there is no row.
pub(crate) fn domains_for<S: Temporal>(
    alloc: Global,
    rows: &Relation<'_, S>,
    d: &Domains,
) -> Result<Domains, AllocError>
    requires { rows.now.domains ≡ d.now }
    ensures { IfOk result (AreForRows rows.now d.now) }
{
    rows.rows_stand_in_order();
    let mut made = Domains::new(alloc);
    let count = d.len() as u8;
    'vars: for var in 0..count {
        push_left(alloc, &mut made, rows, var, d.of(var))?;
    }
    Ok(made)
}

// Adds what is left of the domain of the next variable.
fn push_left<S: Temporal>(
    alloc: Global,
    made: &mut Domains,
    rows: &Relation<'_, S>,
    var: u8,
    ids: &[u32],
) -> Result<(), AllocError>
    requires whole { ids.now ≡ ids_of_variable rows.now.domains var }
    requires ascending { IsStrictlyIncreasing ids.now }
    requires few { OneMoreFits made.old }
    ensures { OnOk result (made.new ≡ made.old ++ ids_left rows.now.vars rows.now.rows rows.now.domains var ∷ []) }
{
    rows.rows_stand_in_order();
    if rows.is_empty() {
        made.push(alloc, &[])?;
    } else if rows.vars() == &[var][..] {
        let own = first_objects(alloc, rows)?;
        made.push(alloc, &own)?;
    } else {
        made.push(alloc, ids)?;
    }
    Ok(())
}

// The first object of each row.
fn first_objects<S: Temporal>(alloc: Global, rows: &Relation<'_, S>) -> Result<Vec<u32>, AllocError>
    ensures { IfOk result (λ ids. ids.items ≡ first_ids rows.now.rows) }
{
    let mut ids = Vec::with_capacity(alloc, rows.len())?;
    'places: for place in 0..rows.len() {
        let key = rows.key_at(place).unwrap();
        ids.push(key.get(0).unwrap_or(0))?;
    }
    Ok(ids)
}
