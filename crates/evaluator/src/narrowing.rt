//! Domains with one object alone for some variables.

ghost use Rattle.std.specs.Prelude.{◌≡◌, ◌<◌, ◌∷◌, ◌++◌, [], IfOk, OnOk};
ghost use Rattle.std.specs.List.Sorted.{IsStrictlyIncreasing};
ghost use Rattle.std.specs.Option.{option_map_or};
ghost use Rattle.formula_shape.specs.Sizes.{OneMoreFits};
ghost use Rattle.evaluator.specs.Keys.{AreNarrowed};

use crate::variables::object_in;
use formula::Binding;
use relation::Domains;
use std::alloc::{AllocError, Global};

// The domains where the variables of a key have its objects alone.
pub(crate) fn narrowed(
    alloc: Global,
    d: &Domains,
    vars: &[u8],
    key: &Binding,
) -> Result<Domains, AllocError>
    ensures { IfOk result (λ n. AreNarrowed d.now vars.now key.now n) }
{
    let mut made = Domains::new(alloc);
    let count = d.len() as u8;
    'vars: for var in 0..count {
        let id = object_in(vars, key.ids(), var);
        push_ids(alloc, &mut made, id, d.of(var))?;
    }
    Ok(made)
}

// Adds the domain of the next variable: the object alone, if there is one.
fn push_ids(
    alloc: Global,
    made: &mut Domains,
    id: Option<u32>,
    ids: &[u32],
) -> Result<(), AllocError>
    requires ascending { IsStrictlyIncreasing ids.now }
    requires few { OneMoreFits made.old }
    ensures { OnOk result (made.new ≡ made.old ++ option_map_or (λ i. i ∷ []) id ids.now ∷ []) }
{
    match id {
        Some(id) => made.push(alloc, &[id])?,
        None => made.push(alloc, ids)?,
    }
    Ok(())
}
