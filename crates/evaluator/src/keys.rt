//! All keys of a list of variables.

ghost use Rattle.std.specs.Prelude.{◌≡◌, ◌<◌, ◌≤◌, ◌∷◌, ◌++◌, ◌+◌, [], true, length, map, nat_lt, IfOk, OnOk};
ghost use Rattle.std.specs.List.{flat_map, list_all};
ghost use Rattle.formula_shape.specs.declared.limits.TheConstants.{OBJECT_LIMIT};
ghost use Rattle.formula_shape.specs.Sizes.{FitInQuery, OneMoreFits};
ghost use Rattle.relation.specs.Key.{are_known};
ghost use Rattle.evaluator.specs.Keys.{AreKeys};

use formula::Binding;
use relation::{Domains, Few};
use std::alloc::{AllocError, Global};

// The keys of these variables: each choice of an object of each one's domain, ascending.
pub(crate) fn keys_of(alloc: Global, d: &Domains, vars: &[u8]) -> Result<Few<Binding>, AllocError>
    requires known { are_known d.now vars.now ≡ true }
    requires few { FitInQuery vars.now }
    ensures { IfOk result (λ keys. AreKeys d.now vars.now keys) }
{
    let Some((var, vars)) = vars.split_first() else {
        return Ok(Few::one(Binding::new()));
    };
    let later = keys_of(alloc, d, vars)?;
    let keys = keys_with(alloc, d.of(*var), later.items())?;
    Ok(keys)
}

// These keys with each of these objects in front.
fn keys_with(alloc: Global, ids: &[u32], later: &[Binding]) -> Result<Few<Binding>, AllocError>
    requires { list_all (λ key. nat_lt (length key) OBJECT_LIMIT) later.now ≡ true }
    ensures { IfOk result (λ keys. keys ≡ flat_map (λ id. map (λ key. id ∷ key) later.now) ids.now) }
{
    if let ([id], [key]) = (ids, later) {
        return Ok(Few::one(with_first(*id, key)));
    }
    let mut keys = Vec::with_capacity(alloc, ids.len())?;
    'ids: for id in ids {
        push_each(&mut keys, *id, later)?;
    }
    Ok(Few::from_vec(keys))
}

// Adds each of these keys with an object in front.
fn push_each(keys: &mut Vec<Binding>, id: u32, later: &[Binding]) -> Result<(), AllocError>
    requires { list_all (λ key. nat_lt (length key) OBJECT_LIMIT) later.now ≡ true }
    ensures { OnOk result (keys.new.items ≡ keys.old.items ++ map (λ key. id ∷ key) later.now) }
{
    'keys: for key in later {
        keys.push(with_first(id, key))?;
    }
    Ok(())
}

// A key with an object in front.
pub(crate) fn with_first(id: u32, key: &Binding) -> Binding
    requires { OneMoreFits key.now }
    ensures { result ≡ id ∷ key.now }
{
    let mut made = Binding::new();
    made.push(id);
    match key.ids() {
        [] => {}
        // Most keys have one or two objects: a loop would be a call that copies memory.
        [later] => made.push(*later),
        ids => add_ids(&mut made, ids),
    }
    made
}

// Adds these objects.
fn add_ids(made: &mut Binding, ids: &[u32])
    requires { length made.old + length ids.now ≤ OBJECT_LIMIT }
    ensures { made.new ≡ made.old ++ ids.now }
{
    'ids: for id in ids {
        made.push(*id);
    }
}
