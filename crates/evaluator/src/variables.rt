//! Variables, and what keys have for them.

ghost use Rattle.std.specs.Prelude.{◌≡◌, ◌<◌, ◌≤◌, ◌∷◌, ◌++◌, [], length, map, slice_index, unwrap_or};
ghost use Rattle.relation.specs.Key.{has_id};
ghost use Rattle.evaluator.specs.Keys.{are_first, binding_of, object_in};

use formula::Binding;

// Whether a variable is one of these. There are few, so that each is looked at in place.
#[inline]
pub(crate) fn has_variable(vars: &[u8], var: u8) -> bool
    ensures { result ≡ has_id vars.now var }
{
    let mut rest = vars;
    while let Some((first, later)) = rest.split_first() {
        if *first == var {
            return true;
        }
        rest = later;
    }
    false
}

// The object that a key has for a variable, if it is one of the key's variables.
pub(crate) fn object_in(vars: &[u8], key: &[u32], var: u8) -> Option<u32>
    ensures { result ≡ object_in vars.now key.now var }
{
    let (Some((first, vars)), Some((id, key))) = (vars.split_first(), key.split_first()) else {
        return None;
    };
    if *first == var {
        Some(*id)
    } else {
        object_in(vars, key, var)
    }
}

// A binding that has the objects of a key at the places of its variables, and object 0 at the others.
pub(crate) fn binding_of(vars: &[u8], key: &Binding) -> Binding
    ensures { result ≡ binding_of vars.now key.now }
{
    let ids = key.ids();
    let mut made = Binding::new();
    made.push(object_in(vars, ids, 0).unwrap_or(0));
    made.push(object_in(vars, ids, 1).unwrap_or(0));
    made.push(object_in(vars, ids, 2).unwrap_or(0));
    made.push(object_in(vars, ids, 3).unwrap_or(0));
    made
}

// A binding that has the objects of a key at the places of its variables, and object 0 at the others. Where these are
// the first variables the key is one.
#[tactic(auto, using(crate::proofs::BindingLemmas::first_binding))]
pub(crate) fn binding_at(vars: &[u8], key: &Binding) -> Binding
    ensures { slice_index result ≡ slice_index (binding_of vars.now key.now) }
{
    if are_first(vars) && key.len() == vars.len() {
        return *key;
    }
    binding_of(vars, key)
}

// Whether these are the first one or two variables in their order.
fn are_first(vars: &[u8]) -> bool
    ensures { result ≡ are_first vars.now }
{
    match vars {
        [a] => *a == 0,
        [a, b] => *a == 0 && *b == 1,
        _ => false,
    }
}
