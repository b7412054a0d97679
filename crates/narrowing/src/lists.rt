//! Ascending lists of ids.
ghost use Rattle.std.specs.Prelude.{◌≡◌, ℕ, true, ◌||◌, ◌++◌, ◌∷◌, [], Some, IfOk, IfSome, IsTrue, OnOk};
ghost use Rattle.std.specs.List.{filter};
ghost use Rattle.std.specs.List.Sorted.{IsStrictlyIncreasing};
ghost use Rattle.relation.specs.Key.{has_id};

use std::alloc::{AllocError, Global};

/// The ids of the first list that are in the second too.
pub(crate) fn common(alloc: Global, ids: &[u32], others: &[u32]) -> Result<Vec<u32>, AllocError>
    requires { IsStrictlyIncreasing others.now }
    ensures { IfOk result (λ both. both.items ≡ filter (has_id others.now) ids.now) }
{
    let mut both = Vec::new(alloc);
    'ids: for id in ids {
        push_if(&mut both, *id, others)?;
    }
    Ok(both)
}

/// Appends an id that is in a list.
fn push_if(both: &mut Vec<u32>, id: u32, others: &[u32]) -> Result<(), AllocError>
    requires { IsStrictlyIncreasing others.now }
    ensures { OnOk result (both.new.items ≡ both.old.items ++ filter (has_id others.now) (id ∷ [])) }
{
    if has(others, id) {
        both.push(id)?;
    }
    Ok(())
}

/// Whether an id is in a list.
fn has(ids: &[u32], id: u32) -> bool
    requires { IsStrictlyIncreasing ids.now }
    ensures { result ≡ has_id ids.now id }
{
    if stands_in_turn(ids, id) {
        return true;
    }
    ids.binary_search(&id).is_ok()
}

/// Whether an id stands where it would if no number were left out between the first id and it, as in most classes.
fn stands_in_turn(ids: &[u32], id: u32) -> bool
    ensures { IsTrue result → has_id ids.now id ≡ true }
{
    if ids.is_empty() || id < ids[0] {
        return false;
    }
    let place = (id - ids[0]) as usize;
    if ids.len() <= place {
        return false;
    }
    ids[place] == id
}

/// The ids of two lists, ascending and each once.
pub(crate) fn merged(ids: Vec<u32>, others: &[u32]) -> Result<Vec<u32>, AllocError>
    ensures ascending { IfOk result (λ all. IsStrictlyIncreasing all.items) }
    ensures all { IfOk result (λ all. (id : ℕ) → has_id all.items id ≡ (has_id ids.items id || has_id others.now id)) }
{
    let mut all = ids;
    all.extend_from_slice(others)?;
    Ok(in_order(all))
}

/// The same ids, ascending and each once.
pub(crate) fn in_order(ids: Vec<u32>) -> Vec<u32>
    ensures ascending { IsStrictlyIncreasing result.items }
    ensures all { (id : ℕ) → has_id result.items id ≡ has_id ids.items id }
{
    let mut all = ids;
    all.sort_unstable();
    all.dedup();
    all
}

/// The ids, where there are at most so many.
pub(crate) fn if_at_most(found: Option<Vec<u32>>, most: usize) -> Option<Vec<u32>>
    ensures { IfSome result (λ ids. found ≡ Some ids) }
{
    match found {
        Some(ids) if ids.len() <= most => Some(ids),
        _ => None,
    }
}
