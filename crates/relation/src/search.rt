//! Searches where numbers rise.

ghost use Rattle.std.specs.Prelude.{◌≡◌, ◌≤◌, ◌<◌, ℕ, length, slice_index, slice_index_or};
ghost use Rattle.std.specs.List.Sorted.{IsNonDecreasingBy, IsStrictlyIncreasing};
ghost use Rattle.relation.specs.Group.{IsGroup, IsNextIn, id_at, ids_at};

use crate::Row;

// How many rows come before the first whose object at the place is at least `id`.
fn below<S>(rows: &[Row<S>], place: usize, id: u64) -> usize
    ensures bound { result ≤ length rows.now }
    ensures before { IsNonDecreasingBy (id_at place) rows.now
        → (k : ℕ) (d : Row S) → k < result → id_at place (slice_index_or rows.now k d) < id }
    ensures after { IsNonDecreasingBy (id_at place) rows.now
        → (k : ℕ) (d : Row S) → result ≤ k → k < length rows.now → id ≤ id_at place (slice_index_or rows.now k d) }
{
    let mut low = 0;
    let mut high = rows.len();
    while low < high {
        let middle = low + (high - low) / 2;
        if u64::from(rows[middle].id_at(place)) < id {
            low = middle + 1;
        } else {
            high = middle;
        }
    }
    low
}

/// The rows that have the object at the place.
pub(crate) fn group<S>(rows: &[Row<S>], place: usize, id: u32) -> &[Row<S>]
    ensures { IsNonDecreasingBy (id_at place) rows.now → IsGroup place id rows.now result.now }
{
    let later = &rows[below(rows, place, u64::from(id))..];
    &later[..below(later, place, u64::from(id) + 1)]
}

/// The first object at the place that is at least `from`, if there is one.
pub(crate) fn next_in_rows<S>(rows: &[Row<S>], place: usize, from: u64) -> Option<u32>
    ensures { IsNonDecreasingBy (id_at place) rows.now → IsNextIn (ids_at place rows.now) from result }
{
    let at = below(rows, place, from);
    if at < rows.len() {
        Some(rows[at].id_at(place))
    } else {
        None
    }
}

// How many numbers come before the first that is at least `id`.
fn below_in(ids: &[u32], id: u64) -> usize
    ensures bound { result ≤ length ids.now }
    ensures before { IsStrictlyIncreasing ids.now
        → (k : ℕ) → k < result → slice_index ids.now k < id }
    ensures after { IsStrictlyIncreasing ids.now
        → (k : ℕ) → result ≤ k → k < length ids.now → id ≤ slice_index ids.now k }
{
    let mut low = 0;
    let mut high = ids.len();
    while low < high {
        let middle = low + (high - low) / 2;
        if u64::from(ids[middle]) < id {
            low = middle + 1;
        } else {
            high = middle;
        }
    }
    low
}

/// The first of ascending numbers that is at least `from`, if there is one.
pub(crate) fn next_in(ids: &[u32], from: u64) -> Option<u32>
    ensures { IsStrictlyIncreasing ids.now → IsNextIn ids.now from result }
{
    let at = below_in(ids, from);
    if at < ids.len() { Some(ids[at]) } else { None }
}
