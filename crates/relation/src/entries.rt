//! The sets of rows under other keys.

ghost use Rattle.std.specs.Prelude.{◌≡◌, ◌≤◌, ◌<◌, ◌&&◌, ℕ, Bool, true, false, [], length, take, slice_get, slice_index_or, IfOk, OnOk};
ghost use Rattle.std.specs.List.{list_all, list_any};
ghost use Rattle.std.specs.Str.{bytes_eq};
ghost use Rattle.relation.specs.Entries.{AreEntries, HasGathered, IsBefore, any_has, optional_row_has};

use crate::{Relation, Row};
use formula::Binding;
use std::alloc::{AllocError, Global};
use until_merge::Temporal;

// A key, and the place of the row that has the set for it.
#[derive(Clone, Copy)]
pub(crate) struct Entry {
    pub(crate) key: Binding,
    pub(crate) place: usize,
}

// Adds a row for each key of ascending entries, with the ticks of all its sets.
pub(crate) fn put_groups<S: Temporal>(
    alloc: Global,
    made: &mut Relation<'_, S>,
    rows: &[Row<S>],
    entries: &[Entry],
) -> Result<(), AllocError>
    requires entries { AreEntries S.member rows.now made.old.domains made.old.vars made.old.lo made.old.hi entries.now }
    requires above { IsBefore made.old.rows entries.now }
    ensures { OnOk result (HasGathered S.member rows.now entries.now made.old made.new) }
{
    let mut rest = entries;
    'groups: while let Some(first) = rest.first() {
        let count = same_keys(rest, &first.key);
        let set = united(alloc, rows, &rest[..count])?;
        made.put(first.key, set)?;
        rest = &rest[count..];
    }
    Ok(())
}

// How many of the first entries have the key.
fn same_keys(entries: &[Entry], key: &Binding) -> usize
    ensures bound { result ≤ length entries.now }
    ensures same { list_all (λ e. bytes_eq e.key key.now) (take result entries.now) ≡ true }
    ensures next { (d : Entry) → result < length entries.now
        → bytes_eq (slice_index_or entries.now result d).key key.now ≡ false }
{
    let mut count = 0;
    while count < entries.len() && entries[count].key.same(key) {
        count += 1;
    }
    count
}

// The ticks of all sets. Halves are united, so that no set is copied more often than a logarithm says.
fn united<S: Temporal>(alloc: Global, rows: &[Row<S>], entries: &[Entry]) -> Result<S, AllocError>
    ensures { IfOk result (λ s. (t : ℕ) → S.member s t ≡ any_has S.member rows.now entries.now t) }
{
    if entries.len() < 2 {
        return first_or_empty(alloc, rows, entries);
    }
    let (front, back) = entries.split_at(entries.len() / 2);
    let left = united(alloc, rows, front)?;
    let right = united(alloc, rows, back)?;
    left.union(alloc, &right)
}

// The ticks of the only set, if there is one.
fn first_or_empty<S: Temporal>(
    alloc: Global,
    rows: &[Row<S>],
    entries: &[Entry],
) -> Result<S, AllocError>
    requires { length entries.now < 2 }
    ensures { IfOk result (λ s. (t : ℕ) → S.member s t ≡ any_has S.member rows.now entries.now t) }
{
    match entries.first() {
        Some(entry) => copy_at(alloc, rows, entry.place),
        None => Ok(S::empty(alloc)),
    }
}

// The ticks of the row at a place, if there is one.
fn copy_at<S: Temporal>(alloc: Global, rows: &[Row<S>], place: usize) -> Result<S, AllocError>
    ensures { IfOk result (λ s. (t : ℕ) → S.member s t ≡ optional_row_has S.member (slice_get rows.now place) t) }
{
    match rows.get(place) {
        Some(row) => row.set.copy(alloc),
        None => Ok(S::empty(alloc)),
    }
}
