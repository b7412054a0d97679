//! What changes of targets.
ghost use Rattle.std.specs.Prelude.{◌≡◌, ◌<◌, ◌≤◌, ◌+◌, ◌*◌, ◌/◌, ◌==◌, ◌&&◌, ◌++◌, ℕ, Bool, false, not, [], All, take, drop, length, map, option_to_list, slice_get, IfOk, IfSome, IfNone, IsOk};
ghost use Rattle.std.specs.List.{list_any};
ghost use Rattle.std.specs.Option.{option_copied};
ghost use Rattle.tick_set.specs.Runs.{pairs};
ghost use Rattle.tick_set.specs.Ticks.{within};
ghost use Rattle.kept_rows.specs.Changes.{AreRising, rows_after};
ghost use Rattle.kept_rows.specs.Listing.{lines_upto, some_row, target_has};
ghost use Rattle.kept_rows.specs.Moves.{if_moved, is_in, move_between, move_of, others};
ghost use Rattle.kept_rows.specs.Near.{AreFoundNumbers};
ghost use Rattle.kept_rows.specs.Rising.{AscendsWithin};
ghost use Rattle.kept_rows.specs.Rows.{row_has};
ghost use Rattle.kept_rows.specs.Slots.{AreIn, IsNextAt};

use crate::binding::Targets;
use crate::change::{Change, Changes};
use crate::listing::push_some;
use crate::rows::KeptRows;
use crate::slots::Slots;
use crate::turning::Turning;
use std::alloc::{AllocError, Global};
use std::marker::Model;
use tick_set::{Span, TickSet, Window, runs_are_those_of_the_list};

/// A target, by its number, whose ticks change: the runs of those that it gains and loses, and whether it enters
/// or leaves now. Contracts see the runs as their first and last ticks.
#[derive(Drop)]
pub struct Move {
    target: u32,
    gained: Vec<Span>,
    lost: Vec<Span>,
    enters: bool,
    leaves: bool,
}

impl Model for Move {
    ghost use Rattle.tick_set.specs.Runs.{pairs};
    ghost use Rattle.kept_rows.specs.Moves.{Moved};

    ghost Value = { Moved };

    ghost view = { λ a. record { target = a.target; gained = pairs a.gained.items; lost = pairs a.lost.items; enters = a.enters; leaves = a.leaves } };
}

impl Move {
    /// The number of the target.
    #[inline]
    pub fn target(&self) -> u32
        ensures { result ≡ self.now.target }
    {
        self.target
    }

    /// The runs of the ticks that it gains, ascending.
    #[inline]
    pub fn gained(&self) -> &[Span]
        ensures { pairs result.now ≡ self.now.gained }
    {
        &self.gained
    }

    /// The runs of the ticks that it loses, ascending.
    #[inline]
    pub fn lost(&self) -> &[Span]
        ensures { pairs result.now ≡ self.now.lost }
    {
        &self.lost
    }

    /// Whether it holds now and didn't before.
    #[inline]
    pub fn enters(&self) -> bool
        ensures { result ≡ self.now.enters }
    {
        self.enters
    }

    /// Whether it doesn't hold now and did before.
    #[inline]
    pub fn leaves(&self) -> bool
        ensures { result ≡ self.now.leaves }
    {
        self.leaves
    }

    /// The runs of the ticks that it gains, and of those that it loses.
    #[inline]
    pub fn into_runs(self) -> (Vec<Span>, Vec<Span>)
        ensures gained { pairs result.0.items ≡ self.gained }
        ensures lost { pairs result.1.items ≡ self.lost }
    {
        (self.gained, self.lost)
    }
}

/// The targets whose ticks in the window these changes make others, in order. A target has the ticks of the rows
/// of all its bindings. It fails only where memory is out.
pub fn moves<S: Turning>(
    alloc: Global,
    kept: &KeptRows<S>,
    changes: &Changes<S>,
    targets: Targets,
    window: Window,
    now: u32,
) -> Result<Vec<Move>, AllocError>
    requires { AreRising (targets.count * targets.width) changes.now }
    ensures { IfOk result (λ moves. moves.items
        ≡ lines_upto (move_of (target_has (row_has S.member kept.now) targets.width)
        (target_has (rows_after S.member changes.now (row_has S.member kept.now)) targets.width) window.lo window.hi now) targets.count) }
{
    let mut moves = Vec::new(alloc);
    let mut target = 0;
    let mut rest = changes.items();
    'targets: while let Some(first) = rest.first() {
        let at = first.number / targets.width;
        let count = count_below(rest, at * targets.width + targets.width);
        let (group, later) = rest.split_at(count);
        let line = move_at(alloc, kept, group, targets, at, window, now)?;
        push_some(&mut moves, line)?;
        target = at + 1;
        rest = later;
    }
    Ok(moves)
}

// How many of the changes, which ascend, have a number below `to`.
fn count_below<S>(changes: &[Change<S>], to: u32) -> usize
    requires { AreRising 4294967296 changes.now }
    ensures bound { result ≤ length changes.now }
    ensures below { All (λ change. change.number < to) (take result changes.now) }
    ensures past { All (λ change. to ≤ change.number) (drop result changes.now) }
{
    let mut count = 0;
    'changes: while let Some(change) = change_at(changes, count) {
        if change.number >= to {
            return count;
        }
        count += 1;
    }
    count
}

// The change of an index, if there is one.
#[inline]
fn change_at<S>(changes: &[Change<S>], index: usize) -> Option<&Change<S>>
    ensures { option_copied result ≡ slice_get changes.now index }
{
    changes.get(index)
}

// What changes of one target, by the changes of its rows.
fn move_at<S: Turning>(
    alloc: Global,
    kept: &KeptRows<S>,
    group: &[Change<S>],
    targets: Targets,
    target: u32,
    window: Window,
    now: u32,
) -> Result<Option<Move>, AllocError>
    requires target { target < targets.count }
    requires group { AscendsWithin (target * targets.width) (target * targets.width + targets.width) (map (λ change. change.number) group.now) }
    ensures { IfOk result (λ line. option_to_list line ≡ option_to_list
        (move_of (target_has (row_has S.member kept.now) targets.width)
        (target_has (rows_after S.member group.now (row_has S.member kept.now)) targets.width) window.lo window.hi now target)) }
{
    let from = target * targets.width;
    let to = from + targets.width;
    let changed = changed_in(alloc, kept, group, window)?;
    let left = without_others(alloc, kept, group, from, to, changed)?;
    let line = move_if_any(alloc, target, &left, now)?;
    Ok(line)
}

// The ticks of the window that the changes have and the kept rows of their numbers haven't, and the other way round.
fn changed_in<S: TickSet>(
    alloc: Global,
    kept: &KeptRows<S>,
    group: &[Change<S>],
    window: Window,
) -> Result<Changed<S>, AllocError>
    ensures gained { IfOk result (λ r. (t : ℕ) → S.member r.gained t
        ≡ (within window.lo window.hi t && (list_any (λ change. S.member change.ticks t) group.now
        && not (list_any (λ change. row_has S.member kept.now change.number t) group.now)))) }
    ensures lost { IfOk result (λ r. (t : ℕ) → S.member r.lost t
        ≡ (within window.lo window.hi t && (list_any (λ change. row_has S.member kept.now change.number t) group.now
        && not (list_any (λ change. S.member change.ticks t) group.now)))) }
{
    // A change alone is the common case, and its sets need not be copied.
    if let Some((only, later)) = group.split_first() {
        if later.is_empty() {
            return between(alloc, kept.row(only.number), &only.ticks, window);
        }
    }
    let anew = ticks_anew(alloc, group)?;
    let old = ticks_kept(alloc, kept, group)?;
    between(alloc, &old, &anew, window)
}

// The ticks of the window that the second set has and the first hasn't, and the other way round.
fn between<S: TickSet>(
    alloc: Global,
    old: &S,
    anew: &S,
    window: Window,
) -> Result<Changed<S>, AllocError>
    ensures gained { IfOk result (λ r. (t : ℕ) → S.member r.gained t
        ≡ (within window.lo window.hi t && (S.member anew.now t && not (S.member old.now t)))) }
    ensures lost { IfOk result (λ r. (t : ℕ) → S.member r.lost t
        ≡ (within window.lo window.hi t && (S.member old.now t && not (S.member anew.now t)))) }
{
    let gained = difference_in(alloc, anew, old, window)?;
    let lost = difference_in(alloc, old, anew, window)?;
    Ok(Changed { gained, lost })
}

// The ticks of the window that are in the first set and not in the second.
fn difference_in<S: TickSet>(
    alloc: Global,
    first: &S,
    second: &S,
    window: Window,
) -> Result<S, AllocError>
    ensures { IfOk result (λ s. (t : ℕ) → S.member s t
        ≡ (within window.lo window.hi t && (S.member first.now t && not (S.member second.now t)))) }
{
    let difference = first.without(alloc, second)?;
    let clipped = difference.clip(alloc, window)?;
    Ok(clipped)
}

// The ticks that a target gains and loses.
#[derive(Drop)]
struct Changed<S> {
    gained: S,
    lost: S,
}

// The ticks of the changes, put together at once.
fn ticks_anew<S: TickSet>(alloc: Global, group: &[Change<S>]) -> Result<S, AllocError>
    ensures { IfOk result (λ s. (t : ℕ) → S.member s t ≡ list_any (λ change. S.member change.ticks t) group.now) }
{
    let mut sets = Vec::with_capacity(alloc, group.len())?;
    let mut rest = group;
    'changes: while let Some((change, later)) = rest.split_first() {
        sets.push(&change.ticks)?;
        rest = later;
    }
    let ticks = S::union_all(alloc, &sets)?;
    Ok(ticks)
}

// The ticks of the kept rows of the changes' numbers, put together at once.
fn ticks_kept<S: TickSet>(
    alloc: Global,
    kept: &KeptRows<S>,
    group: &[Change<S>],
) -> Result<S, AllocError>
    ensures { IfOk result (λ s. (t : ℕ) → S.member s t ≡ list_any (λ change. row_has S.member kept.now change.number t) group.now) }
{
    let mut sets = Vec::with_capacity(alloc, group.len())?;
    let mut rest = group;
    'changes: while let Some((change, later)) = rest.split_first() {
        sets.push(kept.row(change.number))?;
        rest = later;
    }
    let ticks = S::union_all(alloc, &sets)?;
    Ok(ticks)
}

// What is left without the ticks of the target's rows that no change is of.
fn without_others<S: Turning>(
    alloc: Global,
    kept: &KeptRows<S>,
    group: &[Change<S>],
    from: u32,
    to: u32,
    changed: Changed<S>,
) -> Result<Changed<S>, AllocError>
    requires { AreRising 4294967296 group.now }
    ensures gained { IfOk result (λ left. (t : ℕ) → S.member left.gained t
        ≡ (S.member changed.gained t && not (some_row (others group.now (row_has S.member kept.now)) from to t))) }
    ensures lost { IfOk result (λ left. (t : ℕ) → S.member left.lost t
        ≡ (S.member changed.lost t && not (some_row (others group.now (row_has S.member kept.now)) from to t))) }
{
    match numbers_near(alloc, kept, from, to, &changed)? {
        Some(numbers) => without_rows(alloc, kept, group, from, to, &numbers, changed),
        None => without_all(alloc, kept, group, from, to, changed),
    }
}

// The numbers of the rows that may share a tick with what changed, where that is told.
fn numbers_near<S: Turning>(
    alloc: Global,
    kept: &KeptRows<S>,
    from: u32,
    to: u32,
    changed: &Changed<S>,
) -> Result<Option<Vec<u32>>, AllocError>
    ensures gained { IfOk result (λ numbers. IfSome numbers (λ numbers. AreFoundNumbers (S.member changed.now.gained) (row_has S.member kept.now) from to numbers.items)) }
    ensures lost { IfOk result (λ numbers. IfSome numbers (λ numbers. AreFoundNumbers (S.member changed.now.lost) (row_has S.member kept.now) from to numbers.items)) }
{
    let mut numbers = Vec::new(alloc);
    if !kept.find(from, to, &changed.gained, &mut numbers)? {
        return Ok(None);
    }
    if !kept.find(from, to, &changed.lost, &mut numbers)? {
        return Ok(None);
    }
    Ok(Some(numbers))
}

// What is left without the ticks of the rows of these numbers that no change is of, where no other row of the target has any
// that are left.
fn without_rows<S: Turning>(
    alloc: Global,
    kept: &KeptRows<S>,
    group: &[Change<S>],
    from: u32,
    to: u32,
    numbers: &[u32],
    changed: Changed<S>,
) -> Result<Changed<S>, AllocError>
    requires group { AreRising 4294967296 group.now }
    requires gained { AreFoundNumbers (S.member changed.gained) (row_has S.member kept.now) from to numbers.now }
    requires lost { AreFoundNumbers (S.member changed.lost) (row_has S.member kept.now) from to numbers.now }
    ensures gained { IfOk result (λ left. (t : ℕ) → S.member left.gained t
        ≡ (S.member changed.gained t && not (some_row (others group.now (row_has S.member kept.now)) from to t))) }
    ensures lost { IfOk result (λ left. (t : ℕ) → S.member left.lost t
        ≡ (S.member changed.lost t && not (some_row (others group.now (row_has S.member kept.now)) from to t))) }
{
    let mut left = changed;
    let mut rest = numbers;
    'rows: while let Some((number, later)) = rest.split_first() {
        if from <= *number && *number < to {
            left = without_row(alloc, kept, group, *number, left)?;
        }
        rest = later;
    }
    Ok(left)
}

// What is left without the ticks of the target's rows that no change is of. It stops where nothing is left, and looks
// only at rows that may share a slot of ticks with what changed.
fn without_all<S: Turning>(
    alloc: Global,
    kept: &KeptRows<S>,
    group: &[Change<S>],
    from: u32,
    to: u32,
    changed: Changed<S>,
) -> Result<Changed<S>, AllocError>
    requires { AreRising 4294967296 group.now }
    ensures gained { IfOk result (λ left. (t : ℕ) → S.member left.gained t
        ≡ (S.member changed.gained t && not (some_row (others group.now (row_has S.member kept.now)) from to t))) }
    ensures lost { IfOk result (λ left. (t : ℕ) → S.member left.lost t
        ≡ (S.member changed.lost t && not (some_row (others group.now (row_has S.member kept.now)) from to t))) }
{
    let slots = changed.gained.slots().or(changed.lost.slots());
    let mut left = changed;
    let mut at = from;
    'rows: while let Some(number) = next_row(kept, &left, slots, at, to) {
        left = without_row(alloc, kept, group, number, left)?;
        at = number + 1;
    }
    Ok(left)
}

// The next row that may have a tick in the slots, if something is left that it may have.
fn next_row<S: Turning>(
    kept: &KeptRows<S>,
    left: &Changed<S>,
    slots: Slots,
    from: u32,
    to: u32,
) -> Option<u32>
    requires gained { AreIn (S.member left.now.gained) slots }
    requires lost { AreIn (S.member left.now.lost) slots }
    ensures some { IfSome result (IsNextAt (row_has S.member kept.now) slots from to) }
    ensures gained { IfNone result ((t : ℕ) → (S.member left.now.gained t && some_row (row_has S.member kept.now) from to t) ≡ false) }
    ensures lost { IfNone result ((t : ℕ) → (S.member left.now.lost t && some_row (row_has S.member kept.now) from to t) ≡ false) }
{
    if left.gained.is_empty() && left.lost.is_empty() {
        return None;
    }
    kept.next_at(from, to, slots)
}

// What is left without the ticks of a row, unless a change is of it.
fn without_row<S: TickSet>(
    alloc: Global,
    kept: &KeptRows<S>,
    group: &[Change<S>],
    number: u32,
    left: Changed<S>,
) -> Result<Changed<S>, AllocError>
    requires { AreRising 4294967296 group.now }
    ensures gained { IfOk result (λ r. (t : ℕ) → S.member r.gained t
        ≡ (S.member left.gained t && not (others group.now (row_has S.member kept.now) number t))) }
    ensures lost { IfOk result (λ r. (t : ℕ) → S.member r.lost t
        ≡ (S.member left.lost t && not (others group.now (row_has S.member kept.now) number t))) }
{
    if has_number(group, number) {
        return Ok(left);
    }
    let row = kept.row(number);
    Ok(Changed {
        gained: rest_of(alloc, left.gained, row)?,
        lost: rest_of(alloc, left.lost, row)?,
    })
}

// The ticks that aren't in a row. They stay where they are, without memory, where none of them is in it.
fn rest_of<S: TickSet>(alloc: Global, ticks: S, row: &S) -> Result<S, AllocError>
    ensures rest { IfOk result (λ rest. (t : ℕ) → S.member rest t ≡ (S.member ticks t && not (S.member row.now t))) }
    ensures apart { ((t : ℕ) → (S.member ticks t && S.member row.now t) ≡ false) → IsOk result }
{
    if ticks.shares_tick(row) {
        return ticks.without(alloc, row);
    }
    Ok(ticks)
}

// Whether a change is of this number, by a binary search.
fn has_number<S>(group: &[Change<S>], number: u32) -> bool
    requires { AreRising 4294967296 group.now }
    ensures { result ≡ is_in group.now number }
{
    group
        .binary_search_by_key(&number, |change| change.number)
        .is_ok()
}

// A target with what it gains and loses, if there is something.
fn move_if_any<S: TickSet>(
    alloc: Global,
    target: u32,
    changed: &Changed<S>,
    now: u32,
) -> Result<Option<Move>, AllocError>
    ensures { IfOk result (λ line. (p q : ℕ → Bool) (lo hi : ℕ)
        → ((t : ℕ) → S.member changed.now.gained t ≡ (within lo hi t && (q t && not (p t))))
        → ((t : ℕ) → S.member changed.now.lost t ≡ (within lo hi t && (p t && not (q t))))
        → line ≡ move_between p q lo hi now target) }
{
    let gained = changed.gained.runs(alloc)?;
    let lost = changed.lost.runs(alloc)?;
    runs_are_those_of_the_list();
    let enters = changed.gained.has(now);
    let leaves = changed.lost.has(now);
    Ok(line_if_any(Move {
        target,
        gained,
        lost,
        enters,
        leaves,
    }))
}

// What changes, if there is something.
fn line_if_any(line: Move) -> Option<Move>
    ensures { result ≡ if_moved line line.gained line.lost }
{
    if line.gained.is_empty() && line.lost.is_empty() {
        return None;
    }
    Some(line)
}
