//! The plain set: a list of its ticks.
ghost use Rattle.std.specs.Prelude.{◌≡◌, ◌≤◌, ◌<◌, ◌+◌, ◌&&◌, ◌||◌, ◌==◌, ◌++◌, [], ◌∷◌, ℕ, true, false, length, nat_le, nat_lt, IsTrue, if◌then◌else◌, IfSome, IfNone, IfOk, OnOk, OnErr};
ghost use Rattle.tick_set.specs.Ticks.{IsTick, within};
ghost use Rattle.tick_set.specs.TickList.{has, IsAscending, IsAscendingFrom};
ghost use Rattle.tick_set.specs.SetOperation.{kept};
ghost use Rattle.tick_set.specs.Runs.{IsRuns};

use crate::{LAST_TICK, SetOperation, Span, TickSet, Window};
use std::alloc::{AllocError, Global};
use std::marker::Model;

/// A set of ticks as the ascending list of them.
#[derive(Drop)]
pub struct TickList {
    ticks: Vec<u32>,
}

impl Model for TickList {
    ghost use Rattle.std.specs.Prelude.{List, ℕ};
    ghost use Rattle.tick_set.specs.TickList.{IsAscending};

    ghost Value = { List ℕ };

    ghost view = { λ s. s.ticks.items };

    ghost invariant = { λ s. IsAscending s.ticks.items };
}

impl TickList {
    /// Adds a tick above all that are there. After an error the set is unchanged.
    pub fn push(&mut self, t: u32) -> Result<(), AllocError>
        requires above { (u : ℕ) → has self.old u ≡ true → u < t }
        requires in_range { IsTick t }
        ensures ok { OnOk result (self.new ≡ self.old ++ t ∷ []) }
        ensures members { OnOk result ((u : ℕ) → has self.new u ≡ (has self.old u || t == u)) }
        ensures err { OnErr result (self.new ≡ self.old) }
    {
        self.ticks.push(t)?;
        Ok(())
    }

    // Adds the ticks of a span that begins above all that are there.
    fn push_span(&mut self, s: Span) -> Result<(), AllocError>
        requires above { (u : ℕ) → has self.old u ≡ true → u < s.lo }
        ensures { OnOk result ((u : ℕ) → has self.new u ≡ (has self.old u || within s.lo s.hi u)) }
    {
        for t in s.lo..=s.hi {
            self.push(t)?;
        }
        Ok(())
    }

    // Adds the ticks of an ascending list from `from` up to `until`, without `until`. All that are there are
    // before `from`.
    fn push_part(&mut self, ticks: &[u32], from: u32, until: u32) -> Result<(), AllocError>
        requires ascending { IsAscending ticks.now }
        requires before { (u : ℕ) → has self.old u ≡ true → u < from }
        ensures { OnOk result ((u : ℕ) → has self.new u
            ≡ (has self.old u || (nat_le from u && nat_lt u until && has ticks.now u))) }
    {
        let mut rest = ticks;
        'ticks: while let Some((t, later)) = rest.split_first() {
            if from <= *t && *t < until {
                self.push(*t)?;
            }
            rest = later;
        }
        Ok(())
    }

    // An empty set with memory for `room` ticks.
    fn with_room(alloc: Global, room: usize) -> Result<TickList, AllocError>
        ensures { IfOk result (λ s. s ≡ []) }
    {
        Ok(TickList {
            ticks: Vec::with_capacity(alloc, room)?,
        })
    }
}

impl TickSet for TickList {
    ghost member = { has };

    fn empty(alloc: Global) -> Self {
        TickList {
            ticks: Vec::new(alloc),
        }
    }

    fn of_span(alloc: Global, s: Span) -> Result<Self, AllocError> {
        let mut made = TickList::with_room(alloc, (s.hi - s.lo) as usize + 1)?;
        made.push_span(s)?;
        Ok(made)
    }

    fn of_runs(alloc: Global, runs: &[Span]) -> Result<Self, AllocError> {
        let mut made = TickList::empty(alloc);
        let mut rest = runs;
        while let Some((s, later)) = rest.split_first() {
            made.push_span(*s)?;
            rest = later;
        }
        Ok(made)
    }

    fn has(&self, t: u32) -> bool {
        self.ticks.binary_search(&t).is_ok()
    }

    fn is_empty(&self) -> bool {
        self.ticks.is_empty()
    }

    fn equal(&self, other: &Self) -> bool {
        self.ticks.as_slice() == other.ticks.as_slice()
    }

    fn shares_tick(&self, other: &Self) -> bool {
        have_shared(&self.ticks, &other.ticks)
    }

    fn copy(&self, alloc: Global) -> Result<Self, AllocError> {
        Ok(TickList {
            ticks: Vec::from_slice(alloc, &self.ticks)?,
        })
    }

    fn union(&self, alloc: Global, other: &Self) -> Result<Self, AllocError> {
        merged(alloc, SetOperation::Union, &self.ticks, &other.ticks)
    }

    fn union_all(alloc: Global, sets: &[&Self]) -> Result<Self, AllocError> {
        let mut made = TickList::empty(alloc);
        for set in sets {
            made = made.union(alloc, set)?;
        }
        Ok(made)
    }

    fn meet(&self, alloc: Global, other: &Self) -> Result<Self, AllocError> {
        if self.is_empty() || other.is_empty() {
            return Ok(TickList::empty(alloc));
        }
        merged(alloc, SetOperation::Meet, &self.ticks, &other.ticks)
    }

    fn without(&self, alloc: Global, other: &Self) -> Result<Self, AllocError> {
        merged(alloc, SetOperation::Without, &self.ticks, &other.ticks)
    }

    fn complement(&self, alloc: Global, w: Window) -> Result<Self, AllocError> {
        TickList::of_span(alloc, w.span())?.without(alloc, self)
    }

    fn clip(&self, alloc: Global, w: Window) -> Result<Self, AllocError> {
        let mut made = TickList::empty(alloc);
        made.push_part(&self.ticks, w.lo, w.hi + 1)?;
        Ok(made)
    }

    fn splice(&self, alloc: Global, at: u32, later: &Self) -> Result<Self, AllocError> {
        let mut made = TickList::with_room(alloc, self.ticks.len() + later.ticks.len())?;
        made.push_part(&self.ticks, 0, at)?;
        made.push_part(&later.ticks, at, LAST_TICK + 1)?;
        Ok(made)
    }

    fn runs(&self, alloc: Global) -> Result<Vec<Span>, AllocError> {
        let mut spans = Vec::new(alloc);
        let mut rest = self.ticks.as_slice();
        while let Some((first, later)) = rest.split_first() {
            let (run, after) = run_from(*first, later);
            spans.push(run)?;
            rest = after;
        }
        Ok(spans)
    }
}

// Whether two ascending lists have a tick in common.
fn have_shared(first: &[u32], second: &[u32]) -> bool
    requires first { IsAscending first.now }
    requires second { IsAscending second.now }
    ensures some { IsTrue result → (t : ℕ) × ((has first.now t && has second.now t) ≡ true) }
    ensures none { result ≡ false → (t : ℕ) → (has first.now t && has second.now t) ≡ false }
{
    let mut rest_first = first;
    let mut rest_second = second;
    'both: while let (Some((t, later_first)), Some((u, later_second))) = (
        rest_first.split_first(),
        rest_second.split_first(),
    ) {
        if *t == *u {
            return true;
        }
        if *t < *u {
            rest_first = later_first;
        } else {
            rest_second = later_second;
        }
    }
    false
}

// The ticks of two ascending lists that the operation keeps.
fn merged(
    alloc: Global,
    operation: SetOperation,
    first: &[u32],
    second: &[u32],
) -> Result<TickList, AllocError>
    requires first { IsAscending first.now }
    requires second { IsAscending second.now }
    ensures { IfOk result
        (λ r. (t : ℕ) → has r t ≡ kept operation (has first.now t) (has second.now t)) }
{
    let mut made = TickList::with_room(alloc, first.len() + second.len())?;
    let mut rest_first = first;
    let mut rest_second = second;
    while let Some(t) = least(rest_first, rest_second) {
        let (in_first, later_first) = taken(rest_first, t);
        let (in_second, later_second) = taken(rest_second, t);
        if operation.keeps(in_first, in_second) {
            made.push(t)?;
        }
        rest_first = later_first;
        rest_second = later_second;
    }
    Ok(made)
}

// The least tick of two ascending lists.
fn least(first: &[u32], second: &[u32]) -> Option<u32>
    requires first { IsAscending first.now }
    requires second { IsAscending second.now }
    ensures none { IfNone result ((first.now ≡ []) × (second.now ≡ [])) }
    ensures some { IfSome result (λ t. (has first.now t || has second.now t) ≡ true) }
    ensures least { IfSome result
        (λ t. IsAscendingFrom t first.now × IsAscendingFrom t second.now) }
    ensures in_range { IfSome result (λ t. IsTick t) }
{
    match (first.first(), second.first()) {
        (Some(t), Some(u)) => Some((*t).min(*u)),
        (Some(t), None) => Some(*t),
        (None, Some(u)) => Some(*u),
        (None, None) => None,
    }
}

// Whether an ascending list begins with the tick, and what comes past it.
fn taken(ticks: &[u32], t: u32) -> (bool, &[u32])
    requires { IsAscendingFrom t ticks.now }
    ensures found { result.0 ≡ has ticks.now t }
    ensures ascending { IsAscendingFrom (t + 1) result.1.now }
    ensures others { (u : ℕ) → has result.1.now u ≡ (nat_lt t u && has ticks.now u) }
    ensures len { length result.1.now + (if result.0 then 1 else 0) ≡ length ticks.now }
{
    let Some((u, later)) = ticks.split_first() else {
        return (false, ticks);
    };
    if *u == t {
        (true, later)
    } else {
        (false, ticks)
    }
}

// The run that begins with the tick `first`, and the ticks past it. `later` are the ticks after `first`.
fn run_from(first: u32, later: &[u32]) -> (Span, &[u32])
    requires in_range { IsTick first }
    requires ascending { IsAscendingFrom (first + 1) later.now }
    ensures lo { result.0.lo ≡ first }
    ensures apart { IsAscendingFrom (result.0.hi + 2) result.1.now }
    ensures members { (u : ℕ) → (first == u || has later.now u)
        ≡ (within first result.0.hi u || has result.1.now u) }
    ensures len { length result.1.now ≤ length later.now }
{
    let mut hi = first;
    let mut rest = later;
    while let Some((t, after)) = rest.split_first() {
        if *t > hi + 1 {
            break;
        }
        hi = *t;
        rest = after;
    }
    (Span { lo: first, hi }, rest)
}
