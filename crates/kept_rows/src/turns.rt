//! Until when rows stay as they are.
ghost use Rattle.std.specs.Prelude.{◌≡◌, ◌<◌, ◌≤◌, ◌+◌, ◌*◌, ◌/◌, ◌^◌, ◌==◌, ℕ, Bool, length, slice_index_or, if◌then◌else◌, IfOk, IfSome, IfNone};
ghost use Rattle.kept_rows.specs.Rows.{row_has};
ghost use Rattle.kept_rows.specs.Turning.{AreSteadyIn, AreSteadyToEnds, HaveEnds, IsSteady};
ghost use Rattle.exact.specs.Lists.{SameLength};

use crate::page::{PAGE, Page};
use crate::turning::Turning;
use std::alloc::{AllocError, Global};

// How many pages share a group.
const GROUP: usize = 64;

/// Until when the rows of a table stay what they are at a tick: a tick for each page and one for each group of pages, so
/// that the passing of time looks at few numbers, and only at the rows of pages that turn.
#[derive(Drop)]
pub(crate) struct Turns {
    /// The tick from which on the ends are told.
    pub(crate) seen: u32,
    pages: Vec<u32>,
    groups: Vec<u32>,
}

impl Turns {
    /// For so many pages without ticks.
    pub(crate) fn new(alloc: Global, pages: usize) -> Result<Turns, AllocError>
        requires { pages < 2 ^ 32 }
        ensures pages { IfOk result (λ turns. length turns.pages.items ≡ pages) }
    {
        Ok(Turns {
            seen: 0,
            pages: vec![in alloc; u32::MAX; pages]?,
            groups: vec![in alloc; u32::MAX; pages / GROUP + 1]?,
        })
    }

    /// The first number from `from` up to `to`, without `to`, whose row in these pages may turn by tick `now`.
    pub(crate) fn unsteady_from<S: Turning>(
        &self,
        pages: &[Page<S>],
        from: u32,
        to: u32,
        now: u32,
    ) -> Option<u32>
        requires { AreSteadyToEnds (row_has S.member pages.now) self.now }
        ensures least { IfSome result (λ number. from ≤ number) }
        ensures below { IfSome result (λ number. number < to) }
        ensures some { IfSome result (AreSteadyIn (row_has S.member pages.now) self.now.seen now from) }
        ensures none { IfNone result (AreSteadyIn (row_has S.member pages.now) self.now.seen now from to) }
    {
        let mut number = from as usize;
        'numbers: while number < to as usize {
            let end = self.steady_end(pages, number, now);
            if end == number {
                return Some(number as u32);
            }
            number = end;
        }
        None
    }

    // The end of the group or of the page of a number where its rows don't turn by tick `now`, the next number where the
    // number's own row doesn't, else the number.
    #[inline]
    fn steady_end<S: Turning>(&self, pages: &[Page<S>], number: usize, now: u32) -> usize
        requires small { number < 2 ^ 32 }
        requires steady { AreSteadyToEnds (row_has S.member pages.now) self.now }
        ensures least { number ≤ result }
        ensures most { result ≤ 2 ^ 33 }
        ensures steady { AreSteadyIn (row_has S.member pages.now) self.now.seen now number result }
    {
        let page = number / PAGE;
        let group = page / GROUP;
        if end_at(&self.groups, group) > now {
            (group + 1) * GROUP * PAGE
        } else if end_at(&self.pages, page) > now {
            (page + 1) * PAGE
        } else if row_end(pages, number, self.seen) > now {
            number + 1
        } else {
            number
        }
    }

    /// Notes that the row of a number is written, with ticks that stay as they are up to `end`.
    pub(crate) fn lower(&mut self, number: u32, end: u32)
        ensures seen { self.new.seen ≡ self.old.seen }
        ensures pages { SameLength self.new.pages.items self.old.pages.items }
        ensures steady { (rows : ℕ → ℕ → Bool) (ticks : ℕ → Bool) → AreSteadyToEnds rows self.old → IsSteady ticks self.old.seen end
            → AreSteadyToEnds (λ c t. if c == number then ticks t else rows c t) self.new }
    {
        let page = number as usize / PAGE;
        lower_at(&mut self.pages, page, end);
        lower_at(&mut self.groups, page / GROUP, end);
    }

    /// Tells until when the rows of these pages stay as they are from tick `now` on, if that is after the tick that
    /// was seen. It looks only into pages that turn by then.
    pub(crate) fn renew<S: Turning>(&mut self, pages: &[Page<S>], now: u32)
        requires pages { SameLength self.old.pages.items pages.now }
        requires steady { AreSteadyToEnds (row_has S.member pages.now) self.old }
        ensures pages { SameLength self.new.pages.items self.old.pages.items }
        ensures steady { AreSteadyToEnds (row_has S.member pages.now) self.new }
    {
        if now <= self.seen {
            return;
        }
        self.seen = now;
        self.renew_groups(pages);
    }

    // Tells anew until when the groups stay as they are that don't from the tick that was seen on.
    fn renew_groups<S: Turning>(&mut self, pages: &[Page<S>])
        requires pages { SameLength self.old.pages.items pages.now }
        requires steady { AreSteadyToEnds (row_has S.member pages.now) self.old }
        ensures pages { SameLength self.new.pages.items self.old.pages.items }
        ensures steady { AreSteadyToEnds (row_has S.member pages.now) self.new }
    {
        let count = self.groups.len().min(self.pages.len() / GROUP + 1);
        let mut group = 0;
        'groups: while group < count {
            self.renew_group(pages, group);
            group += 1;
        }
    }

    // Tells anew until when a group stays as it is, if it doesn't from the tick that was seen on.
    fn renew_group<S: Turning>(&mut self, pages: &[Page<S>], group: usize)
        requires there { group < length self.old.groups.items }
        requires within { group * 64 ≤ length self.old.pages.items }
        requires pages { SameLength self.old.pages.items pages.now }
        requires steady { AreSteadyToEnds (row_has S.member pages.now) self.old }
        ensures pages { SameLength self.new.pages.items self.old.pages.items }
        ensures groups { SameLength self.new.groups.items self.old.groups.items }
        ensures steady { AreSteadyToEnds (row_has S.member pages.now) self.new }
    {
        if self.groups[group] > self.seen {
            return;
        }
        let end = renew_pages(&mut self.pages, pages, group, self.seen);
        self.groups[group] = end;
    }
}

// The end of a place; 0 where there is none.
#[inline]
fn end_at(ends: &[u32], at: usize) -> u32
    ensures { result ≡ slice_index_or ends.now at 0 }
{
    match ends.get(at) {
        Some(end) => *end,
        None => 0,
    }
}

// Lowers the end of a place, if it is above this one.
fn lower_at(ends: &mut [u32], at: usize, end: u32)
    ensures len { SameLength ends.new ends.old }
    ensures lowered { slice_index_or ends.new at 0 ≤ end }
    ensures others { (i : ℕ) → slice_index_or ends.new i 0 ≤ slice_index_or ends.old i 0 }
{
    if end_at(ends, at) > end {
        ends[at] = end;
    }
}

// A tick up to which, from tick `seen` on and without it, the row of a number stays as it is.
#[inline]
fn row_end<S: Turning>(pages: &[Page<S>], number: usize, seen: u32) -> u32
    ensures { IsSteady (row_has S.member pages.now number) seen result }
{
    match pages.get(number / PAGE) {
        Some(page) => page.steady_until(number % PAGE, seen),
        None => u32::MAX,
    }
}

// Tells anew until when the pages of a group stay as they are that don't from tick `seen` on, and gives the least of
// the group's ends.
fn renew_pages<S: Turning>(ends: &mut [u32], pages: &[Page<S>], group: usize, seen: u32) -> u32
    requires within { group * 64 ≤ length ends.old }
    requires len { SameLength ends.old pages.now }
    requires steady { HaveEnds 16 (row_has S.member pages.now) seen ends.old }
    ensures len { SameLength ends.new ends.old }
    ensures steady { HaveEnds 16 (row_has S.member pages.now) seen ends.new }
    ensures least { (i : ℕ) → group * 64 ≤ i → i < group * 64 + 64 → i < length ends.new → result ≤ slice_index_or ends.new i 0 }
{
    let mut least = u32::MAX;
    let mut at = group * GROUP;
    let to = ends.len().min(at + GROUP);
    'pages: while at < to {
        renew_page(ends, pages, at, seen);
        least = least.min(ends[at]);
        at += 1;
    }
    least
}

// Tells anew until when a page stays as it is, if it doesn't from tick `seen` on.
fn renew_page<S: Turning>(ends: &mut [u32], pages: &[Page<S>], at: usize, seen: u32)
    requires there { at < length ends.old }
    requires len { SameLength ends.old pages.now }
    requires steady { HaveEnds 16 (row_has S.member pages.now) seen ends.old }
    ensures len { SameLength ends.new ends.old }
    ensures others { (i : ℕ) → i < at → slice_index_or ends.new i 0 ≡ slice_index_or ends.old i 0 }
    ensures steady { HaveEnds 16 (row_has S.member pages.now) seen ends.new }
{
    if ends[at] <= seen {
        ends[at] = pages[at].all_steady_until(seen);
    }
}
