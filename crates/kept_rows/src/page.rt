//! Pages: the sets of 16 numbers one after another.
ghost use Rattle.std.specs.Prelude.{◌≡◌, ◌<◌, ◌≤◌, ◌==◌, ◌||◌, ℕ, [], true, false, length, slice_get, slice_set, if◌then◌else◌, IfOk, IfSome, IfNone};
ghost use Rattle.std.specs.Option.{option_copied};
ghost use Rattle.tick_set.specs.Ticks.{within};
ghost use Rattle.kept_rows.specs.Listing.{IsNext};
ghost use Rattle.kept_rows.specs.Rows.{IsBlankPage, IsPage, is_whole, page_has};
ghost use Rattle.kept_rows.specs.Slots.{AreIn};
ghost use Rattle.kept_rows.specs.Turning.{IsSteady};

use crate::near::Ends;
use crate::slots::Slots;
use crate::turning::Turning;
use std::alloc::{AllocError, Global};
use std::marker::Model;
use tick_set::TickSet;

/// How many numbers share a page.
pub(crate) const PAGE: usize = 16;

/// The sets of the numbers of a page, or none of them where the page isn't made. An empty set stands for a
/// number without a row.
#[derive(Drop)]
pub(crate) struct Page<S> {
    cells: Vec<S>,
}

impl<S> Model for Page<S> {
    ghost use Rattle.std.specs.Prelude.{List};
    ghost use Rattle.kept_rows.specs.Rows.{IsPage};

    ghost Value = { List S };

    ghost view = { λ a. a.cells.items };

    ghost invariant = { λ a. IsPage a.cells.items };
}

impl<S: TickSet> Page<S> {
    /// A page that isn't made. It takes no memory.
    pub(crate) fn none(alloc: Global) -> Page<S>
        ensures { result ≡ [] }
    {
        Page {
            cells: Vec::new(alloc),
        }
    }

    /// A page of sets without ticks.
    pub(crate) fn blank(alloc: Global) -> Result<Page<S>, AllocError>
        ensures whole { IfOk result (λ page. is_whole page ≡ true) }
        ensures empty { IfOk result (λ page. IsBlankPage S.member page) }
    {
        let mut cells = Vec::with_capacity(alloc, PAGE)?;
        'cells: while cells.len() < PAGE {
            cells.push(S::empty(alloc))?;
        }
        Ok(Page { cells })
    }

    /// Whether the page is made.
    #[inline]
    pub(crate) fn is_made(&self) -> bool
        ensures { result ≡ is_whole self.now }
    {
        self.cells.len() == PAGE
    }

    /// The set at a place, from 0 to 15, if the page is made.
    #[inline]
    pub(crate) fn get(&self, at: usize) -> Option<&S>
        ensures value { option_copied result ≡ slice_get self.now at }
        ensures page { IsPage self.now }
    {
        self.cells.get(at)
    }

    /// The first place, from `from` on, whose set has a tick.
    pub(crate) fn next(&self, from: usize) -> Option<usize>
        ensures some { IfSome result (λ at. IsNext (page_has S.member self.now) from 16 at) }
        ensures none { IfNone result ((i t : ℕ) → from ≤ i → page_has S.member self.now i t ≡ false) }
    {
        let mut at = from;
        'cells: while let Some(ticks) = self.get(at) {
            if !ticks.is_empty() {
                return Some(at);
            }
            at += 1;
        }
        None
    }

    /// Writes a set at a place from 0 to 15. Where the page isn't made it is the spare one, which has no ticks.
    pub(crate) fn put(&mut self, at: usize, ticks: S, spare: Page<S>)
        requires at { at < 16 }
        requires page { (is_whole self.old || is_whole spare) ≡ true }
        requires blank { IsBlankPage S.member spare }
        ensures whole { is_whole self.new ≡ true }
        ensures has { (i t : ℕ) → page_has S.member self.new i t
            ≡ (if i == at then S.member ticks t else page_has S.member self.old i t) }
    {
        self.make(spare);
        self.write(at, ticks);
    }

    // Puts the spare page, which has no ticks, in the place of one that isn't made.
    fn make(&mut self, spare: Page<S>)
        requires page { (is_whole self.old || is_whole spare) ≡ true }
        requires blank { IsBlankPage S.member spare }
        ensures whole { is_whole self.new ≡ true }
        ensures has { (i t : ℕ) → page_has S.member self.new i t ≡ page_has S.member self.old i t }
    {
        if !self.is_made() {
            *self = spare;
        }
    }

    // Writes a set into a page that is made.
    fn write(&mut self, at: usize, ticks: S)
        requires at { at < 16 }
        requires page { is_whole self.old ≡ true }
        ensures whole { is_whole self.new ≡ true }
        ensures has { (i t : ℕ) → page_has S.member self.new i t
            ≡ (if i == at then S.member ticks t else page_has S.member self.old i t) }
    {
        self.cells[at] = ticks;
    }
}

impl<S: Turning> Page<S> {
    /// A tick up to which, from `t` on and without it, a place has what it has at `t`.
    pub(crate) fn steady_until(&self, at: usize, t: u32) -> u32
        ensures { IsSteady (page_has S.member self.now at) t result }
    {
        match self.get(at) {
            Some(ticks) => ticks.steady_until(t),
            None => u32::MAX,
        }
    }

    /// A tick up to which, from `t` on and without it, each place has what it has at `t`.
    pub(crate) fn all_steady_until(&self, t: u32) -> u32
        ensures { (i : ℕ) → IsSteady (page_has S.member self.now i) t result }
    {
        let mut end = u32::MAX;
        let mut at = 0;
        'cells: while let Some(ticks) = self.get(at) {
            end = end.min(ticks.steady_until(t));
            at += 1;
        }
        end
    }

    /// The first and the last tick of a place.
    pub(crate) fn ends(&self, at: usize) -> Option<Ends>
        ensures some { IfSome result (λ ends. (t : ℕ) → page_has S.member self.now at t ≡ true → within ends.lo ends.hi t ≡ true) }
        ensures none { IfNone result ((t : ℕ) → page_has S.member self.now at t ≡ false) }
    {
        match self.get(at) {
            Some(ticks) => ticks.ends(),
            None => None,
        }
    }

    /// The slots of the ticks of all places.
    pub(crate) fn all_slots(&self) -> Slots
        ensures { (i : ℕ) → AreIn (page_has S.member self.now i) result }
    {
        let mut slots = Slots::none();
        let mut at = 0;
        'cells: while let Some(ticks) = self.get(at) {
            slots = slots.or(ticks.slots());
            at += 1;
        }
        slots
    }

    /// The slots of the ticks of a place.
    pub(crate) fn slots(&self, at: usize) -> Slots
        ensures { AreIn (page_has S.member self.now at) result }
    {
        match self.get(at) {
            Some(ticks) => ticks.slots(),
            None => Slots::none(),
        }
    }
}
