//! The rows of all bindings, as a table of pages by number.
ghost use Rattle.std.specs.Prelude.{◌≡◌, ◌<◌, ◌≤◌, ◌*◌, ◌/◌, ◌^◌, ◌==◌, ◌||◌, ℕ, [], true, false, length, slice_index_or, if◌then◌else◌, IfOk, IfSome, IfNone, OnErr, OnOk};
ghost use Rattle.std.specs.Option.{SomeIff};
ghost use Rattle.tick_set.specs.TickList.{has};
ghost use Rattle.kept_rows.specs.Listing.{HaveNone, IsNext};
ghost use Rattle.kept_rows.specs.Rows.{HasRoom, IsBlankPage, is_made, is_whole, row_has};
ghost use Rattle.kept_rows.specs.Slots.{HaveNoneAt, IsNextAt};
ghost use Rattle.kept_rows.specs.Turning.{AgreeBetween, IsNextDiffering};
ghost use Rattle.exact.specs.Lists.{SameLength};

use crate::change::spare_page;
use crate::filled::Filled;
use crate::flags::Flags;
use crate::marks::Marks;
use crate::near::{Asked, Near};
use crate::page::{PAGE, Page};
use crate::slots::Slots;
use crate::turning::Turning;
use crate::turns::Turns;
use std::alloc::{AllocError, Global};
use std::marker::Model;
use tick_set::TickSet;

/// A set of ticks for each number of a binding; the empty one where a binding has no row. Numbers share pages
/// of 16, and a page takes memory from its first row on.
#[derive(Drop)]
pub struct KeptRows<S: TickSet> {
    pages: Vec<Page<S>>,
    // Which groups of numbers may have a row.
    filled: Filled,
    // Lent for a number whose page isn't made.
    nothing: S,
    // Until when the rows stay as they are: what time passes over.
    turns: Turns,
    // In which slots the rows may have ticks, where that is told.
    marks: Marks,
    // Near which ticks the rows of a target are, where that is told.
    near: Near,
    // Which numbers have a row with ticks. They stand last, beside what a query has after its rows.
    flags: Flags,
}

impl<S: TickSet> Model for KeptRows<S> {
    ghost use Rattle.std.specs.Prelude.{◌≡◌, ◌*◌, ℕ, List, false, length};
    ghost use Rattle.kept_rows.specs.Filled.{AreFilled};
    ghost use Rattle.kept_rows.specs.Flags.{AreFlagged};
    ghost use Rattle.kept_rows.specs.Near.{AreInBuckets};
    ghost use Rattle.kept_rows.specs.Rows.{row_has};
    ghost use Rattle.kept_rows.specs.Slots.{AreMarked};
    ghost use Rattle.kept_rows.specs.Turning.{AreSteadyToEnds};

    ghost Value = { List (List S) };

    ghost view = { λ a. a.pages.items };

    ghost invariant = { λ a. ((t : ℕ) → S.member a.nothing t ≡ false)
        × (length a.turns.pages.items ≡ length a.pages.items)
        × AreSteadyToEnds (row_has S.member a.pages.items) a.turns
        × AreFilled (row_has S.member a.pages.items) a.filled
        × AreMarked (row_has S.member a.pages.items) a.marks
        × AreFlagged (row_has S.member a.pages.items) a.flags
        × AreInBuckets (row_has S.member a.pages.items) a.near };
}

impl<S: TickSet> KeptRows<S> {
    /// A table for the numbers below `size`, without rows. It takes some 1.9 bytes for each number.
    pub fn new(alloc: Global, size: u32) -> Result<KeptRows<S>, AllocError>
        ensures room { IfOk result (λ rows. HasRoom rows size) }
        ensures none { IfOk result (λ rows. (c t : ℕ) → row_has S.member rows c t ≡ false) }
    {
        let pages = unmade(alloc, size as usize / PAGE + 1)?;
        let turns = Turns::new(alloc, pages.len())?;
        let filled = Filled::new(alloc, pages.len() * PAGE)?;
        let flags = Flags::new(alloc, pages.len() * PAGE)?;
        Ok(KeptRows {
            pages,
            filled,
            flags,
            nothing: S::empty(alloc),
            turns,
            marks: Marks::none(alloc),
            near: Near::none(alloc),
        })
    }

    /// The ticks of the row of a number. It takes no memory.
    #[inline]
    pub fn row(&self, number: u32) -> &S
        ensures { (t : ℕ) → S.member result.now t ≡ row_has S.member self.now number t }
    {
        let at = number as usize;
        match self.pages.get(at / PAGE) {
            Some(page) => page.get(at % PAGE).unwrap_or(&self.nothing),
            None => &self.nothing,
        }
    }

    /// Whether the row of a number has no tick, as a flag tells without a look at the row.
    #[inline]
    pub fn is_clear(&self, number: u32) -> bool
        ensures { result ≡ true → (t : ℕ) → row_has S.member self.now number t ≡ false }
    {
        self.flags.is_unset(number)
    }

    /// The first of the numbers from `from` up to `to`, without `to`, whose row has a tick.
    pub fn next(&self, from: u32, to: u32) -> Option<u32>
        ensures some { IfSome result (IsNext (row_has S.member self.now) from to) }
        ensures none { IfNone result (HaveNone (row_has S.member self.now) from to) }
    {
        let mut number = self.filled.past_none(from as usize, to);
        'pages: while let Some(page) = self.page_below(number / PAGE, to) {
            if let Some(found) = page.next(number % PAGE) {
                return number_below(number / PAGE * PAGE + found, to);
            }
            number = self.filled.past_none((number / PAGE + 1) * PAGE, to);
        }
        None
    }

    // The page of an index, if its first number is below `to`.
    fn page_below(&self, page_at: usize, to: u32) -> Option<&Page<S>>
        requires { page_at < 2 ^ 40 }
        ensures some { IfSome result (λ page. (page_at * 16 < to) × (page.now ≡ slice_index_or self.now page_at [])) }
        ensures none { IfNone result ((c t : ℕ) → page_at * 16 ≤ c → c < to → row_has S.member self.now c t ≡ false) }
    {
        if page_at * PAGE >= to as usize {
            return None;
        }
        self.pages.get(page_at)
    }

    /// Whether the page of a number is made.
    #[inline]
    pub(crate) fn has_page(&self, number: u32) -> bool
        ensures { result ≡ is_made self.now number }
    {
        match self.pages.get(number as usize / PAGE) {
            Some(page) => page.is_made(),
            None => false,
        }
    }
}

impl<S: Turning> KeptRows<S> {
    /// The first of the numbers from `from` up to `to`, without `to`, whose row may be another at tick `now` than at
    /// tick `before`: what stands before it is the same. It passes over pages that [`KeptRows::advance`] found to
    /// stay as they are.
    pub fn next_turning(&self, from: u32, to: u32, before: u32, now: u32) -> Option<u32>
        ensures some { IfSome result (IsNextDiffering (λ c. row_has S.member self.now c before) (λ c. row_has S.member self.now c now) from to) }
        ensures none { IfNone result (AgreeBetween (λ c. row_has S.member self.now c before) (λ c. row_has S.member self.now c now) from to) }
    {
        if before < self.turns.seen || now < before {
            return self.next(from, to);
        }
        self.turns.unsteady_from(&self.pages, from, to, now)
    }

    /// The first of the numbers from `from` up to `to`, without `to`, whose row may have a tick in the slots. It passes
    /// over the rows that have none where [`KeptRows::mark`] was called, else over those without a tick.
    pub fn next_at(&self, from: u32, to: u32, slots: Slots) -> Option<u32>
        ensures some { IfSome result (IsNextAt (row_has S.member self.now) slots from to) }
        ensures none { IfNone result (HaveNoneAt (row_has S.member self.now) slots from to) }
    {
        if self.marks.is_empty() {
            return self.next(from, to);
        }
        self.marks.next(&self.pages, from, to, slots)
    }

    /// Adds the numbers from `from` up to `to`, without `to`, whose rows share a tick with these, and maybe some others of
    /// them. Answers whether these are all, as they may be where [`KeptRows::file`] was called for a target of these numbers.
    pub(crate) fn find(
        &self,
        from: u32,
        to: u32,
        ticks: &S,
        found: &mut Vec<u32>,
    ) -> Result<bool, AllocError>
        ensures more { OnOk result ((c : ℕ) → has found.old.items c ≡ true → has found.new.items c ≡ true) }
        ensures all { IfOk result (λ is_all. is_all ≡ true → (c t : ℕ) → from ≤ c → c < to
            → S.member ticks.now t ≡ true → row_has S.member self.now c t ≡ true → has found.new.items c ≡ true) }
    {
        match ticks.ends() {
            Some(ends) => self.near.find(Asked { from, to, ends }, found),
            None => Ok(true),
        }
    }

    /// Writes the row of a number, into the spare page where the number's page isn't made.
    pub(crate) fn put(&mut self, number: u32, ticks: S, spare: Page<S>)
        requires there { number / 16 < length self.old }
        requires page { (is_made self.old number || is_whole spare) ≡ true }
        requires blank { IsBlankPage S.member spare }
        ensures len { SameLength self.new self.old }
        ensures made { (c : ℕ) → is_made self.old c ≡ true → is_made self.new c ≡ true }
        ensures rows { (c t : ℕ) → row_has S.member self.new c t
            ≡ (if c == number then S.member ticks t else row_has S.member self.old c t) }
    {
        let before = self.row(number).ends();
        let end = ticks.steady_until(self.turns.seen);
        let at = number as usize;
        self.turns.lower(number, end);
        let has_ticks = !ticks.is_empty();
        self.filled.note(at, has_ticks);
        self.flags.note(number, has_ticks);
        self.near.refile(number, before, ticks.ends());
        let page = &mut self.pages[at / PAGE];
        page.put(at % PAGE, ticks, spare);
        self.marks.renew(&self.pages, at / PAGE);
    }

    /// Writes the row of a number. It takes memory only for a page that isn't made yet; on error nothing has changed.
    pub fn set_row(&mut self, alloc: Global, number: u32, ticks: S) -> Result<(), AllocError>
        requires { number / 16 < length self.old }
        ensures len { SameLength self.new self.old }
        ensures rows { OnOk result ((c t : ℕ) → row_has S.member self.new c t
            ≡ (if c == number then S.member ticks t else row_has S.member self.old c t)) }
        ensures err { OnErr result (self.new ≡ self.old) }
    {
        let spare = spare_page(alloc, self, number)?;
        self.put(number, ticks, spare);
        Ok(())
    }

    /// Notes of each page in which slots its rows have ticks, so that [`KeptRows::next_at`] looks only into pages that may
    /// have some in the slots. It takes half a byte for each number. No row changes.
    pub fn mark(&mut self, alloc: Global) -> Result<(), AllocError>
        ensures { self.new ≡ self.old }
    {
        self.marks = Marks::new(alloc, &self.pages)?;
        Ok(())
    }

    /// Notes for targets of so many numbers near which ticks their rows are, so that [`KeptRows::find`] tells which of them have
    /// some ticks. It takes some 16 bytes for each number. No row changes.
    pub fn file(&mut self, alloc: Global, width: u32) -> Result<(), AllocError>
        ensures { self.new ≡ self.old }
    {
        self.near = Near::new(alloc, &self.pages, width)?;
        Ok(())
    }

    /// Notes that time has passed to `now`, so that [`KeptRows::next_turning`] from then on looks only into pages
    /// that turn. It takes no memory, and no row changes.
    pub fn advance(&mut self, now: u32)
        ensures { self.new ≡ self.old }
    {
        self.turns.renew(&self.pages, now);
    }
}

// The number, if it is below `to`.
#[inline]
fn number_below(number: usize, to: u32) -> Option<u32>
    ensures { SomeIff result (number < to) number }
{
    if number < to as usize {
        Some(number as u32)
    } else {
        None
    }
}

// So many pages that aren't made.
fn unmade<S: TickSet>(alloc: Global, count: usize) -> Result<Vec<Page<S>>, AllocError>
    ensures count { IfOk result (λ pages. length pages.items ≡ count) }
    ensures none { IfOk result (λ pages. (c t : ℕ) → row_has S.member pages.items c t ≡ false) }
{
    let mut pages = Vec::with_capacity(alloc, count)?;
    'pages: while pages.len() < count {
        pages.push(Page::none(alloc))?;
    }
    Ok(pages)
}
