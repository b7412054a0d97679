//! In which slots of ticks rows may have some.
ghost use Rattle.std.specs.Prelude.{◌≡◌, ◌<◌, ◌≤◌, ◌+◌, ◌/◌, ◌^◌, ◌==◌, ℕ, Bool, false, length, if◌then◌else◌, IfNone, IfOk, IfSome};
ghost use Rattle.kept_rows.specs.Rows.{row_has};
ghost use Rattle.kept_rows.specs.Slots.{AreIn, AreMarked, HaveNoneAt, IsNextAt, has_slot, may_have};

use crate::page::{PAGE, Page};
use crate::slots::Slots;
use crate::turning::Turning;
use std::alloc::{AllocError, Global};

/// In which slots the rows of a page may have ticks, so that those with ticks in some slots are found by a look at a mark a
/// page, and at the rows of the pages that are left. Nothing is known past the last mark.
#[derive(Drop)]
pub(crate) struct Marks {
    pages: Vec<Slots>,
}

impl Marks {
    /// Those that tell nothing. They take no memory.
    pub(crate) fn none(alloc: Global) -> Marks
        ensures { (rows : ℕ → ℕ → Bool) → AreMarked rows result }
    {
        Marks {
            pages: Vec::new(alloc),
        }
    }

    /// Those of these pages.
    pub(crate) fn new<S: Turning>(alloc: Global, pages: &[Page<S>]) -> Result<Marks, AllocError>
        ensures { IfOk result (AreMarked (row_has S.member pages.now)) }
    {
        let mut marks = Vec::with_capacity(alloc, pages.len())?;
        'pages: while marks.len() < pages.len() {
            let at = marks.len();
            marks.push(slots_of_page(pages, at))?;
        }
        Ok(Marks { pages: marks })
    }

    /// Whether nothing is told.
    #[inline]
    pub(crate) fn is_empty(&self) -> bool {
        self.pages.is_empty()
    }

    /// The first number from `from` up to `to`, without `to`, whose row in these pages may have a tick in the slots.
    pub(crate) fn next<S: Turning>(
        &self,
        pages: &[Page<S>],
        from: u32,
        to: u32,
        slots: Slots,
    ) -> Option<u32>
        requires { AreMarked (row_has S.member pages.now) self.now }
        ensures some { IfSome result (IsNextAt (row_has S.member pages.now) slots from to) }
        ensures none { IfNone result (HaveNoneAt (row_has S.member pages.now) slots from to) }
    {
        let mut number = from as usize;
        'numbers: while number < to as usize {
            let end = self.free_end(pages, number, slots);
            if end == number {
                return Some(number as u32);
            }
            number = end;
        }
        None
    }

    // The end of the page of a number where its rows have no tick in the slots, the next number where the number's own
    // row has none, else the number.
    #[inline]
    fn free_end<S: Turning>(&self, pages: &[Page<S>], number: usize, slots: Slots) -> usize
        requires small { number < 2 ^ 32 }
        requires marked { AreMarked (row_has S.member pages.now) self.now }
        ensures least { number ≤ result }
        ensures free { HaveNoneAt (row_has S.member pages.now) slots number result }
    {
        let page = number / PAGE;
        if !mark_at(&self.pages, page).meet(slots) {
            (page + 1) * PAGE
        } else if !slots_of_row(pages, number).meet(slots) {
            number + 1
        } else {
            number
        }
    }

    /// Marks a page anew, in which a row was written: the rows of the others are as they were. Nothing is done where nothing is
    /// told.
    pub(crate) fn renew<S: Turning>(&mut self, pages: &[Page<S>], page: usize)
        ensures { (rows : ℕ → ℕ → Bool) → AreMarked rows self.old
            → ((c t : ℕ) → (c / 16 == page) ≡ false → row_has S.member pages.now c t ≡ rows c t)
            → AreMarked (row_has S.member pages.now) self.new }
    {
        if page < self.pages.len() {
            let whole = slots_of_page(pages, page);
            self.pages[page] = whole;
        }
    }
}

// The mark of a place; that of all slots where there is none.
#[inline]
fn mark_at(marks: &[Slots], at: usize) -> Slots
    ensures { (t : ℕ) → has_slot result t ≡ may_have marks.now at t }
{
    match marks.get(at) {
        Some(slots) => *slots,
        None => Slots::all(),
    }
}

// The slots of the rows of a page together.
#[inline]
fn slots_of_page<S: Turning>(pages: &[Page<S>], page: usize) -> Slots
    ensures { (c : ℕ) → c / 16 ≡ page → AreIn (row_has S.member pages.now c) result }
{
    match pages.get(page) {
        Some(page) => page.all_slots(),
        None => Slots::none(),
    }
}

// The slots of the ticks of a number.
#[inline]
fn slots_of_row<S: Turning>(pages: &[Page<S>], number: usize) -> Slots
    ensures { AreIn (row_has S.member pages.now number) result }
{
    match pages.get(number / PAGE) {
        Some(page) => page.slots(number % PAGE),
        None => Slots::none(),
    }
}
