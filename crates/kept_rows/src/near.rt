//! Near which ticks the rows of a target are.
ghost use Rattle.std.specs.Prelude.{◌≡◌, ◌<◌, ◌≤◌, ◌+◌, ◌*◌, ◌/◌, ◌^◌, ◌==◌, ℕ, Bool, List, [], max, true, false, length, slice_index_or, if◌then◌else◌, IfNone, IfOk, IfSome, OnOk};
ghost use Rattle.tick_set.specs.Ticks.{within};
ghost use Rattle.tick_set.specs.TickList.{has};
ghost use Rattle.kept_rows.specs.Near.{AreInBuckets, bucket_at, is_cell, is_length, is_near_by, is_near_in, may_have_number, may_have_tick};
ghost use Rattle.kept_rows.specs.Rows.{row_has};

use crate::page::{PAGE, Page};
use crate::turning::Turning;
use std::alloc::{AllocError, Global};

// How many cells a bucket has.
const CELLS: usize = 32;

// What a free cell has in place of a number.
const FREE: u32 = u32::MAX;

// Past so many pages a number may be that of a free cell.
const MOST_PAGES: usize = FREE as usize / PAGE;

// How many buckets are looked at for one length: above these a walk over all rows is no dearer.
const MOST: u64 = 32;

// Rows are told apart by the length of what lies between their first and last ticks: shorter than this, or than that, or any.
const SHORT: u64 = 16;

const LONG: u64 = 1024;

const ANY: u64 = 1 << 32;

/// Numbers of rows in buckets by their targets and by where their ticks are, so that the rows of a target that may have some
/// ticks are found without a look at the others. A bucket without a free cell may have any number, as each has where
/// nothing is told.
#[derive(Drop)]
pub(crate) struct Near {
    // How many numbers one after the other are of one target.
    width: u32,
    // Whether a row may be longer than the short ones.
    has_long: bool,
    cells: Vec<u32>,
}

/// The first and the last tick.
#[derive(Clone, Copy)]
pub struct Ends {
    pub(crate) lo: u32,
    pub(crate) hi: u32,
}

/// Which rows are looked for: those of the numbers from `from` up to `to` with a tick between two.
#[derive(Clone, Copy)]
pub(crate) struct Asked {
    pub(crate) from: u32,
    pub(crate) to: u32,
    pub(crate) ends: Ends,
}

impl Near {
    /// One that tells nothing. It takes no memory.
    pub(crate) fn none(alloc: Global) -> Near
        ensures { (rows : ℕ → ℕ → Bool) → AreInBuckets rows result }
    {
        Near {
            width: 1,
            has_long: false,
            cells: Vec::new(alloc),
        }
    }

    /// That of these pages, where a target has so many numbers.
    pub(crate) fn new<S: Turning>(
        alloc: Global,
        pages: &[Page<S>],
        width: u32,
    ) -> Result<Near, AllocError>
        ensures { IfOk result (AreInBuckets (row_has S.member pages.now)) }
    {
        if pages.len() > MOST_PAGES {
            return Ok(Near::none(alloc));
        }
        let mut near = Near {
            width,
            has_long: false,
            cells: vec![in alloc; FREE; pages.len() * CELLS * 2]?,
        };
        let end = (pages.len() * PAGE) as u32;
        let mut number = 0;
        'numbers: while number < end {
            let ends = ends_of_row(pages, number);
            near.file(number, ends);
            number += 1;
        }
        Ok(near)
    }

    /// Notes that the row of a number is written that had ticks between the first ends and has some between the others.
    pub(crate) fn refile(&mut self, number: u32, old: Option<Ends>, new: Option<Ends>)
        ensures others { (c t : ℕ) → (c == number) ≡ false → may_have_tick self.old c t ≡ true → may_have_tick self.new c t ≡ true }
        ensures here { IfSome new (λ ends. (t : ℕ) → within ends.lo ends.hi t ≡ true → may_have_tick self.new number t ≡ true) }
    {
        // Most queries file no rows.
        if self.cells.is_empty() {
            return;
        }
        self.forget(number, old);
        self.file(number, new);
    }

    // Takes a number out of the bucket of these ends.
    fn forget(&mut self, number: u32, ends: Option<Ends>)
        ensures { (c t : ℕ) → (c == number) ≡ false → may_have_tick self.old c t ≡ true → may_have_tick self.new c t ≡ true }
    {
        let Some(ends) = ends else {
            return;
        };
        let size = size_of(ends);
        let bucket = bucket_of_row(self.cells.len(), number, self.width, size, ends);
        take_out(&mut self.cells, bucket, number);
    }

    // Puts a number into the bucket of these ends.
    fn file(&mut self, number: u32, ends: Option<Ends>)
        ensures others { (c t : ℕ) → may_have_tick self.old c t ≡ true → may_have_tick self.new c t ≡ true }
        ensures here { IfSome ends (λ ends. (t : ℕ) → within ends.lo ends.hi t ≡ true → may_have_tick self.new number t ≡ true) }
    {
        let Some(ends) = ends else {
            return;
        };
        if number == FREE {
            self.cells.clear();
            return;
        }
        let size = size_of(ends);
        let bucket = bucket_of_row(self.cells.len(), number, self.width, size, ends);
        put_in(&mut self.cells, bucket, number);
        self.has_long = self.has_long || size != SHORT;
    }

    /// Adds the numbers that are asked for, and maybe others of those from `from` up to `to`. Answers whether these are all.
    pub(crate) fn find(&self, asked: Asked, found: &mut Vec<u32>) -> Result<bool, AllocError>
        ensures more { OnOk result ((c : ℕ) → has found.old.items c ≡ true → has found.new.items c ≡ true) }
        ensures all { IfOk result (λ is_all. is_all ≡ true → (c t : ℕ) → asked.from ≤ c → c < asked.to
            → within asked.ends.lo asked.ends.hi t ≡ true → may_have_tick self.now c t ≡ true → has found.new.items c ≡ true) }
    {
        let Some(target) = target_of(asked, self.width) else {
            return Ok(false);
        };
        if !find_by(&self.cells, target, SHORT, asked, found)? {
            return Ok(false);
        }
        if !self.has_long {
            return Ok(true);
        }
        if !find_by(&self.cells, target, LONG, asked, found)? {
            return Ok(false);
        }
        find_by(&self.cells, target, ANY, asked, found)
    }
}

// The target of which the numbers that are asked for are, if it is one.
fn target_of(asked: Asked, width: u32) -> Option<u32>
    ensures { IfSome result (λ target. (c : ℕ) → asked.from ≤ c → c < asked.to → c / max width 1 ≡ target) }
{
    if width == 0
        || asked.from % width != 0
        || asked.to < asked.from
        || asked.to - asked.from > width
    {
        return None;
    }
    Some(asked.from / width)
}

// The bucket of a target and of a stretch of so many ticks.
#[inline]
fn bucket_of(cells: usize, target: u32, size: u64, stretch: u64) -> usize
    requires size { size ≤ 2 ^ 32 }
    requires stretch { stretch ≤ 2 ^ 32 }
    ensures bucket { result ≡ bucket_at cells target size stretch }
    ensures within { result * 32 ≤ cells }
{
    ((u64::from(target) * 40_503 + size * 31 + stretch) % (cells / CELLS).max(1) as u64) as usize
}

// The bucket of a number whose row is of this length and has these first and last ticks.
#[inline]
fn bucket_of_row(cells: usize, number: u32, width: u32, size: u64, ends: Ends) -> usize
    requires size { is_length size ≡ true }
    requires hi { ends.hi < ends.lo + size }
    ensures within { result * 32 ≤ cells }
    ensures near { (items : List ℕ) (has_long : Bool) (t : ℕ) → length items ≡ cells → within ends.lo ends.hi t ≡ true
        → may_have_number items result number ≡ true → ((size == 16) ≡ false → has_long ≡ true) → is_near_in has_long items width number t ≡ true }
{
    bucket_of(
        cells,
        number / width.max(1),
        size,
        u64::from(ends.lo) / size + 1,
    )
}

// Which lengths a row of these ends is of.
#[inline]
fn size_of(ends: Ends) -> u64
    ensures size { is_length result ≡ true }
    ensures hi { ends.hi < ends.lo + result }
{
    let length = u64::from(ends.hi.saturating_sub(ends.lo));
    if length < SHORT {
        SHORT
    } else if length < LONG {
        LONG
    } else {
        ANY
    }
}

// Adds the numbers of the buckets of rows of one length.
fn find_by(
    cells: &[u32],
    target: u32,
    size: u64,
    asked: Asked,
    found: &mut Vec<u32>,
) -> Result<bool, AllocError>
    requires { is_length size ≡ true }
    ensures more { OnOk result ((c : ℕ) → has found.old.items c ≡ true → has found.new.items c ≡ true) }
    ensures all { IfOk result (λ is_all. is_all ≡ true → (c t width : ℕ) → asked.from ≤ c → c < asked.to → c / max width 1 ≡ target
        → within asked.ends.lo asked.ends.hi t ≡ true → is_near_by size cells.now width c t ≡ true → has found.new.items c ≡ true) }
{
    let mut stretch = u64::from(asked.ends.lo) / size;
    let last = u64::from(asked.ends.hi) / size + 1;
    if last >= stretch + MOST {
        return Ok(false);
    }
    'stretches: while stretch <= last {
        let bucket = bucket_of(cells.len(), target, size, stretch);
        if !find_in(cells, bucket, asked, found)? {
            return Ok(false);
        }
        stretch += 1;
    }
    Ok(true)
}

// Adds the numbers of a bucket. Answers whether it has a free cell.
fn find_in(
    cells: &[u32],
    bucket: usize,
    asked: Asked,
    found: &mut Vec<u32>,
) -> Result<bool, AllocError>
    requires { bucket * 32 ≤ length cells.now }
    ensures more { OnOk result ((c : ℕ) → has found.old.items c ≡ true → has found.new.items c ≡ true) }
    ensures all { IfOk result (λ is_all. is_all ≡ true → (c : ℕ) → asked.from ≤ c → c < asked.to
        → may_have_number cells.now bucket c ≡ true → has found.new.items c ≡ true) }
{
    let mut is_all = false;
    let mut at = bucket * CELLS;
    let end = at + CELLS;
    'cells: while at < end {
        let is_free = note(cell_at(cells, at), asked, found)?;
        is_all = is_all || is_free;
        at += 1;
    }
    Ok(is_all)
}

// Adds a number if it is asked for. Answers whether it stands for none.
#[inline]
fn note(number: u32, asked: Asked, found: &mut Vec<u32>) -> Result<bool, AllocError>
    ensures more { OnOk result ((c : ℕ) → has found.old.items c ≡ true → has found.new.items c ≡ true) }
    ensures here { OnOk result (asked.from ≤ number → number < asked.to → has found.new.items number ≡ true) }
    ensures free { IfOk result (λ is_free. is_free ≡ true → number ≡ 4294967295) }
{
    if asked.from <= number && number < asked.to {
        found.push(number)?;
    }
    Ok(number == FREE)
}

// What a cell has; past the last one 0.
#[inline]
fn cell_at(cells: &[u32], at: usize) -> u32
    ensures { result ≡ slice_index_or cells.now at 0 }
{
    match cells.get(at) {
        Some(number) => *number,
        None => 0,
    }
}

// The first cell of a bucket that has a number.
fn cell_of(cells: &[u32], bucket: usize, number: u32) -> Option<usize>
    requires { bucket * 32 ≤ length cells.now }
    ensures some { IfSome result (λ at. (bucket * 32 ≤ at) × (at < bucket * 32 + 32) × (slice_index_or cells.now at 0 ≡ number)) }
    ensures none { IfNone result (is_cell cells.now bucket number ≡ false) }
{
    let mut at = bucket * CELLS;
    let end = at + CELLS;
    'cells: while at < end {
        if cell_at(cells, at) == number {
            return Some(at);
        }
        at += 1;
    }
    None
}

// Puts a number into a bucket, if a cell is free.
fn put_in(cells: &mut Vec<u32>, bucket: usize, number: u32)
    requires within { bucket * 32 ≤ length cells.old.items }
    requires number { number < 4294967295 }
    ensures len { length cells.new.items ≡ length cells.old.items }
    ensures others { (b c : ℕ) → may_have_number cells.old.items b c ≡ true → may_have_number cells.new.items b c ≡ true }
    ensures here { may_have_number cells.new.items bucket number ≡ true }
{
    if let Some(at) = cell_of(cells, bucket, FREE) {
        write_cell(cells, at, number);
    }
}

// Takes a number out of a bucket, if a cell is free. Else numbers may have been left out of it, which is not to be forgotten.
fn take_out(cells: &mut Vec<u32>, bucket: usize, number: u32)
    requires { bucket * 32 ≤ length cells.old.items }
    ensures len { length cells.new.items ≡ length cells.old.items }
    ensures others { (b c : ℕ) → (c == number) ≡ false → may_have_number cells.old.items b c ≡ true → may_have_number cells.new.items b c ≡ true }
{
    let Some(_) = cell_of(cells, bucket, FREE) else {
        return;
    };
    let Some(at) = cell_of(cells, bucket, number) else {
        return;
    };
    write_cell(cells, at, FREE);
}

// Writes a cell, if it is there.
fn write_cell(cells: &mut Vec<u32>, at: usize, number: u32)
    ensures len { length cells.new.items ≡ length cells.old.items }
    ensures here { at < length cells.old.items → slice_index_or cells.new.items at 0 ≡ number }
    ensures others { (i : ℕ) → (i == at) ≡ false → slice_index_or cells.new.items i 0 ≡ slice_index_or cells.old.items i 0 }
{
    if at < cells.len() {
        cells[at] = number;
    }
}

// The first and the last tick of the row of a number.
#[inline]
fn ends_of_row<S: Turning>(pages: &[Page<S>], number: u32) -> Option<Ends>
    ensures some { IfSome result (λ ends. (t : ℕ) → row_has S.member pages.now number t ≡ true → within ends.lo ends.hi t ≡ true) }
    ensures none { IfNone result ((t : ℕ) → row_has S.member pages.now number t ≡ false) }
{
    let at = number as usize;
    match pages.get(at / PAGE) {
        Some(page) => page.ends(at % PAGE),
        None => None,
    }
}
