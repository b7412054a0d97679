//! Changes of rows, each with the memory that it needs to be made.
ghost use Rattle.std.specs.Prelude.{◌≡◌, ◌<◌, ◌≤◌, ◌+◌, ◌/◌, ◌==◌, ◌&&◌, ◌||◌, ◌∷◌, ◌++◌, ℕ, [], true, false, All, nat_le, length, map, if◌then◌else◌, IsTrue, ◌↔◌, IfOk, IfSome, IfNone, OnOk, OnErr};
ghost use Rattle.kept_rows.specs.Changes.{IsOtherFrom, IsSameFrom};
ghost use Rattle.kept_rows.specs.Rows.{IsBlankPage, is_made, is_whole, row_has};
ghost use Rattle.exact.specs.Lists.{SameLength};

use crate::page::Page;
use crate::rows::KeptRows;
use crate::turning::Turning;
use std::alloc::{AllocError, Global};
use std::marker::Model;
use tick_set::TickSet;

/// The new row of a number, with a page without ticks where the number's page isn't made.
#[derive(Drop)]
pub(crate) struct Change<S> {
    pub(crate) number: u32,
    pub(crate) ticks: S,
    pub(crate) spare: Page<S>,
}

/// The rows of a query that a refresh found to differ, by ascending numbers.
#[derive(Drop)]
pub struct Changes<S> {
    changes: Vec<Change<S>>,
}

impl<S> Model for Changes<S> {
    ghost use Rattle.std.specs.Prelude.{List};
    ghost use Rattle.kept_rows.specs.declared.change.Change.{Change};

    ghost Value = { List (Change S) };

    ghost view = { λ a. a.changes.items };
}

impl<S: TickSet> Changes<S> {
    ghost use Rattle.kept_rows.specs.Changes.{AreReady, AreRising, DoDiffer, rows_after};

    /// No changes. It takes no memory.
    pub fn new(alloc: Global) -> Changes<S>
        ensures { result ≡ [] }
    {
        Changes {
            changes: Vec::new(alloc),
        }
    }

    /// Whether no row differs.
    #[inline]
    pub fn is_empty(&self) -> bool
        ensures { IsTrue result ↔ (self.now ≡ []) }
    {
        self.changes.is_empty()
    }

    /// The changes.
    #[inline]
    pub(crate) fn items(&self) -> &[Change<S>]
        ensures { result.now ≡ self.now }
    {
        &self.changes
    }

    /// Adds the row of a number above those that are there, with these ticks from tick `from` on, if it differs from
    /// the one that is kept. After an error the changes are as before.
    pub fn note(
        &mut self,
        alloc: Global,
        kept: &KeptRows<S>,
        number: u32,
        from: u32,
        ticks: &S,
    ) -> Result<(), AllocError>
        requires there { number / 16 < length kept.now }
        requires rising { AreRising number self.old }
        requires ready { AreReady S.member kept.now self.old }
        requires differ { DoDiffer S.member kept.now self.old }
        ensures ready { OnOk result (AreReady S.member kept.now self.new) }
        ensures rising { OnOk result (AreRising (number + 1) self.new) }
        ensures differ { OnOk result (DoDiffer S.member kept.now self.new) }
        ensures rows { OnOk result ((c t : ℕ) → rows_after S.member self.new (row_has S.member kept.now) c t
            ≡ (if c == number && nat_le from t then S.member ticks.now t else rows_after S.member self.old (row_has S.member kept.now) c t)) }
        ensures err { OnErr result (self.new ≡ self.old) }
    {
        if are_none(kept, number, ticks) {
            return Ok(());
        }
        match other_row(alloc, kept.row(number), from, ticks)? {
            Some(ticks) => {
                let spare = spare_page(alloc, kept, number)?;
                self.changes.push(Change {
                    number,
                    ticks,
                    spare,
                })?;
                Ok(())
            }
            None => Ok(()),
        }
    }
}

impl<S: Turning> Changes<S> {
    ghost use Rattle.kept_rows.specs.Changes.{AreReady, rows_after};

    /// Makes the changes. It takes no memory and can't fail.
    pub fn commit(self, kept: &mut KeptRows<S>)
        requires { AreReady S.member kept.old self }
        ensures len { SameLength kept.new kept.old }
        ensures rows { (c t : ℕ) → row_has S.member kept.new c t
            ≡ rows_after S.member self (row_has S.member kept.old) c t }
    {
        'changes: for change in self.changes {
            kept.put(change.number, change.ticks, change.spare);
        }
    }
}

// Whether there are no ticks and the row of a number is empty, as its flag tells without a look at the row.
#[inline]
fn are_none<S: TickSet>(kept: &KeptRows<S>, number: u32, ticks: &S) -> bool
    ensures row { result ≡ true → (t : ℕ) → row_has S.member kept.now number t ≡ false }
    ensures ticks { result ≡ true → (t : ℕ) → S.member ticks.now t ≡ false }
{
    ticks.is_empty() && kept.is_clear(number)
}

// A row with these ticks from tick `from` on, if that makes it another one. What stands before `from` is copied only
// where there is such a tick.
fn other_row<S: TickSet>(
    alloc: Global,
    row: &S,
    from: u32,
    ticks: &S,
) -> Result<Option<S>, AllocError>
    ensures some { IfOk result (λ other. IfSome other (IsOtherFrom S.member from row.now ticks.now)) }
    ensures none { IfOk result (λ other. IfNone other (IsSameFrom S.member from row.now ticks.now)) }
{
    if from == 0 {
        return copy_if_other(alloc, row, ticks);
    }
    let other = row.splice(alloc, from, ticks)?;
    if other.equal(row) {
        return Ok(None);
    }
    Ok(Some(other))
}

// These ticks, if a row has others.
fn copy_if_other<S: TickSet>(alloc: Global, row: &S, ticks: &S) -> Result<Option<S>, AllocError>
    ensures some { IfOk result (λ other. IfSome other (IsOtherFrom S.member 0 row.now ticks.now)) }
    ensures none { IfOk result (λ other. IfNone other (IsSameFrom S.member 0 row.now ticks.now)) }
{
    if ticks.equal(row) {
        return Ok(None);
    }
    let other = ticks.copy(alloc)?;
    Ok(Some(other))
}

// A page without ticks, where the page of the number isn't made.
pub(crate) fn spare_page<S: TickSet>(
    alloc: Global,
    kept: &KeptRows<S>,
    number: u32,
) -> Result<Page<S>, AllocError>
    ensures page { IfOk result (λ spare. (is_made kept.now number || is_whole spare) ≡ true) }
    ensures blank { IfOk result (λ spare. IsBlankPage S.member spare) }
{
    if kept.has_page(number) {
        return Ok(Page::none(alloc));
    }
    Page::blank(alloc)
}
