//! What an index is asked for, and what it answers.
ghost use Rattle.std.specs.Prelude.{◌≡◌, ◌≤◌, ◌+◌, ◌<◌, ◌++◌, true, false, Some, length, IfErr, MatchResult, OnErr, OnOk};
ghost use Rattle.std.specs.List.{list_all};
ghost use Rattle.tick_set.specs.Ticks.{IsTick};
ghost use Rattle.object_store.specs.Contents.{HasNoWriteAfter, IsObjectId, catalog_of, object_name};
ghost use Rattle.meaning.specs.Answer.{answer};
ghost use Rattle.plane.specs.Boxes.{last_covered};
ghost use Rattle.plane.specs.Rows.{range_query, IsCovered};
ghost use Rattle.plane_index.specs.Told.{recorded_by};
ghost use Rattle.command_text.specs.Journal.{clock};
ghost use Rattle.line_meaning.specs.Answering.{answer_lines};
ghost use Rattle.line_meaning.specs.Indexed.{index_fault, index_named, is_past_index, range_refusal};
ghost use Rattle.line_meaning.specs.Journal.{world};
ghost use Rattle.line_meaning.specs.Judging.{all_after};
ghost use Rattle.line_meaning.specs.Looks.{looks_in_range, most_looks};
ghost use Rattle.line_meaning.specs.Reply.{rows_text};
ghost use Rattle.reply_text.specs.Begins.{Begins};
ghost use Rattle.database.specs.Keeping.{Keeps};
ghost use Rattle.database.specs.Rows.{has_objects};
ghost use Rattle.database.specs.Telling.{IsRefused, RefusesOrWrites};
ghost use Rattle.plane_index.specs.Rows.{told_range_rows};
ghost use Rattle.kept_indexes.specs.Kept.{AreIndexes, BeginAtLastWrites, IsRight, entries, entry_of};
ghost use Rattle.kept_indexes.specs.Making.{range_command, holding, HasRoomForOk, IsPlace};
ghost use Rattle.steps.specs.Counting.{StepsAtMost};

use crate::column::column_of;
use crate::indexes::{Indexes, Kept, make_room};
use crate::judging::{is_past_index, place_of};
use command_text::{CommandFault, Journal, Refusal};
use database::Database;
use fixed_point::{Fix, Word};
use object_store::{ObjectId, Store};
use plane_index::{PlaneIndex, RangeRow};
use reply_text::push_row;
use std::alloc::{AllocError, Global};
use std::sync::ledger::Ledger;
use steps::Steps;
use tick_set::Window;

/// The objects of a class whose attribute is at least `least` and at most `greatest` at some tick from now to `span` ticks
/// later.
#[derive(Clone, Copy)]
pub struct Range<'a> {
    pub span: u32,
    pub class: &'a Word,
    pub attr: &'a Word,
    pub least: Fix,
    pub greatest: Fix,
}

// A database, with the journal that it keeps.
#[derive(Clone, Copy)]
struct Present<'a> {
    database: &'a Database,
    journal: &'a Journal,
}

/// The place of the index that is asked, or why it isn't.
fn place_asked(kept: &[Kept], database: &Database, range: &Range) -> Result<usize, Refusal>
    requires now { IsTick database.now.clock }
    requires span { IsTick range.now.span }
    ensures { MatchResult result (IsPlace kept.now database.now range.now)
        (λ refusal. range_refusal database.now.clock range.now.span
        (index_named (catalog_of database.now.store) (entries kept.now) range.now.class.now range.now.attr.now) ≡ Some refusal) }
{
    let Some(at) = column_of(database.store(), range.class, range.attr) else {
        return Err(Refusal::UnknownName);
    };
    let Some(place) = place_of(kept, at) else {
        return Err(Refusal::UnknownName);
    };
    if is_past_index(database.clock(), range.span, &kept[place]) {
        return Err(Refusal::SpanRange);
    }
    Ok(place)
}

impl Indexes {
    /// Answers a range by the index of its attribute: the lines of its rows are added to `out`, which has room for an `ok` then,
    /// or it is refused. Objects that
    /// were written since the last range of the index are looked at anew, once each, and then each candidate once. A refusal
    /// changes nothing. Want of memory is told only where no refusal holds, and changes no more than which objects are stale;
    /// after it `out` still begins with its old contents.
    pub fn range<L: Ledger>(
        &mut self,
        alloc: Global,
        database: &Database,
        journal: &Journal,
        range: &Range,
        reads: &mut Steps<L>,
        out: &mut Vec<u8>,
    ) -> Result<(), CommandFault>
        requires indexes { AreIndexes journal.now database.now.store self.old }
        requires keeps { Keeps journal.now database.now }
        requires span { IsTick range.now.span }
        ensures indexes { AreIndexes journal.now database.now.store self.new }
        ensures entries { OnOk result (entries self.new ≡ (all_after (holding journal.now self.old) (range_command range.now)).indexes) }
        ensures err { OnErr result (entries self.new ≡ entries self.old) }
        ensures answered { RefusesOrWrites (index_fault (entries self.old) (world journal.now) (clock journal.now) (range_command range.now))
            (answer_lines (world journal.now) (clock journal.now) (range_command range.now)) out.old.items out.new.items result }
        ensures begins { Begins out.old.items out.new.items }
        ensures reads { StepsAtMost reads.old reads.new (most_looks (holding journal.now self.old) (range_command range.now)) }
        ensures room { OnOk result (HasRoomForOk out.new) }
        ensures free { IfErr result (λ fault. IsRefused fault → reads.new ≡ reads.old) }
    {
        match place_asked(&self.kept, database, range) {
            Ok(place) => {
                let present = Present { database, journal };
                answer(alloc, &mut self.kept[place], &present, range, reads, out)?;
                Ok(())
            }
            Err(refusal) => Err(CommandFault::Refused(refusal)),
        }
    }
}

/// Answers a range by an index.
fn answer<L: Ledger>(
    alloc: Global,
    kept: &mut Kept,
    present: &Present<'_>,
    range: &Range,
    reads: &mut Steps<L>,
    out: &mut Vec<u8>,
) -> Result<(), AllocError>
    requires begun { BeginAtLastWrites present.now.journal.now present.now.database.now.store }
    requires right { IsRight present.now.journal.now present.now.database.now.store kept.old }
    requires keeps { Keeps present.now.journal.now present.now.database.now }
    requires fits { is_past_index present.now.database.now.clock range.now.span (entry_of kept.old) ≡ false }
    ensures right { IsRight present.now.journal.now present.now.database.now.store kept.new }
    ensures entry { OnOk result (entry_of kept.new ≡ record (entry_of kept.old) { seen = length present.now.journal.now }) }
    ensures err { OnErr result (entry_of kept.new ≡ entry_of kept.old) }
    ensures rows { OnOk result (out.new.items ≡ out.old.items ++ rows_text (world present.now.journal.now).history.catalog (clock present.now.journal.now)
        (answer (world present.now.journal.now) (range_query kept.old.index.grid.class kept.old.index.grid.attribute range.now.least range.now.greatest)
        (clock present.now.journal.now) (clock present.now.journal.now + range.now.span))) }
    ensures begins { Begins out.old.items out.new.items }
    ensures room { OnOk result (HasRoomForOk out.new) }
    ensures reads { StepsAtMost reads.old reads.new
        (looks_in_range present.now.journal.now range.now.span range.now.least range.now.greatest (entry_of kept.old)) }
{
    let database = present.database;
    let store = database.store();
    let window = window_of(&kept.index, store, database.clock(), range.span);
    let rows = kept
        .index
        .range_rows(alloc, range.least, range.greatest, store, window, reads)?;
    push_rows(store, database.clock(), &rows, out)?;
    make_room(out)?;
    kept.seen = present.journal.len();
    Ok(())
}

/// The ticks of a range that ends by the last tick of an index.
fn window_of(index: &PlaneIndex, store: &Store, now: u32, span: u32) -> Window
    requires begun { index.now.grid.from ≤ now }
    requires fits { now + span ≤ last_covered index.now.grid }
    requires written { HasNoWriteAfter store.now now }
    ensures ticks { (result.lo ≡ now) × (result.hi ≡ now + span) }
    ensures covered { IsCovered (recorded_by store.now) index.now.grid now (now + span) }
{
    // The last tick of the index is within all ticks, and so is that of the range.
    let _last = index.grid().last();
    let window = Window {
        lo: now,
        hi: now + span,
    };
    if !index.covers(store, window) {
        unreachable!();
    }
    window
}

/// Writes the lines of rows, at the present tick. On error `out` still begins with its old contents.
fn push_rows(
    store: &Store,
    tick: u32,
    rows: &[RangeRow],
    out: &mut Vec<u8>,
) -> Result<(), AllocError>
    requires { list_all (has_objects (length (catalog_of store.now).objects)) (told_range_rows rows.now) ≡ true }
    ensures ok { OnOk result (out.new.items ≡ out.old.items ++ rows_text (catalog_of store.now) tick (told_range_rows rows.now)) }
    ensures begins { Begins out.old.items out.new.items }
{
    let mut rest = rows;
    'rows: while let Some((row, later)) = rest.split_first() {
        push_row(out, tick, &[*name_of(store, row.id)], row.ticks.spans())?;
        rest = later;
    }
    Ok(())
}

/// The name of an object.
fn name_of(store: &Store, id: ObjectId) -> &Word
    requires { IsObjectId store.now id }
    ensures { result.now ≡ object_name store.now.objects id }
{
    store.name_of(id).unwrap()
}
