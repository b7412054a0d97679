//! Why an index isn't made, or isn't asked.
ghost use Rattle.std.specs.Prelude.{◌≡◌, Some, All, length};
ghost use Rattle.std.specs.List.{position};
ghost use Rattle.tick_set.specs.declared.spans.TheConstants.{LAST_TICK};
ghost use Rattle.tick_set.specs.Ticks.{IsTick};
ghost use Rattle.object_store.specs.Contents.{catalog_of};
ghost use Rattle.line_meaning.specs.Indexed.{index_refusal, is_index_crowded, is_index_past, is_lasting, is_of, is_past_index};
ghost use Rattle.kept_indexes.specs.Kept.{entries, entry_of};

use crate::column::{Column, varies};
use crate::indexes::Kept;
use command_text::Refusal;
use database::Database;
use line_meaning::INDEX_LIMIT;
use plane::{SLICE_TICKS, SLICES};
use tick_set::LAST_TICK;

/// The place of the index of an attribute.
pub(crate) fn place_of(kept: &[Kept], at: Column) -> Option<usize>
    ensures { result ≡ position (is_of at) (entries kept.now) }
{
    place_in(kept, at)
}

fn place_in(kept: &[Kept], at: Column) -> Option<usize>
    ensures { result ≡ position (λ k. is_of at (entry_of k)) kept.now }
{
    kept.iter().position(|one| is_of(one, at))
}

/// Whether an index is of an attribute.
fn is_of(kept: &Kept, at: Column) -> bool
    ensures { result ≡ is_of at (entry_of kept.now) }
{
    let grid = kept.index.grid();
    grid.class() == at.class && grid.attribute() == at.place
}

/// Whether the attribute has an index that hasn't ended at tick `now`.
fn is_lasting(kept: &[Kept], now: u32, at: Column) -> bool
    ensures { result ≡ is_lasting (entries kept.now) now at }
{
    match place_of(kept, at) {
        Some(place) => now <= kept[place].index.grid().last(),
        None => false,
    }
}

/// Whether an index that is made at tick `now` would end past the last tick.
fn is_past(now: u32) -> bool
    requires { IsTick now }
    ensures { result ≡ is_index_past now }
{
    now + SLICES * SLICE_TICKS - 1 > LAST_TICK
}

/// Whether there are as many indexes as there may be, and none of the attribute.
fn is_crowded(kept: &[Kept], at: Column) -> bool
    ensures { result ≡ is_index_crowded (entries kept.now) at }
{
    kept.len() >= INDEX_LIMIT && place_of(kept, at).is_none()
}

/// Why no index of an attribute is made.
pub(crate) fn index_refusal(kept: &[Kept], database: &Database, at: Column) -> Option<Refusal>
    requires { IsTick database.now.clock }
    ensures { result ≡ index_refusal (catalog_of database.now.store) (entries kept.now) database.now.clock (Some at) }
{
    let now = database.clock();
    if is_lasting(kept, now, at) {
        Some(Refusal::NameTaken)
    } else if !varies(database.schema(), at) {
        Some(Refusal::WrongKind)
    } else if is_past(now) {
        Some(Refusal::SpanRange)
    } else if is_crowded(kept, at) {
        Some(Refusal::StoreFull)
    } else {
        None
    }
}

/// Whether the last tick of a span is past those of an index.
pub(crate) fn is_past_index(now: u32, span: u32, kept: &Kept) -> bool
    requires now { IsTick now }
    requires span { IsTick span }
    ensures { result ≡ is_past_index now span (entry_of kept.now) }
{
    now + span > kept.index.grid().last()
}
