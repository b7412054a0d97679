//! The rows of an answer.
ghost use Rattle.std.specs.Prelude.{◌≡◌, ◌<◌, ◌++◌, true, nat_lt, length, map, OnOk};
ghost use Rattle.std.specs.List.{list_all};
ghost use Rattle.object_store.specs.Contents.{IsObjectId, catalog_of, object_name};
ghost use Rattle.answers.specs.Told.{told_rows};
ghost use Rattle.nearest.specs.Rows.{told_near};
ghost use Rattle.history.specs.Catalog.{name_of};
ghost use Rattle.line_meaning.specs.Reply.{rows_text};
ghost use Rattle.reply_text.specs.Begins.{Begins};
ghost use Rattle.database.specs.Rows.{has_objects};

use answers::spans_of;
use fixed_point::Word;
use formula::OBJECT_LIMIT;
use interval_set::IntervalSet;
use nearest::NearRow;
use object_store::{ObjectId, Store};
use relation::Row;
use reply_text::push_row;
use std::alloc::{AllocError, Global};

/// The name of an object.
fn name_of(store: &Store, id: ObjectId) -> &Word
    requires { IsObjectId store.now id }
    ensures { result.now ≡ object_name store.now.objects id }
{
    store.name_of(id).unwrap()
}

/// Puts the names of these objects in the place of those before.
pub fn set_names(store: &Store, ids: &[ObjectId], names: &mut Vec<Word>) -> Result<(), AllocError>
    requires { list_all (λ id. nat_lt id (length (catalog_of store.now).objects)) ids.now ≡ true }
    ensures { OnOk result (names.new.items ≡ map (name_of (catalog_of store.now)) ids.now) }
{
    names.clear();
    let mut rest = ids;
    'ids: while let Some((id, later)) = rest.split_first() {
        names.push(*name_of(store, *id))?;
        rest = later;
    }
    Ok(())
}

/// Writes the lines of the nearest objects, at the present tick. On error `out` still begins with its old contents.
pub(crate) fn push_near(
    store: &Store,
    tick: u32,
    rows: &[NearRow],
    out: &mut Vec<u8>,
) -> Result<(), AllocError>
    requires { list_all (has_objects (length (catalog_of store.now).objects)) (told_near rows.now) ≡ true }
    ensures ok { OnOk result (out.new.items ≡ out.old.items ++ rows_text (catalog_of store.now) tick (told_near rows.now)) }
    ensures begins { Begins out.old.items out.new.items }
{
    let mut rest = rows;
    'rows: while let Some((row, later)) = rest.split_first() {
        push_row(out, tick, &[*name_of(store, row.id)], row.ticks.spans())?;
        rest = later;
    }
    Ok(())
}

/// Writes the lines of rows, at the present tick. On error `out` still begins with its old contents.
pub(crate) fn push_rows(
    alloc: Global,
    store: &Store,
    tick: u32,
    rows: &[Row<IntervalSet>],
    out: &mut Vec<u8>,
) -> Result<(), AllocError>
    requires { list_all (has_objects (length (catalog_of store.now).objects)) (told_rows rows.now) ≡ true }
    ensures ok { OnOk result (out.new.items ≡ out.old.items ++ rows_text (catalog_of store.now) tick (told_rows rows.now)) }
    ensures begins { Begins out.old.items out.new.items }
{
    let mut names = Vec::with_capacity(alloc, OBJECT_LIMIT)?;
    let mut rest = rows;
    'rows: while let Some((row, later)) = rest.split_first() {
        set_names(store, row.key.ids(), &mut names)?;
        push_row(out, tick, &names, spans_of(row))?;
        rest = later;
    }
    Ok(())
}
