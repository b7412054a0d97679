//! Writing the objects of a class.
ghost use Rattle.std.specs.Prelude.{◌≡◌, ◌+◌, ◌<◌, ◌++◌, ◌∷◌, [], length, option_map, IfOk, IfSome, OnOk};
ghost use Rattle.std.specs.List.{flat_map};
ghost use Rattle.tick_set.specs.Ticks.{IsTick};
ghost use Rattle.csv.specs.Records.{fields_of, partial_of};
ghost use Rattle.csv.specs.Writing.{default_writer, row_text};
ghost use Rattle.fixed_point.specs.Canonical.{fix_text};
ghost use Rattle.motion.specs.Cells.{AreCellsAt, IsCellAt};
ghost use Rattle.motion.specs.Timeline.{state_at};
ghost use Rattle.history.specs.Catalog.{ids_of};
ghost use Rattle.object_store.specs.Contents.{IsClassNumber, IsObjectId, catalog_of, history_of};
ghost use Rattle.object_rows.specs.Columns.{columns_of_attribute, header_of, rate_name};
ghost use Rattle.object_rows.specs.Exported.{cell_fields, exported, object_fields, object_rows, state_rows};
ghost use Rattle.object_rows.specs.Writer.{IsBetweenFields, IsBetweenRows, text_by};
ghost use Rattle.steps.specs.Counting.{StepsAtMost};

use crate::columns::is_dynamic;
use csv::{ByteRecord, Writer};
use fixed_point::{Fix, Slope};
use motion::{Cell, Timeline};
use object_store::{AttrDef, ClassId, ObjectId, Store};
use std::alloc::{AllocError, Global};
use std::sync::ledger::Ledger;
use steps::Steps;

/// Adds a field to a row.
fn push(row: &mut ByteRecord, field: &[u8]) -> Result<(), AllocError>
    requires { IsBetweenFields row.old }
    ensures fields { OnOk result (fields_of row.new ≡ fields_of row.old ++ field.now ∷ []) }
    ensures partial { OnOk result (IsBetweenFields row.new) }
{
    row.push_field(field)
}

fn push_rate_name(alloc: Global, row: &mut ByteRecord, name: &[u8]) -> Result<(), AllocError>
    requires { IsBetweenFields row.old }
    ensures fields { OnOk result (fields_of row.new ≡ fields_of row.old ++ rate_name name.now ∷ []) }
    ensures partial { OnOk result (IsBetweenFields row.new) }
{
    let mut rate = Vec::from_slice(alloc, name)?;
    rate.extend_from_slice(b".rate")?;
    push(row, &rate)
}

/// Adds the columns of an attribute.
fn push_columns(alloc: Global, row: &mut ByteRecord, attr: &AttrDef) -> Result<(), AllocError>
    requires { IsBetweenFields row.old }
    ensures fields { OnOk result (fields_of row.new ≡ fields_of row.old ++ columns_of_attribute attr.now) }
    ensures partial { OnOk result (IsBetweenFields row.new) }
{
    push(row, attr.name.bytes())?;
    if is_dynamic(attr.kind) {
        push_rate_name(alloc, row, attr.name.bytes())?;
    }
    Ok(())
}

/// The first row of a text.
fn header_of(alloc: Global, attrs: &[AttrDef]) -> Result<ByteRecord, AllocError>
    ensures fields { IfOk result (λ row. fields_of row ≡ header_of attrs.now) }
    ensures partial { IfOk result (λ row. partial_of row ≡ []) }
{
    let mut row = ByteRecord::new(alloc);
    push(&mut row, b"name")?;
    let mut rest = attrs;
    'attrs: while let Some((attr, later)) = rest.split_first() {
        push_columns(alloc, &mut row, attr)?;
        rest = later;
    }
    Ok(row)
}

fn push_slope(row: &mut ByteRecord, slope: Slope) -> Result<(), AllocError>
    requires { IsBetweenFields row.old }
    ensures fields { OnOk result (fields_of row.new ≡ fields_of row.old ++ fix_text slope ∷ []) }
    ensures partial { OnOk result (IsBetweenFields row.new) }
{
    let number = Fix::of(slope.raw()).unwrap();
    push(row, number.print().bytes())
}

/// Adds the fields of a cell, as it is at tick `now`.
fn push_cell(row: &mut ByteRecord, now: u32, cell: &Cell) -> Result<(), AllocError>
    requires partial { IsBetweenFields row.old }
    requires tick { IsTick now }
    requires written { IsCellAt cell.now now }
    ensures fields { OnOk result (fields_of row.new ≡ fields_of row.old ++ cell_fields now cell.now) }
    ensures partial { OnOk result (IsBetweenFields row.new) }
{
    match cell {
        Cell::Num(number) => push(row, number.print().bytes()),
        Cell::Text(text) => push(row, text.bytes()),
        Cell::Dyn(vector) => {
            push(row, vector.at(now).print().bytes())?;
            push_slope(row, vector.slope_at(now))
        }
    }
}

/// Makes a row that of an object.
#[tactic(auto, using(crate::proofs::ExportLemmas::cell_steps))]
fn fill(row: &mut ByteRecord, now: u32, name: &[u8], cells: &[Cell]) -> Result<(), AllocError>
    requires tick { IsTick now }
    requires written { AreCellsAt cells.now now }
    ensures fields { OnOk result (fields_of row.new ≡ object_fields now name.now cells.now) }
    ensures partial { OnOk result (IsBetweenFields row.new) }
{
    row.clear();
    push(row, name)?;
    let mut rest = cells;
    'cells: while let Some((cell, later)) = rest.split_first() {
        push_cell(row, now, cell)?;
        rest = later;
    }
    Ok(())
}

/// Writes a row.
fn write_row(writer: &mut Writer<Vec<u8>>, row: &ByteRecord) -> Result<(), AllocError>
    requires between { IsBetweenRows writer.old }
    ensures between { OnOk result (IsBetweenRows writer.new) }
    ensures text { OnOk result (text_by writer.new ≡ text_by writer.old ++ row_text default_writer (fields_of row.now)) }
{
    match writer.write_byte_record(row) {
        Ok(()) => Ok(()),
        Err(_) => Err(AllocError),
    }
}

/// The cells of an object at tick `now`, None where it is absent.
#[tactic(auto, using(crate::proofs::ExportLemmas::state_steps))]
fn state_at(timeline: &Timeline, now: u32) -> Option<&[Cell]>
    ensures value { option_map (λ cells. cells.now) result ≡ state_at timeline.now now }
    ensures written { IfSome result (λ cells. AreCellsAt cells.now now) }
{
    let epoch = timeline.at(now)?;
    if epoch.is_present() {
        Some(epoch.cells())
    } else {
        None
    }
}

/// Writes the row of an object whose timeline this is, unless it is absent at tick `now`.
fn write_state(
    writer: &mut Writer<Vec<u8>>,
    row: &mut ByteRecord,
    now: u32,
    name: &[u8],
    timeline: &Timeline,
) -> Result<(), AllocError>
    requires between { IsBetweenRows writer.old }
    requires tick { IsTick now }
    ensures between { OnOk result (IsBetweenRows writer.new) }
    ensures text { OnOk result (text_by writer.new ≡ text_by writer.old ++ flat_map (row_text default_writer) (state_rows now name.now (state_at timeline.now now))) }
{
    let Some(cells) = state_at(timeline, now) else {
        return Ok(());
    };
    fill(row, now, name, cells)?;
    write_row(writer, row)
}

/// Writes the row of an object, unless it is absent.
fn write_object<L: Ledger>(
    writer: &mut Writer<Vec<u8>>,
    row: &mut ByteRecord,
    store: &Store,
    now: u32,
    id: ObjectId,
    reads: &mut Steps<L>,
) -> Result<(), AllocError>
    requires between { IsBetweenRows writer.old }
    requires tick { IsTick now }
    requires id { IsObjectId store.now id }
    ensures between { OnOk result (IsBetweenRows writer.new) }
    ensures text { OnOk result (text_by writer.new ≡ text_by writer.old ++ flat_map (row_text default_writer) (object_rows (history_of store.now) now id)) }
    ensures read { reads.new ≡ reads.old + 1 }
{
    let timeline = store.timeline(id, reads);
    let name = store.name_of(id).unwrap();
    write_state(writer, row, now, name.bytes(), timeline)
}

/// Writes the rows of the objects of a class, with one read for each.
fn write_objects<L: Ledger>(
    writer: &mut Writer<Vec<u8>>,
    row: &mut ByteRecord,
    store: &Store,
    now: u32,
    class: ClassId,
    reads: &mut Steps<L>,
) -> Result<(), AllocError>
    requires between { IsBetweenRows writer.old }
    requires tick { IsTick now }
    ensures between { OnOk result (IsBetweenRows writer.new) }
    ensures text { OnOk result (text_by writer.new ≡ text_by writer.old
        ++ flat_map (row_text default_writer) (flat_map (object_rows (history_of store.now) now) (ids_of (catalog_of store.now) class))) }
    ensures reads { StepsAtMost reads.old reads.new (length (ids_of (catalog_of store.now) class)) }
{
    let mut rest = store.class_names(class);
    'ids: while let Some((id, later)) = rest.split_first() {
        write_object(writer, row, store, now, *id, reads)?;
        rest = later;
    }
    Ok(())
}

/// A writer that has written nothing.
fn writer(alloc: Global) -> Writer<Vec<u8>>
    ensures between { IsBetweenRows result }
    ensures text { text_by result ≡ [] }
{
    Writer::from_writer(Vec::new(alloc))
}

/// The bytes of a writer that has written all its rows.
fn finish(writer: Writer<Vec<u8>>) -> Result<Vec<u8>, AllocError>
    requires { IsBetweenRows writer }
    ensures { IfOk result (λ text. text.items ≡ text_by writer) }
{
    match writer.into_inner() {
        Ok(text) => Ok(text),
        Err(_) => Err(AllocError),
    }
}

/// The text of the objects of a class that are present at tick `now`, with the values that are implied then.
/// It takes at most one read for each object that was ever inserted into the class.
#[tactic(auto, unfolding(crate::specs::Exported::exported))]
pub fn export_text<L: Ledger>(
    alloc: Global,
    class: ClassId,
    store: &Store,
    now: u32,
    reads: &mut Steps<L>,
) -> Result<Vec<u8>, AllocError>
    requires class { IsClassNumber store.now class }
    requires tick { IsTick now }
    ensures text { IfOk result (λ text. text.items ≡ exported (history_of store.now) now class) }
    ensures reads { StepsAtMost reads.old reads.new (length (ids_of (catalog_of store.now) class)) }
{
    let attrs = store.schema().class(class).unwrap().attrs();
    let mut row = header_of(alloc, attrs)?;
    let mut writer = writer(alloc);
    write_row(&mut writer, &row)?;
    write_objects(&mut writer, &mut row, store, now, class, reads)?;
    finish(writer)
}
