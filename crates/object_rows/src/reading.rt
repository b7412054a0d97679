//! Reading the objects of a text.
ghost use Rattle.std.specs.Prelude.{◌≡◌, ◌∷◌, [], true, Some, None, if◌then◌else◌, IfOk, IfErr, OnErr, OnOk};
ghost use Rattle.csv.specs.Reading.{default_config, records, strip_bom};
ghost use Rattle.csv.specs.Records.{fields_of};
ghost use Rattle.object_rows.specs.Columns.{IsNoneOrFirst};
ghost use Rattle.object_rows.specs.Reader.{IsBetweenRecords, left_in};
ghost use Rattle.object_rows.specs.Rows.{IsNoneOrRight, each_row, rows_in, rows_of};
ghost use Rattle.object_rows.specs.declared.fault.CsvFault.TheVariants as faults;

use crate::CsvFault;
use crate::columns::{Column, columns_of};
use crate::rows::{ObjectRow, row_of};
use csv::{ByteRecord, Reader, ReaderBuilder};
use object_store::Class;
use std::alloc::{AllocError, Global};

/// A reader before the first row of a text. How many fields a row has is judged by the columns.
fn reader_of<'a>(alloc: Global, text: &'a [u8]) -> Reader<&'a [u8]>
    ensures between { IsBetweenRecords result }
    ensures left { left_in result ≡ records default_config (strip_bom text.now) }
{
    ReaderBuilder::new()
        .has_headers(false)
        .flexible(true)
        .from_reader(alloc, text)
}

/// Reads the next row, if there is one. A slice gives all its bytes, so an error is want of memory, and then there is
/// no row.
fn next_row(reader: &mut Reader<&[u8]>, row: &mut ByteRecord) -> Result<bool, CsvFault>
    requires between { IsBetweenRecords reader.old }
    ensures between { IfOk result (λ found. found ≡ true → IsBetweenRecords reader.new) }
    ensures left { IfOk result (λ found. left_in reader.old ≡ (if found then (fields_of row.new ∷ left_in reader.new) else [])) }
    ensures err { IfErr result (λ fault. fault ≡ faults.NoMemory) }
    ensures none { OnErr result (fields_of row.new ≡ []) }
{
    let Ok(found) = reader.read_byte_record(row) else {
        row.clear();
        return Err(CsvFault::NoMemory);
    };
    Ok(found)
}

/// Reads the first row, which names the columns. Want of memory is told of none that is refused.
fn header(
    alloc: Global,
    class: &Class,
    reader: &mut Reader<&[u8]>,
    row: &mut ByteRecord,
) -> Result<Vec<Column>, CsvFault>
    requires between { IsBetweenRecords reader.old }
    ensures between { OnOk result (IsBetweenRecords reader.new) }
    ensures ok { IfOk result (λ columns. rows_of class.now.attributes (left_in reader.old) ≡ each_row columns.items (left_in reader.new)) }
    ensures fault { IfErr result (λ fault. fault ≡ faults.BadRows → rows_of class.now.attributes (left_in reader.old) ≡ None) }
    ensures memory { IfErr result (λ fault. fault ≡ faults.NoMemory → IsNoneOrFirst class.now.attributes (fields_of row.new)) }
{
    if !next_row(reader, row)? {
        return Err(CsvFault::BadRows);
    }
    match columns_of(alloc, class.attrs(), row)? {
        Some(columns) => Ok(columns),
        None => Err(CsvFault::BadRows),
    }
}

/// The objects of the rows that are left. Want of memory is told of no row that is refused.
fn objects(
    alloc: Global,
    columns: &[Column],
    reader: &mut Reader<&[u8]>,
    row: &mut ByteRecord,
) -> Result<Vec<ObjectRow>, CsvFault>
    requires between { IsBetweenRecords reader.old }
    ensures ok { IfOk result (λ objects. each_row columns.now (left_in reader.old) ≡ Some objects.items) }
    ensures fault { IfErr result (λ fault. fault ≡ faults.BadRows → each_row columns.now (left_in reader.old) ≡ None) }
    ensures memory { IfErr result (λ fault. fault ≡ faults.NoMemory → IsNoneOrRight columns.now (fields_of row.new)) }
{
    row.clear();
    let mut sets = Vec::with_capacity(alloc, columns.len())?;
    let mut objects = Vec::new(alloc);
    'rows: while next_row(reader, row)? {
        match row_of(alloc, &mut sets, columns, row)? {
            Some(object) => objects.push(object)?,
            None => return Err(CsvFault::BadRows),
        }
    }
    Ok(objects)
}

/// The objects that a text of csv holds for a class, in the order of the rows. `BadRows` comes only where the text
/// isn't of the format. `NoMemory` may come for any text, since each row takes memory to be read, but never for a row
/// that was read and is refused. Whether a row's command is accepted isn't judged.
#[tactic(auto, unfolding(crate::specs::Rows::rows_in))]
pub fn import_rows(alloc: Global, text: &[u8], class: &Class) -> Result<Vec<ObjectRow>, CsvFault>
    ensures ok { IfOk result (λ rows. rows_in class.now.attributes text.now ≡ Some rows.items) }
    ensures fault { IfErr result (λ fault. fault ≡ faults.BadRows → rows_in class.now.attributes text.now ≡ None) }
{
    let mut reader = reader_of(alloc, text);
    let mut row = ByteRecord::new(alloc);
    let columns = header(alloc, class, &mut reader, &mut row)?;
    let rows = objects(alloc, &columns, &mut reader, &mut row)?;
    Ok(rows)
}
