//! The columns that the first row of a text names.
ghost use Rattle.std.specs.Prelude.{◌≡◌, ◌<◌, Some, drop, is_some, length, option_map, IfOk, IsSome, OnErr};
ghost use Rattle.std.specs.List.{list_any};
ghost use Rattle.std.specs.Str.{bytes_eq};
ghost use Rattle.object_store.specs.Faults.{attribute_named, repeats};
ghost use Rattle.object_rows.specs.Columns.{column_of, columns_of, each_column, is_dynamic, is_rate_of, rate_column, rate_name, value_column, value_form};
ghost use Rattle.csv.specs.Records.{field_at, fields_of};

use csv::ByteRecord;
use fixed_point::Word;
use motion::AttrKind;
use object_store::AttrDef;
use std::alloc::{AllocError, Global};

/// What a field of a column is.
#[derive(Clone, Copy, Debug, PartialEq, Eq)]
pub enum Form {
    Number,
    Text,
    Rate,
}

/// A column of a text, for an attribute.
#[derive(Clone, Copy, Debug)]
pub struct Column {
    pub attribute: Word,
    pub form: Form,
}

pub(crate) fn is_dynamic(kind: AttrKind) -> bool
    ensures { result ≡ is_dynamic kind }
{
    matches!(kind, AttrKind::Dyn)
}

fn value_form(kind: AttrKind) -> Form
    ensures { result ≡ value_form kind }
{
    match kind {
        AttrKind::Num | AttrKind::Dyn => Form::Number,
        AttrKind::Text => Form::Text,
    }
}

#[tactic(auto, using(crate::proofs::ColumnLemmas::rate_steps))]
fn is_rate_name(field: &[u8], name: &[u8]) -> bool
    ensures { result ≡ bytes_eq field.now (rate_name name.now) }
{
    match field.strip_prefix(name) {
        Some(rest) => rest == b".rate".as_slice(),
        None => false,
    }
}

fn is_rate_of(field: &[u8], attr: &AttrDef) -> bool
    ensures { result ≡ is_rate_of field.now attr.now }
{
    is_dynamic(attr.kind) && is_rate_name(field, attr.name.bytes())
}

fn value_column(attrs: &[AttrDef], field: &[u8]) -> Option<Column>
    ensures { result ≡ value_column attrs.now field.now }
{
    let attr = attrs.iter().find(|attr| field == attr.name.bytes())?;
    Some(Column {
        attribute: attr.name,
        form: value_form(attr.kind),
    })
}

fn rate_column(attrs: &[AttrDef], field: &[u8]) -> Option<Column>
    ensures { result ≡ rate_column attrs.now field.now }
{
    let attr = attrs.iter().find(|attr| is_rate_of(field, attr))?;
    Some(Column {
        attribute: attr.name,
        form: Form::Rate,
    })
}

/// The column of a field of the first row, None where no attribute has it.
fn column_of(attrs: &[AttrDef], field: &[u8]) -> Option<Column>
    ensures { result ≡ column_of attrs.now field.now }
{
    match value_column(attrs, field) {
        Some(column) => Some(column),
        None => rate_column(attrs, field),
    }
}

#[tactic(auto, using(crate::proofs::FieldLemmas::field_steps))]
fn field_of(row: &ByteRecord, place: usize) -> &[u8]
    requires { place < length (fields_of row.now) }
    ensures { Some result.now ≡ field_at (fields_of row.now) place }
{
    row.get(place).unwrap()
}

/// Whether a field from a place on is this one.
#[tactic(auto, using(crate::proofs::FieldLemmas::field_steps))]
fn has_field(row: &ByteRecord, from: usize, field: &[u8]) -> bool
    ensures { result ≡ list_any (λ other. bytes_eq field.now other) (drop from (fields_of row.now)) }
{
    'fields: for i in from..row.len() {
        if field == field_of(row, i) {
            return true;
        }
    }
    false
}

/// Whether a field after the first one stands twice.
fn repeats_field(row: &ByteRecord) -> bool
    ensures { result ≡ repeats (λ field. field) (drop 1 (fields_of row.now)) }
{
    'fields: for i in 1..row.len() {
        if has_field(row, i + 1, field_of(row, i)) {
            return true;
        }
    }
    false
}

/// Whether each field after the first one has a column.
fn have_columns(attrs: &[AttrDef], row: &ByteRecord) -> bool
    ensures { result ≡ is_some (each_column attrs.now (drop 1 (fields_of row.now))) }
{
    'fields: for i in 1..row.len() {
        if column_of(attrs, field_of(row, i)).is_none() {
            return false;
        }
    }
    true
}

/// Whether a text can begin with this row.
fn is_header(attrs: &[AttrDef], row: &ByteRecord) -> bool
    ensures { result ≡ is_some (columns_of attrs.now (fields_of row.now)) }
{
    let Some(first) = row.get(0) else {
        return false;
    };
    if first != b"name".as_slice() {
        return false;
    }
    // Where each field has a column, few differ, so that one that is repeated is found early in a long row.
    if !have_columns(attrs, row) {
        return false;
    }
    !repeats_field(row)
}

/// The columns of the fields after the first one, None where no attribute has one of them.
fn each_column(
    alloc: Global,
    attrs: &[AttrDef],
    row: &ByteRecord,
) -> Result<Option<Vec<Column>>, AllocError>
    ensures { IfOk result (λ found. option_map (λ v. v.items) found ≡ each_column attrs.now (drop 1 (fields_of row.now))) }
{
    let mut columns = Vec::with_capacity(alloc, row.len())?;
    'fields: for i in 1..row.len() {
        match column_of(attrs, field_of(row, i)) {
            Some(column) => columns.push(column)?,
            None => return Ok(None),
        }
    }
    Ok(Some(columns))
}

/// The columns after the first one, None where a text can't begin with this row. Want of memory is told of no such row,
/// since it is judged before any memory is taken.
pub(crate) fn columns_of(
    alloc: Global,
    attrs: &[AttrDef],
    row: &ByteRecord,
) -> Result<Option<Vec<Column>>, AllocError>
    ensures ok { IfOk result (λ found. option_map (λ v. v.items) found ≡ columns_of attrs.now (fields_of row.now)) }
    ensures memory { OnErr result (IsSome (columns_of attrs.now (fields_of row.now))) }
{
    if !is_header(attrs, row) {
        return Ok(None);
    }
    let columns = each_column(alloc, attrs, row)?;
    Ok(columns)
}
