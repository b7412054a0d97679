//! The objects of rows.
ghost use Rattle.std.specs.Prelude.{◌≡◌, ◌+◌, ◌<◌, ◌≤◌, Some, None, drop, if◌then◌else◌, length, option_map, vec_capacity, vec_len, IfOk, IfSome, IsSome, OnErr};
ghost use Rattle.std.specs.List.{position};
ghost use Rattle.std.specs.Option.{option_and_then};
ghost use Rattle.csv.specs.Records.{field_at, fields_of};
ghost use Rattle.object_rows.specs.Rows.{both, is_set_of, joined_setting, part_of, parts_of, row_of, settings_of, with_part};

use crate::columns::Column;
use crate::fields::{given_by, object_name};
use csv::ByteRecord;
use fixed_point::{Items, Word};
use motion::{Given, NamedSet};
use std::alloc::{AllocError, Global};

/// An object of a text: its name, and what the columns give its attributes.
#[derive(Drop)]
pub struct ObjectRow {
    pub name: Word,
    pub sets: Items<NamedSet>,
}

fn part_of(column: &Column, field: &[u8]) -> Option<NamedSet>
    ensures { result ≡ part_of column.now field.now }
{
    let given = given_by(column.form, field)?;
    Some(NamedSet {
        name: column.attribute,
        given,
    })
}

/// The setting that the field of a place is by itself.
fn part_at(column: &Column, row: &ByteRecord, place: usize) -> Option<NamedSet>
    ensures { result ≡ option_and_then (part_of column.now) (field_at (fields_of row.now) place) }
{
    part_of(column, row.get(place)?)
}

/// A value and a rate together.
fn both(first: &Given, second: &Given) -> Given
    ensures { result ≡ both first.now second.now }
{
    match (first, second) {
        (Given::Num(value), Given::Rate(legs)) => Given::Both(*value, *legs),
        (Given::Rate(legs), Given::Num(value)) => Given::Both(*value, *legs),
        _ => *first,
    }
}

fn joined(set: &NamedSet, part: &NamedSet) -> NamedSet
    ensures { result ≡ joined_setting set.now part.now }
{
    NamedSet {
        name: set.name,
        given: both(&set.given, &part.given),
    }
}

fn place_of(sets: &[NamedSet], part: &NamedSet) -> Option<usize>
    ensures place { result ≡ position (is_set_of part.now) sets.now }
    ensures within { IfSome result (λ place. place < length sets.now) }
{
    sets.iter().position(|set| part.name == set.name)
}

/// Adds a part to the setting of its attribute, or as one more, for which there is room.
fn put_part(sets: &mut Vec<NamedSet>, part: NamedSet)
    requires { vec_len sets.old < vec_capacity sets.old }
    ensures value { sets.new.items ≡ with_part sets.old.items part }
    ensures few { vec_len sets.new ≤ vec_len sets.old + 1 }
    ensures capacity { vec_capacity sets.old ≤ vec_capacity sets.new }
{
    let Some(place) = place_of(sets, &part) else {
        sets.push_reserved(part);
        return;
    };
    sets[place] = joined(&sets[place], &part);
}

/// Reads the fields after the first one into settings, for which there is room. Answers whether each is of its form,
/// and there is one for each column.
fn read_settings(sets: &mut Vec<NamedSet>, columns: &[Column], row: &ByteRecord) -> bool
    requires named { 0 < length (fields_of row.now) }
    requires room { length columns.now ≤ vec_capacity sets.old }
    ensures right { (if result then Some sets.new.items else None) ≡ option_map settings_of (parts_of columns.now (drop 1 (fields_of row.now))) }
    ensures room { length columns.now ≤ vec_capacity sets.new }
{
    sets.clear();
    if row.len() != columns.len() + 1 {
        return false;
    }
    'columns: for i in 0..columns.len() {
        match part_at(&columns[i], row, i + 1) {
            Some(part) => put_part(sets, part),
            None => return false,
        }
    }
    true
}

fn settings(alloc: Global, sets: &[NamedSet]) -> Result<Items<NamedSet>, AllocError>
    ensures { IfOk result (λ settings. settings ≡ sets.now) }
{
    let mut settings = Items::new(alloc);
    let mut rest = sets;
    'sets: while let Some((set, later)) = rest.split_first() {
        settings.push(*set)?;
        rest = later;
    }
    Ok(settings)
}

/// The object of a row, None where the row can't stand under these columns. Want of memory is told of no such row, since
/// the buffer has room for the settings, whatever they are. It holds nothing that is kept.
pub(crate) fn row_of(
    alloc: Global,
    sets: &mut Vec<NamedSet>,
    columns: &[Column],
    row: &ByteRecord,
) -> Result<Option<ObjectRow>, AllocError>
    requires { length columns.now ≤ vec_capacity sets.old }
    ensures ok { IfOk result (λ found. found ≡ row_of columns.now (fields_of row.now)) }
    ensures memory { OnErr result (IsSome (row_of columns.now (fields_of row.now))) }
    ensures room { length columns.now ≤ vec_capacity sets.new }
{
    let Some(field) = row.get(0) else {
        return Ok(None);
    };
    let Some(name) = object_name(field) else {
        return Ok(None);
    };
    if !read_settings(sets, columns, row) {
        return Ok(None);
    }
    let sets = settings(alloc, sets)?;
    Ok(Some(ObjectRow { name, sets }))
}
