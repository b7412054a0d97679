//! The commands that write to the store.
ghost use Rattle.std.specs.Prelude.{◌≡◌, ◌<◌, ◌≤◌, ◌++◌, length, map, IfOk, IfErr, OnOk, OnErr};
ghost use Rattle.command_text.specs.Tree as Tree;
ghost use Rattle.line_meaning.specs.Journal.{attribute_of};
ghost use Rattle.database.specs.Ready.{IsReadyCommand};
ghost use Rattle.database.specs.Attempt.{Attempts};
ghost use Rattle.database.specs.Keeping.{IsTimely};

use crate::change::{Change, fault_by};
use crate::database::Database;
use command_text::{Attributes, CommandFault};
use fixed_point::Word;
use motion::{AttrKind, NamedSet, Place};
use object_store::AttrDef;
use std::alloc::{AllocError, Global};

/// The attributes of a class as the store takes them.
fn attributes(alloc: Global, attrs: &[(Word, AttrKind)]) -> Result<Vec<AttrDef>, AllocError>
    ensures { IfOk result (λ v. v.items ≡ map attribute_of attrs.now) }
{
    let mut made = Vec::with_capacity(alloc, attrs.len())?;
    let mut rest = attrs;
    'attributes: while let Some((attr, later)) = rest.split_first() {
        made.push(AttrDef {
            name: attr.0,
            kind: attr.1,
        })?;
        rest = later;
    }
    Ok(made)
}

/// Makes a class. A refusal and want of memory change nothing.
pub(crate) fn class(
    alloc: Global,
    database: &mut Database,
    name: Word,
    capacity: u32,
    point: bool,
    attrs: &Attributes,
) -> Result<Change, CommandFault>
    requires ready { IsReadyCommand (Tree.Class name capacity point attrs.now) }
    requires timely { IsTimely database.old }
    ensures { Attempts (Tree.Class name capacity point attrs.now) database.old database.new result }
{
    let attrs = attributes(alloc, attrs.items())?;
    match database.store.add_class(name, capacity, point, &attrs) {
        Ok(_) => Ok(Change::Class),
        Err(fault) => Err(fault_by(fault)),
    }
}

/// Inserts an object. A refusal and want of memory change nothing.
pub(crate) fn insert(
    database: &mut Database,
    class: &Word,
    name: &Word,
    place: &Place,
    sets: &[NamedSet],
) -> Result<Change, CommandFault>
    requires ready { IsReadyCommand (Tree.Insert class.now name.now place.now sets.now) }
    requires timely { IsTimely database.old }
    ensures { Attempts (Tree.Insert class.now name.now place.now sets.now) database.old database.new result }
{
    match database
        .store
        .insert(database.clock, class, name, place, sets)
    {
        Ok(done) => Ok(Change::Object(done)),
        Err(fault) => Err(fault_by(fault)),
    }
}

/// Updates an object. A refusal and want of memory change nothing.
pub(crate) fn update(
    database: &mut Database,
    name: &Word,
    place: &Place,
    sets: &[NamedSet],
) -> Result<Change, CommandFault>
    requires ready { IsReadyCommand (Tree.Update name.now place.now sets.now) }
    requires timely { IsTimely database.old }
    ensures { Attempts (Tree.Update name.now place.now sets.now) database.old database.new result }
{
    match database.store.update(database.clock, name, place, sets) {
        Ok(done) => Ok(Change::Object(done)),
        Err(fault) => Err(fault_by(fault)),
    }
}

/// Removes an object. A refusal and want of memory change nothing.
pub(crate) fn remove(database: &mut Database, name: &Word) -> Result<Change, CommandFault>
    requires timely { IsTimely database.old }
    ensures { Attempts (Tree.Remove name.now) database.old database.new result }
{
    match database.store.remove(database.clock, name) {
        Ok(done) => Ok(Change::Object(done)),
        Err(fault) => Err(fault_by(fault)),
    }
}
