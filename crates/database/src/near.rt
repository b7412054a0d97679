//! The objects nearest to another one: why they aren't told, and their rows.
ghost use Rattle.std.specs.Prelude.{◌≡◌, ◌+◌, option_and_then, slice_get, true, Some, IfErr, MatchOption};
ghost use Rattle.tick_set.specs.declared.spans.TheConstants.{LAST_TICK};
ghost use Rattle.tick_set.specs.Ticks.{IsTick};
ghost use Rattle.object_store.specs.Contents.{catalog_of};
ghost use Rattle.history.specs.Catalog.{number_of_class};
ghost use Rattle.line_meaning.specs.Looks.{looks_near};
ghost use Rattle.line_meaning.specs.Near.{has_places, is_near_past, is_near_unknown, near_refusal, number_of_object, pairs_in, rows_near};
ghost use Rattle.line_meaning.specs.Reply.{rows_text};
ghost use Rattle.database.specs.Keeping.{world_of_database};
ghost use Rattle.database.specs.Near.{refusal_of_found};
ghost use Rattle.database.specs.Telling.{RefusesFreely, RefusesOrWrites, TakesAtMost, tally};

use crate::database::Database;
use crate::rows::push_near;
use command_text::{CommandFault, Refusal};
use fixed_point::Word;
use kept_rows::BINDING_LIMIT;
use line_meaning::NEAREST_SPAN_LIMIT;
use nearest::nearest_rows;
use object_store::{ClassId, ObjectId, Schema, Store};
use std::alloc::Global;
use std::sync::ledger::Ledger;
use steps::Steps;
use tick_set::{LAST_TICK, Window};

/// The `k` objects of a class that are nearest to an object, from now to `span` ticks later.
#[derive(Clone, Copy)]
pub(crate) struct Sought<'a> {
    pub(crate) span: u32,
    pub(crate) k: u32,
    pub(crate) object: &'a Word,
    pub(crate) class: &'a Word,
}

/// An object and a class, by number.
#[derive(Clone, Copy)]
struct Found {
    to: ObjectId,
    class: ClassId,
}

/// Both by their names, if both are there.
fn find(store: &Store, sought: &Sought) -> Option<Found>
    ensures { MatchOption result
        (is_near_unknown (catalog_of store.now) sought.now.object.now sought.now.class.now ≡ true)
        (λ found. (number_of_object (catalog_of store.now) sought.now.object.now ≡ Some found.to)
        × (number_of_class (catalog_of store.now) sought.now.class.now ≡ Some found.class)) }
{
    Some(Found {
        to: store.id_of(sought.object)?,
        class: store.schema().class_of(sought.class)?,
    })
}

/// Whether the objects of a class have positions. Those of a class that isn't there have none.
fn has_places(schema: &Schema, class: ClassId) -> bool
    ensures { result ≡ has_places (slice_get schema.now class) }
{
    match schema.class(class) {
        Some(class) => class.is_point(),
        None => false,
    }
}

/// Whether an object is of a class whose objects have positions.
fn is_placed(store: &Store, id: ObjectId) -> bool
    ensures { result ≡ has_places (option_and_then (λ o. slice_get store.now.classes o.class) (slice_get store.now.objects id)) }
{
    match store.class_of(id) {
        Some(class) => has_places(store.schema(), class),
        None => false,
    }
}

/// How many pairs of objects of a class there may come to be.
fn pairs_in(schema: &Schema, class: ClassId) -> u64
    ensures { result ≡ pairs_in (slice_get schema.now class) }
{
    match schema.class(class) {
        Some(class) => {
            let capacity = u64::from(class.capacity());
            capacity * capacity
        }
        None => 0,
    }
}

/// Whether a span is too long, or reaches past the last tick.
fn is_past(now: u32, span: u32) -> bool
    requires now { IsTick now }
    requires span { IsTick span }
    ensures { result ≡ is_near_past now span }
{
    span > NEAREST_SPAN_LIMIT || now + span > LAST_TICK
}

/// Why the objects nearest to an object that is there, of a class that is there, aren't told.
fn refusal_of(database: &Database, found: Found, span: u32) -> Option<Refusal>
    requires now { IsTick database.now.clock }
    requires span { IsTick span }
    ensures { result ≡ refusal_of_found
        (option_and_then (λ o. slice_get database.now.store.classes o.class) (slice_get database.now.store.objects found.to))
        (slice_get database.now.store.classes found.class) database.now.clock span }
{
    let schema = database.store.schema();
    if !(is_placed(&database.store, found.to) && has_places(schema, found.class)) {
        Some(Refusal::WrongKind)
    } else if is_past(database.clock, span) {
        Some(Refusal::SpanRange)
    } else if pairs_in(schema, found.class) > u64::from(BINDING_LIMIT) {
        Some(Refusal::BindingLimit)
    } else {
        None
    }
}

/// Tells the nearest objects. On want of memory `out` still begins with its old contents.
pub(crate) fn tell_nearest<L: Ledger, M: Ledger>(
    alloc: Global,
    database: &Database,
    sought: &Sought,
    reads: &mut Steps<L>,
    probes: &mut Steps<M>,
    out: &mut Vec<u8>,
) -> Result<(), CommandFault>
    requires span { IsTick sought.now.span }
    requires in_range { IsTick database.now.clock }
    ensures answered { RefusesOrWrites
        (near_refusal (catalog_of database.now.store) database.now.clock sought.now.span sought.now.object.now sought.now.class.now)
        (rows_text (catalog_of database.now.store) database.now.clock
        (rows_near (world_of_database database.now) database.now.clock sought.now.span sought.now.k sought.now.object.now sought.now.class.now))
        out.old.items out.new.items result }
    ensures takes { TakesAtMost (looks_near (catalog_of database.now.store) sought.now.class.now)
        (tally out.old.items reads.old probes.old) (tally out.new.items reads.new probes.new) }
    ensures free { RefusesFreely (tally out.old.items reads.old probes.old) (tally out.new.items reads.new probes.new) result }
    ensures unprobed { probes.new ≡ probes.old }
{
    let Some(found) = find(&database.store, sought) else {
        return Err(CommandFault::Refused(Refusal::UnknownName));
    };
    if let Some(refusal) = refusal_of(database, found, sought.span) {
        return Err(CommandFault::Refused(refusal));
    }
    let window = Window {
        lo: database.clock,
        hi: database.clock + sought.span,
    };
    let store = &database.store;
    let rows = nearest_rows(
        alloc,
        found.class,
        found.to,
        sought.k,
        store,
        window,
        reads,
        probes,
    )?;
    push_near(store, database.clock, &rows, out)?;
    Ok(())
}
