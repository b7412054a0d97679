//! The lines of registered queries: answers, and what changes for them.
ghost use Rattle.std.specs.Prelude.{◌≡◌, ◌++◌, ◌+◌, ◌<◌, ◌≤◌, [], true, length, map, slice_get, All, IfErr, IfOk, OnOk};
ghost use Rattle.std.specs.List.{flat_map, list_all};
ghost use Rattle.std.specs.Option.{option_map_or};
ghost use Rattle.meaning.specs.Reads.{write_reads};
ghost use Rattle.object_store.specs.Contents.{catalog_of};
ghost use Rattle.line_meaning.specs.Changes.{answer_text};
ghost use Rattle.line_meaning.specs.Registry.{registration_named};
ghost use Rattle.line_meaning.specs.Reply.{registration_line, rows_text};
ghost use Rattle.live_queries.specs.Asked.{HaveObjectsBefore, FitsWorld, class_in};
ghost use Rattle.live_queries.specs.Kept.{registered_query};
ghost use Rattle.live_queries.specs.Told.{changes_of, passings_of};
ghost use Rattle.reply_text.specs.Begins.{Begins};
ghost use Rattle.database.specs.Keeping.{TellsAcceptedWrites, clock_of, world_of_database};
ghost use Rattle.database.specs.Rows.{has_objects};
ghost use Rattle.database.specs.Telling.{TakesAtMost, tally};
ghost use Rattle.registry.specs.Moves.{names_objects, told_moves_text};
ghost use Rattle.registry.specs.Registers.{Shows};
ghost use Rattle.registry.specs.Standing.{Renews, Stand, StoodAt, known_of, registration_of};
ghost use Rattle.formula.specs.Kinds.{kind_word};

use command_text::{CommandFault, Refusal};
use database::{Database, set_names};
use fixed_point::Word;
use formula::{OBJECT_LIMIT, QueryKind};
use live_queries::{AnswerRow, Fresh, Live, Move, current_queries_tell_their_answers};
use object_store::{ObjectId, Store};
use reply_text::{push_change, push_query, push_row};
use std::alloc::{AllocError, Global};
use std::sync::ledger::Ledger;
use steps::Steps;

/// Writes the rows of the answer of the registered query of a name at the clock's tick, none where no query has it.
/// On error `out` still begins with its old contents.
pub(crate) fn push_answer(
    alloc: Global,
    database: &Database,
    live: &Live,
    name: &Word,
    out: &mut Vec<u8>,
) -> Result<(), AllocError>
    requires stand { Stand database.now live.now }
    ensures ok { OnOk result (out.new.items ≡ out.old.items
        ++ option_map_or (answer_text (world_of_database database.now) (clock_of database.now)) (registration_named (known_of database.now live.now).live name.now) []) }
    ensures begins { Begins out.old.items out.new.items }
{
    live.are_kept();
    current_queries_tell_their_answers();
    match live.answer(alloc, name, database.clock())? {
        Some(rows) => {
            push_rows(alloc, database.store(), database.clock(), &rows, out)?;
            Ok(())
        }
        None => Ok(()),
    }
}

fn push_rows(
    alloc: Global,
    store: &Store,
    now: u32,
    rows: &[AnswerRow],
    out: &mut Vec<u8>,
) -> Result<(), AllocError>
    requires { list_all (has_objects (length (catalog_of store.now).objects)) rows.now ≡ true }
    ensures ok { OnOk result (out.new.items ≡ out.old.items ++ rows_text (catalog_of store.now) now rows.now) }
    ensures begins { Begins out.old.items out.new.items }
{
    let mut names = Vec::with_capacity(alloc, OBJECT_LIMIT)?;
    let mut rest = rows;
    'rows: while let Some((row, later)) = rest.split_first() {
        set_names(store, row.key().ids(), &mut names)?;
        push_row(out, now, &names, row.spans())?;
        rest = later;
    }
    Ok(())
}

/// Answers `show`: the rows of the query of a name. A refusal changes nothing, and on want of memory `out` still
/// begins with its old contents.
pub fn show(
    alloc: Global,
    database: &Database,
    live: &Live,
    name: &Word,
    out: &mut Vec<u8>,
) -> Result<(), CommandFault>
    requires stand { Stand database.now live.now }
    ensures shows { Shows database.now live.now name.now out.old.items out.new.items result }
    ensures begins { Begins out.old.items out.new.items }
{
    if !live.has(name) {
        return Err(CommandFault::Refused(Refusal::UnknownName));
    }
    push_answer(alloc, database, live, name, out)?;
    Ok(())
}

/// Writes what changes for target objects. On error `out` still begins with its old contents.
fn push_moves(
    alloc: Global,
    store: &Store,
    moves: &[Move],
    out: &mut Vec<u8>,
) -> Result<(), AllocError>
    requires { list_all (names_objects (length (catalog_of store.now).objects)) moves.now ≡ true }
    ensures ok { OnOk result (out.new.items ≡ out.old.items ++ told_moves_text (catalog_of store.now) moves.now) }
    ensures begins { Begins out.old.items out.new.items }
{
    if moves.is_empty() {
        return Ok(());
    }
    let mut names = Vec::with_capacity(alloc, OBJECT_LIMIT)?;
    let mut rest = moves;
    'moves: while let Some((change, later)) = rest.split_first() {
        set_names(store, change.key().ids(), &mut names)?;
        push_change(
            out,
            change.query(),
            &names,
            change.gained(),
            change.lost(),
            change.enters(),
            change.leaves(),
        )?;
        rest = later;
    }
    Ok(())
}

/// Prepares what a write to an object at the clock's tick makes of the registered queries, which have the rows from
/// before it, and writes what it changes for them. On error nothing has changed but that `out` begins with its old
/// contents.
pub fn renew<L: Ledger, M: Ledger>(
    alloc: Global,
    database: &Database,
    live: &Live,
    id: ObjectId,
    reads: &mut Steps<L>,
    probes: &mut Steps<M>,
    out: &mut Vec<u8>,
) -> Result<Fresh, AllocError>
    requires accepted { TellsAcceptedWrites database.now }
    requires there { id < length database.now.store.objects }
    requires fits { All (FitsWorld (world_of_database database.now)) live.now }
    requires before { HaveObjectsBefore id (catalog_of database.now.store) live.now }
    ensures renews { IfOk result (Renews database.now live.now id) }
    ensures told { IfOk result (λ f. out.new.items ≡ out.old.items
        ++ told_moves_text (catalog_of database.now.store) (changes_of id (clock_of database.now) live.now f.renewals)) }
    ensures takes { TakesAtMost (write_reads (catalog_of database.now.store) (map registered_query live.now) (clock_of database.now) (class_in database.now.store id))
        (tally out.old.items reads.old probes.old) (tally out.new.items reads.new probes.new) }
{
    let now = database.clock();
    let (store, regions) = (database.store(), database.regions());
    let fresh = live.refresh(alloc, id, store, regions, now, reads, probes)?;
    let moves = live.changes(alloc, &fresh, now)?;
    push_moves(alloc, store, &moves, out)?;
    Ok(fresh)
}

/// Writes which targets enter and leave as the clock moves from tick `before` to its tick. On error `out` still
/// begins with its old contents.
pub fn pass(
    alloc: Global,
    database: &Database,
    live: &Live,
    before: u32,
    out: &mut Vec<u8>,
) -> Result<(), AllocError>
    requires stood { StoodAt database.now before live.now }
    ensures ok { OnOk result (out.new.items ≡ out.old.items
        ++ told_moves_text (catalog_of database.now.store) (flat_map (passings_of before (clock_of database.now)) live.now)) }
    ensures begins { Begins out.old.items out.new.items }
{
    live.are_kept();
    let moves = live.passed(alloc, before, database.clock())?;
    push_moves(alloc, database.store(), &moves, out)
}

/// The word of a kind of queries.
fn kind_word(kind: QueryKind) -> &'static [u8]
    ensures { result.now ≡ kind_word kind }
{
    match kind {
        QueryKind::Watch => b"watch",
        QueryKind::Keep => b"keep",
    }
}

/// Writes the line of the registered query of a place, if there is one.
fn push_query_at(live: &Live, place: usize, out: &mut Vec<u8>) -> Result<(), AllocError>
    ensures ok { OnOk result (out.new.items ≡ out.old.items
        ++ option_map_or (λ k. registration_line (registration_of k)) (slice_get live.now place) []) }
    ensures begins { Begins out.old.items out.new.items }
{
    match live.query_at(place) {
        Some(info) => push_query(
            out,
            kind_word(info.kind),
            &info.name,
            info.entry,
            info.expiry,
        ),
        None => Ok(()),
    }
}

/// Writes the lines of the registered queries in the order of registration. On error `out` still begins with its old
/// contents.
pub fn push_queries(live: &Live, out: &mut Vec<u8>) -> Result<(), AllocError>
    ensures ok { OnOk result (out.new.items ≡ out.old.items ++ flat_map registration_line (map registration_of live.now)) }
    ensures begins { Begins out.old.items out.new.items }
{
    'queries: for place in 0..live.count() as usize {
        push_query_at(live, place, out)?;
    }
    Ok(())
}
