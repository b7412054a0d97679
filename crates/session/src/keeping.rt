//! The commands that the journal keeps.
ghost use Rattle.std.specs.Prelude.{◌≡◌, ◌++◌, ◌∷◌, [], true, false, IfErr, IfOk, IfSome, OnErr, OnOk};
ghost use Rattle.std.specs.List.{flat_map};
ghost use Rattle.command_text.specs.Journal.{is_kept};
ghost use Rattle.command_text.specs.Tree;
ghost use Rattle.command_text.specs.Tree.{command_view};
ghost use Rattle.line_meaning.specs.Reached.{AreReached};
ghost use Rattle.line_meaning.specs.Step.{held};
ghost use Rattle.object_store.specs.Contents.{catalog_of};
ghost use Rattle.live_queries.specs.Kept.{AreKept};
ghost use Rattle.live_queries.specs.Prepared.{IsPrepared};
ghost use Rattle.live_queries.specs.Told.{passings_of};
ghost use Rattle.reply_text.specs.Begins.{Begins};
ghost use Rattle.database.specs.Keeping.{clock_of};
ghost use Rattle.database.specs.Telling.{RefusesFreely, tally};
ghost use Rattle.database.specs.Written.{writes_object};
ghost use Rattle.registry.specs.Moves.{told_moves_text};
ghost use Rattle.registry.specs.Standing.{StoodAt};
ghost use Rattle.session.specs.Asked.{request_command};
ghost use Rattle.session.specs.Carried.{CarriesOut, IsAccepted, IsLegible, IsOnData, IsStopped, Spends, is_on_data, moment};
ghost use Rattle.session.specs.Entering.{IsPrinted};
ghost use Rattle.session.specs.Followed.{Accepts, Follows, IsChanged, IsMadeBy, Prepares, Settles, lines_told};
ghost use Rattle.session.specs.State.{IsState, KeepsIndexes};
ghost use Rattle.kept_indexes.specs.Making.{HasRoomForOk};

use crate::entering::{admit, enter};
use crate::state::{Changed, Printed, State};
use command_text::{Command, CommandFault, Refusal};
use database::{Change, Database};
use fixed_point::Word;
use formula::QueryKind;
use live_queries::{
    Fresh, Live, committed_writes_keep_queries_current, current_queries_tell_their_answers,
    prepared_changes_tell_what_a_write_changes, prepared_writes_renew_queries,
    queries_go_on_fitting_worlds, writes_to_no_object_keep_queries_current,
};
use registry::{Request, judge, register, renew};
use std::alloc::{AllocError, Global};
use std::sync::ledger::Ledger;
use steps::Steps;

/// Carries out a command that the journal keeps, and writes the lines of its reply. It is judged before anything is
/// evaluated, and what it did is taken back where it can't be entered. After an error nothing has changed but that `out`
/// begins with its old contents.
pub(crate) fn keep<L: Ledger, M: Ledger>(
    alloc: Global,
    state: &mut State,
    command: &Command,
    reads: &mut Steps<L>,
    probes: &mut Steps<M>,
    out: &mut Vec<u8>,
) -> Result<(), CommandFault>
    requires state { IsState state.old.journal state.old }
    requires legible { IsLegible (command_view command.now) }
    requires kept { is_kept (command_view command.now) ≡ true }
    ensures state { IsState state.new.journal state.new }
    ensures indexes { KeepsIndexes state.old state.new }
    ensures database { is_on_data (command_view command.now) ≡ false → state.new.database ≡ state.old.database }
    ensures carries { CarriesOut (command_view command.now)
        (moment (held state.old.journal) out.old.items reads.old probes.old)
        (moment (held state.new.journal) out.new.items reads.new probes.new) result }
    ensures room { OnOk result (HasRoomForOk out.new) }
{
    match command {
        Command::Watch { name, span, query } => {
            let request = Request {
                name,
                kind: QueryKind::Watch,
                span: *span,
                query,
            };
            add_query(state, command, &request, reads, probes, out)
        }
        Command::Keep { name, span, query } => {
            let request = Request {
                name,
                kind: QueryKind::Keep,
                span: *span,
                query,
            };
            add_query(state, command, &request, reads, probes, out)
        }
        Command::Drop { name } => drop_query(state, command, name, out),
        _ => change(alloc, state, command, reads, probes, out),
    }
}

/// Registers a query and enters its command.
#[tactic(auto, using(crate::proofs::KeepLemmas::keeps_all))]
fn add_query<L: Ledger, M: Ledger>(
    state: &mut State,
    command: &Command,
    request: &Request,
    reads: &mut Steps<L>,
    probes: &mut Steps<M>,
    out: &mut Vec<u8>,
) -> Result<(), CommandFault>
    requires state { IsState state.old.journal state.old }
    requires legible { IsLegible (command_view command.now) }
    requires is { command_view command.now ≡ request_command request.now }
    ensures state { IsState state.new.journal state.new }
    ensures indexes { KeepsIndexes state.old state.new }
    ensures database { state.new.database ≡ state.old.database }
    ensures carries { CarriesOut (command_view command.now)
        (moment (held state.old.journal) out.old.items reads.old probes.old)
        (moment (held state.new.journal) out.new.items reads.new probes.new) result }
    ensures room { OnOk result (HasRoomForOk out.new) }
{
    let alloc = *out.allocator();
    let resolved = judge(alloc, &state.database, &state.live, request)?;
    admit(&state.journal, &mut state.line, command, None)?;
    register(
        alloc,
        &state.database,
        &mut state.live,
        request,
        resolved,
        reads,
        probes,
        out,
    )?;
    let now = state.database.clock();
    match enter(&mut state.journal, now, &state.line, out) {
        Ok(()) => Ok(()),
        Err(AllocError) => {
            state.live.drop_query(request.name);
            Err(CommandFault::NoMemory)
        }
    }
}

/// Drops a registered query, once its command is entered.
#[tactic(auto, using(crate::proofs::KeepLemmas::keeps_all))]
fn drop_query(
    state: &mut State,
    command: &Command,
    name: &Word,
    out: &mut Vec<u8>,
) -> Result<(), CommandFault>
    requires state { IsState state.old.journal state.old }
    requires legible { IsLegible (command_view command.now) }
    requires is { command_view command.now ≡ Tree.Drop name.now }
    ensures state { IsState state.new.journal state.new }
    ensures indexes { KeepsIndexes state.old state.new }
    ensures database { state.new.database ≡ state.old.database }
    ensures accepted { IfOk result (λ _. IsAccepted (command_view command.now) (held state.old.journal) (held state.new.journal) out.old.items out.new.items) }
    ensures stopped { IfErr result (IsStopped (command_view command.now) (held state.old.journal) (held state.new.journal)) }
    ensures room { OnOk result (HasRoomForOk out.new) }
    ensures begins { Begins out.old.items out.new.items }
{
    if !state.live.has(name) {
        return Err(CommandFault::Refused(Refusal::UnknownName));
    }
    admit(&state.journal, &mut state.line, command, None)?;
    enter(&mut state.journal, state.database.clock(), &state.line, out)?;
    state.live.drop_query(name);
    Ok(())
}

/// Carries out a command that changes the database.
fn change<L: Ledger, M: Ledger>(
    alloc: Global,
    state: &mut State,
    command: &Command,
    reads: &mut Steps<L>,
    probes: &mut Steps<M>,
    out: &mut Vec<u8>,
) -> Result<(), CommandFault>
    requires state { IsState state.old.journal state.old }
    requires legible { IsLegible (command_view command.now) }
    requires data { IsOnData (command_view command.now) }
    ensures state { IsState state.new.journal state.new }
    ensures indexes { KeepsIndexes state.old state.new }
    ensures carries { CarriesOut (command_view command.now)
        (moment (held state.old.journal) out.old.items reads.old probes.old)
        (moment (held state.new.journal) out.new.items reads.new probes.new) result }
    ensures room { OnOk result (HasRoomForOk out.new) }
{
    // The command is entered, so nothing takes its change back any more.
    drop(make_change(alloc, state, command, reads, probes, out)?);
    Ok(())
}

/// The same. Answers what was changed, for the others who share the database.
pub(crate) fn make_change<L: Ledger, M: Ledger>(
    alloc: Global,
    state: &mut State,
    command: &Command,
    reads: &mut Steps<L>,
    probes: &mut Steps<M>,
    out: &mut Vec<u8>,
) -> Result<Changed, CommandFault>
    requires state { IsState state.old.journal state.old }
    requires legible { IsLegible (command_view command.now) }
    requires data { IsOnData (command_view command.now) }
    ensures state { IsState state.new.journal state.new }
    ensures indexes { KeepsIndexes state.old state.new }
    ensures carries { CarriesOut (command_view command.now)
        (moment (held state.old.journal) out.old.items reads.old probes.old)
        (moment (held state.new.journal) out.new.items reads.new probes.new) result }
    ensures made { IfOk result (λ changed. IsMadeBy (command_view command.now) changed state.old.database state.new.database) }
    ensures same { OnErr result (state.new.database ≡ state.old.database) }
    ensures room { OnOk result (HasRoomForOk out.new) }
{
    let before = state.database.clock();
    let change = state.database.attempt(alloc, command)?;
    let changed = Changed { change, before };
    let printed = Printed {
        command,
        line: None,
    };
    match accept(state, &printed, &changed, reads, probes, out) {
        Ok(()) => Ok(changed),
        Err(fault) => {
            let Changed { change, .. } = changed;
            state.database.take_back(change);
            Err(fault)
        }
    }
}

/// Accepts a command whose change was made, by this user's command or another's: tells what it changes, enters it, and makes
/// the rows and the indexes right again. After an error the journal, the rows and the indexes are as before.
pub(crate) fn accept<L: Ledger, M: Ledger>(
    state: &mut State,
    printed: &Printed,
    changed: &Changed,
    reads: &mut Steps<L>,
    probes: &mut Steps<M>,
    out: &mut Vec<u8>,
) -> Result<(), CommandFault>
    requires changed { IsChanged (command_view printed.now.command.now) changed.now.before changed.now.change state.old }
    requires legible { IsLegible (command_view printed.now.command.now) }
    requires data { IsOnData (command_view printed.now.command.now) }
    requires line { IsPrinted printed.now }
    ensures accepts { Accepts (command_view printed.now.command.now) changed.now state.old state.new result }
    ensures carries { CarriesOut (command_view printed.now.command.now)
        (moment (held state.old.journal) out.old.items reads.old probes.old)
        (moment (held state.new.journal) out.new.items reads.new probes.new) result }
    ensures room { OnOk result (HasRoomForOk out.new) }
{
    let fresh = follow(state, printed, changed, reads, probes, out)?;
    state.indexes.touch(&state.database, &changed.change);
    settle(&mut state.live, fresh, state.database.clock());
    queries_go_on_fitting_worlds();
    writes_to_no_object_keep_queries_current();
    committed_writes_keep_queries_current();
    prepared_writes_renew_queries();
    prepared_changes_tell_what_a_write_changes();
    current_queries_tell_their_answers();
    Ok(())
}

/// Makes what was prepared of a write, if it was; else time may have passed to tick `now`.
fn settle(live: &mut Live, fresh: Option<Fresh>, now: u32)
    requires { IfSome fresh (IsPrepared live.old) }
    ensures made { Settles fresh live.old live.new }
    ensures before { AreKept live.old }
    ensures after { AreKept live.new }
{
    live.are_kept();
    match fresh {
        Some(fresh) => live.commit(fresh),
        None => live.advance(now),
    }
    live.are_kept();
}

/// What follows a change that was made: the lines of what changes for the registered queries, and the entry. Answers
/// what a write makes of the rows, which is then to be made. After an error the journal and the rows are as before.
fn follow<L: Ledger, M: Ledger>(
    state: &mut State,
    printed: &Printed,
    changed: &Changed,
    reads: &mut Steps<L>,
    probes: &mut Steps<M>,
    out: &mut Vec<u8>,
) -> Result<Option<Fresh>, CommandFault>
    requires changed { IsChanged (command_view printed.now.command.now) changed.now.before changed.now.change state.old }
    requires legible { IsLegible (command_view printed.now.command.now) }
    requires data { IsOnData (command_view printed.now.command.now) }
    requires line { IsPrinted printed.now }
    ensures follows { Follows (command_view printed.now.command.now) changed.now.before changed.now.change state.old state.new out.old.items out.new.items result }
    ensures spends { Spends (command_view printed.now.command.now)
        (moment (held state.old.journal) out.old.items reads.old probes.old)
        (moment (held state.new.journal) out.new.items reads.new probes.new) }
    ensures free { RefusesFreely (tally out.old.items reads.old probes.old) (tally out.new.items reads.new probes.new) result }
    ensures room { OnOk result (HasRoomForOk out.new) }
    ensures indexes { state.new.indexes ≡ state.old.indexes }
{
    let command = printed.command;
    admit(&state.journal, &mut state.line, command, printed.line)?;
    let fresh = tell_change(state, command, changed, reads, probes, out)?;
    enter(&mut state.journal, changed.before, &state.line, out)?;
    Ok(fresh)
}

/// Writes which targets enter and leave as the clock moves from tick `before` to its tick. Where no query is registered
/// there are none, and no memory is taken.
#[tactic(auto, using(crate::proofs::LineLemmas::nothing_passes))]
fn pass(
    alloc: Global,
    database: &Database,
    live: &Live,
    before: u32,
    out: &mut Vec<u8>,
) -> Result<(), AllocError>
    requires stood { StoodAt database.now before live.now }
    ensures ok { OnOk result (out.new.items ≡ out.old.items
        ++ told_moves_text (catalog_of database.now.store) (flat_map (passings_of before (clock_of database.now)) live.now)) }
    ensures begins { Begins out.old.items out.new.items }
{
    if live.count() == 0 {
        return Ok(());
    }
    registry::pass(alloc, database, live, before, out)
}

/// Writes what a change that was made changes for the registered queries. Answers what a write makes of the rows.
fn tell_change<L: Ledger, M: Ledger>(
    state: &State,
    command: &Command,
    changed: &Changed,
    reads: &mut Steps<L>,
    probes: &mut Steps<M>,
    out: &mut Vec<u8>,
) -> Result<Option<Fresh>, AllocError>
    requires changed { IsChanged (command_view command.now) changed.now.before changed.now.change state.now }
    requires reached { AreReached [] (state.now.journal ++ (changed.now.before, command_view command.now) ∷ []) }
    ensures prepared { IfOk result (Prepares (command_view command.now) changed.now.change state.now.database state.now.live) }
    ensures told { IfOk result (λ f. out.new.items
        ≡ out.old.items ++ lines_told (command_view command.now) changed.now.before state.now.database state.now.live f) }
    ensures spends { Spends (command_view command.now)
        (moment (held state.now.journal) out.old.items reads.old probes.old)
        (moment (held state.now.journal) out.new.items reads.new probes.new) }
{
    match command {
        Command::Tick { .. } => {
            let alloc = *state.line.allocator();
            pass(alloc, &state.database, &state.live, changed.before, out)?;
            Ok(None)
        }
        Command::Insert { .. } | Command::Update { .. } | Command::Remove { .. } => {
            tell_write(state, command, changed, reads, probes, out)
        }
        _ => Ok(None),
    }
}

/// The same of a command that writes to an object.
fn tell_write<L: Ledger, M: Ledger>(
    state: &State,
    command: &Command,
    changed: &Changed,
    reads: &mut Steps<L>,
    probes: &mut Steps<M>,
    out: &mut Vec<u8>,
) -> Result<Option<Fresh>, AllocError>
    requires changed { IsChanged (command_view command.now) changed.now.before changed.now.change state.now }
    requires reached { AreReached [] (state.now.journal ++ (changed.now.before, command_view command.now) ∷ []) }
    requires write { writes_object (command_view command.now) ≡ true }
    ensures prepared { IfOk result (Prepares (command_view command.now) changed.now.change state.now.database state.now.live) }
    ensures told { IfOk result (λ f. out.new.items
        ≡ out.old.items ++ lines_told (command_view command.now) changed.now.before state.now.database state.now.live f) }
    ensures spends { Spends (command_view command.now)
        (moment (held state.now.journal) out.old.items reads.old probes.old)
        (moment (held state.now.journal) out.new.items reads.new probes.new) }
{
    queries_go_on_fitting_worlds();
    let (database, live) = (&state.database, &state.live);
    match &changed.change {
        Change::Object(done) => {
            let alloc = *state.line.allocator();
            let fresh = renew(alloc, database, live, done.id, reads, probes, out)?;
            Ok(Some(fresh))
        }
        Change::Class | Change::Region | Change::Clock(_) => Ok(None),
    }
}
