//! What is done with a command that was read.
ghost use Rattle.std.specs.Prelude.{◌≡◌, ◌++◌, false, IfErr, IfOk, OnOk};
ghost use Rattle.command_text.specs.Tree.{command_view};
ghost use Rattle.line_meaning.specs.Step.{held};
ghost use Rattle.database.specs.Telling.{RefusesFreely, tally};
ghost use Rattle.session.specs.Answers.{next_of};
ghost use Rattle.session.specs.Carried.{Carried, CarriesOut, HasRoomFor, IsStopped, IsTelling, IsToCarryOut, Spends, end_of, is_on_data, moment};
ghost use Rattle.line_meaning.specs.Role.{is_on_indexes};
ghost use Rattle.session.specs.State.{holds, IsIndexed, IsState, KeepsIndexes};
ghost use Rattle.session.specs.Told.{IsTold};
ghost use Rattle.kept_indexes.specs.Making.{HasRoomForOk};

use crate::entering::{end_reply, make_room};
use crate::indexing::on_indexes;
use crate::keeping::keep;
use crate::next::Next;
use crate::state::State;
use command_text::{Command, CommandFault, Refusal};
use line_meaning::{Role, role_of};
use registry::{push_queries, show};
use std::alloc::{AllocError, Global};
use std::sync::ledger::Ledger;
use steps::Steps;

/// Writes the lines that answer a command which changes nothing. On want of memory `out` still begins with its old
/// contents.
fn tell_lines<L: Ledger, M: Ledger>(
    alloc: Global,
    state: &State,
    command: &Command,
    reads: &mut Steps<L>,
    probes: &mut Steps<M>,
    out: &mut Vec<u8>,
) -> Result<(), CommandFault>
    requires state { IsState state.now.journal state.now }
    requires telling { IsTelling (command_view command.now) }
    ensures told { IfOk result (λ _. IsTold state.now.journal (command_view command.now) out.old.items out.new.items) }
    ensures stopped { IfErr result (IsStopped (command_view command.now) (held state.now.journal) (held state.now.journal)) }
    ensures spends { Spends (command_view command.now)
        (moment (held state.now.journal) out.old.items reads.old probes.old)
        (moment (held state.now.journal) out.new.items reads.new probes.new) }
    ensures free { RefusesFreely (tally out.old.items reads.old probes.old) (tally out.new.items reads.new probes.new) result }
{
    match command {
        Command::Show { name } => {
            show(alloc, &state.database, &state.live, name, out)?;
            Ok(())
        }
        Command::List => {
            state.database.tell(alloc, command, reads, probes, out)?;
            push_queries(&state.live, out)?;
            Ok(())
        }
        _ => {
            state.database.tell(alloc, command, reads, probes, out)?;
            Ok(())
        }
    }
}

/// The same, with room for an `ok` after them.
fn tell<L: Ledger, M: Ledger>(
    alloc: Global,
    state: &State,
    command: &Command,
    reads: &mut Steps<L>,
    probes: &mut Steps<M>,
    out: &mut Vec<u8>,
) -> Result<(), CommandFault>
    requires state { IsState state.now.journal state.now }
    requires telling { IsTelling (command_view command.now) }
    ensures carries { CarriesOut (command_view command.now)
        (moment (held state.now.journal) out.old.items reads.old probes.old)
        (moment (held state.now.journal) out.new.items reads.new probes.new) result }
    ensures room { OnOk result (HasRoomForOk out.new) }
{
    tell_lines(alloc, state, command, reads, probes, out)?;
    make_room(out)?;
    Ok(())
}

/// Does what a command has to that isn't on indexes. After an error nothing has changed but that `out` begins with its old
/// contents.
#[inline(always)]
fn perform_plain<L: Ledger, M: Ledger>(
    alloc: Global,
    state: &mut State,
    command: &Command,
    reads: &mut Steps<L>,
    probes: &mut Steps<M>,
    out: &mut Vec<u8>,
) -> Result<Next, CommandFault>
    requires state { IsState state.old.journal state.old }
    requires command { IsToCarryOut (command_view command.now) }
    requires other { is_on_indexes (command_view command.now) ≡ false }
    ensures state { IsState state.new.journal state.new }
    ensures indexes { KeepsIndexes state.old state.new }
    ensures database { is_on_data (command_view command.now) ≡ false → state.new.database ≡ state.old.database }
    ensures carries { CarriesOut (command_view command.now)
        (moment (held state.old.journal) out.old.items reads.old probes.old)
        (moment (held state.new.journal) out.new.items reads.new probes.new) result }
    ensures next { IfOk result (λ next. next ≡ next_of (command_view command.now)) }
    ensures room { IfOk result (λ next. HasRoomFor next out.new) }
{
    match role_of(command) {
        Role::Blank => Ok(Next::Silent),
        Role::Journalled => {
            keep(alloc, state, command, reads, probes, out)?;
            Ok(Next::Accepted)
        }
        Role::Telling => {
            tell(alloc, state, command, reads, probes, out)?;
            Ok(Next::Accepted)
        }
        Role::Ending => {
            make_room(out)?;
            Ok(Next::Quit)
        }
        Role::Indexing => unreachable!(),
        Role::Filing => unreachable!(),
    }
}

/// Before a query that is evaluated over classes the database makes ready for it. Nothing that can be seen changes.
fn prepare_for(state: &mut State, command: &Command)
    ensures { state.new ≡ state.old }
{
    match command {
        Command::Ask { .. }
        | Command::Must { .. }
        | Command::May { .. }
        | Command::Watch { .. }
        | Command::Keep { .. } => state.database.prepare_for_query(),
        _ => {}
    }
}

/// Does what a command has to that was read and asks nothing of the shelf. After an error nothing has changed but that
/// `out` begins with its old contents, and that indexes may have looked at objects.
#[inline(always)]
fn perform<L: Ledger, M: Ledger>(
    alloc: Global,
    state: &mut State,
    command: &Command,
    reads: &mut Steps<L>,
    probes: &mut Steps<M>,
    out: &mut Vec<u8>,
) -> Result<Next, CommandFault>
    requires state { IsState state.old.journal state.old }
    requires indexed { IsIndexed state.old }
    requires command { IsToCarryOut (command_view command.now) }
    ensures state { IsState state.new.journal state.new }
    ensures indexed { IsIndexed state.new }
    ensures database { is_on_data (command_view command.now) ≡ false → state.new.database ≡ state.old.database }
    ensures carries { CarriesOut (command_view command.now)
        (moment (holds state.old) out.old.items reads.old probes.old)
        (moment (holds state.new) out.new.items reads.new probes.new) result }
    ensures next { IfOk result (λ next. next ≡ next_of (command_view command.now)) }
    ensures room { IfOk result (λ next. HasRoomFor next out.new) }
{
    match role_of(command) {
        Role::Indexing => {
            on_indexes(alloc, state, command, reads, out)?;
            Ok(Next::Accepted)
        }
        _ => {
            prepare_for(state, command);
            perform_plain(alloc, state, command, reads, probes, out)
        }
    }
}

/// Carries out a command that was read and asks nothing of the shelf, and writes the lines of its reply but for the `ok`
/// at the end, for which there is room then. A refusal and want of memory change nothing.
#[inline(always)]
pub(crate) fn carry_out<L: Ledger, M: Ledger>(
    alloc: Global,
    state: &mut State,
    command: &Command,
    reads: &mut Steps<L>,
    probes: &mut Steps<M>,
    out: &mut Vec<u8>,
) -> Result<Next, AllocError>
    requires state { IsState state.old.journal state.old }
    requires indexed { IsIndexed state.old }
    requires command { IsToCarryOut (command_view command.now) }
    ensures state { IsState state.new.journal state.new }
    ensures indexed { IsIndexed state.new }
    ensures database { is_on_data (command_view command.now) ≡ false → state.new.database ≡ state.old.database }
    ensures carried { Carried (command_view command.now)
        (moment (holds state.old) out.old.items reads.old probes.old)
        (moment (holds state.new) out.new.items reads.new probes.new) result }
    ensures room { IfOk result (λ next. HasRoomFor next out.new) }
{
    let before = out.len();
    match perform(alloc, state, command, reads, probes, out) {
        Ok(next) => Ok(next),
        Err(CommandFault::Refused(refusal)) => {
            out.truncate(before);
            Ok(Next::Refused(refusal))
        }
        Err(CommandFault::NoMemory) => {
            out.truncate(before);
            Err(AllocError)
        }
    }
}

/// Ends the reply of a command that was carried out: with `ok`, where it was accepted and isn't blank.
pub(crate) fn end(next: Next, out: &mut Vec<u8>)
    requires { HasRoomFor next out.old }
    ensures { out.new.items ≡ out.old.items ++ end_of next }
{
    match next {
        Next::Accepted => end_reply(out),
        Next::Quit => end_reply(out),
        Next::Silent => {}
        Next::Refused(_) => {}
    }
}
