//! The rows of an import, entered one after another.
ghost use Rattle.std.specs.Prelude.{◌≡◌, ◌+◌, ◌++◌, true, map, is_some, OnOk, OnErr};
ghost use Rattle.std.specs.List.{AllByRecursion};
ghost use Rattle.command_text.specs.Tree.{command_view};
ghost use Rattle.line_meaning.specs.Import.{entry_lines, is_taken, with_entry};
ghost use Rattle.line_meaning.specs.Step.{held};
ghost use Rattle.reply_text.specs.Begins.{Begins};
ghost use Rattle.session.specs.Carried.{Spends, moment};
ghost use Rattle.session.specs.Rows.{EntersCommands, IsRowCommand, journal_after_commands, looks_of_commands};
ghost use Rattle.session.specs.State.{IsState, KeepsIndexes};
ghost use Rattle.kept_indexes.specs.Making.{HasRoomForOk};
ghost use Rattle.steps.specs.Counting.{StepsAtMost};

use crate::entering::{end_reply, make_room};
use crate::keeping::keep;
use crate::state::State;
use command_text::{Command, CommandFault, canonical_lines_are_read_back};
use std::alloc::{AllocError, Global};
use std::sync::ledger::Ledger;
use steps::Steps;

/// Enters the command of a row that nothing refuses, and writes its lines. Want of memory changes no more than the end of
/// `out`.
fn enter_row<L: Ledger, M: Ledger>(
    alloc: Global,
    state: &mut State,
    command: &Command,
    reads: &mut Steps<L>,
    probes: &mut Steps<M>,
    out: &mut Vec<u8>,
) -> Result<(), AllocError>
    requires state { IsState state.old.journal state.old }
    requires row { IsRowCommand (command_view command.now) }
    requires taken { is_taken state.old.journal (command_view command.now) ≡ true }
    ensures state { IsState state.new.journal state.new }
    ensures indexes { KeepsIndexes state.old state.new }
    ensures entered { OnOk result (state.new.journal ≡ with_entry state.old.journal (command_view command.now)) }
    ensures told { OnOk result (out.new.items ≡ out.old.items ++ entry_lines state.old.journal (command_view command.now)) }
    ensures err { OnErr result (state.new.journal ≡ state.old.journal) }
    ensures spends { Spends (command_view command.now)
        (moment (held state.old.journal) out.old.items reads.old probes.old)
        (moment (held state.new.journal) out.new.items reads.new probes.new) }
    ensures room { OnOk result (HasRoomForOk out.new) }
{
    canonical_lines_are_read_back();
    match keep(alloc, state, command, reads, probes, out) {
        Ok(()) => Ok(()),
        Err(CommandFault::NoMemory) => Err(AllocError),
        Err(CommandFault::Refused(_)) => unreachable!(),
    }
}

/// Enters the commands of rows that nothing refuses, and writes their lines with one `ok` at the end. Want of memory
/// leaves the first of them entered, if any, but not the last, and the old contents of `out` in front.
pub(crate) fn enter_rows<L: Ledger, M: Ledger>(
    alloc: Global,
    state: &mut State,
    commands: &[Command],
    reads: &mut Steps<L>,
    probes: &mut Steps<M>,
    out: &mut Vec<u8>,
) -> Result<(), AllocError>
    requires state { IsState state.old.journal state.old }
    requires rows { AllByRecursion IsRowCommand (map command_view commands.now) }
    requires taken { is_some (journal_after_commands state.old.journal (map command_view commands.now)) ≡ true }
    ensures state { IsState state.new.journal state.new }
    ensures indexes { KeepsIndexes state.old state.new }
    ensures entered { EntersCommands (map command_view commands.now) state.old.journal state.new.journal out.old.items out.new.items result }
    ensures begins { Begins out.old.items out.new.items }
    ensures reads { StepsAtMost reads.old reads.new (looks_of_commands state.old.journal (map command_view commands.now)) }
{
    make_room(out)?;
    let mut rest = commands;
    'rows: while let Some((command, later)) = rest.split_first() {
        enter_row(alloc, state, command, reads, probes, out)?;
        rest = later;
    }
    end_reply(out);
    Ok(())
}
