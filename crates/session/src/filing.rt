//! The commands that ask the shelf for a text, or give it one.
ghost use Rattle.std.specs.Prelude.{◌≡◌, ◌+◌, ◌≤◌, ◌++◌, true, None, Some, List, ℕ, length, IfOk, MatchOption, OnOk};
ghost use Rattle.command_text.specs.Shape.{IsShortName};
ghost use Rattle.command_text.specs.Tree as Tree;
ghost use Rattle.command_text.specs.Tree.{command_view};
ghost use Rattle.object_rows.specs.declared.rows.ObjectRow.{ObjectRow};
ghost use Rattle.line_meaning.specs.Import.{journal_after_text, rows_for};
ghost use Rattle.line_meaning.specs.Looks.{looks_of_rows, most_looks};
ghost use Rattle.line_meaning.specs.Role.{is_import};
ghost use Rattle.line_meaning.specs.Reply.{ok_line};
ghost use Rattle.line_meaning.specs.Step.{held};
ghost use Rattle.reply_text.specs.Begins.{Begins};
ghost use Rattle.session.specs.Answers.{HasFaultCause, IsUnread};
ghost use Rattle.session.specs.Carried.{moment};
ghost use Rattle.session.specs.Filed.{IsAnswered, IsApplied, IsBySome, IsFiling, Puts, TakesSteps, said_after};
ghost use Rattle.session.specs.Imported.{Imports, IsThere};
ghost use Rattle.session.specs.State.{IsState, KeepsIndexes};
ghost use Rattle.session.specs.Trial.{AreImported};
ghost use Rattle.steps.specs.Counting.{StepsAtMost};

use crate::importing::enter_rows;
use crate::next::{ApplyFault, Next};
use crate::state::State;
use crate::trying::commands_of;
use command_text::{Command, CommandFault, Refusal};
use fixed_point::Word;
use line_meaning::imported_rows_may_be_loaded;
use object_rows::commands_are_printable;
use outside::{OutFail, Shelf};
use reply_text::push_ok;
use session_file::save_text;
use std::alloc::{AllocError, Global};
use std::sync::ledger::Ledger;
use steps::Steps;

/// Writes `ok`, and then puts a text on the shelf, since that can't be taken back.
fn put<F: Shelf>(
    shelf: &mut F,
    file: &Word,
    text: &[u8],
    out: &mut Vec<u8>,
) -> Result<Next, ApplyFault>
    ensures puts { Puts (F.texts shelf.old) (F.texts shelf.new) file.now text.now result }
    ensures cause { HasFaultCause (F.faults shelf.old) (F.faults shelf.new) result }
    ensures said { OnOk result (out.new.items ≡ out.old.items ++ ok_line) }
    ensures begins { Begins out.old.items out.new.items }
{
    push_ok(out)?;
    match shelf.store(file.bytes(), text) {
        Ok(()) => Ok(Next::Accepted),
        Err(OutFail::Failed) => Err(ApplyFault::ShelfFault),
        Err(OutFail::NoMemory) => Err(ApplyFault::NoMemory),
    }
}

/// Saves the text of the journal.
fn save<F: Shelf, L: Ledger>(
    state: &State,
    file: &Word,
    shelf: &mut F,
    reads: &mut Steps<L>,
    out: &mut Vec<u8>,
) -> Result<Next, ApplyFault>
    requires { IsState state.now.journal state.now }
    ensures applied { IsApplied (F.texts shelf.old) (F.texts shelf.new) (Tree.Save file.now) (held state.now.journal) (held state.now.journal)
        out.old.items (said_after result out.old.items out.new.items) result }
    ensures cause { HasFaultCause (F.faults shelf.old) (F.faults shelf.new) result }
    ensures begins { Begins out.old.items out.new.items }
    ensures reads { StepsAtMost reads.old reads.new (most_looks (held state.now.journal) (Tree.Save file.now)) }
    ensures unread { IfOk result (λ next. IsUnread next reads.old reads.new) }
{
    let alloc = *out.allocator();
    match save_text(alloc, &state.journal, reads) {
        Ok(text) => put(shelf, file, &text, out),
        Err(AllocError) => Err(ApplyFault::NoMemory),
    }
}

/// Exports the objects of a class.
fn export<F: Shelf, L: Ledger>(
    state: &State,
    class: &Word,
    file: &Word,
    shelf: &mut F,
    reads: &mut Steps<L>,
    out: &mut Vec<u8>,
) -> Result<Next, ApplyFault>
    requires { IsState state.now.journal state.now }
    ensures applied { IsApplied (F.texts shelf.old) (F.texts shelf.new) (Tree.Export class.now file.now) (held state.now.journal) (held state.now.journal)
        out.old.items (said_after result out.old.items out.new.items) result }
    ensures cause { HasFaultCause (F.faults shelf.old) (F.faults shelf.new) result }
    ensures begins { Begins out.old.items out.new.items }
    ensures reads { StepsAtMost reads.old reads.new (most_looks (held state.now.journal) (Tree.Export class.now file.now)) }
    ensures unread { IfOk result (λ next. IsUnread next reads.old reads.new) }
{
    let alloc = *out.allocator();
    match state.database.export_text(alloc, class, reads) {
        Ok(text) => put(shelf, file, &text, out),
        Err(CommandFault::Refused(refusal)) => Ok(Next::Refused(refusal)),
        Err(CommandFault::NoMemory) => Err(ApplyFault::NoMemory),
    }
}

/// The commands of the rows of a text, None where it isn't of the format or one of them isn't taken. What is held is
/// as before.
fn commands_in(
    alloc: Global,
    state: &mut State,
    class: &Word,
    text: &[u8],
) -> Result<Option<Vec<Command>>, AllocError>
    requires state { IsState state.old.journal state.old }
    requires class { IsThere state.old.journal class.now }
    ensures state { IsState state.new.journal state.new }
    ensures indexes { KeepsIndexes state.old state.new }
    ensures same { state.new.journal ≡ state.old.journal }
    ensures found { IfOk result (λ found. MatchOption found (journal_after_text state.old.journal class.now text.now ≡ None)
        (λ commands. AreImported class.now state.old.journal text.now commands.items)) }
{
    let Some(rows) = state.database.rows_of(alloc, class, text)? else {
        return Ok(None);
    };
    commands_are_printable();
    imported_rows_may_be_loaded();
    commands_of(
        alloc,
        &state.journal,
        &mut state.database,
        &mut state.line,
        *class,
        rows,
    )
}

/// Imports the rows of a text. After an error `out` begins with its old contents.
fn import_text<L: Ledger, M: Ledger>(
    state: &mut State,
    class: &Word,
    text: &[u8],
    reads: &mut Steps<L>,
    probes: &mut Steps<M>,
    out: &mut Vec<u8>,
) -> Result<Next, ApplyFault>
    requires state { IsState state.old.journal state.old }
    requires class { IsThere state.old.journal class.now }
    ensures state { IsState state.new.journal state.new }
    ensures indexes { KeepsIndexes state.old state.new }
    ensures imports { Imports class.now text.now state.old.journal state.new.journal out.old.items out.new.items result }
    ensures begins { Begins out.old.items out.new.items }
    ensures steps { TakesSteps reads.old reads.new probes.old probes.new result }
    ensures most { (rows : List ObjectRow) → rows_for state.old.journal class.now text.now ≡ Some rows
        → reads.new ≤ reads.old + looks_of_rows class.now state.old.journal rows }
    ensures idle { rows_for state.old.journal class.now text.now ≡ None → reads.new ≡ reads.old }
{
    let alloc = *out.allocator();
    match commands_in(alloc, state, class, text) {
        Ok(Some(commands)) => {
            let entered = enter_rows(alloc, state, &commands, reads, probes, out);
            drop(commands);
            match entered {
                Ok(()) => Ok(Next::Accepted),
                Err(AllocError) => Err(ApplyFault::NoMemory),
            }
        }
        Ok(None) => Ok(Next::Refused(Refusal::BadFile)),
        Err(AllocError) => Err(ApplyFault::NoMemory),
    }
}

/// Imports the objects of a class: either all rows of the text are entered or none.
fn import<F: Shelf, L: Ledger, M: Ledger>(
    state: &mut State,
    class: &Word,
    file: &Word,
    shelf: &mut F,
    reads: &mut Steps<L>,
    probes: &mut Steps<M>,
    out: &mut Vec<u8>,
) -> Result<Next, ApplyFault>
    requires state { IsState state.old.journal state.old }
    requires name { IsShortName class.now }
    ensures state { IsState state.new.journal state.new }
    ensures indexes { KeepsIndexes state.old state.new }
    ensures answered { IsAnswered (F.texts shelf.old) (F.texts shelf.new) (Tree.Import class.now file.now)
        (moment (held state.old.journal) out.old.items reads.old probes.old)
        (moment (held state.new.journal) (said_after result out.old.items out.new.items) reads.new probes.new) result }
    ensures some { IsBySome (F.texts shelf.old) (Tree.Import class.now file.now)
        (moment (held state.old.journal) out.old.items reads.old probes.old)
        (moment (held state.new.journal) (said_after result out.old.items out.new.items) reads.new probes.new) result }
    ensures cause { HasFaultCause (F.faults shelf.old) (F.faults shelf.new) result }
    ensures begins { Begins out.old.items out.new.items }
{
    if let Some(refusal) = state.database.class_refusal(class) {
        return Ok(Next::Refused(refusal));
    }
    match shelf.fetch(file.bytes()) {
        Ok(Some(text)) => import_text(state, class, &text, reads, probes, out),
        Ok(None) => Ok(Next::Refused(Refusal::NoFile)),
        Err(OutFail::Failed) => Err(ApplyFault::ShelfFault),
        Err(OutFail::NoMemory) => Err(ApplyFault::NoMemory),
    }
}

/// Carries out a command that asks the shelf. After an error `out` begins with its old contents.
fn carry_out<F: Shelf, L: Ledger, M: Ledger>(
    state: &mut State,
    command: &Command,
    shelf: &mut F,
    reads: &mut Steps<L>,
    probes: &mut Steps<M>,
    out: &mut Vec<u8>,
) -> Result<Next, ApplyFault>
    requires state { IsState state.old.journal state.old }
    requires filing { IsFiling (command_view command.now) }
    ensures state { IsState state.new.journal state.new }
    ensures indexes { KeepsIndexes state.old state.new }
    ensures answered { IsAnswered (F.texts shelf.old) (F.texts shelf.new) (command_view command.now)
        (moment (held state.old.journal) out.old.items reads.old probes.old)
        (moment (held state.new.journal) (said_after result out.old.items out.new.items) reads.new probes.new) result }
    ensures some { is_import (command_view command.now) ≡ true → IsBySome (F.texts shelf.old) (command_view command.now)
        (moment (held state.old.journal) out.old.items reads.old probes.old)
        (moment (held state.new.journal) (said_after result out.old.items out.new.items) reads.new probes.new) result }
    ensures cause { HasFaultCause (F.faults shelf.old) (F.faults shelf.new) result }
    ensures begins { Begins out.old.items out.new.items }
{
    match command {
        Command::Save { file } => save(state, file, shelf, reads, out),
        Command::Export { class, file } => export(state, class, file, shelf, reads, out),
        Command::Import { class, file } => import(state, class, file, shelf, reads, probes, out),
        _ => unreachable!(),
    }
}

/// Answers a command that asks the shelf. A refusal changes nothing, nor does a fault, but that an import that wants
/// memory may have entered the first of its rows.
pub(crate) fn file<F: Shelf, L: Ledger, M: Ledger>(
    state: &mut State,
    command: &Command,
    shelf: &mut F,
    reads: &mut Steps<L>,
    probes: &mut Steps<M>,
    out: &mut Vec<u8>,
) -> Result<Next, ApplyFault>
    requires state { IsState state.old.journal state.old }
    requires filing { IsFiling (command_view command.now) }
    ensures state { IsState state.new.journal state.new }
    ensures indexes { KeepsIndexes state.old state.new }
    ensures answered { IsAnswered (F.texts shelf.old) (F.texts shelf.new) (command_view command.now)
        (moment (held state.old.journal) out.old.items reads.old probes.old)
        (moment (held state.new.journal) out.new.items reads.new probes.new) result }
    ensures some { is_import (command_view command.now) ≡ true → IsBySome (F.texts shelf.old) (command_view command.now)
        (moment (held state.old.journal) out.old.items reads.old probes.old)
        (moment (held state.new.journal) out.new.items reads.new probes.new) result }
    ensures cause { HasFaultCause (F.faults shelf.old) (F.faults shelf.new) result }
{
    let before = out.len();
    let filed = carry_out(state, command, shelf, reads, probes, out);
    if filed.is_err() {
        out.truncate(before);
    }
    filed
}
