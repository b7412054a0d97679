//! The rows of an import, tried one after another and taken back, so that they are judged before any is entered.
ghost use Rattle.std.specs.Prelude.{◌≡◌, ◌+◌, ◌≤◌, not, true, false, [], length, None, ◌++◌, ◌∷◌, IfOk, IfSome, OnErr, OnOk, MatchOption};
ghost use Rattle.std.specs.List.{AllByRecursion};
ghost use Rattle.command_text.specs.declared.journal.TheConstants.{MOST_BYTES};
ghost use Rattle.command_text.specs.Journal.{bytes_of};
ghost use Rattle.command_text.specs.Text.{text_of};
ghost use Rattle.command_text.specs.Tree.{command_view};
ghost use Rattle.object_rows.specs.Commands.{command_of_row};
ghost use Rattle.session_file.specs.declared.kept.TheConstants.{SESSION_LINE_LIMIT};
ghost use Rattle.line_meaning.specs.Fault.{is_present, passes_limits};
ghost use Rattle.line_meaning.specs.Import.{journal_after_rows};
ghost use Rattle.database.specs.Keeping.{IsTimely, Keeps, clock_of, world_of_database};
ghost use Rattle.session.specs.Rows.{IsImportedRow, IsRowCommand};
ghost use Rattle.session.specs.Trial.{AddsTaken, AreTaken, HasSpare, IsSameTrial, IsStack, TellsTrial, Tries, TriesCommand, bottom, journal_of};

use crate::entering::passes;
use command_text::{Command, CommandFault, Journal, MOST_BYTES, MOST_ENTRIES, print_into};
use database::{Change, Database};
use fixed_point::Word;
use object_rows::ObjectRow;
use std::alloc::{AllocError, Global};

/// What was tried of some rows.
#[derive(Drop)]
pub(crate) struct Trial {
    commands: Vec<Command>,
    // What they changed, in order.
    changes: Vec<Change>,
    // Of the canonical lines of the journal and of these, with line feeds.
    bytes: u64,
}

impl Trial {
    /// Of no command yet. It takes no memory.
    fn new(alloc: Global, journal: &Journal) -> Trial
        ensures commands { result.commands.items ≡ [] }
        ensures changes { result.changes.items ≡ [] }
        ensures bytes { result.bytes ≡ bytes_of journal.now }
        ensures short { result.bytes ≤ MOST_BYTES }
    {
        Trial {
            commands: Vec::new(alloc),
            changes: Vec::new(alloc),
            bytes: journal.bytes(),
        }
    }

    /// Has room for one more command and its change. It changes neither list.
    fn reserve(&mut self) -> Result<(), AllocError>
        ensures same { IsSameTrial self.old self.new }
        ensures spare { OnOk result (HasSpare self.new) }
    {
        self.commands.reserve(1)?;
        self.changes.reserve(1)
    }

    /// Adds a command, what it changed, and how many bytes its entry has.
    fn push(&mut self, command: Command, change: Change, bytes: u64)
        requires spare { HasSpare self.old }
        requires short { self.old.bytes + bytes ≤ MOST_BYTES }
        ensures commands { self.new.commands.items ≡ self.old.commands.items ++ command ∷ [] }
        ensures changes { self.new.changes.items ≡ self.old.changes.items ++ change ∷ [] }
        ensures bytes { self.new.bytes ≡ self.old.bytes + bytes }
    {
        self.commands.push(command).unwrap();
        self.changes.push(change).unwrap();
        self.bytes += bytes;
    }

    /// Adds a command that was tried, if it is taken. Answers whether it is.
    fn add(
        &mut self,
        command: Command,
        bytes: u64,
        tried: Result<Option<Change>, AllocError>,
    ) -> Result<bool, AllocError>
        requires spare { IfOk tried (λ found. IfSome found (λ _. HasSpare self.old)) }
        requires short { IfOk tried (λ found. IfSome found (λ _. self.old.bytes + bytes ≤ MOST_BYTES)) }
        ensures { AddsTaken command bytes tried self.old self.new result }
    {
        match tried {
            Ok(Some(change)) => {
                self.push(command, change, bytes);
                Ok(true)
            }
            Ok(None) => {
                drop(command);
                Ok(false)
            }
            Err(AllocError) => {
                drop(command);
                Err(AllocError)
            }
        }
    }
}

/// Whether a journal with the commands of a trial has room for one more entry of a canonical line.
fn has_room(journal: &Journal, trial: &Trial, line: &[u8]) -> bool
    requires bytes { trial.now.bytes ≤ MOST_BYTES }
    requires line { length line.now ≤ SESSION_LINE_LIMIT }
    ensures { result ≡ not (passes_limits (length journal.now + length trial.now.commands.items) trial.now.bytes (length line.now)) }
{
    let entries = journal.len() + trial.commands.len();
    !passes(entries, trial.bytes, line.len(), MOST_ENTRIES, MOST_BYTES)
}

/// Carries out a command of a row, unless something refuses it, and prints its canonical line. Want of memory changes
/// nothing else.
fn attempt(
    journal: &Journal,
    database: &mut Database,
    trial: &Trial,
    line: &mut Vec<u8>,
    command: &Command,
) -> Result<Option<Change>, AllocError>
    requires row { IsRowCommand (command_view command.now) }
    requires told { TellsTrial journal.now database.old trial.now }
    ensures tried { IfOk result (Tries (journal_of journal.now trial.now) (command_view command.now) database.old database.new) }
    ensures line { IfOk result (λ found. IfSome found (λ _. line.new.items ≡ text_of (command_view command.now))) }
    ensures bytes { IfOk result (λ found. IfSome found (λ _. trial.now.bytes + length line.new.items + 1 ≤ MOST_BYTES)) }
    ensures err { OnErr result (database.new ≡ database.old) }
{
    print_into(line, command)?;
    if !has_room(journal, trial, line) {
        return Ok(None);
    }
    let alloc = *line.allocator();
    match database.attempt(alloc, command) {
        Ok(change) => Ok(Some(change)),
        Err(CommandFault::Refused(_)) => Ok(None),
        Err(CommandFault::NoMemory) => Err(AllocError),
    }
}

/// Tries a command of a row after those of a trial, which gets room for it.
fn try_command(
    journal: &Journal,
    database: &mut Database,
    trial: &mut Trial,
    line: &mut Vec<u8>,
    command: &Command,
) -> Result<Option<Change>, AllocError>
    requires row { IsRowCommand (command_view command.now) }
    requires told { TellsTrial journal.now database.old trial.old }
    ensures { TriesCommand journal.now (command_view command.now) database.old database.new trial.old trial.new line.new.items result }
{
    trial.reserve()?;
    attempt(journal, database, trial, line, command)
}

/// The command of a row after those of a trial.
fn row_command(database: &Database, class: Word, row: ObjectRow) -> Command
    requires { IsTimely database.now }
    ensures { command_view result ≡ command_of_row class (is_present (world_of_database database.now).history row.name (clock_of database.now)) row }
{
    let present = database.is_present(&row.name);
    row.into_command(class, present)
}

/// Tries rows up to the first that isn't taken. Answers whether all are.
fn try_rows(
    journal: &Journal,
    database: &mut Database,
    trial: &mut Trial,
    line: &mut Vec<u8>,
    class: Word,
    rows: Vec<ObjectRow>,
) -> Result<bool, AllocError>
    requires rows { AllByRecursion (IsImportedRow class) rows.items }
    requires told { TellsTrial journal.now database.old trial.old }
    requires commands { trial.old.commands.items ≡ [] }
    requires changes { trial.old.changes.items ≡ [] }
    ensures all { IfOk result (λ taken. taken ≡ true → AreTaken class journal.now rows.items trial.new.commands.items) }
    ensures not_all { IfOk result (λ taken. taken ≡ false → journal_after_rows class journal.now rows.items ≡ None) }
    ensures stack { IsStack trial.new.changes.items database.new }
    ensures back { bottom trial.new.changes.items database.new ≡ database.old }
{
    'rows: for row in rows {
        let command = row_command(database, class, row);
        let tried = try_command(journal, database, trial, line, &command);
        if !trial.add(command, line.len() as u64 + 1, tried)? {
            return Ok(false);
        }
    }
    Ok(true)
}

/// Takes changes back, the last one first. It takes no memory.
fn take_back(database: &mut Database, changes: Vec<Change>)
    requires { IsStack changes.items database.old }
    ensures { database.new ≡ bottom changes.items database.old }
{
    let mut left = changes;
    'changes: while let Some(change) = left.pop() {
        database.take_back(change);
    }
}

/// The commands of rows that are judged one after another, None where one of them isn't taken. The database is as
/// before.
pub(crate) fn commands_of(
    alloc: Global,
    journal: &Journal,
    database: &mut Database,
    line: &mut Vec<u8>,
    class: Word,
    rows: Vec<ObjectRow>,
) -> Result<Option<Vec<Command>>, AllocError>
    requires rows { AllByRecursion (IsImportedRow class) rows.items }
    requires keeps { Keeps journal.now database.old }
    ensures commands { IfOk result (λ found. MatchOption found (journal_after_rows class journal.now rows.items ≡ None)
        (λ commands. AreTaken class journal.now rows.items commands.items)) }
    ensures same { database.new ≡ database.old }
{
    let mut trial = Trial::new(alloc, journal);
    let tried = try_rows(journal, database, &mut trial, line, class, rows);
    let Trial {
        commands,
        changes,
        ..
    } = trial;
    take_back(database, changes);
    if tried? { Ok(Some(commands)) } else { Ok(None) }
}
