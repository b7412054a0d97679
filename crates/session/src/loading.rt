//! Sessions that were saved, loaded again.
ghost use Rattle.std.specs.Prelude.{◌≡◌, ◌+◌, [], Err, IfErr, IfOk, IfSome};
ghost use Rattle.command_text.specs.Tree.{command_view};
ghost use Rattle.session_file.specs.Kept.{HasLine};
ghost use Rattle.session_file.specs.Reading.{ExplainsReading, GivesNextCommand, loaded_view, reading_of};
ghost use Rattle.line_meaning.specs.Loading.{BadLine, replayed};
ghost use Rattle.line_meaning.specs.Looks.{most_looks};
ghost use Rattle.line_meaning.specs.Step.{held};
ghost use Rattle.session.specs.Loads.{Loads, TakesLoaded, looks_of_loading};
ghost use Rattle.steps.specs.Counting.{StepsAtMost};

use crate::next::Next;
use crate::session::Session;
use command_text::{Command, canonical_lines_are_read_back, read_commands_are_printable};
use session_file::{FileFault, Loaded, SessionReader, check, line_count};
use std::alloc::{AllocError, Global};
use std::sync::ledger::Ledger;
use steps::Steps;
use thiserror::Error;

/// Why no session was loaded.
#[derive(Clone, Copy, Debug, PartialEq, Eq, Error)]
pub enum LoadFault {
    /// The line of this number, counted from 1, is the first that is faulty. Lines that have no place in a
    /// session come before commands that are refused; where the end lacks it is the line after the last.
    #[error("line {0} is faulty")]
    BadLine(u64),
    /// There is no memory. The text may be a session or not.
    #[error("out of memory")]
    NoMemory,
}

impl From<AllocError> for LoadFault {
    ghost use Rattle.std.specs.Prelude.{◌≡◌};
    ghost use Rattle.session.specs.declared.loading.LoadFault.TheVariants.{NoMemory};

    ghost from_gives = { λ _ fault. fault ≡ NoMemory };

    fn from(_: AllocError) -> LoadFault {
        LoadFault::NoMemory
    }
}

/// The session whose text this is, in formats 1 and 2: its commands are carried out one by one, as they are
/// read, without replies, so that no more than one is held at a time. Steps of `reads` are taken at most as many as
/// the bounds of the commands that are carried out, each by what is held before it.
pub fn load<L: Ledger, M: Ledger>(
    alloc: Global,
    text: &[u8],
    reads: &mut Steps<L>,
    probes: &mut Steps<M>,
) -> Result<Session, LoadFault>
    ensures loads { Loads text.now result }
    ensures reads { StepsAtMost reads.old reads.new (looks_of_loading text.now) }
{
    match SessionReader::new(alloc, text) {
        Ok(reader) => replay_commands(alloc, text, reader, reads, probes),
        Err(fault) => Err(fault_at(text, fault)),
    }
}

/// The line of a fault of a text.
fn fault_at(text: &[u8], fault: FileFault) -> LoadFault
    requires { ExplainsReading (reading_of text.now) fault }
    ensures { Loads text.now (Err result) }
{
    match fault {
        FileFault::BadHeader => LoadFault::BadLine(1),
        FileFault::BadLine(number) => LoadFault::BadLine(number),
        FileFault::NoEnd => LoadFault::BadLine(line_count(text) + 1),
        FileFault::NoMemory => LoadFault::NoMemory,
    }
}

/// Carries out the commands of a text.
fn replay_commands<L: Ledger, M: Ledger>(
    alloc: Global,
    text: &[u8],
    mut reader: SessionReader,
    reads: &mut Steps<L>,
    probes: &mut Steps<M>,
) -> Result<Session, LoadFault>
    requires { reader ≡ reading_of text.now }
    ensures loads { Loads text.now result }
    ensures reads { StepsAtMost reads.old reads.new (looks_of_loading text.now) }
{
    let mut session = Session::new(alloc);
    'commands: while let Some(loaded) = next_command(text, &mut reader)? {
        let line = loaded.line;
        if !is_taken(&mut session, loaded.command, reads, probes)? {
            return Err(refused_at(alloc, text, line));
        }
    }
    Ok(session)
}

/// The next command of a text.
fn next_command(text: &[u8], reader: &mut SessionReader) -> Result<Option<Loaded>, LoadFault>
    requires { (reading_of text.now).fault ≡ reader.old.fault }
    ensures ok { IfOk result (GivesNextCommand reader.old reader.new) }
    ensures line { IfOk result (λ found. IfSome found (λ loaded. HasLine (command_view loaded.command))) }
    ensures err { IfErr result (λ fault. Loads text.now (Err fault)) }
{
    match reader.next_command() {
        Ok(found) => Ok(found),
        Err(fault) => Err(fault_at(text, fault)),
    }
}

/// Carries out a command, and says whether it was accepted.
fn is_taken<L: Ledger, M: Ledger>(
    session: &mut Session,
    command: Command,
    reads: &mut Steps<L>,
    probes: &mut Steps<M>,
) -> Result<bool, AllocError>
    requires { HasLine (command_view command) }
    ensures takes { IfOk result (TakesLoaded session.old (command_view command) session.new) }
    ensures reads { StepsAtMost reads.old reads.new (most_looks (held session.old.journal) (command_view command)) }
{
    read_commands_are_printable();
    canonical_lines_are_read_back();
    match session.replay(command, reads, probes)? {
        Next::Refused(_) => Ok(false),
        _ => Ok(true),
    }
}

/// The fault of a text of which the command of a line is refused, where no command before it is. Lines that have no
/// place in it come first, so the lines after it are read too.
fn refused_at(alloc: Global, text: &[u8], line: u64) -> LoadFault
    requires { replayed [] (reading_of text.now).commands ≡ BadLine line }
    ensures { Loads text.now (Err result) }
{
    match check(alloc, text) {
        Ok(()) => LoadFault::BadLine(line),
        Err(fault) => fault_at(text, fault),
    }
}
