//! Lines that are commands of a journal.
ghost use Rattle.std.specs.Prelude.{◌≡◌, ◌≤◌, ◌&&◌, nat_le, length, option_map, None, IfOk, IfErr, MatchOption, OnErr};
ghost use Rattle.command_text.specs.Tree.{command_view};
ghost use Rattle.command_text.specs.Line.{IsRead, early_refusal};
ghost use Rattle.command_text.specs.Text.{text_of};
ghost use Rattle.command_text.specs.Journal.{is_kept};
ghost use Rattle.session_file.specs.Kept.{is_passed, kept_in, may_be_loaded};
ghost use Rattle.session_file.specs.declared.fault.FileFault.TheVariants as faults;

use crate::FileFault;
use command_text::{
    Command, CommandFault, LINE_LIMIT, LineReader, canonical_lines_are_short, print,
};
use std::alloc::{AllocError, Global};

/// The most bytes of a line, and of the canonical line of its command.
pub const SESSION_LINE_LIMIT: usize = 16_384;

/// Whether a journal keeps a command.
fn is_kept(command: &Command) -> bool
    ensures { result ≡ is_kept (command_view command.now) }
{
    matches!(
        command,
        Command::Class { .. }
            | Command::Region { .. }
            | Command::Insert { .. }
            | Command::Update { .. }
            | Command::Remove { .. }
            | Command::Tick { .. }
            | Command::Watch { .. }
            | Command::Keep { .. }
            | Command::Drop { .. }
    )
}

/// Whether a line is blank or a comment.
pub(crate) fn is_passed(line: &[u8]) -> bool
    ensures { result ≡ is_passed line.now }
{
    let mut rest = line;
    'blanks: while let Some((byte, later)) = rest.split_first() {
        if *byte != b' ' && *byte != b'\t' {
            return *byte == b'#';
        }
        rest = later;
    }
    true
}

/// Whether the canonical line of a command that was read from a line is short enough. A line has at most
/// four times the bytes of the one from which it was read, so few are printed.
fn is_short(alloc: Global, line: &[u8], command: &Command) -> Result<bool, AllocError>
    requires { IsRead SESSION_LINE_LIMIT line.now (command_view command.now) }
    ensures { IfOk result (λ short. short ≡ nat_le (length (text_of (command_view command.now))) SESSION_LINE_LIMIT) }
{
    if line.len() <= LINE_LIMIT {
        canonical_lines_are_short();
        return Ok(true);
    }
    let text = print(alloc, command)?;
    Ok(text.len() <= SESSION_LINE_LIMIT)
}

/// Whether a command that was read from a line may stand in a session.
fn may_be_loaded(alloc: Global, line: &[u8], command: &Command) -> Result<bool, AllocError>
    requires { IsRead SESSION_LINE_LIMIT line.now (command_view command.now) }
    ensures { IfOk result (λ may. may ≡ may_be_loaded (command_view command.now)) }
{
    if !is_kept(command) {
        return Ok(false);
    }
    is_short(alloc, line, command)
}

/// What a line is read as, None where it is refused.
#[tactic(auto, using(crate::proofs::KeptLemmas::kept_steps))]
fn read_line(reader: &mut LineReader, line: &[u8]) -> Result<Option<Command>, FileFault>
    ensures ok { IfOk result (λ found. MatchOption found (None ≡ kept_in line.now) (λ c. IsRead SESSION_LINE_LIMIT line.now (command_view c))) }
    ensures err { IfErr result (λ fault. fault ≡ faults.NoMemory) }
    ensures late { OnErr result (early_refusal SESSION_LINE_LIMIT line.now ≡ None) }
{
    match reader.read(line, SESSION_LINE_LIMIT) {
        Ok(command) => Ok(Some(command)),
        Err(CommandFault::Refused(_)) => Ok(None),
        Err(CommandFault::NoMemory) => Err(FileFault::NoMemory),
    }
}

/// A command that was read from a line, None where it may not stand in a session.
#[tactic(auto, using(crate::proofs::KeptLemmas::kept_steps))]
fn if_loaded(alloc: Global, line: &[u8], command: Command) -> Result<Option<Command>, AllocError>
    requires { IsRead SESSION_LINE_LIMIT line.now (command_view command) }
    ensures { IfOk result (λ found. option_map command_view found ≡ kept_in line.now) }
{
    // On each way the command goes into a call: let go by a `?` or an `else`, each of its variants would be
    // opened there.
    match may_be_loaded(alloc, line, &command) {
        Ok(may) => Ok(may.then_some(command)),
        Err(fault) => {
            drop(command);
            Err(fault)
        }
    }
}

/// The command of a line, None where it is refused or none that a journal keeps. Want of memory is told of no line that
/// one of the first three refusals holds of.
#[tactic(auto, using(crate::proofs::KeptLemmas::read_late))]
pub(crate) fn kept_in(
    alloc: Global,
    reader: &mut LineReader,
    line: &[u8],
) -> Result<Option<Command>, FileFault>
    ensures ok { IfOk result (λ found. option_map command_view found ≡ kept_in line.now) }
    ensures err { IfErr result (λ fault. fault ≡ faults.NoMemory) }
    ensures late { OnErr result (early_refusal SESSION_LINE_LIMIT line.now ≡ None) }
{
    let Some(command) = read_line(reader, line)? else {
        return Ok(None);
    };
    let found = if_loaded(alloc, line, command)?;
    Ok(found)
}
