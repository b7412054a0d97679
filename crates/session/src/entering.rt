//! The entry of a command in the journal.
ghost use Rattle.std.specs.Prelude.{◌≡◌, ◌+◌, ◌≤◌, ◌||◌, ◌++◌, ◌∷◌, [], false, nat_le, nat_lt, length, IfSome, OnErr, OnOk};
ghost use Rattle.command_text.specs.declared.journal.TheConstants.{MOST_BYTES};
ghost use Rattle.ftl_lexer.specs.declared.buffer.TheConstants.{LEXER_LIMIT};
ghost use Rattle.ftl_lexer.specs.Forms.{FitsLexer};
ghost use Rattle.command_text.specs.Journal.{bytes_of, spelled};
ghost use Rattle.command_text.specs.Text.{IsLineOf, text_of};
ghost use Rattle.command_text.specs.Tree.{command_view};
ghost use Rattle.line_meaning.specs.Fault.{passes_limits};
ghost use Rattle.line_meaning.specs.Reply.{ok_line};
ghost use Rattle.session.specs.Entering.{Admits};
ghost use Rattle.kept_indexes.specs.Making.{HasRoomForOk};

use command_text::{Command, CommandFault, Journal, MOST_BYTES, MOST_ENTRIES, Refusal, print_into};
use std::alloc::AllocError;

// The bytes of the line `ok`.
const OK_BYTES: usize = 3;

/// Whether one more entry, whose canonical line has so many bytes, passes the limits of a journal.
fn is_full(journal: &Journal, line: usize) -> bool
    requires { FitsLexer line }
    ensures { result ≡ passes_limits (length journal.now) (bytes_of journal.now) line }
{
    passes(
        journal.len(),
        journal.bytes(),
        line,
        MOST_ENTRIES,
        MOST_BYTES,
    )
}

/// Whether one more entry passes these limits of entries and bytes.
pub(crate) fn passes(
    entries: usize,
    bytes: u64,
    line: usize,
    most_entries: usize,
    most_bytes: u64,
) -> bool
    requires few { FitsLexer line }
    requires short { bytes ≤ MOST_BYTES }
    ensures { result ≡ (nat_le most_entries entries || nat_lt most_bytes (bytes + line + 1)) }
{
    entries >= most_entries || bytes + line as u64 + 1 > most_bytes
}

/// Puts the canonical line of a command into `line`: a copy where it was printed before.
#[inline(always)]
fn put_line(line: &mut Vec<u8>, command: &Command, printed: Option<&[u8]>) -> Result<(), AllocError>
    requires printed { IfSome printed (λ line. IsLineOf line.now (command_view command.now)) }
    ensures { OnOk result (line.new.items ≡ text_of (command_view command.now)) }
{
    let Some(printed) = printed else {
        return print_into(line, command);
    };
    line.clear();
    line.extend_from_slice(printed)?;
    Ok(())
}

/// Puts the canonical line of a command into `line`, and refuses the command where the journal has no room for it.
#[inline(always)]
pub(crate) fn admit(
    journal: &Journal,
    line: &mut Vec<u8>,
    command: &Command,
    printed: Option<&[u8]>,
) -> Result<(), CommandFault>
    requires short { length (text_of (command_view command.now)) ≤ LEXER_LIMIT }
    requires printed { IfSome printed (λ line. IsLineOf line.now (command_view command.now)) }
    ensures { Admits journal.now (command_view command.now) line.new.items result }
{
    put_line(line, command, printed)?;
    if is_full(journal, line.len()) {
        return Err(CommandFault::Refused(Refusal::JournalFull));
    }
    Ok(())
}

/// Enters the command of a canonical line into the journal, accepted at tick `now`, where `out` has or gets room
/// for an `ok`. Want of memory changes nothing.
#[inline(always)]
pub(crate) fn enter(
    journal: &mut Journal,
    now: u32,
    line: &[u8],
    out: &mut Vec<u8>,
) -> Result<(), AllocError>
    requires canonical { text_of (spelled line.now) ≡ line.now }
    requires short { FitsLexer (length line.now) }
    requires room { passes_limits (length journal.old) (bytes_of journal.old) (length line.now) ≡ false }
    ensures entered { OnOk result (journal.new ≡ journal.old ++ (now, spelled line.now) ∷ []) }
    ensures err { OnErr result (journal.new ≡ journal.old) }
    ensures room { OnOk result (HasRoomForOk out.new) }
    ensures same { out.new.items ≡ out.old.items }
{
    make_room(out)?;
    journal.push(now, line)
}

/// Makes room for an `ok` at the end.
pub(crate) fn make_room(out: &mut Vec<u8>) -> Result<(), AllocError>
    ensures room { OnOk result (HasRoomForOk out.new) }
    ensures same { out.new.items ≡ out.old.items }
{
    out.reserve(OK_BYTES)
}

/// Ends a reply with `ok`, for which there is room. It takes no memory.
pub(crate) fn end_reply(out: &mut Vec<u8>)
    requires { HasRoomForOk out.old }
    ensures { out.new.items ≡ out.old.items ++ ok_line }
{
    out.extend_from_slice(b"ok\n").unwrap();
}
