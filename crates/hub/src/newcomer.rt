//! A user's first line.
ghost use Rattle.std.specs.Prelude.{◌≡◌, ◌≤◌, ◌++◌, ◌∷◌, [], true, IfOk, None, OnOk, bytes_eq, length, map, nat_le, position, if◌then◌else◌};
ghost use Rattle.command_text.specs.Journal.{spelled};
ghost use Rattle.line_meaning.specs.Judging.{fault_of, held};
ghost use Rattle.line_meaning.specs.Reached.{AreReached};
ghost use Rattle.feeds_meaning.specs.declared.limits.TheConstants.{USERS_LIMIT};
ghost use Rattle.feeds_meaning.specs.Lines.{is_data};
ghost use Rattle.hub.specs.Answering.{IsEntryLine};
ghost use Rattle.hub.specs.Seats.{IsHub, accepted_in, data_entries};
ghost use Rattle.hub.specs.Told.{AreRightParts, IsSeatedAs, data_journal, held_users, hub_of, seated};
ghost use Rattle.users.specs.declared.sender.TheConstants.{USER_LIMIT};

use crate::kinds::is_data;
use crate::parts::Parts;
use crate::seat::Seat;
use command_text::{CommandFault, Journal, LineReader, canonical_lines_are_read_back};
use feeds_meaning::USERS_LIMIT;
use fixed_point::Word;
use line_meaning::steps_write_what_is_accepted;
use session::Desk;
use session_file::SESSION_LINE_LIMIT;
use std::alloc::{AllocError, Global};
use std::sync::ledger::Ledger;
use steps::Steps;

/// Adds the entry of a canonical line to a journal, where it is one of a data command.
fn copy_entry(
    reader: &mut LineReader,
    tick: u32,
    line: &[u8],
    copy: &mut Journal,
) -> Result<(), AllocError>
    requires line { IsEntryLine line.now }
    requires accepted { is_data (spelled line.now) ≡ true → fault_of (held copy.old) (spelled line.now) ≡ None }
    ensures { OnOk result (copy.new ≡ (if is_data (spelled line.now) then copy.old ++ (tick, spelled line.now) ∷ [] else copy.old)) }
{
    match reader.read(line, SESSION_LINE_LIMIT) {
        Ok(command) if is_data(&command) => copy.push(tick, line),
        Ok(_) => Ok(()),
        Err(CommandFault::Refused(_)) => unreachable!(),
        Err(CommandFault::NoMemory) => Err(AllocError),
    }
}

/// The journal of the data commands of another one.
fn copied<L: Ledger>(
    alloc: Global,
    reader: &mut LineReader,
    journal: &Journal,
    reads: &mut Steps<L>,
) -> Result<Journal, AllocError>
    requires { AreReached [] journal.now }
    ensures { IfOk result (λ copy. copy ≡ data_entries journal.now) }
{
    // A call that does nothing, whose contract says that each line is read again as its command.
    canonical_lines_are_read_back();
    let mut copy = Journal::new(alloc);
    let mut place = 0;
    'entries: while let Some((tick, line)) = journal.entry(place, reads) {
        copy_entry(reader, tick, line, &mut copy)?;
        place += 1;
    }
    Ok(copy)
}

/// The journal of a user who sent no line yet.
fn new_journal<L: Ledger>(
    alloc: Global,
    reader: &mut LineReader,
    seats: &[Seat],
    data_lines: u32,
    reads: &mut Steps<L>,
) -> Result<Journal, AllocError>
    requires { IsHub (record { seats = map (seated data_lines) (held_users seats.now); accepted = accepted_in (map (seated data_lines) (held_users seats.now)) }) }
    ensures { IfOk result (λ journal. journal ≡ data_journal (held_users seats.now)) }
{
    match seats.first() {
        Some(seat) => copied(alloc, reader, seat.desk.journal(), reads),
        None => Ok(Journal::new(alloc)),
    }
}

/// The place of a user among the others.
fn place_of(seats: &[Seat], user: &[u8]) -> Option<usize>
    ensures { result ≡ position (λ s. bytes_eq user.now s.user) seats.now }
{
    seats.iter().position(|seat| user == seat.user.bytes())
}

/// Whether there is no room for one more user.
fn is_full(seats: &[Seat]) -> bool
    ensures { result ≡ nat_le USERS_LIMIT (length seats.now) }
{
    seats.len() >= USERS_LIMIT
}

/// The place of the sender of a line, who gets one where there was none. None where there is no room for one more user.
pub(crate) fn seat_for<L: Ledger>(
    parts: &mut Parts,
    user: &[u8],
    reads: &mut Steps<L>,
) -> Result<Option<usize>, AllocError>
    requires hub { AreRightParts parts.old }
    requires short { length user.now ≤ USER_LIMIT }
    ensures seated { IfOk result (IsSeatedAs (hub_of parts.old) user.now (hub_of parts.new)) }
    ensures hub { OnOk result (AreRightParts parts.new) }
{
    if let Some(place) = place_of(&parts.seats, user) {
        return Ok(Some(place));
    }
    seat_new(parts, user, reads)
}

/// The place of a user who has none, or None where there is no room. Apart from `seat_for`, so that a line of a user who is
/// there pays for no new desk.
#[inline(never)]
fn seat_new<L: Ledger>(
    parts: &mut Parts,
    user: &[u8],
    reads: &mut Steps<L>,
) -> Result<Option<usize>, AllocError>
    requires hub { AreRightParts parts.old }
    requires short { length user.now ≤ USER_LIMIT }
    requires none { position (λ s. bytes_eq user.now s.user) parts.old.seats.items ≡ None }
    ensures seated { IfOk result (IsSeatedAs (hub_of parts.old) user.now (hub_of parts.new)) }
    ensures hub { OnOk result (AreRightParts parts.new) }
{
    if is_full(&parts.seats) {
        return Ok(None);
    }
    let Some(user) = Word::of(user) else {
        unreachable!()
    };
    // A call that does nothing, whose contract says which journals steps lead to.
    steps_write_what_is_accepted();
    let journal = new_journal(
        parts.alloc,
        &mut parts.reader,
        &parts.seats,
        parts.data_lines,
        reads,
    )?;
    let desk = Desk::new(parts.alloc, journal);
    let seat = Seat {
        user,
        desk,
        query_lines: 0,
    };
    let place = parts.seats.len();
    parts.seats.push(seat)?;
    Ok(Some(place))
}
