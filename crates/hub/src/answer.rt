//! What is written of a line.
ghost use Rattle.std.specs.Prelude.{◌≡◌, ◌+◌, ◌&&◌, ◌++◌, ◌<◌, All, Some, true, codes, length, slice_get, OnOk};
ghost use Rattle.std.specs.List.{AllByRecursion};
ghost use Rattle.command_text.specs.Refusals.{refusal_line};
ghost use Rattle.command_text.specs.Tree.{command_view};
ghost use Rattle.line_meaning.specs.Reply.{line_feed};
ghost use Rattle.reply_text.specs.Begins.{Begins};
ghost use Rattle.feeds_meaning.specs.declared.limits.TheConstants.{DATA_LINES_LIMIT};
ghost use Rattle.feeds_meaning.specs.Lines.{is_data};
ghost use Rattle.hub.specs.Answering.{MayBeGiven};
ghost use Rattle.hub.specs.declared.seat.Seat.{Seat as Kept};
ghost use Rattle.hub.specs.Told.{AreRightParts, AreTold, HasLastLineAt, HasLineFor, HasRoomAt, HasSentAt, IsAnsweredAt, IsLastLine, IsLineTold, IsRefusedAt, IsSentAt, MayBeTold, held_user, held_users, hub_of, kept_told, told_kept};
ghost use Rattle.hub.specs.Desks.{AreToFollow, IsRightSeat, IsToFollow};
ghost use Rattle.session.specs.Sharing.{IsSameFor, held_at};

use crate::judging::read_own;
use crate::kinds::is_data;
use crate::newcomer::seat_for;
use crate::notice::{push, push_refusal};
use crate::parts::Parts;
use crate::seat::{Seat, Taken, answer_at, answer_other};
use command_text::{Command, CommandFault, Journal, Refusal};
use fixed_point::Word;
use line_meaning::steps_write_what_is_accepted;
use session::{Shared, read_commands_are_legible};
use std::alloc::AllocError;
use std::sync::ledger::Ledger;
use steps::Steps;
use users::{push_tagged, sent_in};

/// Writes the reply to a line that is no user's.
#[tactic(auto, using(reply_text::proofs::BeginLemmas::begins_through, reply_text::proofs::BeginLemmas::begins_more))]
fn push_unheard(refusal: Refusal, out: &mut Vec<u8>) -> Result<(), AllocError>
    ensures ok { OnOk result (out.new.items ≡ out.old.items ++ (codes "? " ++ refusal_line refusal ++ line_feed)) }
    ensures begins { Begins out.old.items out.new.items }
{
    push(out, b"? ")?;
    push_refusal(refusal, out)
}

/// Writes what one user is told of a data command that was accepted: the sender the reply, any other what the command
/// changes.
fn tell_one<L: Ledger, M: Ledger>(
    shared: &mut Shared,
    seat: &mut Seat,
    taken: &Taken,
    other: &mut Vec<u8>,
    out: &mut Vec<u8>,
    reads: &mut Steps<L>,
    probes: &mut Steps<M>,
) -> Result<(), AllocError>
    requires given { MayBeGiven (command_view taken.now.command.now) }
    requires shared { is_data (command_view taken.now.command.now) ≡ true }
    requires told { MayBeTold taken.now.sender.now (command_view taken.now.command.now) (held_user seat.old) }
    requires line { HasLineFor taken.now.sender.now (command_view taken.now.command.now) taken.now.line.now (held_user seat.old) }
    requires behind { IsToFollow taken.now.sender.now (command_view taken.now.command.now) shared.old seat.old }
    ensures kept { OnOk result (held_user seat.new ≡ kept_told taken.now.sender.now (command_view taken.now.command.now) (held_user seat.old)) }
    ensures said { OnOk result (out.new.items ≡ out.old.items ++ told_kept taken.now.sender.now taken.now.own.now (command_view taken.now.command.now) (held_user seat.old)) }
    ensures begins { Begins out.old.items out.new.items }
    ensures right { OnOk result (IsRightSeat shared.new seat.new) }
    ensures same { IsSameFor shared.old shared.new }
{
    if *taken.sender == seat.user {
        return push_tagged(seat.user.bytes(), taken.own, out);
    }
    answer_other(shared, &mut seat.desk, taken, other, reads, probes)?;
    push_tagged(seat.user.bytes(), other, out)
}

/// Writes what each user is told of a data command that was accepted.
fn tell_all<L: Ledger, M: Ledger>(
    shared: &mut Shared,
    seats: &mut [Seat],
    taken: &Taken,
    other: &mut Vec<u8>,
    out: &mut Vec<u8>,
    reads: &mut Steps<L>,
    probes: &mut Steps<M>,
) -> Result<(), AllocError>
    requires given { MayBeGiven (command_view taken.now.command.now) }
    requires shared { is_data (command_view taken.now.command.now) ≡ true }
    requires told { All (MayBeTold taken.now.sender.now (command_view taken.now.command.now)) (held_users seats.old) }
    requires line { All (HasLineFor taken.now.sender.now (command_view taken.now.command.now) taken.now.line.now) (held_users seats.old) }
    requires behind { AreToFollow taken.now.sender.now (command_view taken.now.command.now) shared.old seats.old }
    ensures told { OnOk result (AreTold taken.now.sender.now taken.now.own.now (command_view taken.now.command.now) (held_users seats.old) (held_users seats.new)
        out.old.items out.new.items) }
    ensures begins { Begins out.old.items out.new.items }
    ensures right { OnOk result (AllByRecursion (IsRightSeat shared.new) seats.new) }
{
    let mut place = 0;
    'seats: while place < seats.len() {
        tell_one(shared, &mut seats[place], taken, other, out, reads, probes)?;
        place += 1;
    }
    Ok(())
}

/// Puts the canonical line of the command that the user at a place sent last into `line`, if there are others.
fn put_line<L: Ledger>(
    seats: &[Seat],
    place: usize,
    line: &mut Vec<u8>,
    reads: &mut Steps<L>,
) -> Result<(), AllocError>
    requires there { place < length seats.now }
    requires some { (s : Kept) → slice_get seats.now place ≡ Some s → 0 < length (held_at s.desk).journal }
    ensures { OnOk result (1 < length seats.now → HasLastLineAt place (held_users seats.now) line.new.items) }
{
    if seats.len() <= 1 {
        return Ok(());
    }
    put_last(seats[place].desk.journal(), line, reads)
}

/// Puts the last line of a journal into `line`.
fn put_last<L: Ledger>(
    journal: &Journal,
    line: &mut Vec<u8>,
    reads: &mut Steps<L>,
) -> Result<(), AllocError>
    requires { 0 < length journal.now }
    ensures { OnOk result (IsLastLine journal.now line.new.items) }
{
    let Some((_, last)) = journal.entry(journal.len() - 1, reads) else {
        unreachable!()
    };
    line.clear();
    line.extend_from_slice(last)?;
    Ok(())
}

/// Tells all users of a data command of the user `sender` at a place that was accepted: `own` is the reply to it.
fn tell_data<L: Ledger, M: Ledger>(
    parts: &mut Parts,
    place: usize,
    sender: &Word,
    command: &Command,
    out: &mut Vec<u8>,
    reads: &mut Steps<L>,
    probes: &mut Steps<M>,
) -> Result<(), AllocError>
    requires given { MayBeGiven (command_view command.now) }
    requires shared { is_data (command_view command.now) ≡ true }
    requires told { All (MayBeTold sender.now (command_view command.now)) (held_users parts.old.seats.items) }
    requires there { place < length parts.old.seats.items }
    requires sent { HasSentAt place sender.now (command_view command.now) (held_users parts.old.seats.items) }
    requires few { parts.old.data_lines < DATA_LINES_LIMIT }
    requires behind { AreToFollow sender.now (command_view command.now) parts.old.shared parts.old.seats.items }
    ensures told { OnOk result (AreTold sender.now parts.old.own.items (command_view command.now) (held_users parts.old.seats.items)
        (held_users parts.new.seats.items) out.old.items out.new.items) }
    ensures right { OnOk result (AllByRecursion (IsRightSeat parts.new.shared) parts.new.seats.items) }
    ensures counted { OnOk result (parts.new.data_lines ≡ parts.old.data_lines + 1) }
    ensures begins { Begins out.old.items out.new.items }
{
    let Parts {
        shared,
        seats,
        line,
        own,
        other,
        data_lines,
        ..
    } = parts;
    put_line(seats, place, line, reads)?;
    let taken = Taken {
        sender,
        command,
        line,
        own,
    };
    tell_all(shared, seats, &taken, other, out, reads, probes)?;
    *data_lines += 1;
    Ok(())
}

/// Whether others are told of a command: a data command that was accepted.
fn is_shared(accepted: bool, command: &Command) -> bool
    ensures { result ≡ accepted && is_data (command_view command.now) }
{
    accepted && is_data(command)
}

/// Answers a command of the user at a place.
fn answer_command<L: Ledger, M: Ledger>(
    parts: &mut Parts,
    place: usize,
    command: &Command,
    out: &mut Vec<u8>,
    reads: &mut Steps<L>,
    probes: &mut Steps<M>,
) -> Result<(), AllocError>
    requires hub { AreRightParts parts.old }
    requires there { place < length parts.old.seats.items }
    requires given { MayBeGiven (command_view command.now) }
    requires room { HasRoomAt place (command_view command.now) (hub_of parts.old) }
    ensures answered { OnOk result (IsAnsweredAt place (command_view command.now) (hub_of parts.old) (hub_of parts.new) out.old.items out.new.items) }
    ensures hub { OnOk result (AreRightParts parts.new) }
    ensures begins { Begins out.old.items out.new.items }
{
    // A call that does nothing, whose contract says that what an accepted command leaves of a journal is one that steps lead to.
    steps_write_what_is_accepted();
    let sender = parts.seats[place].user;
    let accepted = answer_at(
        &mut parts.shared,
        &mut parts.seats,
        place,
        command,
        &mut parts.own,
        reads,
        probes,
    )?;
    if is_shared(accepted, command) {
        tell_data(parts, place, &sender, command, out, reads, probes)?;
        return Ok(());
    }
    push_tagged(sender.bytes(), &parts.own, out)?;
    Ok(())
}

/// Answers a command that was read of a line of the user at a place.
fn answer_read<L: Ledger, M: Ledger>(
    parts: &mut Parts,
    place: usize,
    command: Command,
    out: &mut Vec<u8>,
    reads: &mut Steps<L>,
    probes: &mut Steps<M>,
) -> Result<(), AllocError>
    requires hub { AreRightParts parts.old }
    requires there { place < length parts.old.seats.items }
    requires given { MayBeGiven (command_view command) }
    requires room { HasRoomAt place (command_view command) (hub_of parts.old) }
    ensures answered { OnOk result (IsAnsweredAt place (command_view command) (hub_of parts.old) (hub_of parts.new) out.old.items out.new.items) }
    ensures hub { OnOk result (AreRightParts parts.new) }
    ensures begins { Begins out.old.items out.new.items }
{
    let answered = answer_command(parts, place, &command, out, reads, probes);
    drop(command);
    answered
}

/// Writes a refusal for the user at a place.
#[tactic(auto, using(crate::proofs::CommandLemmas::is_at))]
fn push_refused(
    parts: &mut Parts,
    place: usize,
    refusal: Refusal,
    out: &mut Vec<u8>,
) -> Result<(), AllocError>
    requires hub { AreRightParts parts.old }
    requires there { place < length parts.old.seats.items }
    ensures said { OnOk result (IsRefusedAt place refusal (held_users parts.old.seats.items) out.old.items out.new.items) }
    ensures same { (parts.new.seats ≡ parts.old.seats) × (parts.new.data_lines ≡ parts.old.data_lines) }
    ensures shared { parts.new.shared ≡ parts.old.shared }
    ensures begins { Begins out.old.items out.new.items }
{
    parts.own.clear();
    push_refusal(refusal, &mut parts.own)?;
    push_tagged(parts.seats[place].user.bytes(), &parts.own, out)?;
    Ok(())
}

/// Answers a line of the user at a place.
fn answer_sent<L: Ledger, M: Ledger>(
    parts: &mut Parts,
    place: usize,
    line: &[u8],
    out: &mut Vec<u8>,
    reads: &mut Steps<L>,
    probes: &mut Steps<M>,
) -> Result<(), AllocError>
    requires hub { AreRightParts parts.old }
    requires there { place < length parts.old.seats.items }
    ensures answered { OnOk result (IsSentAt place line.now (hub_of parts.old) (hub_of parts.new) out.old.items out.new.items) }
    ensures hub { OnOk result (AreRightParts parts.new) }
    ensures begins { Begins out.old.items out.new.items }
{
    // A call that does nothing, whose contract says that a command that is read can be carried out.
    read_commands_are_legible();
    let query_lines = parts.seats[place].query_lines;
    match read_own(&mut parts.reader, line, parts.data_lines, query_lines) {
        Ok(command) => answer_read(parts, place, command, out, reads, probes),
        Err(CommandFault::Refused(refusal)) => push_refused(parts, place, refusal, out),
        Err(CommandFault::NoMemory) => Err(AllocError),
    }
}

/// Answers a line of input.
pub(crate) fn answer_line<L: Ledger, M: Ledger>(
    parts: &mut Parts,
    line: &[u8],
    out: &mut Vec<u8>,
    reads: &mut Steps<L>,
    probes: &mut Steps<M>,
) -> Result<(), AllocError>
    requires { AreRightParts parts.old }
    ensures answered { OnOk result (IsLineTold (hub_of parts.old) (hub_of parts.new) line.now out.old.items out.new.items) }
    ensures hub { OnOk result (AreRightParts parts.new) }
    ensures begins { Begins out.old.items out.new.items }
{
    let Some((user, own_line)) = sent_in(line) else {
        return push_unheard(Refusal::BadSyntax, out);
    };
    match seat_for(parts, user, reads)? {
        Some(place) => answer_sent(parts, place, own_line, out, reads, probes),
        None => push_unheard(Refusal::StoreFull, out),
    }
}
