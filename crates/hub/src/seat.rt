//! One user: the desk at which this user's lines are answered.
ghost use Rattle.std.specs.Prelude.{◌≡◌, ◌<◌, ◌&&◌, true, None, Some, IfOk, OnOk, length, slice_get};
ghost use Rattle.std.specs.List.{AllByRecursion};
ghost use Rattle.command_text.specs.Text.{IsLineOf};
ghost use Rattle.command_text.specs.Tree.{command_view};
ghost use Rattle.line_meaning.specs.Judging.{fault_of};
ghost use Rattle.feeds_meaning.specs.declared.limits.TheConstants.{QUERY_LINES_LIMIT};
ghost use Rattle.feeds_meaning.specs.Lines.{is_data, is_of_queries, notice};
ghost use Rattle.hub.specs.Answering.{Finishes, IsOther, IsOwn, MayBeGiven};
ghost use Rattle.hub.specs.declared.seat.Seat.{Seat as Kept};
ghost use Rattle.hub.specs.Desks.{AreLeftAt, IsRightSeat, LeavesDesks};
ghost use Rattle.hub.specs.Told.{IsOwnAt, IsOwnOf, held_user, held_users};
ghost use Rattle.session.specs.Carried.{CarriedAs};
ghost use Rattle.session.specs.Sharing.{Awaits, IsRightOver, IsSameFor, LeavesOthers, held_at};

use crate::kinds::is_of_queries;
use crate::notice::{push_moved, push_notice, push_refusal};
use command_text::Command;
use fixed_point::Word;
use reply_text::push_ok;
use session::{Desk, Next, Printed, Shared};
use std::alloc::AllocError;
use std::sync::ledger::Ledger;
use steps::Steps;

/// A user, with what was held of this user's lines.
#[derive(Drop)]
pub(crate) struct Seat {
    pub(crate) user: Word,
    pub(crate) desk: Desk,
    // How many commands on registered queries were accepted of this user.
    pub(crate) query_lines: u32,
}

/// Puts into `reply` what is told of a command before the end of its reply, and carries it out.
#[tactic(auto, using(crate::proofs::KindLemmas::plain_command))]
fn carry<L: Ledger, M: Ledger>(
    shared: &mut Shared,
    desk: &mut Desk,
    command: &Command,
    reply: &mut Vec<u8>,
    reads: &mut Steps<L>,
    probes: &mut Steps<M>,
) -> Result<Next, AllocError>
    requires given { MayBeGiven (command_view command.now) }
    requires right { IsRightOver shared.old desk.old }
    ensures carried { IfOk result (λ next. CarriedAs next (command_view command.now) (held_at desk.old) (held_at desk.new)
        (notice (held_at desk.old) (command_view command.now)) reply.new.items) }
    ensures right { OnOk result (IsRightOver shared.new desk.new) }
    ensures others { IfOk result (λ next. LeavesOthers next (command_view command.now) shared.old shared.new) }
{
    reply.clear();
    push_notice(shared.now(), command, reply)?;
    let next = shared.carry_out(desk, command, reads, probes, reply)?;
    Ok(next)
}

/// Ends the reply to a command by what became of it, and answers whether it was accepted.
fn finish(next: Next, reply: &mut Vec<u8>) -> Result<bool, AllocError>
    ensures { IfOk result (Finishes next reply.old.items reply.new.items) }
{
    match next {
        Next::Refused(refusal) => {
            reply.clear();
            push_refusal(refusal, reply)?;
            Ok(false)
        }
        Next::Silent => Ok(true),
        Next::Accepted | Next::Quit => {
            push_ok(reply)?;
            Ok(true)
        }
    }
}

/// Carries out a command of the user's own. Puts the reply into `reply`, and answers whether the command was accepted.
#[tactic(auto, using(crate::proofs::SeatLemmas::own_finished, crate::proofs::SeatLemmas::leaves_desks))]
fn answer_own<L: Ledger, M: Ledger>(
    shared: &mut Shared,
    desk: &mut Desk,
    command: &Command,
    reply: &mut Vec<u8>,
    reads: &mut Steps<L>,
    probes: &mut Steps<M>,
) -> Result<bool, AllocError>
    requires given { MayBeGiven (command_view command.now) }
    requires right { IsRightOver shared.old desk.old }
    ensures own { IfOk result (IsOwn (command_view command.now) (held_at desk.old) (held_at desk.new) reply.new.items) }
    ensures right { OnOk result (IsRightOver shared.new desk.new) }
    ensures others { IfOk result (λ accepted. LeavesDesks (accepted && is_data (command_view command.now)) (command_view command.now) shared.old shared.new) }
{
    let next = carry(shared, desk, command, reply, reads, probes)?;
    let accepted = finish(next, reply)?;
    Ok(accepted)
}

/// Carries out a command of one user's own, and counts it where it is on queries. Puts the reply into `reply`, and answers
/// whether the command was accepted.
fn answer_seat<L: Ledger, M: Ledger>(
    shared: &mut Shared,
    seat: &mut Seat,
    command: &Command,
    reply: &mut Vec<u8>,
    reads: &mut Steps<L>,
    probes: &mut Steps<M>,
) -> Result<bool, AllocError>
    requires given { MayBeGiven (command_view command.now) }
    requires few { is_of_queries (command_view command.now) ≡ true → seat.old.query_lines < QUERY_LINES_LIMIT }
    requires right { IsRightSeat shared.old seat.old }
    ensures own { IfOk result (IsOwnOf (command_view command.now) (held_user seat.old) (held_user seat.new) reply.new.items) }
    ensures right { OnOk result (IsRightSeat shared.new seat.new) }
    ensures others { IfOk result (λ accepted. LeavesDesks (accepted && is_data (command_view command.now)) (command_view command.now) shared.old shared.new) }
{
    let accepted = answer_own(shared, &mut seat.desk, command, reply, reads, probes)?;
    if accepted && is_of_queries(command) {
        seat.query_lines += 1;
    }
    Ok(accepted)
}

/// The same of the user at a place. Where the command changes the database, the others are to follow.
pub(crate) fn answer_at<L: Ledger, M: Ledger>(
    shared: &mut Shared,
    seats: &mut [Seat],
    place: usize,
    command: &Command,
    reply: &mut Vec<u8>,
    reads: &mut Steps<L>,
    probes: &mut Steps<M>,
) -> Result<bool, AllocError>
    requires there { place < length seats.old }
    requires given { MayBeGiven (command_view command.now) }
    requires few { is_of_queries (command_view command.now) ≡ true → (s : Kept) → slice_get seats.old place ≡ Some s → s.query_lines < QUERY_LINES_LIMIT }
    requires right { AllByRecursion (IsRightSeat shared.old) seats.old }
    ensures own { IfOk result (IsOwnAt place (command_view command.now) (held_users seats.old) (held_users seats.new) reply.new.items) }
    ensures others { IfOk result (λ accepted. AreLeftAt place (accepted && is_data (command_view command.now)) (command_view command.now) shared.new seats.new) }
{
    let accepted = answer_seat(shared, &mut seats[place], command, reply, reads, probes)?;
    Ok(accepted)
}

/// A data command that was accepted of its sender and carried out for the sender.
#[derive(Clone, Copy)]
pub(crate) struct Taken<'a> {
    pub(crate) sender: &'a Word,
    pub(crate) command: &'a Command,
    // Its canonical line, where there are others.
    pub(crate) line: &'a [u8],
    // The reply to the sender.
    pub(crate) own: &'a [u8],
}

/// Follows a data command of another user, which was accepted and has changed the database, by its canonical line. Puts what
/// it changes for this user's queries into `reply`.
pub(crate) fn answer_other<L: Ledger, M: Ledger>(
    shared: &mut Shared,
    desk: &mut Desk,
    taken: &Taken,
    reply: &mut Vec<u8>,
    reads: &mut Steps<L>,
    probes: &mut Steps<M>,
) -> Result<(), AllocError>
    requires given { MayBeGiven (command_view taken.now.command.now) }
    requires shared { is_data (command_view taken.now.command.now) ≡ true }
    requires line { IsLineOf taken.now.line.now (command_view taken.now.command.now) }
    requires accepted { fault_of (held_at desk.old) (command_view taken.now.command.now) ≡ None }
    requires behind { Awaits (command_view taken.now.command.now) shared.old desk.old }
    ensures other { OnOk result (IsOther (command_view taken.now.command.now) (held_at desk.old) (held_at desk.new) reply.new.items) }
    ensures right { OnOk result (IsRightOver shared.new desk.new) }
    ensures same { IsSameFor shared.old shared.new }
{
    let printed = Printed {
        command: taken.command,
        line: Some(taken.line),
    };
    reply.clear();
    push_moved(shared.now(), taken.command, reply)?;
    shared.follow(desk, &printed, reads, probes, reply)?;
    Ok(())
}
