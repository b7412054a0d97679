//! The lines that users are told beside replies.
ghost use Rattle.std.specs.Prelude.{◌≡◌, ◌+◌, ◌++◌, true, OnOk};
ghost use Rattle.command_text.specs.Journal.{clock, ticks_of};
ghost use Rattle.command_text.specs.Refusals.{refusal_line};
ghost use Rattle.command_text.specs.Tree.{command_view};
ghost use Rattle.line_meaning.specs.Judging.{Held};
ghost use Rattle.line_meaning.specs.Reply.{clock_line, line_feed};
ghost use Rattle.reply_text.specs.Begins.{Begins};
ghost use Rattle.feeds_meaning.specs.Lines.{is_data, notice, stop_line};
ghost use Rattle.hub.specs.Answering.{start_line_by_word};

use command_text::{Command, Refusal};
use fixed_point::Word;
use itoa::Buffer;
use std::alloc::AllocError;

/// Writes bytes to the end.
#[tactic(auto, using(reply_text::proofs::BeginLemmas::begins_more))]
pub(crate) fn push(out: &mut Vec<u8>, bytes: &[u8]) -> Result<(), AllocError>
    ensures ok { OnOk result (out.new.items ≡ out.old.items ++ bytes.now) }
    ensures begins { Begins out.old.items out.new.items }
{
    out.extend_from_slice(bytes)?;
    Ok(())
}

/// Writes `start`, a query, the word of its kind and the clock.
fn push_start(query: &Word, kind: &[u8], now: u32, out: &mut Vec<u8>) -> Result<(), AllocError>
    ensures { OnOk result (out.new.items ≡ out.old.items ++ start_line_by_word query.now kind.now now) }
{
    push(out, b"start ")?;
    push(out, query.bytes())?;
    push(out, b" ")?;
    push(out, kind)?;
    push(out, b" ")?;
    push(out, Buffer::new().format(now).as_bytes())?;
    push(out, b"\n")
}

/// Writes `stop` and a query.
fn push_stop(query: &Word, out: &mut Vec<u8>) -> Result<(), AllocError>
    ensures { OnOk result (out.new.items ≡ out.old.items ++ stop_line query.now) }
{
    push(out, b"stop ")?;
    push(out, query.bytes())?;
    push(out, b"\n")
}

/// Writes `clock` and a tick.
fn push_clock(now: u64, out: &mut Vec<u8>) -> Result<(), AllocError>
    ensures { OnOk result (out.new.items ≡ out.old.items ++ clock_line now) }
{
    push(out, b"clock ")?;
    push(out, Buffer::new().format(now).as_bytes())?;
    push(out, b"\n")
}

/// Writes what is told before the reply to an accepted command: the new clock, or the query that begins or ends. The clock
/// was at `now` before it.
pub(crate) fn push_notice(now: u32, command: &Command, out: &mut Vec<u8>) -> Result<(), AllocError>
    ensures { (h : Held) → clock h.journal ≡ now → OnOk result (out.new.items ≡ out.old.items ++ notice h (command_view command.now)) }
{
    match command {
        Command::Tick { ticks } => push_clock(u64::from(now) + u64::from(*ticks), out),
        Command::Watch { name, .. } => push_start(name, b"watch", now, out),
        Command::Keep { name, .. } => push_start(name, b"keep", now, out),
        Command::Drop { name } => push_stop(name, out),
        _ => Ok(()),
    }
}

/// Writes the same of a data command, which has moved the clock to `now`.
pub(crate) fn push_moved(now: u32, command: &Command, out: &mut Vec<u8>) -> Result<(), AllocError>
    requires { is_data (command_view command.now) ≡ true }
    ensures { (h : Held) → now ≡ clock h.journal + ticks_of (command_view command.now)
        → OnOk result (out.new.items ≡ out.old.items ++ notice h (command_view command.now)) }
{
    match command {
        Command::Tick { .. } => push_clock(u64::from(now), out),
        _ => Ok(()),
    }
}

/// Writes the line of a refusal. On want of memory `out` still begins with its old contents.
#[tactic(auto, using(reply_text::proofs::BeginLemmas::begins_through, reply_text::proofs::BeginLemmas::begins_more))]
pub(crate) fn push_refusal(refusal: Refusal, out: &mut Vec<u8>) -> Result<(), AllocError>
    ensures ok { OnOk result (out.new.items ≡ out.old.items ++ (refusal_line refusal ++ line_feed)) }
    ensures begins { Begins out.old.items out.new.items }
{
    push(out, refusal.line().bytes())?;
    push(out, b"\n")
}
