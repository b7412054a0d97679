//! The text of a journal.
ghost use Rattle.std.specs.Prelude.{◌≡◌, ◌+◌, ◌≤◌, ◌++◌, ◌∷◌, [], decimal, length, codes, IfOk, OnOk, IfSome};
ghost use Rattle.std.specs.List.{flat_map};
ghost use Rattle.tick_set.specs.declared.spans.TheConstants.{LAST_TICK};
ghost use Rattle.tick_set.specs.Ticks.{IsTick};
ghost use Rattle.command_text.specs.Tree.{CommandTree};
ghost use Rattle.command_text.specs.Text.{text_of};
ghost use Rattle.session_file.specs.Counts.{counts_line};
ghost use Rattle.command_text.specs.Journal.{clock, ticks_of};
ghost use Rattle.session_file.specs.Reading.{header};
ghost use Rattle.session_file.specs.Text.{ended_line, entry_text, session_text};
ghost use Rattle.steps.specs.Counting.{StepsAtMost};

use crate::counts::whole_at;
use command_text::Journal;
use itoa::Buffer;
use std::alloc::{AllocError, Global};
use std::sync::ledger::Ledger;
use steps::Steps;
use tick_set::LAST_TICK;

// More bytes than the first two lines and the last one have.
const FRAME: usize = 64;

fn push(text: &mut Vec<u8>, bytes: &[u8]) -> Result<(), AllocError>
    ensures { OnOk result (text.new.items ≡ text.old.items ++ bytes.now) }
{
    text.extend_from_slice(bytes)
}

/// Writes a line and its line feed.
fn push_line(text: &mut Vec<u8>, line: &[u8]) -> Result<(), AllocError>
    ensures { OnOk result (text.new.items ≡ text.old.items ++ ended_line line.now) }
{
    push(text, line)?;
    push(text, b"\n")
}

fn push_whole(text: &mut Vec<u8>, number: u64) -> Result<(), AllocError>
    ensures { OnOk result (text.new.items ≡ text.old.items ++ decimal number) }
{
    push(text, Buffer::new().format(number).as_bytes())
}

/// Writes the first two lines.
fn push_head(text: &mut Vec<u8>, commands: u64, ticks: u64) -> Result<(), AllocError>
    ensures { OnOk result (text.new.items ≡ text.old.items ++ (ended_line header ++ ended_line (counts_line (record { commands = commands; ticks = ticks })))) }
{
    push(text, b"domino-session 2\nentries ")?;
    push_whole(text, commands)?;
    push(text, b" clock ")?;
    push_whole(text, ticks)?;
    push(text, b"\n")
}

/// By how many ticks the command of a canonical line moves the clock.
#[tactic(auto, using(crate::proofs::TextLemmas::tick_steps))]
fn ticks_of_line(line: &[u8]) -> u64
    ensures ticks { (c : CommandTree) → line.now ≡ text_of c → ticks_of c ≤ LAST_TICK → result ≡ ticks_of c }
    ensures small { IsTick result }
{
    match line.strip_prefix(b"tick ") {
        Some(ticks) => match whole_at(u64::from(LAST_TICK), ticks) {
            Some((ticks, _)) => ticks,
            None => 0,
        },
        None => 0,
    }
}

/// Writes the canonical line of each entry, and answers by how many ticks they move the clock.
fn push_entries<L: Ledger>(
    text: &mut Vec<u8>,
    journal: &Journal,
    reads: &mut Steps<L>,
) -> Result<u64, AllocError>
    requires { IsTick (clock journal.now) }
    ensures text { OnOk result (text.new.items ≡ text.old.items ++ flat_map entry_text journal.now) }
    ensures ticks { IfOk result (λ ticks. ticks ≡ clock journal.now) }
    ensures reads { StepsAtMost reads.old reads.new (length journal.now) }
{
    let mut ticks = 0;
    'entries: for i in 0..journal.len() {
        let (_, line) = journal.entry(i, reads).unwrap();
        ticks += ticks_of_line(line);
        push_line(text, line)?;
    }
    Ok(ticks)
}

/// The text of a journal whose clock is a tick. Reads each entry at most once.
#[tactic(auto, using(crate::proofs::TextLemmas::text_is))]
pub fn save_text<L: Ledger>(
    alloc: Global,
    journal: &Journal,
    reads: &mut Steps<L>,
) -> Result<Vec<u8>, AllocError>
    requires { IsTick (clock journal.now) }
    ensures text { IfOk result (λ text. text.items ≡ session_text journal.now) }
    ensures reads { StepsAtMost reads.old reads.new (length journal.now) }
{
    let mut text = Vec::with_capacity(alloc, journal.bytes() as usize + FRAME)?;
    let ticks = push_entries(&mut text, journal, reads)?;
    push_line(&mut text, b"end")?;
    // The clock is known only after the entries, so the first lines are written last and go to the front.
    let body = text.len();
    push_head(&mut text, journal.len() as u64, ticks)?;
    text.rotate_left(body);
    Ok(text)
}
