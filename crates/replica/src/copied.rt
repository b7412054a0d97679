//! The copy of an answer, and what a line makes of it.
ghost use Rattle.std.specs.Prelude.{◌≡◌, ◌++◌, option_map, OnOk, OnErr};
ghost use Rattle.replica.specs.Text.{Begins};
ghost use Rattle.replica.specs.Copied.{at_clock, begun_copy, copy_after, copy_text, first_copied_tick, starting_after, with_change};
ghost use Rattle.replica.specs.Feed.{is_broken};
ghost use Rattle.replica.specs.Messages.{row_view, told_view};

use crate::line::Message;
use crate::rows::{Rows, ToldRow};
use formula::QueryKind;
use std::alloc::{AllocError, Global};
use tick_set::SetOperation;

/// The rows of a query that is registered, as far as they were told.
#[derive(Drop)]
pub(crate) struct Copied {
    pub kind: QueryKind,
    pub clock: u32,
    pub rows: Rows,
}

impl Copied {
    fn begun(alloc: Global, kind: QueryKind, clock: u32) -> Copied
        ensures { result ≡ begun_copy kind clock }
    {
        Copied {
            kind,
            clock,
            rows: Rows::new(alloc),
        }
    }

    // The first tick that is told.
    fn first_tick(&self) -> u32
        ensures { result ≡ first_copied_tick self.now.kind self.now.clock }
    {
        match self.kind {
            QueryKind::Watch => self.clock,
            QueryKind::Keep => 0,
        }
    }

    /// Writes the rows.
    #[tactic(auto, using(crate::proofs::BeginLemmas::begins_through, crate::proofs::BeginLemmas::begins_more))]
    pub fn push_text(&self, out: &mut Vec<u8>) -> Result<(), AllocError>
        ensures ok { OnOk result (out.new.items ≡ out.old.items ++ copy_text self.now) }
        ensures begins { Begins out.old.items out.new.items }
    {
        self.rows.push_text(self.first_tick(), out)
    }
}

// Changes a row where there is a copy. After an error it is unchanged.
fn change(
    copy: &mut Option<Copied>,
    alloc: Global,
    operation: SetOperation,
    row: ToldRow,
) -> Result<(), AllocError>
    ensures ok { OnOk result (copy.new ≡ option_map (with_change operation (row_view row)) copy.old) }
    ensures err { OnErr result (copy.new ≡ copy.old) }
{
    match copy {
        Some(copied) => copied.rows.change(alloc, operation, row),
        None => Ok(()),
    }
}

/// What a line makes of the copy. After an error it is unchanged.
pub(crate) fn take(
    copy: &mut Option<Copied>,
    alloc: Global,
    starting: bool,
    message: Message,
) -> Result<(), AllocError>
    ensures ok { OnOk result (copy.new ≡ copy_after starting copy.old (told_view message)) }
    ensures err { OnErr result (copy.new ≡ copy.old) }
{
    match message {
        Message::Starts(kind, clock) => {
            *copy = Some(Copied::begun(alloc, kind, clock));
            Ok(())
        }
        Message::Answers(row) => {
            if starting {
                change(copy, alloc, SetOperation::Union, row)
            } else {
                Ok(())
            }
        }
        Message::Changes(operation, row) => change(copy, alloc, operation, row),
        Message::Passes(clock) => {
            pass(copy, clock);
            Ok(())
        }
        Message::Stops => {
            *copy = None;
            Ok(())
        }
        Message::Nothing | Message::Broken => Ok(()),
    }
}

fn pass(copy: &mut Option<Copied>, clock: u32)
    ensures { copy.new ≡ option_map (at_clock clock) copy.old }
{
    if let Some(copied) = copy {
        copied.clock = clock;
    }
}

/// Whether rows may follow a line.
pub(crate) fn starting_after(starting: bool, message: &Message) -> bool
    ensures { result ≡ starting_after starting (told_view message.now) }
{
    match message {
        Message::Starts(_, _) => true,
        Message::Answers(_) => starting,
        _ => false,
    }
}

/// Whether a line hasn't its form.
pub(crate) fn is_broken(message: &Message) -> bool
    ensures { result ≡ is_broken (told_view message.now) }
{
    matches!(message, Message::Broken)
}
