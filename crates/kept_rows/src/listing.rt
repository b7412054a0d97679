//! The rows of an answer.
ghost use Rattle.std.specs.Prelude.{◌≡◌, ◌<◌, ◌≤◌, ◌+◌, ◌*◌, ◌/◌, ◌++◌, ◌||◌, ◌&&◌, ℕ, Bool, [], option_to_list, IfOk, OnOk, IfSome, IfNone};
ghost use Rattle.std.specs.List.{list_any};
ghost use Rattle.tick_set.specs.Runs.{pairs};
ghost use Rattle.tick_set.specs.Ticks.{within};
ghost use Rattle.kept_rows.specs.Listing.{HaveNone, line_of, lines_upto, some_row, target_has, with_runs};
ghost use Rattle.kept_rows.specs.Rows.{row_has};

use crate::binding::Targets;
use crate::rows::KeptRows;
use std::alloc::{AllocError, Global};
use std::marker::Model;
use tick_set::{Span, TickSet, Window, runs_are_those_of_the_list};

/// A target, by its number, and the runs of its ticks. Contracts see the number and the first and last ticks of
/// the runs.
#[derive(Drop)]
pub struct Line {
    target: u32,
    spans: Vec<Span>,
}

impl Model for Line {
    ghost use Rattle.std.specs.Prelude.{ℕ, List};
    ghost use Rattle.tick_set.specs.Runs.{pairs};

    ghost Value = { ℕ × List (ℕ × ℕ) };

    ghost view = { λ a. (a.target, pairs a.spans.items) };
}

impl Line {
    /// The number of the target.
    #[inline]
    pub fn target(&self) -> u32
        ensures { result ≡ self.now.0 }
    {
        self.target
    }

    /// The runs of the target's ticks, ascending.
    #[inline]
    pub fn spans(&self) -> &[Span]
        ensures { pairs result.now ≡ self.now.1 }
    {
        &self.spans
    }

    /// The runs alone.
    #[inline]
    pub fn into_spans(self) -> Vec<Span>
        ensures { pairs result.items ≡ self.1 }
    {
        self.spans
    }
}

/// The targets that have ticks in the window, in order, with the runs of these ticks. A target has the ticks of
/// the rows of all its bindings. It fails only where memory is out.
pub fn answer<S: TickSet>(
    alloc: Global,
    kept: &KeptRows<S>,
    targets: Targets,
    window: Window,
) -> Result<Vec<Line>, AllocError>
    ensures { IfOk result (λ lines. lines.items
        ≡ lines_upto (line_of (target_has (row_has S.member kept.now) targets.width) window.lo window.hi) targets.count) }
{
    let mut lines = Vec::new(alloc);
    let mut target = 0;
    let end = targets.count * targets.width;
    'targets: while let Some(first) = kept.next(target * targets.width, end) {
        let line = line_at(alloc, kept, targets, first, window)?;
        push_some(&mut lines, line)?;
        target = first / targets.width + 1;
    }
    Ok(lines)
}

// The row of the target of a binding, the first of the target's bindings whose row has a tick.
fn line_at<S: TickSet>(
    alloc: Global,
    kept: &KeptRows<S>,
    targets: Targets,
    first: u32,
    window: Window,
) -> Result<Option<Line>, AllocError>
    requires below { first < targets.count * targets.width }
    requires before { HaveNone (row_has S.member kept.now) (first / targets.width * targets.width) first }
    ensures { IfOk result (λ line. option_to_list line
        ≡ option_to_list (line_of (target_has (row_has S.member kept.now) targets.width) window.lo window.hi (first / targets.width))) }
{
    let target = first / targets.width;
    let end = target * targets.width + targets.width;
    let ticks = ticks_in(alloc, kept, first, end, window)?;
    let spans = ticks.runs(alloc)?;
    runs_are_those_of_the_list();
    Ok(line_if_any(target, spans))
}

// A target with its runs, if there are some.
fn line_if_any(target: u32, spans: Vec<Span>) -> Option<Line>
    ensures { result ≡ with_runs target (pairs spans.items) }
{
    if spans.is_empty() {
        return None;
    }
    Some(Line { target, spans })
}

// The ticks of the window that the rows of the numbers from `first` up to `to` have, put together at once.
fn ticks_in<S: TickSet>(
    alloc: Global,
    kept: &KeptRows<S>,
    first: u32,
    to: u32,
    window: Window,
) -> Result<S, AllocError>
    requires { first < to }
    ensures { IfOk result (λ s. (t : ℕ) → S.member s t
        ≡ (within window.lo window.hi t && some_row (row_has S.member kept.now) first to t)) }
{
    // A row alone is the common case, and needs no list.
    let Some(second) = kept.next(first + 1, to) else {
        let ticks = kept.row(first).clip(alloc, window)?;
        return Ok(ticks);
    };
    let mut rows = Vec::new(alloc);
    rows.push(kept.row(first))?;
    push_rows(&mut rows, kept, second, to)?;
    let all = S::union_all(alloc, &rows)?;
    let ticks = all.clip(alloc, window)?;
    Ok(ticks)
}

// Pushes the rows that have a tick, of the numbers from `first` up to `to`.
fn push_rows<'k, S: TickSet>(
    rows: &mut Vec<&'k S>,
    kept: &'k KeptRows<S>,
    first: u32,
    to: u32,
) -> Result<(), AllocError>
    ensures { OnOk result ((t : ℕ) → list_any (λ row. S.member row.now t) rows.new.items
        ≡ (list_any (λ row. S.member row.now t) rows.old.items || some_row (row_has S.member kept.now) first to t)) }
{
    let mut from = first;
    'rows: while let Some(number) = kept.next(from, to) {
        rows.push(kept.row(number))?;
        from = number + 1;
    }
    Ok(())
}

// Pushes what there is.
pub(crate) fn push_some<T: Drop>(items: &mut Vec<T>, item: Option<T>) -> Result<(), AllocError>
    ensures { OnOk result (items.new.items ≡ items.old.items ++ option_to_list item) }
{
    match item {
        Some(item) => Ok(items.push(item)?),
        None => Ok(()),
    }
}
