//! What a line says of the query that is followed.
ghost use Rattle.std.specs.Prelude.{◌≡◌, ◌||◌, option_and_then, option_map, is_none, if◌then◌else◌, IfOk};
ghost use Rattle.std.specs.Option.{option_map_or};
ghost use Rattle.replica.specs.Line.{is_time_word, named, query_kind, row_in_text, row_parts, start_of, told_by_line, told_of};
ghost use Rattle.replica.specs.Line as told;
ghost use Rattle.replica.specs.Text.{tick_of};
ghost use Rattle.replica.specs.Messages.{row_view, told_view};

use crate::rows::ToldRow;
use crate::text::{after_text, before_text, cut, is, is_target, spans_of, tick_of};
use formula::QueryKind;
use interval_set::IntervalSet;
use std::alloc::{AllocError, Global};
use tick_set::SetOperation;

/// What a line says.
#[derive(Drop)]
pub(crate) enum Message {
    /// The query begins, at a clock.
    Starts(QueryKind, u32),
    /// A row of an answer, of this query or of another.
    Answers(ToldRow),
    /// Ticks are gained or lost.
    Changes(SetOperation, ToldRow),
    /// The clock is this.
    Passes(u32),
    /// The query ends.
    Stops,
    /// Nothing of this query.
    Nothing,
    /// It is of the query, or the clock's, and hasn't the form.
    Broken,
}

// A target, and the text of its ticks.
#[tactic(auto, unfolding(crate::specs::Line::row_parts))]
fn row_parts(text: &[u8]) -> Option<(&[u8], &[u8])>
    ensures { option_map (λ parts. (parts.0.now, parts.1.now)) result ≡ row_parts text.now }
{
    let (front, later) = cut(b':', text);
    let target = before_text(b" ", front)?;
    let ticks = after_text(b" ", later?)?;
    if is_target(target) {
        Some((target, ticks))
    } else {
        None
    }
}

// `a b : 1..4 7..9`.
#[tactic(auto, unfolding(crate::specs::Line::row_in_text))]
fn row_of(alloc: Global, text: &[u8]) -> Result<Option<ToldRow>, AllocError>
    ensures { IfOk result (λ found. option_map row_view found ≡ row_in_text text.now) }
{
    let Some((target, ticks)) = row_parts(text) else {
        return Ok(None);
    };
    let Some(spans) = spans_of(alloc, ticks)? else {
        return Ok(None);
    };
    Ok(Some(ToldRow {
        target: Vec::from_slice(alloc, target)?,
        ticks: IntervalSet::from_runs(spans),
    }))
}

// What follows as a row.
fn row_in(alloc: Global, rest: Option<&[u8]>) -> Result<Option<ToldRow>, AllocError>
    ensures { IfOk result (λ found. option_map row_view found ≡ (option_and_then row_in_text (option_map (λ text. text.now) rest.entry))) }
{
    match rest {
        Some(text) => row_of(alloc, text),
        None => Ok(None),
    }
}

fn kind_of(word: &[u8]) -> Option<QueryKind>
    ensures { result ≡ query_kind word.now }
{
    if is(word, b"watch") {
        Some(QueryKind::Watch)
    } else if is(word, b"keep") {
        Some(QueryKind::Keep)
    } else {
        None
    }
}

// `watch 5`.
#[tactic(auto, unfolding(crate::specs::Line::start_of))]
fn start_of(text: &[u8]) -> Option<(QueryKind, u32)>
    ensures value { result ≡ start_of text.now }
{
    let (word, later) = cut(b' ', text);
    let kind = kind_of(word)?;
    let clock = tick_of(later?)?;
    Some((kind, clock))
}

// What follows as a start.
fn starts(rest: Option<&[u8]>) -> Message
    ensures { told_view result ≡ option_map_or (λ s. told.Starts s.0 s.1) (option_and_then start_of (option_map (λ text. text.now) rest.entry)) told.Broken }
{
    match rest.and_then(start_of) {
        Some((kind, clock)) => Message::Starts(kind, clock),
        None => Message::Broken,
    }
}

// What follows as a clock.
fn passes(rest: Option<&[u8]>) -> Message
    ensures { told_view result ≡ option_map_or told.Passes (option_and_then tick_of (option_map (λ text. text.now) rest.entry)) told.Broken }
{
    match rest.and_then(tick_of) {
        Some(clock) => Message::Passes(clock),
        None => Message::Broken,
    }
}

// What follows as a change.
fn changes(
    alloc: Global,
    operation: SetOperation,
    rest: Option<&[u8]>,
) -> Result<Message, AllocError>
    ensures { IfOk result (λ m. told_view m ≡ option_map_or (told.Changes operation) (option_and_then row_in_text (option_map (λ text. text.now) rest.entry)) told.Broken) }
{
    match row_in(alloc, rest)? {
        Some(row) => Ok(Message::Changes(operation, row)),
        None => Ok(Message::Broken),
    }
}

// What follows as a row of an answer.
fn answers(alloc: Global, rest: Option<&[u8]>) -> Result<Message, AllocError>
    ensures { IfOk result (λ m. told_view m ≡ option_map_or told.Answers (option_and_then row_in_text (option_map (λ text. text.now) rest.entry)) told.Nothing) }
{
    match row_in(alloc, rest)? {
        Some(row) => Ok(Message::Answers(row)),
        None => Ok(Message::Nothing),
    }
}

// By the first word, and what follows the query's name.
#[tactic(auto, unfolding(crate::specs::Line::told_of))]
fn told_of(alloc: Global, verb: &[u8], rest: Option<&[u8]>) -> Result<Message, AllocError>
    ensures { IfOk result (λ m. told_view m ≡ told_of verb.now (option_map (λ text. text.now) rest.entry)) }
{
    if is(verb, b"start") {
        Ok(starts(rest))
    } else if is(verb, b"gain") {
        changes(alloc, SetOperation::Union, rest)
    } else if is(verb, b"lose") {
        changes(alloc, SetOperation::Without, rest)
    } else if is(verb, b"stop") {
        Ok(stops(rest))
    } else {
        Ok(Message::Nothing)
    }
}

fn stops(rest: Option<&[u8]>) -> Message
    ensures { told_view result ≡ (if is_none (option_map (λ text. text.now) rest.entry) then told.Stops else told.Broken) }
{
    match rest {
        None => Message::Stops,
        Some(_) => Message::Broken,
    }
}

// The second word is the query's name.
fn named(alloc: Global, name: &[u8], verb: &[u8], text: &[u8]) -> Result<Message, AllocError>
    ensures { IfOk result (λ m. told_view m ≡ named name.now verb.now text.now) }
{
    let (word, rest) = cut(b' ', text);
    if is(word, name) {
        told_of(alloc, verb, rest)
    } else {
        Ok(Message::Nothing)
    }
}

fn is_time_word(word: &[u8]) -> bool
    ensures { result ≡ is_time_word word.now }
{
    is(word, b"now") || is(word, b"later") || is(word, b"past")
}

/// What a line says of the query of this name.
#[tactic(auto, unfolding(crate::specs::Line::told_by_line))]
pub(crate) fn line_of(alloc: Global, name: &[u8], line: &[u8]) -> Result<Message, AllocError>
    ensures { IfOk result (λ m. told_view m ≡ told_by_line name.now line.now) }
{
    let (verb, rest) = cut(b' ', line);
    if is(verb, b"clock") {
        return Ok(passes(rest));
    }
    if is_time_word(verb) {
        return answers(alloc, rest);
    }
    match rest {
        Some(text) => named(alloc, name, verb, text),
        None => Ok(Message::Nothing),
    }
}
