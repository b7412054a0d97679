//! Pieces: the parts of a window in which each dynamic attribute of an object moves by one slope.
ghost use Rattle.std.specs.Prelude.{◌≡◌, ℕ, ◌≤◌, ◌<◌, ◌+◌, ◌⊎◌, false, All, IfOk, IfSome, length, slice_get};
ghost use Rattle.std.specs.List.{list_any};
ghost use Rattle.std.specs.Option.{option_copied, option_map_or};
ghost use Rattle.tick_set.specs.Ticks.{IsTick};
ghost use Rattle.motion.specs.Cells.{AreCellsAt, IsCellAt, cell_turns};
ghost use Rattle.motion.specs.Timeline.{Epoch, AreBegunUpTo, IsRising};
ghost use Rattle.motion.specs.Pieces.{legs_end, ArePieces, ArePiecesFrom, IsFirstOrEnd, IsPieceFor, IsSteadyPiece, IsSteadyFor};

use crate::asked::Asked;
use crate::cell::Cell;
use crate::epoch::Epoch;
use std::alloc::{AllocError, Global};
use tick_set::{Span, Window};

/// Ticks in which one epoch is in force, by its index in the timeline counted from 0, and in which each
/// of its dynamic attributes moves by one slope.
#[derive(Clone, Copy, Debug, PartialEq, Eq)]
pub struct Piece {
    pub span: Span,
    pub epoch: usize,
}

/// How many of these epochs begin by tick `t`.
pub fn begun_count(epochs: &[Epoch], t: u32) -> usize
    requires { IsRising epochs.now }
    ensures { AreBegunUpTo epochs.now t result }
{
    epochs.partition_point(|epoch| epoch.from() <= t)
}

/// The pieces of a window.
pub fn pieces(alloc: Global, epochs: &[Epoch], w: Window) -> Result<Vec<Piece>, AllocError>
    requires { IsRising epochs.now }
    ensures pieces { IfOk result (λ v. ArePieces epochs.now w.lo w.hi v.items) }
    ensures steady { IfOk result (λ v. All (IsSteadyPiece epochs.now) v.items) }
{
    match epochs.first() {
        Some(first) => pieces_from(alloc, epochs, w.lo.max(first.from()), w.hi),
        None => Ok(Vec::new(alloc)),
    }
}

/// The pieces of the ticks from `start`, which isn't before the first epoch, to `last`.
fn pieces_from(
    alloc: Global,
    epochs: &[Epoch],
    start: u32,
    last: u32,
) -> Result<Vec<Piece>, AllocError>
    requires rising { IsRising epochs.now }
    requires some { 0 < length epochs.now }
    requires begun { IfSome (slice_get epochs.now 0) (λ p. p.from ≤ start) }
    requires tick { IsTick last }
    ensures pieces { IfOk result (λ v. ArePiecesFrom epochs.now start last v.items) }
    ensures steady { IfOk result (λ v. All (IsSteadyPiece epochs.now) v.items) }
{
    let mut made = Vec::new(alloc);
    let mut at = start;
    let mut count = begun_count(epochs, start);
    'cutting: while at <= last {
        let piece = piece_for(Asked::All, epochs, count, at, last);
        made.push(piece)?;
        count = begun_next(epochs, count, piece.span.hi);
        at = piece.span.hi + 1;
    }
    Ok(made)
}

/// The piece of the asked attributes that begins at tick `at` and ends by `last`. As many epochs as `count` begin
/// by `at`.
pub fn piece_for(asked: Asked, epochs: &[Epoch], count: usize, at: u32, last: u32) -> Piece
    requires rising { IsRising epochs.now }
    requires some { 0 < count }
    requires begun { AreBegunUpTo epochs.now at count }
    requires order { at ≤ last }
    requires tick { IsTick last }
    ensures piece { IsPieceFor asked.entry epochs.now at last result }
    ensures steady { IsSteadyFor asked.entry epochs.now result }
    ensures begun { AreBegunUpTo epochs.now result.span.hi count }
{
    let epoch = &epochs[count - 1];
    let first = first_end(asked, epoch.cells(), at, next_begin(epochs, count, last));
    Piece {
        span: Span {
            lo: at,
            hi: first - 1,
        },
        epoch: count - 1,
    }
}

/// The tick at which the epoch of an index begins, but at most one past `last`.
fn next_begin(epochs: &[Epoch], index: usize, last: u32) -> u32
    requires { IsTick last }
    ensures within { result ≤ last + 1 }
    ensures before { IfSome (slice_get epochs.now index) (λ p. result ≤ p.from) }
    ensures reached { result ≡ last + 1
        ⊎ ((index < length epochs.now) × IfSome (slice_get epochs.now index) (λ p. p.from ≡ result)) }
{
    match epochs.get(index) {
        Some(next) => next.from().min(last + 1),
        None => last + 1,
    }
}

/// How many epochs begin by the tick past `t`, where as many as `count` begin by `t`.
pub fn begun_next(epochs: &[Epoch], count: usize, t: u32) -> usize
    requires rising { IsRising epochs.now }
    requires begun { AreBegunUpTo epochs.now t count }
    requires tick { IsTick t }
    ensures begun { AreBegunUpTo epochs.now (t + 1) result }
    ensures more { count ≤ result }
{
    match epochs.get(count) {
        Some(next) => count + usize::from(next.from() == t + 1),
        None => count,
    }
}

/// The first tick past `at` and before `end` at which a leg of an asked cell ends, else `end`.
fn first_end(asked: Asked, cells: &[Cell], at: u32, end: u32) -> u32
    requires written { AreCellsAt cells.now at }
    requires tick { IsTick at }
    requires order { at < end }
    ensures { IsFirstOrEnd (λ t. legs_end asked.entry t cells.now) at end result }
{
    match asked {
        Asked::All => first_turn(cells, at, end),
        Asked::These(indexes) => first_turn_among(indexes, cells, at, end),
    }
}

/// The same of the cells of these indexes.
fn first_turn_among(indexes: &[u8], cells: &[Cell], at: u32, end: u32) -> u32
    requires written { AreCellsAt cells.now at }
    requires tick { IsTick at }
    requires order { at < end }
    ensures { IsFirstOrEnd
        (λ t. list_any (λ index. option_map_or (cell_turns t) (slice_get cells.now index) false) indexes.now) at end result }
{
    let mut first = end;
    for index in indexes {
        first = turn_if_any(cell_at(cells, *index), at, first);
    }
    first
}

/// The cell of an index, counted from 0.
fn cell_at(cells: &[Cell], index: u8) -> Option<&Cell>
    ensures value { option_copied result ≡ slice_get cells.now index }
    ensures written { (at : ℕ) → AreCellsAt cells.now at → IfSome result (λ cell. IsCellAt cell.now at) }
{
    cells.get(usize::from(index))
}

/// The first tick past `at` and before `end` at which a leg of this cell ends, if there is one, else `end`.
fn turn_if_any(cell: Option<&Cell>, at: u32, end: u32) -> u32
    requires written { IfSome cell (λ c. IsCellAt c.now at) }
    requires tick { IsTick at }
    requires order { at < end }
    ensures { IsFirstOrEnd (λ t. option_map_or (cell_turns t) (option_copied cell.entry) false) at end result }
{
    match cell {
        Some(cell) => turn(cell, at, end),
        None => end,
    }
}

/// The first tick past `at` and before `end` at which a leg of one of these cells ends, else `end`.
fn first_turn(cells: &[Cell], at: u32, end: u32) -> u32
    requires written { AreCellsAt cells.now at }
    requires tick { IsTick at }
    requires order { at < end }
    ensures { IsFirstOrEnd (λ t. list_any (cell_turns t) cells.now) at end result }
{
    let mut first = end;
    for cell in cells {
        first = turn(cell, at, first);
    }
    first
}

/// The first tick past `at` and before `end` at which a leg of this cell ends, else `end`.
fn turn(cell: &Cell, at: u32, end: u32) -> u32
    requires written { IsCellAt cell.now at }
    requires tick { IsTick at }
    requires order { at < end }
    ensures { IsFirstOrEnd (λ t. cell_turns t cell.now) at end result }
{
    match cell {
        Cell::Dyn(vector) => vector.turn_before(at, end),
        _ => end,
    }
}
