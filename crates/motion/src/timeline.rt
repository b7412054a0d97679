//! Timelines: the epochs of one object, in the order of time.
ghost use Rattle.std.specs.Prelude.{◌≡◌, ◌≤◌, ◌<◌, ◌+◌, ◌-◌, ◌&&◌, ℕ, [], ◌∷◌, ◌++◌, IfSome, IfNone, IsNone, slice_set, length, All, Some, None, IsTrue, ◌↔◌, IfOk, OnOk, OnErr, slice_get, is_some};
ghost use Rattle.std.specs.List.{list_any};
ghost use Rattle.std.specs.Option.{option_copied, option_map};
ghost use Rattle.tick_set.specs.Ticks.{IsTick, within};
ghost use Rattle.motion.specs.Cells.{AreCellsAt, AreChanges, changed};
ghost use Rattle.motion.specs.Timeline.{Epoch, put, epoch_at, state_at, restored, AreBegunBy, AreBegunUpTo, IsRising, IsEpoch, StandsAsLeft, TakesBack};
ghost use Rattle.motion.specs.Straight.{IsStraightOf, tells_line};
ghost use Rattle.motion.specs.Pieces.{ArePieces, IsPiece, IsPieceFor, IsSteadyFor, IsSteadyPiece, pieces_have};

use crate::asked::Asked;
use crate::cell::{Cell, Given};
use crate::epoch::Epoch;
use crate::pieces::{Piece, begun_count, begun_next, piece_for, pieces};
use crate::straight::{Straight, straight_of};
use std::alloc::{AllocError, Global};
use std::marker::Model;
use std::mem;
use tick_set::Window;

/// The epochs of one object, one for each tick at which it was written. They ascend, and the recorded
/// past stays: a write changes no state before its tick.
#[derive(Drop)]
pub struct Timeline {
    epochs: Vec<Epoch>,
    // A reader of a place needs no look at the epochs where the last one tells it by one line.
    straight: Option<Straight>,
}

impl Model for Timeline {
    ghost use Rattle.std.specs.Prelude.{List};
    ghost use Rattle.motion.specs.Timeline.{Epoch};
    ghost use Rattle.motion.specs.Straight.{AreTimelineFields};

    ghost Value = { List Epoch };

    ghost view = { λ a. a.epochs.items };

    ghost invariant = { λ a. AreTimelineFields a.epochs.items a.straight };
}

impl Timeline {
    /// The timeline of an object that was never written. It takes no memory.
    pub fn new(alloc: Global) -> Timeline
        ensures { result ≡ [] }
    {
        Timeline {
            epochs: Vec::new(alloc),
            straight: None,
        }
    }

    /// The object has these cells from tick `now` on, which isn't before its last epoch. The answer is
    /// the epoch that it replaces, one that began at `now`, and None where the new one was appended. After
    /// an error the timeline is as before.
    pub fn begin(&mut self, now: u32, cells: &[Cell]) -> Result<Option<Epoch>, AllocError>
        requires tick { IsTick now }
        requires after { AreBegunBy self.old now }
        requires written { AreCellsAt cells.now now }
        ensures ok { OnOk result (self.new ≡ put self.old (record { from = now; cells = Some cells.now })) }
        ensures appended { IfOk result (λ r. IsNone r
            ↔ (self.new ≡ self.old ++ record { from = now; cells = Some cells.now } ∷ [])) }
        ensures replaced { IfOk result (λ replaced. TakesBack self.old self.new replaced) }
        ensures err { OnErr result (self.new ≡ self.old) }
    {
        let kept = Vec::from_slice(*self.epochs.allocator(), cells)?;
        self.begin_with(now, kept)
    }

    /// As `begin`, of cells that are handed over and not copied.
    pub fn begin_with(&mut self, now: u32, cells: Vec<Cell>) -> Result<Option<Epoch>, AllocError>
        requires tick { IsTick now }
        requires after { AreBegunBy self.old now }
        requires written { AreCellsAt cells.items now }
        ensures ok { OnOk result (self.new ≡ put self.old (record { from = now; cells = Some cells.items })) }
        ensures appended { IfOk result (λ r. IsNone r
            ↔ (self.new ≡ self.old ++ record { from = now; cells = Some cells.items } ∷ [])) }
        ensures replaced { IfOk result (λ replaced. TakesBack self.old self.new replaced) }
        ensures err { OnErr result (self.new ≡ self.old) }
    {
        self.put(Epoch::of(now, cells))
    }

    /// Writes these values at tick `now` to the cells of these indexes, in their order. What doesn't fit
    /// the kind of its cell, and an index past the cells, leaves them. An absent object stays absent.
    pub fn write(
        &mut self,
        now: u32,
        changes: &[(usize, Given)],
    ) -> Result<Option<Epoch>, AllocError>
        requires tick { IsTick now }
        requires after { AreBegunBy self.old now }
        requires given { AreChanges changes.now }
        ensures ok { OnOk result
            (self.new ≡ put self.old (record { from = now; cells = option_map (changed now changes.now) (state_at self.old now) })) }
        ensures appended { let cells = option_map (changed now changes.now) (state_at self.old now) in
            IfOk result (λ r. IsNone r ↔ (self.new ≡ self.old ++ record { from = now; cells = cells } ∷ [])) }
        ensures replaced { IfOk result (λ replaced. TakesBack self.old self.new replaced) }
        ensures err { OnErr result (self.new ≡ self.old) }
    {
        let alloc = *self.epochs.allocator();
        let epoch = epoch_after(alloc, &self.epochs, now, changes)?;
        self.put(epoch)
    }

    /// The object is absent from tick `now` on, which isn't before its last epoch.
    pub fn vanish(&mut self, now: u32) -> Result<Option<Epoch>, AllocError>
        requires tick { IsTick now }
        requires after { AreBegunBy self.old now }
        ensures ok { OnOk result (self.new ≡ put self.old (record { from = now; cells = None })) }
        ensures appended { IfOk result (λ r. IsNone r
            ↔ (self.new ≡ self.old ++ record { from = now; cells = None } ∷ [])) }
        ensures replaced { IfOk result (λ replaced. TakesBack self.old self.new replaced) }
        ensures err { OnErr result (self.new ≡ self.old) }
    {
        let alloc = *self.epochs.allocator();
        self.put(Epoch::absent(alloc, now))
    }

    /// Takes a writing call back that answered `replaced`, the timeline standing as that call left it. It
    /// takes no memory.
    pub fn take_back(&mut self, replaced: Option<Epoch>)
        requires { StandsAsLeft self.old replaced }
        ensures { self.new ≡ restored self.old replaced }
    {
        restore(&mut self.epochs, replaced);
        self.straight = straight_of(&self.epochs);
    }

    /// Writes an epoch after the last one, or over it where that begins at the same tick.
    fn put(&mut self, epoch: Epoch) -> Result<Option<Epoch>, AllocError>
        requires { AreBegunBy self.old epoch.from }
        ensures ok { OnOk result (self.new ≡ put self.old epoch) }
        ensures appended { IfOk result (λ r. IsNone r ↔ (self.new ≡ self.old ++ epoch ∷ [])) }
        ensures replaced { IfOk result (λ replaced. TakesBack self.old self.new replaced) }
        ensures err { OnErr result (self.new ≡ self.old) }
    {
        let replaced = put(&mut self.epochs, epoch)?;
        self.straight = straight_of(&self.epochs);
        Ok(replaced)
    }

    /// The epoch in force at tick `t`. None exactly where `t` is before the first epoch. It takes no memory.
    pub fn at(&self, t: u32) -> Option<&Epoch>
        ensures { option_copied result ≡ epoch_at self.now t }
    {
        let index = begun_count(&self.epochs, t).checked_sub(1)?;
        self.epochs.get(index)
    }

    /// Whether no epoch begins after tick `t`, so that it can be written then.
    pub fn is_begun_by(&self, t: u32) -> bool
        ensures { IsTrue result ↔ AreBegunBy self.now t }
    {
        match self.epochs.last() {
            Some(last) => last.from() <= t,
            None => true,
        }
    }

    /// How many epochs there are.
    #[inline]
    pub fn len(&self) -> usize
        ensures { result ≡ length self.now }
    {
        self.epochs.len()
    }

    /// Whether the object was never written.
    #[inline]
    pub fn is_empty(&self) -> bool
        ensures { IsTrue result ↔ (self.now ≡ []) }
    {
        self.epochs.is_empty()
    }

    /// The epoch of an index, counted from 0 in the order of time.
    #[inline]
    pub fn epoch(&self, i: usize) -> Option<&Epoch>
        ensures { option_copied result ≡ slice_get self.now i }
    {
        self.epochs.get(i)
    }

    /// The last epoch, which is in force from its first tick on.
    #[inline]
    pub fn last(&self) -> Option<&Epoch>
        ensures value { option_copied result ≡ slice_get self.now (length self.now - 1) }
        ensures in_force { (t : ℕ) → AreBegunBy self.now t → option_copied result ≡ epoch_at self.now t }
    {
        self.epochs.last()
    }

    /// The line along which the object's first two attributes move from the first tick of its last epoch
    /// on. It takes no look at the epochs. None exactly where it was never written, the object is absent from
    /// the last epoch on, or one of these attributes isn't dynamic or has several legs.
    #[inline]
    pub fn straight(&self) -> Option<&Straight>
        ensures exact { is_some result ≡ tells_line self.now }
        ensures told { IfSome result (λ line. IsStraightOf self.now line.now) }
    {
        self.straight.as_ref()
    }

    /// The parts of the window, in order, in each of which one epoch is in force and each dynamic
    /// attribute moves by one slope. A part ends with the tick before one at which an epoch begins or a
    /// leg of a dynamic attribute ends. Ticks before the first epoch are in none.
    pub fn pieces(&self, alloc: Global, w: Window) -> Result<Vec<Piece>, AllocError>
        ensures pieces { IfOk result (λ v. ArePieces self.now w.lo w.hi v.items) }
        ensures steady { IfOk result (λ v. All (IsSteadyPiece self.now) v.items) }
        ensures cover { IfOk result
            (λ v. (t : ℕ) → pieces_have v.items t ≡ (within w.lo w.hi t && is_some (epoch_at self.now t))) }
    {
        pieces(alloc, &self.epochs, w)
    }

    /// The piece that begins at tick `at` and ends by tick `last`. None exactly where `at` is before the first
    /// epoch. It takes no memory.
    pub fn piece_from(&self, at: u32, last: u32) -> Option<Piece>
        requires order { at ≤ last }
        requires tick { IsTick last }
        ensures piece { IfSome result (IsPiece self.now at last) }
        ensures steady { IfSome result (IsSteadyPiece self.now) }
        ensures none { IfNone result (epoch_at self.now at ≡ None) }
        ensures rising { IsRising self.now }
    {
        self.piece_for(Asked::All, self.begun_by(at), at, last)
    }

    /// How many epochs begin by tick `t`. It takes no memory.
    pub fn begun_by(&self, t: u32) -> usize
        ensures begun { AreBegunUpTo self.now t result }
        ensures rising { IsRising self.now }
    {
        begun_count(&self.epochs, t)
    }

    /// How many epochs begin by the tick past `t`, where as many as `count` begin by `t`: one epoch is looked at.
    pub fn begun_next(&self, count: usize, t: u32) -> usize
        requires begun { AreBegunUpTo self.now t count }
        requires tick { IsTick t }
        ensures { AreBegunUpTo self.now (t + 1) result }
    {
        begun_next(&self.epochs, count, t)
    }

    /// The piece of the asked attributes that begins at tick `at` and ends by tick `last`: it ends with the tick before
    /// one at which an epoch begins or a leg of one of these ends. As many epochs as `count` begin by `at`, so none is
    /// searched for, and as many begin by the piece's end. None exactly where `at` is before the first epoch, so that none
    /// has begun. It takes no memory.
    pub fn piece_for(&self, asked: Asked, count: usize, at: u32, last: u32) -> Option<Piece>
        requires begun { AreBegunUpTo self.now at count }
        requires order { at ≤ last }
        requires tick { IsTick last }
        ensures piece { IfSome result (IsPieceFor asked.entry self.now at last) }
        ensures steady { IfSome result (IsSteadyFor asked.entry self.now) }
        ensures begun { IfSome result (λ piece. AreBegunUpTo self.now piece.span.hi count) }
        ensures none { IfNone result (epoch_at self.now at ≡ None) }
        ensures unbegun { IfNone result (count ≡ 0) }
        ensures rising { IsRising self.now }
    {
        let epochs = self.epochs.as_slice();
        if count == 0 {
            return None;
        }
        Some(piece_for(asked, epochs, count, at, last))
    }
}

/// The epoch that these writes at tick `now` make of the last one.
fn epoch_after(
    alloc: Global,
    epochs: &[Epoch],
    now: u32,
    changes: &[(usize, Given)],
) -> Result<Epoch, AllocError>
    requires tick { IsTick now }
    requires after { AreBegunBy epochs.now now }
    requires given { AreChanges changes.now }
    ensures { IfOk result
        (λ e. e ≡ record { from = now; cells = option_map (changed now changes.now) (state_at epochs.now now) }) }
{
    match epochs.last() {
        Some(last) => last.changed(alloc, now, changes),
        None => Ok(Epoch::absent(alloc, now)),
    }
}

/// Writes an epoch after the last one, or over it where that begins at the same tick.
#[tactic(auto, using(crate::proofs::TimelineLemmas::set_is_no_push))]
fn put(epochs: &mut Vec<Epoch>, epoch: Epoch) -> Result<Option<Epoch>, AllocError>
    requires after { AreBegunBy epochs.old.items epoch.from }
    requires rising { IsRising epochs.old.items }
    ensures ok { OnOk result (epochs.new.items ≡ put epochs.old.items epoch) }
    ensures appended { IfOk result (λ r. IsNone r ↔ (epochs.new.items ≡ epochs.old.items ++ epoch ∷ [])) }
    ensures rising { IsRising epochs.new.items }
    ensures replaced { IfOk result (λ replaced. TakesBack epochs.old.items epochs.new.items replaced) }
    ensures err { OnErr result (epochs.new.items ≡ epochs.old.items) }
{
    match replaced_at(epochs, epoch.from()) {
        Some(index) => Ok(Some(mem::replace(&mut epochs[index], epoch))),
        None => {
            epochs.push(epoch)?;
            Ok(None)
        }
    }
}

/// The index of the epoch that a write at tick `from` replaces: that of the last one, where it begins then.
fn replaced_at(epochs: &[Epoch], from: u32) -> Option<usize>
    requires after { AreBegunBy epochs.now from }
    requires rising { IsRising epochs.now }
    ensures within { IfSome result (λ index. index + 1 ≡ length epochs.now) }
    ensures over { IfSome result (λ index. (p : Epoch) → p.from ≡ from → put epochs.now p ≡ slice_set epochs.now index p) }
    ensures behind { IfNone result ((p : Epoch) → p.from ≡ from → put epochs.now p ≡ epochs.now ++ p ∷ []) }
{
    let last = epochs.len().checked_sub(1)?;
    if epochs[last].from() == from {
        Some(last)
    } else {
        None
    }
}

/// Puts back the epoch that the last one had replaced, or takes the last one away where there is none.
fn restore(epochs: &mut Vec<Epoch>, replaced: Option<Epoch>)
    requires { 0 < length epochs.old.items }
    ensures { epochs.new.items ≡ restored epochs.old.items replaced }
{
    match replaced {
        Some(before) => {
            if let Some(last) = epochs.last_mut() {
                *last = before;
            }
        }
        None => {
            epochs.pop();
        }
    }
}
