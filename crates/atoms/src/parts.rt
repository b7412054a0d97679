//! The timelines of the variables of an atom or a term, and the common parts of these timelines.
ghost use Rattle.std.specs.Prelude.{◌≡◌, ◌+◌, ◌≤◌, ℕ, true, All, IfSome, None, length, map, slice_index, slice_index_or, take, unwrap_or};
ghost use Rattle.std.specs.Option.{option_copied};
ghost use Rattle.tick_set.specs.Ticks.{IsTick};
ghost use Rattle.motion.specs.Timeline.{state_at};
ghost use Rattle.object_store.specs.Contents.{history_of};
ghost use Rattle.courses.specs.Parts.{AreBegun, AreFewTimelines, epochs_of_each};
ghost use Rattle.motion.specs.Pieces.{is_asked};
ghost use Rattle.meaning.specs.Trace.{trace_of};
ghost use Rattle.meaning.specs.Value.{cell_in};
ghost use Rattle.atoms.specs.Parts.{AreAscending, AreSteady, HasObject, IsPartFrom, IsSteadyCell, beside, epoch_of, epochs_of, held_cells};
ghost use Rattle.exact.specs.Lists.{SameLength};

use courses::{MOST_TIMELINES, common_for};
use formula::Binding;
use motion::{Asked, Cell, Epoch, Timeline};
use object_store::Store;
use std::sync::ledger::Ledger;
use steps::Steps;
use tick_set::{Span, Window};

/// Some variables, their timelines in the same order, and a window of ticks.
#[derive(Clone, Copy)]
pub struct Traces<'a> {
    pub variables: &'a [u8],
    pub timelines: &'a [&'a Timeline],
    pub w: Window,
}

/// Ticks in which the object of each of some variables has one epoch in force, or none yet, and each asked
/// dynamic attribute moves by one slope.
#[derive(Clone, Copy)]
pub struct Part<'a> {
    pub span: Span,
    /// The variables, and their epochs in the same order.
    pub variables: &'a [u8],
    /// The attributes that are asked of each.
    pub asked: Asked<'a>,
    pub epochs: [Option<&'a Epoch>; MOST_TIMELINES],
}

impl<'a> Part<'a> {
    /// The epoch in force of the object of a variable. None too where the variable isn't one of those here.
    pub fn epoch(&self, v: u8) -> Option<&'a Epoch>
        ensures { option_copied result ≡ epoch_of self.now v }
    {
        beside(self.variables, &self.epochs, v)
    }

    /// The cell of an asked attribute of the object of a variable, counted from 0. None where the object is absent
    /// or has no such attribute.
    pub fn cell(&self, v: u8, a: u8) -> Option<&'a Cell>
        requires steady { AreSteady self.now }
        requires asked { is_asked self.now.asked a ≡ true }
        ensures value { option_copied result ≡ cell_in (held_cells self.now v) a }
        ensures steady { IfSome result (λ cell. IsSteadyCell cell.now self.now.span.lo self.now.span.hi) }
    {
        self.epoch(v)?.cell(a as usize)
    }
}

// What stands at the place of the variable.
fn beside<'a>(variables: &[u8], epochs: &[Option<&'a Epoch>], v: u8) -> Option<&'a Epoch>
    ensures { result ≡ unwrap_or (beside variables.now epochs.now v) None }
{
    for k in 0..variables.len() {
        if variables[k] == v {
            return item_at(epochs, k);
        }
    }
    None
}

fn item_at<'a>(epochs: &[Option<&'a Epoch>], place: usize) -> Option<&'a Epoch>
    ensures { result ≡ slice_index_or epochs.now place None }
{
    *epochs.get(place)?
}

/// The timelines of the objects of some variables, each looked up once, and `none` at the other places of an array.
pub fn timelines_of<'a, L: Ledger>(
    variables: &[u8],
    b: &Binding,
    store: &'a Store,
    none: &'a Timeline,
    reads: &mut Steps<L>,
) -> [&'a Timeline; MOST_TIMELINES]
    requires few { length variables.now ≤ MOST_TIMELINES }
    requires there { All (HasObject b.now store.now) variables.now }
    ensures epochs { take (length variables.now) (epochs_of_each result)
        ≡ map (λ v. epochs_of store.now (slice_index b.now v)) variables.now }
    ensures states { All (λ v. (t : ℕ) → trace_of (history_of store.now) (slice_index b.now) v t
        ≡ state_at (epochs_of store.now (slice_index b.now v)) t) variables.now }
    ensures step { reads.new ≡ reads.old + length variables.now }
{
    let mut timelines = [none; MOST_TIMELINES];
    for k in 0..variables.len() {
        let id = object_of(b, variables[k]);
        timelines[k] = store.timeline(id, reads);
    }
    timelines
}

// The object of a variable in a binding, 0 past its end.
#[inline]
fn object_of(b: &Binding, v: u8) -> u32
    ensures { result ≡ slice_index b.now v }
{
    b.get(v as usize).unwrap_or(0)
}

/// The common part of the timelines of these variables that begins at tick `at`, for the attributes that are asked of
/// each. It ends by `last`, and the next part begins at the tick past it. As many epochs of each timeline as `begun` says
/// begin by `at`; it is moved on to the tick past the part.
pub fn part_from<'a>(
    variables: &'a [u8],
    asked: Asked<'a>,
    timelines: &[&'a Timeline],
    begun: &mut [usize; MOST_TIMELINES],
    at: u32,
    last: u32,
) -> Part<'a>
    requires few { AreFewTimelines timelines.now }
    requires same { SameLength variables.now timelines.now }
    requires ascending { AreAscending variables.now }
    requires begun { AreBegun (epochs_of_each timelines.now) at begun.old }
    requires order { at ≤ last }
    requires tick { IsTick last }
    ensures part { IsPartFrom variables.now asked.entry (epochs_of_each timelines.now) at last result }
    ensures begun { AreBegun (epochs_of_each timelines.now) (result.span.hi + 1) begun.new }
{
    let common = common_for(timelines, &[asked; MOST_TIMELINES], begun, at, last);
    Part {
        span: common.span,
        variables,
        asked,
        epochs: common.epochs,
    }
}
