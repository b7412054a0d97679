//! The common parts of several timelines.
ghost use Rattle.std.specs.Prelude.{◌≡◌, ◌+◌, ◌<◌, ◌≤◌, ℕ, None, [], All, IsSome, IfSome, length, slice_index_or};
ghost use Rattle.std.specs.Option.{option_copied};
ghost use Rattle.tick_set.specs.Ticks.{IsTick};
ghost use Rattle.motion.specs.Pieces.{AreSteadyCells, AreSteadyFor};
ghost use Rattle.motion.specs.Timeline.{epoch_at, AreBegunUpTo, IsRising};
ghost use Rattle.courses.specs.Parts.{asked_at, asked_each, epochs_of_each, pieces_for, pieces_of_all, AreBegun, IsCommon, IsCommonFor, IsTimelinePart, AreFewTimelines};

use motion::{Asked, Epoch, Timeline};
use tick_set::Span;

/// The most timelines that are walked together.
pub const MOST_TIMELINES: usize = 4;

/// Ticks in which each of some timelines has one epoch in force, or none yet, and each dynamic attribute
/// moves by one slope.
#[derive(Clone, Copy)]
pub struct Common<'a> {
    pub span: Span,
    /// The epochs in force, in the order of the timelines. None before the first epoch of a timeline, and
    /// past the timelines.
    pub epochs: [Option<&'a Epoch>; MOST_TIMELINES],
}

impl<'a> Common<'a> {
    /// The epoch in force of the timeline of an index, counted from 0.
    #[inline]
    pub fn epoch(&self, index: usize) -> Option<&'a Epoch>
        ensures { result ≡ slice_index_or self.now.epochs index None }
    {
        let epochs = &self.epochs[..];
        *epochs.get(index)?
    }
}

/// The common part of these timelines that begins at tick `at`. It ends with `last`, or before the next tick
/// at which an epoch of one of them begins or a leg of a dynamic attribute of one ends. The next part begins
/// at the tick past it. It takes no memory.
///
/// Where each timeline has an epoch in force, fewer of their pieces are left past the part than from `at` on.
/// So there are at most as many such parts as pieces.
pub fn common_from<'a>(timelines: &[&'a Timeline], at: u32, last: u32) -> Common<'a>
    requires few { AreFewTimelines timelines.now }
    requires order { at ≤ last }
    requires tick { IsTick last }
    ensures part { IsCommon (epochs_of_each timelines.now) at last result.span }
    ensures epochs { (k t : ℕ) → result.span.lo ≤ t → t ≤ result.span.hi
        → epoch_at (slice_index_or (epochs_of_each timelines.now) k []) t
        ≡ option_copied (slice_index_or result.epochs k None) }
    ensures steady { (k : ℕ) → IfSome (slice_index_or result.epochs k None)
        (λ epoch. AreSteadyCells epoch.now result.span.lo result.span.hi) }
    ensures fewer { 0 < length timelines.now → All (λ timeline. IsSome (epoch_at timeline.now at)) timelines.now
        → pieces_of_all (epochs_of_each timelines.now) (result.span.hi + 1) last
        < pieces_of_all (epochs_of_each timelines.now) at last }
    ensures not_more { pieces_of_all (epochs_of_each timelines.now) (result.span.hi + 1) last
        ≤ pieces_of_all (epochs_of_each timelines.now) at last }
{
    let mut begun = begun_by(timelines, at);
    common_for(timelines, &[], &mut begun, at, last)
}

/// How many epochs of each of these timelines begin by tick `at`, in their order.
pub fn begun_by(timelines: &[&Timeline], at: u32) -> [usize; MOST_TIMELINES]
    requires { AreFewTimelines timelines.now }
    ensures { AreBegun (epochs_of_each timelines.now) at result }
{
    let mut begun = [0; MOST_TIMELINES];
    for k in 0..timelines.len() {
        begun[k] = timelines[k].begun_by(at);
    }
    begun
}

/// The common part of these timelines that begins at tick `at`, for what is asked of each: it ends with `last`, or
/// before the next tick at which an epoch of one of them begins or a leg of an attribute ends that is asked of it. What
/// is asked stands in the order of the timelines, and all is asked of those past its end.
///
/// As many epochs of each as `begun` says begin by `at`, so none is searched for; it is moved on to the tick past the
/// part, at which the next one begins. It takes no memory.
///
/// Where each timeline has an epoch in force, fewer of their pieces are left past the part than from `at` on.
pub fn common_for<'a>(
    timelines: &[&'a Timeline],
    asked: &[Asked],
    begun: &mut [usize; MOST_TIMELINES],
    at: u32,
    last: u32,
) -> Common<'a>
    requires few { AreFewTimelines timelines.now }
    requires begun { AreBegun (epochs_of_each timelines.now) at begun.old }
    requires order { at ≤ last }
    requires tick { IsTick last }
    ensures part { IsCommonFor (asked_each asked.now (epochs_of_each timelines.now)) at last result.span }
    ensures begun { AreBegun (epochs_of_each timelines.now) (result.span.hi + 1) begun.new }
    ensures epochs { (k t : ℕ) → result.span.lo ≤ t → t ≤ result.span.hi
        → epoch_at (slice_index_or (epochs_of_each timelines.now) k []) t
        ≡ option_copied (slice_index_or result.epochs k None) }
    ensures steady { (k : ℕ) → IfSome (slice_index_or result.epochs k None)
        (λ epoch. AreSteadyFor (asked_at asked.now k) epoch.now result.span.lo result.span.hi) }
    ensures fewer { 0 < length timelines.now → All (λ timeline. IsSome (epoch_at timeline.now at)) timelines.now
        → pieces_for (asked_each asked.now (epochs_of_each timelines.now)) (result.span.hi + 1) last
        < pieces_for (asked_each asked.now (epochs_of_each timelines.now)) at last }
    ensures not_more { pieces_for (asked_each asked.now (epochs_of_each timelines.now)) (result.span.hi + 1) last
        ≤ pieces_for (asked_each asked.now (epochs_of_each timelines.now)) at last }
{
    let mut end = last;
    let mut epochs = [None; MOST_TIMELINES];
    for k in 0..timelines.len() {
        let part = part_for(timelines[k], asked_at(asked, k), begun[k], at, end);
        end = part.end;
        epochs[k] = part.epoch;
    }
    move_on(timelines, begun, end);
    Common {
        span: Span { lo: at, hi: end },
        epochs,
    }
}

// What is asked of the timeline of an index.
fn asked_at<'a>(asked: &[Asked<'a>], k: usize) -> Asked<'a>
    ensures { result ≡ asked_at asked.now k }
{
    asked.get(k).copied().unwrap_or(Asked::All)
}

// As many epochs of each timeline begin by tick `end`; `begun` is moved on to the tick past it.
fn move_on(timelines: &[&Timeline], begun: &mut [usize; MOST_TIMELINES], end: u32)
    requires few { AreFewTimelines timelines.now }
    requires begun { AreBegun (epochs_of_each timelines.now) end begun.old }
    requires tick { IsTick end }
    ensures { AreBegun (epochs_of_each timelines.now) (end + 1) begun.new }
{
    for k in 0..timelines.len() {
        begun[k] = timelines[k].begun_next(begun[k], end);
    }
}

// What one timeline has from a tick on, up to the tick `end`.
#[derive(Clone, Copy)]
struct Part<'a> {
    end: u32,
    epoch: Option<&'a Epoch>,
}

// The part of a timeline that begins at tick `at` and ends by `last`, for what is asked of it. As many epochs as `count`
// begin by `at`, and no more by the part's end.
fn part_for<'a>(timeline: &'a Timeline, asked: Asked, count: usize, at: u32, last: u32) -> Part<'a>
    requires begun { AreBegunUpTo timeline.now at count }
    requires order { at ≤ last }
    requires tick { IsTick last }
    ensures part { IsTimelinePart asked.entry timeline.now at last result.end }
    ensures epoch { option_copied result.epoch ≡ epoch_at timeline.now at }
    ensures begun { AreBegunUpTo timeline.now result.end count }
{
    match timeline.piece_for(asked, count, at, last) {
        Some(piece) => Part {
            end: piece.span.hi,
            epoch: timeline.epoch(piece.epoch),
        },
        None => Part {
            end: end_before_first(asked, timeline, at, last),
            epoch: None,
        },
    }
}

// The last tick before the first epoch, which begins past `at`, but at most `last`.
fn end_before_first(asked: Asked, timeline: &Timeline, at: u32, last: u32) -> u32
    requires rising { IsRising timeline.now }
    requires before { epoch_at timeline.now at ≡ None }
    requires order { at ≤ last }
    ensures part { IsTimelinePart asked.entry timeline.now at last result }
    ensures begun { AreBegunUpTo timeline.now result 0 }
{
    match timeline.epoch(0) {
        Some(first) => last.min(first.from() - 1),
        None => last,
    }
}
