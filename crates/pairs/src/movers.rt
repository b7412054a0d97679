//! Objects, with the ways that they go along lines.
ghost use Rattle.std.specs.Prelude.{◌≡◌, ◌+◌, ◌-◌, ◌<◌, ◌≤◌, ℕ, true, pos, ◌≤ℤ◌, ◌<ℤ◌, All, IfOk, IsTrue, length, map};
ghost use Rattle.geometry.specs.Plane.{square};
ghost use Rattle.linear_crossing.specs.Moving.{IsInReach, distance_after};
ghost use Rattle.pairs.specs.Pairs.{AreApart, IsMover};
ghost use Rattle.pairs.specs.Reach.{IsReachedAt};
ghost use Rattle.object_store.specs.Contents.{IsObjectId};
ghost use Rattle.steps.specs.Counting.{StepsAtMost};

use crate::leading::leads_past;
use crate::reach::Reach;
use courses::straight_line;
use fixed_point::Fix;
use linear_crossing::Line;
use object_store::{ObjectId, Store};
use std::alloc::{AllocError, Global};
use std::sync::ledger::Ledger;
use steps::Steps;
use tick_set::Window;

/// A motion along a line throughout a window, and how far it reaches along each axis.
#[derive(Clone, Copy)]
pub struct Way {
    pub line: Line,
    pub x: Reach,
    pub y: Reach,
}

/// An object, and its way throughout a window, where it goes along a line. None tells nothing.
#[derive(Clone, Copy)]
pub struct Mover {
    pub id: ObjectId,
    pub way: Option<Way>,
}

/// Each of some objects with its way. It takes one step for each.
pub(crate) fn movers_of<L: Ledger>(
    alloc: Global,
    ids: &[u32],
    store: &Store,
    w: Window,
    reads: &mut Steps<L>,
) -> Result<Vec<Mover>, AllocError>
    requires { All (λ id. id < length store.now.objects) ids.now }
    ensures ids { IfOk result (λ movers. map (λ m. m.id) movers.items ≡ ids.now) }
    ensures movers { IfOk result (λ movers. All (IsMover store.now w.lo w.hi) movers.items) }
    ensures reads { StepsAtMost reads.old reads.new (length ids.now) }
{
    let mut movers = Vec::with_capacity(alloc, ids.len())?;
    'ids: for id in ids {
        let mover = mover_of(*id, store, w, reads);
        movers.push(mover)?;
    }
    Ok(movers)
}

/// An object with its way. It takes one step.
#[inline]
pub(crate) fn mover_of<L: Ledger>(
    id: ObjectId,
    store: &Store,
    w: Window,
    reads: &mut Steps<L>,
) -> Mover
    requires { IsObjectId store.now id }
    ensures id { result.id ≡ id }
    ensures mover { IsMover store.now w.lo w.hi result }
    ensures step { reads.new ≡ reads.old + 1 }
{
    let timeline = store.timeline(id, reads);
    match straight_line(timeline, w.span()) {
        Some(line) => Mover {
            id,
            way: Some(way_of(&line, w.hi - w.lo)),
        },
        None => Mover { id, way: None },
    }
}

// The way along a line, up to so many ticks after the window's first.
#[inline]
fn way_of(line: &Line, ticks: u32) -> Way
    requires { IsInReach line.now }
    ensures line { result.line ≡ line.now }
    ensures within { (k : ℕ) → k ≤ ticks → IsReachedAt result k }
{
    let end = line.position(ticks);
    Way {
        line: *line,
        x: Reach::between(line.at.x, end.x),
        y: Reach::between(line.at.y, end.y),
    }
}

/// Whether two objects are told to keep further from each other than so far.
#[inline]
pub(crate) fn are_apart(one: &Mover, other: &Mover, most: Fix) -> bool
    ensures { IsTrue result → AreApart most one.now other.now }
{
    match &one.way {
        Some(first) => match &other.way {
            Some(second) => keep_apart(first, second, most),
            None => false,
        },
        None => false,
    }
}

// Whether two ways keep further apart than so far: on one axis, or as one leads past the other.
#[inline]
fn keep_apart(first: &Way, second: &Way, most: Fix) -> bool
    ensures { result ≡ true → pos 0 ≤ℤ most → (k : ℕ) → IsReachedAt first.now k → IsReachedAt second.now k
        → square most <ℤ distance_after first.now.line second.now.line k }
{
    if first.x.is_past(&second.x, most) {
        return true;
    }
    if first.y.is_past(&second.y, most) {
        return true;
    }
    leads_past(&first.line, &second.line, most)
}
