//! Objects that keep apart throughout the window, as those of most pairs do: their least and greatest coordinates tell it,
//! with no look at each leg of theirs.
ghost use Rattle.std.specs.Prelude.{◌≡◌, ℕ, ◌≤◌, pos, ◌-ℤ◌, ◌≤ℤ◌, ◌<ℤ◌, int_lt, ◌&&◌, Some, IfSome, IsTrue};
ghost use Rattle.std.specs.Option.{option_copied};
ghost use Rattle.courses.specs.Parts.{epochs_of_each};
ghost use Rattle.courses.specs.Places.{dynamic_at, place_of};
ghost use Rattle.geometry.specs.Plane.{square, squared_distance};
ghost use Rattle.meaning.specs.Atom.{distance_holds, position_in};
ghost use Rattle.motion.specs.Dynamic.{value_at};
ghost use Rattle.tick_set.specs.Ticks.{within};
ghost use Rattle.atoms.specs.Found.{AreRunsWhere};
ghost use Rattle.atoms.specs.Parts.{trace_by};
ghost use Rattle.atoms.specs.Routes.{IsPast, IsUpdated, place_along};

use crate::attributes::epoch_throughout;
use crate::found::all_or_none;
use crate::lines::timeline_of;
use crate::parts::Traces;
use case_table::Op;
use distance_crossing::Triple;
use fixed_point::Fix;
use geometry::apart;
use motion::{Cell, Epoch, Vector};
use tick_set::Window;

/// The coordinates by which an object moves throughout the window.
#[derive(Clone, Copy)]
pub struct Route<'a> {
    pub x: &'a Vector,
    pub y: &'a Vector,
}

/// The route of the object of a variable. None tells nothing.
pub fn route_of<'a>(v: u8, traces: &Traces<'a>) -> Option<Route<'a>>
    ensures places { IfSome result (λ route. (t : ℕ) → traces.now.w.lo ≤ t → t ≤ traces.now.w.hi
        → position_in t (trace_by traces.now.variables.now (epochs_of_each traces.now.timelines.now) v t) ≡ Some (place_along route t)) }
    ensures written { IfSome result (λ route. IsUpdated route traces.now.w.lo) }
{
    let timeline = timeline_of(v, traces.variables, traces.timelines)?;
    let epoch = epoch_throughout(timeline, traces.w)?;
    route_in(epoch)
}

// The route of the object of an epoch.
#[tactic(auto, using(crate::proofs::RouteLemmas::place_on))]
fn route_in(epoch: &Epoch) -> Option<Route>
    ensures places { IfSome result (λ route. (t : ℕ) → place_of epoch.now t ≡ Some (place_along route t)) }
    ensures written { IfSome result (λ route. IsUpdated route epoch.now.from) }
{
    let x = vector(epoch, 0)?;
    let y = vector(epoch, 1)?;
    Some(Route { x, y })
}

// The dynamic attribute of an index.
fn vector(epoch: &Epoch, index: usize) -> Option<&Vector>
    ensures value { option_copied result ≡ dynamic_at epoch.now index }
    ensures written { IfSome result (λ v. v.now.updatetime ≤ epoch.now.from) }
{
    match epoch.cell(index)? {
        Cell::Dyn(vector) => Some(vector),
        _ => None,
    }
}

/// The ticks of the window at which the distance of two objects compares so with a number of thousandths, where they keep
/// further apart than that on one axis: all of them or none. None tells nothing.
pub fn ticks_apart(first: &Route, second: &Route, op: Op, c: Fix, w: Window) -> Option<Triple>
    requires first { IsUpdated first.now w.lo }
    requires second { IsUpdated second.now w.lo }
    ensures { IfSome result (AreRunsWhere (λ t. within w.lo w.hi t
        && distance_holds op c (Some (place_along first.now t)) (Some (place_along second.now t)))) }
{
    if keep_apart(first, second, c, w) {
        Some(all_or_none(op.holds(1), w.span()))
    } else {
        None
    }
}

// Whether they keep further apart than `c` on one axis.
fn keep_apart(first: &Route, second: &Route, c: Fix, w: Window) -> bool
    requires first { IsUpdated first.now w.lo }
    requires second { IsUpdated second.now w.lo }
    ensures { IsTrue result → (t : ℕ) → w.lo ≤ t → t ≤ w.hi → pos 0 ≤ℤ c
        → square c <ℤ squared_distance (place_along first.now t) (place_along second.now t) }
{
    if keep_past(first.x, second.x, c, w) {
        return true;
    }
    keep_past(first.y, second.y, c, w)
}

// Whether one coordinate keeps past another by more than `c`, on one side.
fn keep_past(from: &Vector, to: &Vector, c: Fix, w: Window) -> bool
    requires from_written { from.now.updatetime ≤ w.lo }
    requires to_written { to.now.updatetime ≤ w.lo }
    ensures { IsTrue result → (t : ℕ) → w.lo ≤ t → t ≤ w.hi → IsPast c (value_at to.now t -ℤ value_at from.now t) }
{
    let (least, greatest) = from.range(w.lo, w.hi);
    let (to_least, to_greatest) = to.range(w.lo, w.hi);
    if is_past(apart(to_least, greatest), c) {
        return true;
    }
    is_past(apart(least, to_greatest), c)
}

fn is_past(gap: i64, c: Fix) -> bool
    ensures { result ≡ int_lt c gap }
{
    c.raw() < gap
}
