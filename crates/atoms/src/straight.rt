//! The ticks at which an atom holds whose objects move along one line each throughout the window, as most do.
ghost use Rattle.std.specs.Prelude.{◌≡◌, ◌+◌, ◌-◌, ◌*◌, ◌≤◌, ◌&&◌, nat_le, if◌then◌else◌, IfNone, IfSome, IsTrue};
ghost use Rattle.courses.specs.Parts.{epochs_of_each, pieces_of_all};
ghost use Rattle.distance_crossing.specs.declared.near.TheConstants.{SHORT_WINDOW};
ghost use Rattle.fixed_point.specs.declared.number.TheConstants.{READ_LIMIT};
ghost use Rattle.formula.specs.Resolved.{is_within};
ghost use Rattle.meaning.specs.Atom.{atom_holds, distance_holds, position_in};
ghost use Rattle.tick_set.specs.Ticks.{within};
ghost use Rattle.tick_set.specs.Windows.{IsQueryWindow};
ghost use Rattle.atoms.specs.Found.{AreRunsWhere};
ghost use Rattle.atoms.specs.Parts.{trace_by};
ghost use Rattle.atoms.specs.Probes.{probe_limit};
ghost use Rattle.atoms.specs.Sizes.{is_sized};

use crate::comparisons::numbers_compared;
use crate::distances::apart;
use crate::found::{one_run, outside_of};
use crate::lines::line_of;
use crate::parts::Traces;
use crate::positions::inside_run;
use crate::routes::{route_of, ticks_apart};
use crate::straight_terms::straight_trend;
use case_table::Op;
use distance_crossing::Triple;
use fixed_point::Fix;
use formula::{Env, RAtom};
use polygon::Regions;
use std::sync::ledger::Ledger;
use steps::Steps;

/// The ticks of the window at which an atom holds, where these are the timelines of its variables, and each of its objects
/// moves along one line throughout. None tells nothing, and takes no probe.
#[inline(always)]
pub fn straight_ticks<M: Ledger>(
    a: &RAtom,
    env: &Env,
    regions: &Regions,
    traces: &Traces,
    probes: &mut Steps<M>,
) -> Option<Triple>
    requires sized { IsTrue (is_sized a.now) }
    requires length { IsQueryWindow traces.now.w }
    ensures runs { IfSome result (λ found. AreRunsWhere (λ t. within traces.now.w.lo traces.now.w.hi t
        && atom_holds regions.now (trace_by traces.now.variables.now (epochs_of_each traces.now.timelines.now)) a.now env.now t) found) }
    ensures cost { IfSome result (λ found. probes.new ≤ probes.old
        + probe_limit a.now (traces.now.w.hi - traces.now.w.lo) * pieces_of_all (epochs_of_each traces.now.timelines.now) traces.now.w.lo traces.now.w.hi) }
    ensures none { IfNone result (probes.new ≡ probes.old) }
{
    match a {
        RAtom::Inside(v, n) => {
            let line = line_of(*v, traces)?;
            Some(one_run(inside_run(&line, *n, traces.w.span(), regions)))
        }
        RAtom::Outside(v, n) => {
            let line = line_of(*v, traces)?;
            let inner = inside_run(&line, *n, traces.w.span(), regions);
            Some(outside_of(traces.w.span(), inner))
        }
        RAtom::Dist(from, to, op, c) => { straight_distance(*from, *to, *op, *c, traces, probes) }
        RAtom::Compare(left, op, right) => {
            let left = straight_trend(left, traces, env)?;
            let right = straight_trend(right, traces, env)?;
            Some(numbers_compared(left, *op, right, traces.w.span()))
        }
        RAtom::Sphere(_, _) => None,
    }
}

// The same of the distance of two objects. Where they aren't on one line each, it is told where they keep apart.
#[inline(always)]
fn straight_distance<M: Ledger>(
    from: u8,
    to: u8,
    op: Op,
    c: Fix,
    traces: &Traces,
    probes: &mut Steps<M>,
) -> Option<Triple>
    requires sized { IsTrue (is_within READ_LIMIT c) }
    requires length { IsQueryWindow traces.now.w }
    ensures runs { IfSome result (λ found. AreRunsWhere (λ t. within traces.now.w.lo traces.now.w.hi t && distance_holds op c
        (position_in t (trace_by traces.now.variables.now (epochs_of_each traces.now.timelines.now) from t))
        (position_in t (trace_by traces.now.variables.now (epochs_of_each traces.now.timelines.now) to t))) found) }
    ensures cost { IfSome result (λ found. probes.new ≤ probes.old
        + (if nat_le (traces.now.w.hi - traces.now.w.lo) SHORT_WINDOW then 47 else 63) * pieces_of_all (epochs_of_each traces.now.timelines.now) traces.now.w.lo traces.now.w.hi) }
    ensures none { IfNone result (probes.new ≡ probes.old) }
{
    if let Some(first) = line_of(from, traces) {
        if let Some(second) = line_of(to, traces) {
            return Some(apart(&first, &second, op, c, traces.w, probes));
        }
    }
    let first = route_of(from, traces)?;
    let second = route_of(to, traces)?;
    ticks_apart(&first, &second, op, c, traces.w)
}
