//! The ticks at which up to four motions fit a circle.
ghost use Rattle.std.specs.Prelude.{◌≡◌, ℕ, ◌-◌, ◌*◌, ◌<◌, ◌≤◌, ◌&&◌, pos, ◌*ℤ◌, true, length, option_to_list, All, IfOk};
ghost use Rattle.geometry.specs.Circle.{IsRadius, three_fit};
ghost use Rattle.linear_crossing.specs.Moving.{position_after, IsInReach};
ghost use Rattle.tick_set.specs.Ticks.{within};
ghost use Rattle.tick_set.specs.Runs.{IsRuns, spans_have};
ghost use Rattle.tick_set.specs.Windows.{IsQueryWindow};
ghost use Rattle.distance_crossing.specs.Far.{pass_by};
ghost use Rattle.distance_crossing.specs.NearTicks.{AreLinesInReach, all_near, are_near, are_together, pairs_near};
ghost use Rattle.distance_crossing.specs.Close.{ArePositionsClose};
ghost use Rattle.steps.specs.Counting.{StepsAtMost};

use crate::circle::squared_width;
use crate::far::pass_by;
use crate::near::within;
use crate::search::fitting;
use crate::trial::Trial;
use fixed_point::Fix;
use interval_set::IntervalSet;
use linear_crossing::{Line, Quad};
use std::alloc::{AllocError, Global};
use std::sync::ledger::Ledger;
use steps::Steps;
use tick_set::{Span, TickSet, Window};

/// The ticks of the window at which the positions of up to four motions fit a circle of radius `r`, from 0 to
/// 10^6 thousandths, as a set. Each motion begins within [`linear_crossing::COORDINATE_LIMIT`] of 0. It fails
/// only where memory is out.
pub fn sphere_ticks<M: Ledger>(
    alloc: Global,
    r: Fix,
    lines: &[Line],
    w: Window,
    probes: &mut Steps<M>,
) -> Result<IntervalSet, AllocError>
    requires radius { IsRadius r }
    requires lines { AreLinesInReach lines.now }
    requires length { IsQueryWindow w }
    ensures ticks { IfOk result (λ s. (t : ℕ) → spans_have s t ≡ are_together r lines.now w t) }
    ensures cost { StepsAtMost probes.old probes.new 360 }
{
    match together(r, lines, w, probes) {
        Some(span) => IntervalSet::of_span(alloc, span),
        None => Ok(IntervalSet::empty(alloc)),
    }
}

/// The same ticks as one span; None exactly where there is none. The least circle round points that move along
/// lines first shrinks and then grows, so no tick is missing between two.
///
/// It takes no memory, and walks no window: it ends at the first pair that is never near, and bisects.
pub fn together<M: Ledger>(r: Fix, lines: &[Line], w: Window, probes: &mut Steps<M>) -> Option<Span>
    requires radius { IsRadius r }
    requires lines { AreLinesInReach lines.now }
    requires length { IsQueryWindow w }
    ensures runs { IsRuns (are_together r lines.now w) (option_to_list result) }
    ensures cost { StepsAtMost probes.old probes.new 360 }
{
    let near = near_pairs(r, lines, w, probes)?;
    match lines {
        [p, q, s] => three_together(r, p, q, s, w, near),
        [p, q, s, u] => {
            let span = three_together(r, p, q, s, w, near)?;
            let span = three_together(r, p, q, u, w, span)?;
            let span = three_together(r, p, s, u, w, span)?;
            three_together(r, q, s, u, w, span)
        }
        _ => Some(near),
    }
}

// The ticks of the span at which the positions of three motions fit, where each two are near throughout.
fn three_together(r: Fix, p: &Line, q: &Line, s: &Line, w: Window, span: Span) -> Option<Span>
    requires radius { IsRadius r }
    requires p_in_reach { IsInReach p.now }
    requires q_in_reach { IsInReach q.now }
    requires s_in_reach { IsInReach s.now }
    requires from { w.lo ≤ span.lo }
    requires close { (t : ℕ) → within span.lo span.hi t ≡ true → ArePositionsClose r p.now q.now s.now (t - w.lo) }
    ensures { IsRuns (λ t. within span.lo span.hi t
        && three_fit r (position_after p.now (t - w.lo)) (position_after q.now (t - w.lo)) (position_after s.now (t - w.lo)))
        (option_to_list result) }
{
    let trial = Trial {
        p: *p,
        q: *q,
        s: *s,
        r,
    };
    fitting(&trial, w, span)
}

// The ticks of the window at which each two motions are within the diameter of each other.
fn near_pairs<M: Ledger>(r: Fix, lines: &[Line], w: Window, probes: &mut Steps<M>) -> Option<Span>
    requires radius { IsRadius r }
    requires lines { AreLinesInReach lines.now }
    requires length { IsQueryWindow w }
    ensures runs { IsRuns (λ t. within w.lo w.hi t && pairs_near r lines.now (t - w.lo)) (option_to_list result) }
    ensures cost { StepsAtMost probes.old probes.new 360 }
{
    let mut span = w.span();
    let mut rest = lines;
    while let Some((p, later)) = rest.split_first() {
        let near = all_near(r, p, later, w, probes)?;
        span = span.meet(near)?;
        rest = later;
    }
    Some(span)
}

// The ticks of the window at which each of the other motions is within the diameter of the first one.
fn all_near<M: Ledger>(
    r: Fix,
    p: &Line,
    others: &[Line],
    w: Window,
    probes: &mut Steps<M>,
) -> Option<Span>
    requires radius { IsRadius r }
    requires p_in_reach { IsInReach p.now }
    requires others_in_reach { All IsInReach others.now }
    requires length { IsQueryWindow w }
    ensures runs { IsRuns (λ t. within w.lo w.hi t && all_near r p.now others.now (t - w.lo)) (option_to_list result) }
    ensures cost { StepsAtMost probes.old probes.new (60 * length others.now) }
{
    let mut span = w.span();
    let mut rest = others;
    while let Some((q, later)) = rest.split_first() {
        let near = near_run(r, p, q, w, probes)?;
        span = span.meet(near)?;
        rest = later;
    }
    Some(span)
}

// The ticks of the window at which two motions are within the diameter of each other.
fn near_run<M: Ledger>(r: Fix, p: &Line, q: &Line, w: Window, probes: &mut Steps<M>) -> Option<Span>
    requires radius { IsRadius r }
    requires p_in_reach { IsInReach p.now }
    requires q_in_reach { IsInReach q.now }
    requires length { IsQueryWindow w }
    ensures runs { IsRuns (are_near r p.now q.now w) (option_to_list result) }
    ensures cost { StepsAtMost probes.old probes.new 60 }
    ensures far { pass_by (pos 2 *ℤ r) p.now q.now (w.hi - w.lo) ≡ true → probes.new ≡ probes.old }
{
    if pass_by(p, q, diameter(r), w.hi - w.lo) {
        return None;
    }
    within(&Quad::between(p, q), squared_width(r), w, probes)
}

fn diameter(r: Fix) -> Fix
    requires { IsRadius r }
    ensures { result ≡ pos 2 *ℤ r }
{
    Fix::of(2 * r.raw()).unwrap()
}
