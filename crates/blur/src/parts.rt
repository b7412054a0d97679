//! The ticks of a window at which objects that may be off are in a region, or so far apart, part by part of their
//! timelines.
ghost use Rattle.std.specs.Prelude.{◌≡◌, ◌-◌, ◌≤◌, ◌&&◌, ℕ, false, Some, option_map, IfOk, IfSome, OnOk};
ghost use Rattle.std.specs.Option.{option_map_or};
ghost use Rattle.courses.specs.Places.{place_at};
ghost use Rattle.courses.specs.CommonParts.{IsSteadyPart, place_in};
ghost use Rattle.linear_crossing.specs.Moving.{IsInReach, position_after};
ghost use Rattle.tick_set.specs.Runs.{IsRuns};
ghost use Rattle.tick_set.specs.Ticks.{within};
ghost use Rattle.worlds.specs.Blurred.{distance_holds_by};
ghost use Rattle.blur.specs.Added.{Adds, EndBefore};
ghost use Rattle.blur.specs.Asked.{comparison, is_on_side};
ghost use Rattle.blur.specs.Parts.{MovesAlong};

use crate::distances::add_apart;
use crate::insides::{add_inside, add_outside};
use crate::question::{Blur, Comparison, Side};
use courses::{Common, common_from, line_from, straight_line};
use linear_crossing::Line;
use motion::Timeline;
use polygon::Regions;
use std::alloc::{AllocError, Global};
use tick_set::{Runs, Span, Window};

/// The runs of the ticks of the window at which the object of a timeline is in the region of a number, or has a place that
/// isn't in it, surely or possibly.
pub fn region_runs(
    alloc: Global,
    timeline: &Timeline,
    side: Side,
    blur: Blur,
    regions: &Regions,
    w: Window,
) -> Result<Vec<Span>, AllocError>
    ensures { IfOk result (λ runs. IsRuns (λ t. within w.lo w.hi t
        && option_map_or (is_on_side side.inside blur.sure blur.error regions.now side.n) (place_at timeline.now t) false) runs.items) }
{
    let timelines = [timeline];
    let mut runs = Runs::new(alloc);
    let mut at = w.lo;
    'joining: while at <= w.hi {
        let common = common_from(&timelines, at, w.hi);
        add_region_part(&mut runs, &common, side, blur, regions)?;
        at = common.span.hi + 1;
    }
    Ok(runs.finish())
}

/// The runs of the ticks of the window at which the objects of two timelines, which are different objects, have places whose
/// distance compares so with a number of thousandths, surely or possibly.
pub fn distance_runs(
    alloc: Global,
    from: &Timeline,
    to: &Timeline,
    compared: &Comparison,
    blur: Blur,
    w: Window,
) -> Result<Vec<Span>, AllocError>
    ensures { IfOk result (λ runs. IsRuns (λ t. within w.lo w.hi t
        && distance_holds_by (comparison blur.sure) blur.error compared.now.op compared.now.c (place_at from.now t) (place_at to.now t)) runs.items) }
{
    match straight_lines(from, to, w.span()) {
        Some((first, second)) => runs_along(alloc, &first, &second, compared, blur, w),
        None => runs_by_parts(alloc, from, to, compared, blur, w),
    }
}

// The lines along which both objects move throughout the span, as most do. None tells nothing.
fn straight_lines(from: &Timeline, to: &Timeline, span: Span) -> Option<(Line, Line)>
    ensures reach { IfSome result (λ lines. IsInReach lines.0 × IsInReach lines.1) }
    ensures first { IfSome result (λ lines. MovesAlong from.now span lines.0) }
    ensures second { IfSome result (λ lines. MovesAlong to.now span lines.1) }
{
    let first = straight_line(from, span)?;
    let second = straight_line(to, span)?;
    Some((first, second))
}

// The runs of these ticks, where the objects move along lines by the ticks since the window's first.
fn runs_along(
    alloc: Global,
    from: &Line,
    to: &Line,
    compared: &Comparison,
    blur: Blur,
    w: Window,
) -> Result<Vec<Span>, AllocError>
    requires from_in_reach { IsInReach from.now }
    requires to_in_reach { IsInReach to.now }
    ensures { IfOk result (λ runs. IsRuns (λ t. within w.lo w.hi t
        && distance_holds_by (comparison blur.sure) blur.error compared.now.op compared.now.c
        (Some (position_after from.now (t - w.lo))) (Some (position_after to.now (t - w.lo)))) runs.items) }
{
    let mut runs = Runs::new(alloc);
    add_apart(&mut runs, from, to, compared, blur, w)?;
    Ok(runs.finish())
}

// The same, by the common parts of the timelines.
fn runs_by_parts(
    alloc: Global,
    from: &Timeline,
    to: &Timeline,
    compared: &Comparison,
    blur: Blur,
    w: Window,
) -> Result<Vec<Span>, AllocError>
    ensures { IfOk result (λ runs. IsRuns (λ t. within w.lo w.hi t
        && distance_holds_by (comparison blur.sure) blur.error compared.now.op compared.now.c (place_at from.now t) (place_at to.now t)) runs.items) }
{
    let timelines = [from, to];
    let mut runs = Runs::new(alloc);
    let mut at = w.lo;
    'joining: while at <= w.hi {
        let common = common_from(&timelines, at, w.hi);
        add_distance_part(&mut runs, &common, compared, blur)?;
        at = common.span.hi + 1;
    }
    Ok(runs.finish())
}

// Adds those of one part, in which the object of the first timeline moves along a line or has no place.
fn add_region_part(
    runs: &mut Runs,
    common: &Common,
    side: Side,
    blur: Blur,
    regions: &Regions,
) -> Result<(), AllocError>
    requires steady { IsSteadyPart common.now }
    requires before { EndBefore common.now.span.lo runs.old }
    ensures { OnOk result (Adds (λ t. within common.now.span.lo common.now.span.hi t
        && option_map_or (is_on_side side.inside blur.sure blur.error regions.now side.n) (place_in common.now 0 t) false)
        runs.old runs.new) }
{
    match line_in(common, 0) {
        Some(line) => add_side(runs, &line, side, blur, regions, common.span.window()),
        None => Ok(()),
    }
}

// Adds those of a window in which the object moves along a line.
fn add_side(
    runs: &mut Runs,
    line: &Line,
    side: Side,
    blur: Blur,
    regions: &Regions,
    w: Window,
) -> Result<(), AllocError>
    requires { EndBefore w.lo runs.old }
    ensures { OnOk result (Adds (λ t. within w.lo w.hi t
        && is_on_side side.inside blur.sure blur.error regions.now side.n (position_after line.now (t - w.lo))) runs.old runs.new) }
{
    if side.inside {
        add_inside(runs, line, side.n, blur, regions, w)
    } else {
        add_outside(runs, line, side.n, blur, regions, w)
    }
}

// Adds the ticks of one part, in which the objects of the first two timelines move along lines or have no place.
fn add_distance_part(
    runs: &mut Runs,
    common: &Common,
    compared: &Comparison,
    blur: Blur,
) -> Result<(), AllocError>
    requires steady { IsSteadyPart common.now }
    requires before { EndBefore common.now.span.lo runs.old }
    ensures { OnOk result (Adds (λ t. within common.now.span.lo common.now.span.hi t
        && distance_holds_by (comparison blur.sure) blur.error compared.now.op compared.now.c (place_in common.now 0 t) (place_in common.now 1 t))
        runs.old runs.new) }
{
    match line_in(common, 0) {
        Some(from) => match line_in(common, 1) {
            Some(to) => add_apart(runs, &from, &to, compared, blur, common.span.window()),
            None => Ok(()),
        },
        None => Ok(()),
    }
}

// The line along which the object of the timeline of an index moves in the part. None where it has no place.
fn line_in(common: &Common, index: usize) -> Option<Line>
    requires { IsSteadyPart common.now }
    ensures reach { IfSome result IsInReach }
    ensures places { (t : ℕ) → common.now.span.lo ≤ t → t ≤ common.now.span.hi
        → place_in common.now index t ≡ option_map (λ l. position_after l (t - common.now.span.lo)) result }
{
    line_from(common.epoch(index)?, common.span)
}
