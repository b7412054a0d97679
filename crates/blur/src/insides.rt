//! The ticks at which an object that may be off is in a region, or isn't.
ghost use Rattle.std.specs.Prelude.{◌-◌, ◌&&◌, ℕ, not, OnOk, option_to_list};
ghost use Rattle.linear_crossing.specs.Moving.{position_after};
ghost use Rattle.tick_set.specs.Runs.{IsRuns};
ghost use Rattle.tick_set.specs.Ticks.{within};
ghost use Rattle.worlds.specs.Blurred.{is_in_region_by};
ghost use Rattle.blur.specs.Added.{Adds, EndBefore};
ghost use Rattle.blur.specs.Asked.{inside_by};

use crate::question::Blur;
use crate::runs::add_others;
use linear_crossing::Line;
use polygon::{Polygon, Regions, corners_stand_together};
use std::alloc::AllocError;
use tick_set::{Runs, Span, Window};

/// Adds the ticks of the window at which a moving point is in the region of a number, surely or possibly; none where there
/// is no such region. The line is by the ticks since the window's first.
pub fn add_inside(
    runs: &mut Runs,
    line: &Line,
    n: u32,
    blur: Blur,
    regions: &Regions,
    w: Window,
) -> Result<(), AllocError>
    requires { EndBefore w.lo runs.old }
    ensures { OnOk result (Adds (λ t. within w.lo w.hi t
        && is_in_region_by (inside_by blur.sure blur.error) regions.now n (position_after line.now (t - w.lo))) runs.old runs.new) }
{
    runs.append(inside_run(line, n, blur, regions, w))
}

/// Adds those at which it surely isn't there, or possibly isn't: all where there is no such region.
pub fn add_outside(
    runs: &mut Runs,
    line: &Line,
    n: u32,
    blur: Blur,
    regions: &Regions,
    w: Window,
) -> Result<(), AllocError>
    requires { EndBefore w.lo runs.old }
    ensures { OnOk result (Adds (λ t. within w.lo w.hi t
        && not (is_in_region_by (inside_by (not blur.sure) blur.error) regions.now n (position_after line.now (t - w.lo))))
        runs.old runs.new) }
{
    let inside = inside_run(line, n, blur.turned(), regions, w);
    add_others(runs, w.span(), inside, None)
}

// The ticks of the window at which a moving point is in the region of a number.
fn inside_run(line: &Line, n: u32, blur: Blur, regions: &Regions, w: Window) -> Option<Span>
    ensures { IsRuns (λ t. within w.lo w.hi t
        && is_in_region_by (inside_by blur.sure blur.error) regions.now n (position_after line.now (t - w.lo)))
        (option_to_list result) }
{
    run_in(regions.get(n)?, line, blur, w)
}

// Those at which it is in a polygon.
fn run_in(polygon: &Polygon, line: &Line, blur: Blur, w: Window) -> Option<Span>
    ensures { IsRuns (λ t. within w.lo w.hi t
        && inside_by blur.sure blur.error polygon.now (position_after line.now (t - w.lo))) (option_to_list result) }
{
    corners_stand_together();
    polygon.inside_ticks_by(line, &blur.margin(), w)
}
