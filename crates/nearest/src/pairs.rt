//! The stretches of ticks at which the objects of a class stand before one of them.
ghost use Rattle.std.specs.Prelude.{◌≡◌, ◌+◌, ◌-◌, ◌^◌, ◌<◌, ◌&&◌, ℕ, true, nat_lt, List, [], All, IfOk, IfSome, OnOk, option_to_list};
ghost use Rattle.linear_crossing.specs.Zones.{spans_of};
ghost use Rattle.motion.specs.Timeline.{Epoch};
ghost use Rattle.tick_set.specs.Ticks.{within};
ghost use Rattle.tick_set.specs.declared.spans.Window.{Window};
ghost use Rattle.nearest.specs.Courses.{goes_before, rank_along};
ghost use Rattle.nearest.specs.Depth.{depth_at, one_if};
ghost use Rattle.nearest.specs.Sights.{AreFewWithin, IsSeenFrom};

use crate::aim::Aim;
use crate::band::order_by_bounds;
use crate::certain::stays_within;
use crate::course::Course;
use crate::nearer::nearer;
use crate::parts::before_in;
use crate::rivals::Rivals;
use crate::sight::Sight;
use courses::common_from;
use linear_crossing::Pair;
use motion::Timeline;
use std::alloc::AllocError;
use tick_set::{Span, Window};

/// Adds stretches of the window at which some of the rivals stand before another object, and tells how many others do so
/// throughout. Where these are `k`, some may be left out. All are where fewer than `k` do so at any tick, as it never
/// passes the square within which fewer than `k` may come.
pub fn gather(
    stretches: &mut Vec<Span>,
    rivals: &Rivals,
    o: &Course,
    aim: &Aim,
    w: Window,
) -> Result<u32, AllocError>
    requires seen { All (IsSeenFrom aim.now.target.now w) rivals.now.courses.now }
    requires o_seen { IsSeenFrom aim.now.target.now w o.now }
    requires none { stretches.old.items ≡ [] }
    requires sure { AreFewWithin aim.now.k rivals.now.sure rivals.now.courses.now }
    ensures { IfOk result (λ throughout. (t : ℕ) → within w.lo w.hi t ≡ true
        → nat_lt (depth_at stretches.new.items t) (aim.now.k - throughout)
        ≡ nat_lt (rank_along aim.now.target.now rivals.now.courses.now o.now t) aim.now.k) }
{
    if stays_within(&o.sight, rivals.sure) {
        return Ok(0);
    }
    let mut throughout = 0;
    'courses: for p in rivals.courses {
        if throughout == aim.k {
            return Ok(throughout);
        }
        let before = add_unless_known(stretches, p, o, aim.target, w)?;
        throughout = with_one(throughout, before);
    }
    Ok(throughout)
}

// The count with one more, if there is one.
#[inline]
fn with_one(count: u32, more: bool) -> u32
    requires { count + 1 < 2 ^ 32 }
    ensures { result ≡ count + one_if more }
{
    if more { count + 1 } else { count }
}

// Tells whether one object stands before another throughout, or adds the stretches at which it does.
#[inline]
fn add_unless_known(
    stretches: &mut Vec<Span>,
    p: &Course,
    o: &Course,
    target: &Timeline,
    w: Window,
) -> Result<bool, AllocError>
    requires p_seen { IsSeenFrom target.now w p.now }
    requires o_seen { IsSeenFrom target.now w o.now }
    ensures { IfOk result (λ throughout. (t : ℕ) → within w.lo w.hi t ≡ true → one_if throughout + depth_at stretches.new.items t
        ≡ depth_at stretches.old.items t + one_if (goes_before target.now p.now o.now t)) }
{
    if let Some(before) = known_order(p, o) {
        return Ok(before);
    }
    add_before(stretches, p, o, target, w)?;
    Ok(false)
}

// Whether one object stands before another throughout, or never, as far as bounds of their squares tell.
#[inline]
fn known_order(p: &Course, o: &Course) -> Option<bool>
    ensures { IfSome result (λ before. (from : List Epoch) (w : Window) → IsSeenFrom from w p.now → IsSeenFrom from w o.now
        → (t : ℕ) → within w.lo w.hi t ≡ true → goes_before from p.now o.now t ≡ before) }
{
    if let Sight::Straight(first) = &p.sight {
        if let Sight::Straight(second) = &o.sight {
            return order_by_bounds(first, second, p.id < o.id);
        }
    }
    None
}

// Adds the stretches at which one object stands before another.
fn add_before(
    stretches: &mut Vec<Span>,
    p: &Course,
    o: &Course,
    target: &Timeline,
    w: Window,
) -> Result<(), AllocError>
    requires p_seen { IsSeenFrom target.now w p.now }
    requires o_seen { IsSeenFrom target.now w o.now }
    ensures { OnOk result ((t : ℕ) → depth_at stretches.new.items t ≡ depth_at stretches.old.items t
        + one_if (within w.lo w.hi t && goes_before target.now p.now o.now t)) }
{
    if let Sight::Straight(first) = &p.sight {
        if let Sight::Straight(second) = &o.sight {
            let found = nearer(&first.separation, &second.separation, p.id < o.id, w);
            return add(stretches, &found);
        }
    }
    add_by_parts(stretches, p, o, target, w)
}

// The same, by the common parts of the timelines.
fn add_by_parts(
    stretches: &mut Vec<Span>,
    p: &Course,
    o: &Course,
    target: &Timeline,
    w: Window,
) -> Result<(), AllocError>
    ensures { OnOk result ((t : ℕ) → depth_at stretches.new.items t ≡ depth_at stretches.old.items t
        + one_if (within w.lo w.hi t && goes_before target.now p.now o.now t)) }
{
    let timelines = [target, p.timeline, o.timeline];
    let mut at = w.lo;
    'joining: while at <= w.hi {
        let common = common_from(&timelines, at, w.hi);
        add(stretches, &before_in(&common, p.id, o.id))?;
        at = common.span.hi + 1;
    }
    Ok(())
}

// Adds up to two stretches.
fn add(stretches: &mut Vec<Span>, found: &Pair) -> Result<(), AllocError>
    ensures { OnOk result ((t : ℕ) → depth_at stretches.new.items t
        ≡ depth_at stretches.old.items t + depth_at (spans_of found.now) t) }
{
    add_run(stretches, found.first)?;
    add_run(stretches, found.second)
}

fn add_run(stretches: &mut Vec<Span>, run: Option<Span>) -> Result<(), AllocError>
    ensures { OnOk result ((t : ℕ) → depth_at stretches.new.items t
        ≡ depth_at stretches.old.items t + depth_at (option_to_list run) t) }
{
    if let Some(span) = run {
        stretches.push(span)?;
    }
    Ok(())
}
