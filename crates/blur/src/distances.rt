//! The ticks at which the distance of two objects that may be off compares with a number.
ghost use Rattle.std.specs.Prelude.{◌≡◌, ◌-◌, ◌&&◌, ◌*ℤ◌, ◌^◌, ◌≤◌, ℕ, OnOk, option_to_list, unsigned_abs};
ghost use Rattle.convex.specs.Stretch.{is_low};
ghost use Rattle.fixed_point.specs.declared.number.TheConstants.{FIX_LIMIT};
ghost use Rattle.linear_crossing.specs.Moving.{IsInReach, position_after};
ghost use Rattle.tick_set.specs.Runs.{IsRuns, spans_have};
ghost use Rattle.tick_set.specs.Ticks.{within};
ghost use Rattle.worlds.specs.Apart.{distance_compares_by, farthest_square, nearest_square};
ghost use Rattle.blur.specs.Added.{Adds, EndBefore};
ghost use Rattle.blur.specs.Asked.{comparison, compares_by, square_if_small};
ghost use Rattle.blur.specs.Bounds.{bound_after};

use crate::bounds::SquareBound;
use crate::question::{Blur, Comparison};
use crate::runs::{add_others, add_without};
use case_table::Op;
use convex::at_most;
use exact::{minus, times};
use fixed_point::Fix;
use linear_crossing::Line;
use std::alloc::AllocError;
use tick_set::{Runs, Span, Window};

/// Adds the ticks of the window at which the distance of two different objects that move along lines compares so with a
/// number of thousandths, surely or possibly. The lines are by the ticks since the window's first.
pub fn add_apart(
    runs: &mut Runs,
    from: &Line,
    to: &Line,
    compared: &Comparison,
    blur: Blur,
    w: Window,
) -> Result<(), AllocError>
    requires before { EndBefore w.lo runs.old }
    requires from_in_reach { IsInReach from.now }
    requires to_in_reach { IsInReach to.now }
    ensures { OnOk result (Adds (λ t. within w.lo w.hi t
        && distance_compares_by (comparison blur.sure) compared.now.op compared.now.c
        (nearest_square blur.error (position_after from.now (t - w.lo)) (position_after to.now (t - w.lo)))
        (farthest_square blur.error (position_after from.now (t - w.lo)) (position_after to.now (t - w.lo))))
        runs.old runs.new) }
{
    if compared.c.raw() < 0 {
        return runs.append(everywhere(compared.op.holds(1), w));
    }
    let small = small_by(from, to, blur);
    let large = small_by(from, to, blur.turned());
    add_compared(runs, &small, &large, compared.op, squared(compared.c), w)
}

// The bound by which a distance is told to be small.
fn small_by(from: &Line, to: &Line, blur: Blur) -> SquareBound
    requires from_in_reach { IsInReach from.now }
    requires to_in_reach { IsInReach to.now }
    ensures { (k : ℕ) → bound_after result k
        ≡ square_if_small blur.sure blur.error (position_after from.now k) (position_after to.now k) }
{
    if blur.sure {
        SquareBound::greatest(from, to, blur.error)
    } else {
        SquareBound::least(from, to, blur.error)
    }
}

// The ticks of the window at which a number compares with `x` that is small by the one bound and large by the other.
fn add_compared(
    runs: &mut Runs,
    small: &SquareBound,
    large: &SquareBound,
    op: Op,
    x: i128,
    w: Window,
) -> Result<(), AllocError>
    requires before { EndBefore w.lo runs.old }
    requires size { unsigned_abs x ≤ FIX_LIMIT ^ 2 }
    ensures { OnOk result (Adds (λ t. within w.lo w.hi t
        && compares_by op (bound_after small.now (t - w.lo)) (bound_after large.now (t - w.lo)) x) runs.old runs.new) }
{
    let below = minus(x, 1);
    match op {
        Op::Lt => add_without(runs, low_ticks(small, below, w), None),
        Op::Le => add_without(runs, low_ticks(small, x, w), None),
        Op::Eq => add_without(runs, low_ticks(small, x, w), low_ticks(large, below, w)),
        Op::Ne => add_others(
            runs,
            w.span(),
            low_ticks(large, x, w),
            low_ticks(small, below, w),
        ),
        Op::Ge => add_others(runs, w.span(), low_ticks(large, below, w), None),
        Op::Gt => add_others(runs, w.span(), low_ticks(large, x, w), None),
    }
}

// The ticks of the window at which a bound, by the ticks since the window's first, is at most a limit. Most objects stay so
// far from each other that its least value on each axis tells that there are none.
fn low_ticks(bound: &SquareBound, limit: i128, w: Window) -> Option<Span>
    ensures { IsRuns (is_low (bound_after bound.now) limit w) (option_to_list result) }
{
    if limit < bound.floor(w.hi - w.lo) {
        return None;
    }
    at_most(bound, limit, w)
}

// The whole window or nothing.
fn everywhere(all: bool, w: Window) -> Option<Span>
    ensures { (t : ℕ) → spans_have (option_to_list result) t ≡ (within w.lo w.hi t && all) }
{
    if all { Some(w.span()) } else { None }
}

// The square of a number.
fn squared(c: Fix) -> i128
    ensures value { result ≡ c *ℤ c }
    ensures size { unsigned_abs result ≤ FIX_LIMIT ^ 2 }
{
    let root = i128::from(c.raw());
    times(root, root)
}
