//! UNTIL by one walk over the spans of both sets.
ghost use Rattle.std.specs.Prelude.{◌≡◌, ◌≤◌, ◌<◌, ◌+◌, ◌-◌, ◌||◌, ◌⊎◌, ℕ, true, IfOk, OnOk};
ghost use Rattle.tick_set.specs.Ticks.{within};
ghost use Rattle.tick_set.specs.Operators.{until_in};
ghost use Rattle.tick_set.specs.Runs.{IsNormal, spans_have};
ghost use Rattle.interval_set.specs.Cursor.{EndsFrom};
ghost use Rattle.until_merge.specs.Start.{IsStart};

use interval_set::past;
use std::alloc::{AllocError, Global};
use tick_set::{LAST_TICK, Span};

/// The ticks from which the guard leads to a goal at most `c` later, in time linear in the spans of both.
///
/// A span of the goal begins earlier where a span of the guard reaches it: at that one's start, but no
/// more than `c` before the goal.
pub fn until_within(
    alloc: Global,
    guard: &[Span],
    goal: &[Span],
    c: u32,
) -> Result<Vec<Span>, AllocError>
    requires guard { IsNormal guard.now }
    requires goal { IsNormal goal.now }
    ensures normal { IfOk result (λ r. IsNormal r.items) }
    ensures ticks { IfOk result (λ r. (t : ℕ) → spans_have r.items t
        ≡ until_in (spans_have guard.now) (spans_have goal.now) t (t + c) t) }
{
    let mut made = Vec::with_capacity(alloc, goal.len())?;
    let Some((first, later)) = goal.split_first() else {
        return Ok(made);
    };
    let mut guards = past(guard, first.lo.saturating_sub(1));
    // The run that may still grow.
    let mut lo = start(guards, first.lo, c);
    let mut hi = first.hi;
    let mut rest = later;
    while let Some((s, later)) = rest.split_first() {
        guards = past(guards, s.lo.saturating_sub(1));
        let run = Span {
            lo: start(guards, s.lo, c),
            hi: s.hi,
        };
        lo = joined(&mut made, Span { lo, hi }, run)?;
        hi = s.hi;
        rest = later;
    }
    made.push(Span { lo, hi })?;
    Ok(made)
}

// The first tick from which the guards lead to `goal` within `c`. None of them ends before `goal` - 1.
#[inline]
fn start(guards: &[Span], goal: u32, c: u32) -> u32
    requires normal { IsNormal guards.now }
    requires ends { EndsFrom (goal - 1) guards.now }
    ensures { IsStart (spans_have guards.now) c goal result }
{
    let Some(g) = guards.first() else {
        return goal;
    };
    if g.lo < goal {
        g.lo.max(goal.saturating_sub(c))
    } else {
        goal
    }
}

// Joins a run to the one before it if no tick is between them; else that one is done. Gives where the run
// that may still grow begins; it ends with `run`.
#[inline]
fn joined(made: &mut Vec<Span>, before: Span, run: Span) -> Result<u32, AllocError>
    requires normal { IsNormal made.old.items }
    requires apart { (u : ℕ) → spans_have made.old.items u ≡ true → u + 2 ≤ before.lo }
    requires ascending { (before.lo ≤ run.lo) × (before.hi ≤ run.hi) }
    ensures normal { OnOk result (IsNormal made.new.items) }
    ensures apart { IfOk result
        (λ lo. (u : ℕ) → spans_have made.new.items u ≡ true → u + 2 ≤ lo) }
    ensures lo { IfOk result (λ lo. (lo ≡ before.lo) ⊎ (lo ≡ run.lo)) }
    ensures ticks { IfOk result (λ lo. (t : ℕ) → (spans_have made.new.items t || within lo run.hi t)
        ≡ (spans_have made.old.items t || within before.lo before.hi t
        || within run.lo run.hi t)) }
{
    if run.lo <= before.hi + 1 {
        return Ok(before.lo);
    }
    made.push(before)?;
    Ok(run.lo)
}
