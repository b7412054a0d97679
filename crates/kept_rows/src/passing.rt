//! Targets that enter or leave as time passes.
ghost use Rattle.std.specs.Prelude.{◌≡◌, ◌<◌, ◌≤◌, ◌+◌, ◌*◌, ◌/◌, ◌&&◌, ◌++◌, ℕ, Bool, [], nat_le, map, option_to_list, IfOk, OnOk, IfSome, IfNone};
ghost use Rattle.std.specs.Option.{option_map};
ghost use Rattle.kept_rows.specs.Listing.{lines_upto, passing_of, some_row, target_has, target_stands_at, when_differ};
ghost use Rattle.kept_rows.specs.Rows.{row_has};
ghost use Rattle.kept_rows.specs.Turning.{AgreeBetween, IsNextDiffering};

use crate::binding::Targets;
use crate::listing::push_some;
use crate::rows::KeptRows;
use crate::slots::Slots;
use crate::turning::Turning;
use std::alloc::{AllocError, Global};
use std::marker::Model;

/// A target, by its number, that stands at one of two ticks alone. Contracts see the number and whether it enters.
#[derive(Drop)]
pub struct Passing {
    target: u32,
    enters: bool,
}

impl Model for Passing {
    ghost use Rattle.std.specs.Prelude.{ℕ, Bool};

    ghost Value = { ℕ × Bool };

    ghost view = { λ a. (a.target, a.enters) };
}

impl Passing {
    /// The number of the target.
    #[inline]
    pub fn target(&self) -> u32
        ensures { result ≡ self.now.0 }
    {
        self.target
    }

    /// Whether the target enters: it stands at the later tick. Else it leaves.
    #[inline]
    pub fn enters(&self) -> bool
        ensures { result ≡ self.now.1 }
    {
        self.enters
    }
}

/// The targets that stand at one of the ticks `before` and `now` and not at the other, in order. None stands at
/// a tick after the expiry. It fails only where memory is out. Where neither tick is after the expiry, it looks only
/// at rows that may turn, by what [`KeptRows::advance`] found.
pub fn passed<S: Turning>(
    alloc: Global,
    kept: &KeptRows<S>,
    targets: Targets,
    expiry: u32,
    before: u32,
    now: u32,
) -> Result<Vec<Passing>, AllocError>
    ensures { IfOk result (λ passings. passings.items
        ≡ lines_upto (passing_of (target_has (row_has S.member kept.now) targets.width) expiry before now) targets.count) }
{
    let mut passings = Vec::new(alloc);
    let mut target = 0;
    let end = targets.count * targets.width;
    'targets: while let Some(first) = next_passing(
        kept,
        target * targets.width,
        end,
        expiry,
        before,
        now,
    ) {
        let passing = passing_at(kept, targets, first, expiry, before, now);
        push_some(&mut passings, passing)?;
        target = first / targets.width + 1;
    }
    Ok(passings)
}

// The first of the numbers from `from` up to `to` whose row may let its target pass.
fn next_passing<S: Turning>(
    kept: &KeptRows<S>,
    from: u32,
    to: u32,
    expiry: u32,
    before: u32,
    now: u32,
) -> Option<u32>
    ensures some { IfSome result (IsNextDiffering (λ c. nat_le before expiry && row_has S.member kept.now c before)
        (λ c. nat_le now expiry && row_has S.member kept.now c now) from to) }
    ensures none { IfNone result (AgreeBetween (λ c. nat_le before expiry && row_has S.member kept.now c before)
        (λ c. nat_le now expiry && row_has S.member kept.now c now) from to) }
{
    match (before <= expiry, now <= expiry) {
        (true, true) => kept.next_turning(from, to, before, now),
        (false, false) => None,
        _ => kept.next(from, to),
    }
}

// Whether the target of a binding passes.
fn passing_at<S: Turning>(
    kept: &KeptRows<S>,
    targets: Targets,
    first: u32,
    expiry: u32,
    before: u32,
    now: u32,
) -> Option<Passing>
    requires { first < targets.count * targets.width }
    ensures { option_to_list result
        ≡ option_to_list (passing_of (target_has (row_has S.member kept.now) targets.width) expiry before now (first / targets.width)) }
{
    let target = first / targets.width;
    let stood = stands(kept, targets, target, expiry, before);
    let stands = stands(kept, targets, target, expiry, now);
    passing_if(target, stood, stands)
}

// A target that stands at one of two ticks alone.
fn passing_if(target: u32, stood: bool, stands: bool) -> Option<Passing>
    ensures { result ≡ when_differ target stood stands }
{
    if stood == stands {
        return None;
    }
    Some(Passing {
        target,
        enters: stands,
    })
}

// Whether a target stands at a tick.
fn stands<S: Turning>(
    kept: &KeptRows<S>,
    targets: Targets,
    target: u32,
    expiry: u32,
    tick: u32,
) -> bool
    requires { target < targets.count }
    ensures { result ≡ target_stands_at (target_has (row_has S.member kept.now) targets.width) expiry target tick }
{
    let from = target * targets.width;
    tick <= expiry && has_row_at(kept, from, from + targets.width, tick)
}

// Whether some row of the numbers from `from` up to `to` has the tick.
fn has_row_at<S: Turning>(kept: &KeptRows<S>, from: u32, to: u32, tick: u32) -> bool
    ensures { result ≡ some_row (row_has S.member kept.now) from to tick }
{
    let mut from = from;
    'rows: while let Some(number) = kept.next_at(from, to, Slots::of_tick(tick)) {
        if kept.row(number).has(tick) {
            return true;
        }
        from = number + 1;
    }
    false
}
