//! Runs added after all that are there.
ghost use Rattle.std.specs.Prelude.{◌≡◌, ◌≤◌, ◌<◌, ◌+◌, ◌&&◌, ◌||◌, ℕ, true, nat_le, nat_lt, vec_len, vec_capacity};
ghost use Rattle.tick_set.specs.Runs.{IsNormal, spans_have};

use tick_set::{LAST_TICK, Span};

/// Adds the run from `from` up to `until`, without `until`, if it has a tick.
#[inline(always)]
pub fn add_stretch(made: &mut Vec<Span>, from: u32, until: u32)
    requires room { vec_len made.old < vec_capacity made.old }
    requires in_range { until ≤ LAST_TICK + 1 }
    requires normal { IsNormal made.old.items }
    requires apart { from < until → (u : ℕ) → spans_have made.old.items u ≡ true → u + 2 ≤ from }
    ensures normal { IsNormal made.new.items }
    ensures ticks { (u : ℕ) → spans_have made.new.items u
        ≡ (spans_have made.old.items u || (nat_le from u && nat_lt u until)) }
    ensures len { vec_len made.new ≤ vec_len made.old + 1 }
    ensures capacity { vec_capacity made.new ≡ vec_capacity made.old }
{
    if from < until {
        made.push_reserved(Span {
            lo: from,
            hi: until - 1,
        });
    }
}
