//! What the definitions mean, and the limits in numbers, as calls without a body.
ghost use Rattle.std.specs.Prelude.{◌≡◌, ℕ, ℤ, pos, ◌+◌, ◌+ℤ◌, ◌≤◌, nat_le, List, if◌then◌else◌};
ghost use Rattle.motion.specs.declared.legs.TheConstants.{LONGEST_LEG, MOST_FIRSTS};
ghost use Rattle.motion.specs.declared.limits.TheConstants.{ATTRIBUTE_LIMIT, CAPACITY_LIMIT};
ghost use Rattle.motion.specs.Function.{Function, rest, rise, slope};
ghost use Rattle.motion.specs.Dynamic.{Dynamic, moved, slope_at, turned, value_at};
ghost use Rattle.motion.specs.Timeline.{Epoch, put, state_at};

use crate::legs::{LONGEST_LEG, MOST_FIRSTS};
use crate::limits::{ATTRIBUTE_LIMIT, CAPACITY_LIMIT};

/// A write leaves the object as it was at each tick before the write, and has its cells from then on.
#[tactic(auto, using(crate::proofs::CallerLemmas::state_at_put))]
pub fn a_write_changes_no_earlier_state()
    ensures { (epochs : List Epoch) (p : Epoch) (t : ℕ)
        → state_at (put epochs p) t ≡ (if nat_le p.from t then p.cells else state_at epochs t) }
{}

/// A function is 0 at 0.
#[tactic(auto, using(crate::proofs::LegLemmas::rise_zero))]
pub fn the_function_is_0_at_0()
    ensures { (f : Function) → rise f 0 ≡ pos 0 }
{}

/// In one tick the value rises by the slope in force.
#[tactic(auto, using(crate::proofs::LegLemmas::rise_next))]
pub fn the_slope_is_the_change_of_the_value()
    ensures { (f : Function) (d : ℕ) → rise f (d + 1) ≡ rise f d +ℤ slope f d }
{}

/// What is left of a function after `d` ticks rises as the function does from then on.
#[tactic(auto, using(crate::proofs::LegLemmas::rise_rest))]
pub fn what_is_left_goes_on()
    ensures { (f : Function) (d k : ℕ) → rise f (d + k) ≡ rise f d +ℤ rise (rest f d) k }
{}

/// Where legs alone are written, the value at that tick stays.
#[tactic(auto, using(crate::proofs::LegLemmas::turned_value))]
pub fn legs_alone_make_no_jump()
    ensures { (s : ℕ) (v : Dynamic) (f : Function) → value_at (turned s v f) s ≡ value_at v s }
{}

/// Where a value alone is written, the slope from that tick on stays.
pub fn a_value_alone_keeps_the_motion()
    ensures { (s : ℕ) (v : Dynamic) (n : ℤ) (t : ℕ) → v.updatetime ≤ s → s ≤ t
        → slope_at (moved s v n) t ≡ slope_at v t }
{}

/// A function has at most seven legs that end, each of at most 10^9 ticks. A class has at most 100,000
/// objects and 16 written attributes.
pub fn limits_in_numbers()
    ensures firsts { MOST_FIRSTS ≡ 7 }
    ensures leg { LONGEST_LEG ≡ 1000000000 }
    ensures objects { CAPACITY_LIMIT ≡ 100000 }
    ensures attributes { ATTRIBUTE_LIMIT ≡ 16 }
{}
