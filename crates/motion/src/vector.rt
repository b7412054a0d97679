//! Dynamic attributes.
ghost use Rattle.std.specs.Prelude.{◌≡◌, ℕ, ◌<◌, ◌≤◌, ◌+◌, ◌*◌, false, IfNone, IfSome, unsigned_abs};
ghost use Rattle.fixed_point.specs.declared.number.TheConstants.{READ_LIMIT, SLOPE_LIMIT};
ghost use Rattle.fixed_point.specs.Sizes.{IsReadable};
ghost use Rattle.tick_set.specs.Ticks.{IsTick};
ghost use Rattle.motion.specs.Dynamic.{begun, moved, turned, value_at, slope_at, turns_at, IsReachableValue};
ghost use Rattle.motion.specs.Function.{IsNextTurn};

use crate::legs::Legs;
use fixed_point::{Fix, Slope};
use std::marker::Model;

/// A dynamic attribute: a value in thousandths, the tick of its last update, and its function from
/// that tick on. The value is within 10^12 + 10^6 · updatetime of 0, since a given value is within
/// 10^12 and legs that are given alone begin at the value that is implied.
#[derive(Clone, Copy, Debug)]
pub struct Vector {
    value: Fix,
    updatetime: u32,
    function: Legs,
}

impl Model for Vector {
    ghost use Rattle.motion.specs.Dynamic.{Dynamic, IsReachableValue};

    ghost Value = { Dynamic };

    ghost view = { λ a. record { value = a.value; updatetime = a.updatetime; function = a.function } };

    ghost invariant = { λ a. IsReachableValue a.value a.updatetime };

    ghost inverse = { λ v. record { value = v.value; updatetime = v.updatetime; function = v.function } };
}

impl Vector {
    /// A value and legs that begin at tick `now`. The value is within 10^12 + 10^6 · now thousandths of 0.
    pub fn begun(now: u32, value: Fix, function: Legs) -> Vector
        requires { IsReachableValue value now }
        ensures { result ≡ begun now value function }
    {
        Vector {
            value,
            updatetime: now,
            function,
        }
    }

    /// The value at the last update, in thousandths.
    #[inline]
    pub fn value(&self) -> Fix
        ensures { result ≡ self.now.value }
    {
        self.value
    }

    /// The tick of the last update.
    #[inline]
    pub fn updatetime(&self) -> u32
        ensures value { result ≡ self.now.updatetime }
        ensures reachable { IsReachableValue self.now.value self.now.updatetime }
    {
        self.updatetime
    }

    /// How the value moves from the last update on.
    #[inline]
    pub fn function(&self) -> &Legs
        ensures { result.now ≡ self.now.function }
    {
        &self.function
    }

    /// The implied value at tick `t`, which isn't before the update, in thousandths.
    pub fn at(&self, t: u32) -> Fix
        requires after { self.now.updatetime ≤ t }
        requires tick { IsTick t }
        ensures value { result ≡ value_at self.now t }
        ensures near { unsigned_abs result ≤ READ_LIMIT + SLOPE_LIMIT * t }
    {
        let risen = self.function.rise(t - self.updatetime);
        Fix::of(self.value.raw() + risen).unwrap()
    }

    /// The slope in force at tick `t`, which isn't before the update, in thousandths per tick.
    pub fn slope_at(&self, t: u32) -> Slope
        requires { self.now.updatetime ≤ t }
        ensures { result ≡ slope_at self.now t }
    {
        self.function.slope(t - self.updatetime)
    }

    /// The first tick past `t` at which a leg ends and the next one begins. None where the last leg is in
    /// force at `t`, which isn't before the update.
    pub fn next_end(&self, t: u32) -> Option<u32>
        requires after { self.now.updatetime ≤ t }
        requires tick { IsTick t }
        ensures none { IfNone result ((u : ℕ) → t < u → turns_at self.now u ≡ false) }
        ensures some { IfSome result (λ end. IsNextTurn (turns_at self.now) t end) }
    {
        let end = self.function.next_end(t - self.updatetime)?;
        Some(self.updatetime + end)
    }

    /// The vector after a value alone was written at tick `now`: what is left of the legs stays. The
    /// value is within 10^12 thousandths of 0.
    pub fn moved(&self, now: u32, value: Fix) -> Vector
        requires after { self.now.updatetime ≤ now }
        requires tick { IsTick now }
        requires given { IsReadable value }
        ensures { result ≡ moved now self.now value }
    {
        Vector {
            value,
            updatetime: now,
            function: self.function.rest(now - self.updatetime),
        }
    }

    /// The vector after legs alone were written at tick `now`: they begin at the value that is implied.
    pub fn turned(&self, now: u32, function: Legs) -> Vector
        requires after { self.now.updatetime ≤ now }
        requires tick { IsTick now }
        ensures { result ≡ turned now self.now function }
    {
        Vector {
            value: self.at(now),
            updatetime: now,
            function,
        }
    }
}
