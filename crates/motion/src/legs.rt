//! Functions of several linear legs.
ghost use Rattle.std.specs.Prelude.{◌≡◌, ℕ, pos, ◌*ℤ◌, ◌+◌, ◌*◌, ◌<◌, ◌≤◌, unsigned_abs, false, [], length, drop, replicate, IsTrue, IfNone, IfSome, SomeIff};
ghost use Rattle.std.specs.List.{list_all};
ghost use Rattle.fixed_point.specs.declared.number.TheConstants.{SLOPE_LIMIT};
ghost use Rattle.fixed_point.specs.Sizes.{IsSlope};
ghost use Rattle.tick_set.specs.Ticks.{IsTick};
ghost use Rattle.motion.specs.Function.{are_firsts, is_length_of, legs_rise, legs_rest, rise, slope, rest, leg_ends, IsNextTurn, shortened, IsPassed};
ghost use Rattle.motion.specs.Padding.{padded_legs};

use fixed_point::Slope;
use std::marker::Model;

/// The most legs before the last one.
pub const MOST_FIRSTS: usize = 7;

/// The longest leg, in ticks.
pub const LONGEST_LEG: u32 = 1_000_000_000;

/// A function of at most eight linear legs. Each leg but the last has a slope in thousandths per tick
/// and a length of 1 to 10^9 ticks; the last has a slope and no end.
#[derive(Clone, Copy, Debug)]
pub struct Legs {
    // First, so that a function of one leg is told by few bytes of it.
    last: Slope,
    count: u8,
    // Those past the count are at rest and 0 ticks long, so that a function has one form alone.
    firsts: [(Slope, u32); MOST_FIRSTS],
}

impl Model for Legs {
    ghost use Rattle.std.specs.Prelude.{take, length};
    ghost use Rattle.motion.specs.Function.{Function};
    ghost use Rattle.std.specs.Prelude.{pos};
    ghost use Rattle.motion.specs.Padding.{IsStored, padded_legs};
    ghost use Rattle.motion.specs.declared.legs.TheConstants.{MOST_FIRSTS};
    ghost use Rattle.exact.proofs.PaddedLemmas.{length-front, padded-front};

    ghost Value = { Function };

    ghost view = { λ a. record { firsts = take a.count a.firsts; last = a.last } };

    ghost invariant = { λ a. IsStored a.firsts a.count };

    ghost inverse = { λ f. record { firsts = padded_legs f.firsts; last = f.last; count = length f.firsts } };

    ghost inverse_ok = { λ a h i. record {
      firsts = padded-front (pos 0, 0) MOST_FIRSTS a.firsts a.count h.in_front i;
      last = a.last;
      count = length-front (pos 0, 0) MOST_FIRSTS a.firsts a.count h.in_front i;
    } };
}

impl Legs {
    /// The function with these legs before the last one. None exactly where there are more than seven
    /// of them or the length of one isn't from 1 to 10^9 ticks.
    pub fn of(firsts: &[(Slope, u32)], last: Slope) -> Option<Legs>
        ensures { SomeIff result (IsTrue (are_firsts firsts.now)) (record { firsts = firsts.now; last = last }) }
    {
        if !are_firsts(firsts) {
            return None;
        }
        Some(Legs {
            firsts: laid(firsts),
            last,
            count: firsts.len() as u8,
        })
    }

    /// The function of one leg.
    pub fn steady(last: Slope) -> Legs
        ensures { result ≡ record { firsts = []; last = last } }
    {
        Legs {
            firsts: unused(),
            last,
            count: 0,
        }
    }

    /// The legs before the last one, each a slope and a length in ticks.
    #[inline]
    pub fn firsts(&self) -> &[(Slope, u32)]
        ensures legs { result.now ≡ self.now.firsts }
        ensures lengths { IsTrue (are_firsts self.now.firsts) }
    {
        &self.firsts[..self.count as usize]
    }

    /// The slope of the last leg.
    #[inline]
    pub fn last(&self) -> Slope
        ensures { result ≡ self.now.last }
    {
        self.last
    }

    /// How far the value has risen `ticks` ticks after the function began, in thousandths.
    pub fn rise(&self, ticks: u32) -> i64
        requires { IsTick ticks }
        ensures value { result ≡ rise self.now ticks }
        ensures near { unsigned_abs result ≤ SLOPE_LIMIT * ticks }
    {
        legs_rise(self.firsts(), self.last, ticks)
    }

    /// The slope in force `ticks` ticks after the function began, in thousandths per tick. At the tick
    /// at which a leg ends it is that of the next leg.
    pub fn slope(&self, ticks: u32) -> Slope
        ensures { result ≡ slope self.now ticks }
    {
        let (ended, _) = leg_in_force(self.firsts(), ticks);
        match self.firsts().get(ended) {
            Some(leg) => leg.0,
            None => self.last,
        }
    }

    /// The first number of ticks past `ticks` after which a leg ends and the next one begins. None where
    /// the last leg is in force after `ticks` ticks.
    pub fn next_end(&self, ticks: u32) -> Option<u32>
        requires { IsTick ticks }
        ensures none { IfNone result ((u : ℕ) → ticks < u → leg_ends self.now.firsts u ≡ false) }
        ensures some { IfSome result (λ end. IsNextTurn (leg_ends self.now.firsts) ticks end) }
        ensures near { IfSome result (λ end. end ≤ ticks + LONGEST_LEG) }
    {
        let (ended, passed) = leg_in_force(self.firsts(), ticks);
        let leg = self.firsts().get(ended)?;
        Some(ticks + (leg.1 - passed))
    }

    /// What is left of the function after `ticks` ticks.
    pub fn rest(&self, ticks: u32) -> Legs
        ensures { result ≡ rest self.now ticks }
    {
        let firsts = self.firsts();
        let (ended, passed) = leg_in_force(firsts, ticks);
        let kept = &firsts[ended..];
        Legs {
            firsts: laid_from(kept, passed),
            last: self.last,
            count: kept.len() as u8,
        }
    }
}

/// These legs in the front of an array.
fn laid(firsts: &[(Slope, u32)]) -> [(Slope, u32); MOST_FIRSTS]
    requires { length firsts.now ≤ MOST_FIRSTS }
    ensures { result ≡ padded_legs firsts.now }
{
    let mut places = unused();
    places[..firsts.len()].copy_from_slice(firsts);
    places
}

/// These legs in the front of an array, the first of them without the ticks that have passed.
fn laid_from(firsts: &[(Slope, u32)], passed: u32) -> [(Slope, u32); MOST_FIRSTS]
    requires few { length firsts.now ≤ MOST_FIRSTS }
    requires passed { IsPassed firsts.now passed }
    ensures { result ≡ padded_legs (shortened firsts.now passed) }
{
    let mut places = laid(firsts);
    if firsts.is_empty() {
        return places;
    }
    shorten(&mut places, passed);
    places
}

/// Takes the ticks that have passed from the first of these legs.
fn shorten(legs: &mut [(Slope, u32)], passed: u32)
    requires { IsPassed legs.old passed }
    ensures { legs.new ≡ shortened legs.old passed }
{
    if let Some(first) = legs.first_mut() {
        first.1 -= passed;
    }
}

/// How far a slope rises in `ticks` ticks, in thousandths.
#[inline]
fn climb(slope: Slope, ticks: u32) -> i64
    requires { IsTick ticks }
    ensures value { result ≡ slope *ℤ pos ticks }
    ensures near { unsigned_abs result ≤ SLOPE_LIMIT * ticks }
{
    product(slope, ticks)
}

#[inline]
fn product(slope: Slope, ticks: u32) -> i64
    requires { IsTick ticks }
    ensures value { result ≡ slope *ℤ pos ticks }
    ensures in_range { IsSlope slope }
{
    slope.raw() * i64::from(ticks)
}

/// How far such legs rise in `ticks` ticks, in thousandths.
fn legs_rise(firsts: &[(Slope, u32)], last: Slope, ticks: u32) -> i64
    requires { IsTick ticks }
    ensures value { result ≡ legs_rise firsts.now last ticks }
    ensures near { unsigned_abs result ≤ SLOPE_LIMIT * ticks }
{
    let mut risen = 0;
    let mut left = ticks;
    let mut rest = firsts;
    while let Some((leg, later)) = rest.split_first() {
        if left <= leg.1 {
            return risen + climb(leg.0, left);
        }
        risen += climb(leg.0, leg.1);
        left -= leg.1;
        rest = later;
    }
    risen + climb(last, left)
}

/// How many of the legs have ended after `ticks` ticks, and how many ticks of the next one have passed.
fn leg_in_force(firsts: &[(Slope, u32)], ticks: u32) -> (usize, u32)
    ensures within { result.0 ≤ length firsts.now }
    ensures rest { legs_rest firsts.now ticks ≡ shortened (drop result.0 firsts.now) result.1 }
    ensures passed { IsPassed (drop result.0 firsts.now) result.1 }
{
    let mut left = ticks;
    for (ended, leg) in firsts.iter().enumerate() {
        if left < leg.1 {
            return (ended, left);
        }
        left -= leg.1;
    }
    (firsts.len(), left)
}

/// Whether a function may have these legs before the last one.
fn are_firsts(firsts: &[(Slope, u32)]) -> bool
    ensures { result ≡ are_firsts firsts.now }
{
    firsts.len() <= MOST_FIRSTS && have_lengths(firsts)
}

/// Whether each of these legs has the length of a leg that ends.
fn have_lengths(firsts: &[(Slope, u32)]) -> bool
    ensures { result ≡ list_all (λ leg. is_length_of leg.1) firsts.now }
{
    let mut rest = firsts;
    while let Some((leg, later)) = rest.split_first() {
        if !is_length(leg.1) {
            return false;
        }
        rest = later;
    }
    true
}

/// Whether a leg that ends may have this length, in ticks.
fn is_length(length: u32) -> bool
    ensures { result ≡ is_length_of length }
{
    (1..=LONGEST_LEG).contains(&length)
}

/// The places of legs that aren't there.
fn unused() -> [(Slope, u32); MOST_FIRSTS]
    ensures { result ≡ replicate MOST_FIRSTS (pos 0, 0) }
{
    [(level(), 0); MOST_FIRSTS]
}

/// The slope of a value that rests.
fn level() -> Slope
    ensures { result ≡ pos 0 }
{
    Slope::of(0).unwrap()
}
