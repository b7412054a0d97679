//! Numbers that move along a line.
ghost use Rattle.std.specs.Prelude.{◌≡◌, ℕ, ◌*◌, ◌+◌, ◌^◌, ◌≤◌, pos, neg_ℤ, ◌+ℤ◌, ◌-ℤ◌, ◌*ℤ◌, unsigned_abs, if◌then◌else◌};
ghost use Rattle.linear_crossing.specs.Zones.{line_at};
ghost use Rattle.formula_shape.specs.declared.limits.TheConstants.{FACTOR_LIMIT, TIMES_LIMIT};
ghost use Rattle.tick_set.specs.Ticks.{IsTick};
ghost use Rattle.atoms.specs.Courses.{IsTrendOf, IsUnitTrend};

use exact::{minus, negated, plus, times};

/// A number of thousandths at the ticks of a part: `start` at its first tick, and more by `rise` at each next.
#[derive(Clone, Copy, Debug)]
pub struct Trend {
    pub rise: i128,
    pub start: i128,
}

impl Trend {
    /// A number that rests.
    pub fn constant(number: i128) -> Trend
        ensures { result ≡ record { rise = pos 0; start = number } }
    {
        Trend {
            rise: 0,
            start: number,
        }
    }

    /// So many times a unit, or the opposite of that.
    pub fn scaled(self, negative: bool, count: u32) -> Trend
        requires unit { IsUnitTrend self }
        requires count { count ≤ TIMES_LIMIT }
        ensures value { (lo t : ℕ) → line_at result.rise result.start lo t
            ≡ (if negative then neg_ℤ (pos count *ℤ line_at self.rise self.start lo t)
            else pos count *ℤ line_at self.rise self.start lo t) }
        ensures small { IsTrendOf 1 result }
    {
        let count = i128::from(count);
        let rise = times(count, self.rise);
        let start = times(count, self.start);
        if negative {
            Trend {
                rise: negated(rise),
                start: negated(start),
            }
        } else {
            Trend { rise, start }
        }
    }

    /// The sum of two trends of the same part, of at most 16 factors together.
    pub fn plus(self, other: Trend) -> Trend
        requires self_small { IsTrendOf FACTOR_LIMIT self }
        requires other_small { IsTrendOf 1 other }
        ensures value { (lo t : ℕ) → line_at result.rise result.start lo t
            ≡ line_at self.rise self.start lo t +ℤ line_at other.rise other.start lo t }
        ensures small { (n : ℕ) → IsTrendOf n self → IsTrendOf (n + 1) result }
    {
        Trend {
            rise: plus(self.rise, other.rise),
            start: plus(self.start, other.start),
        }
    }

    /// The first trend less the second one.
    pub fn minus(self, other: Trend) -> Trend
        requires self_small { IsTrendOf FACTOR_LIMIT self }
        requires other_small { IsTrendOf FACTOR_LIMIT other }
        ensures value { (lo t : ℕ) → line_at result.rise result.start lo t
            ≡ line_at self.rise self.start lo t -ℤ line_at other.rise other.start lo t }
        ensures rise { unsigned_abs result.rise ≤ 32 * 10 ^ 12 }
        ensures start { unsigned_abs result.start ≤ 32 * 10 ^ 24 }
    {
        Trend {
            rise: minus(self.rise, other.rise),
            start: minus(self.start, other.start),
        }
    }

    /// The number so many ticks after the first.
    pub fn after(self, ticks: u32) -> i128
        requires small { IsTrendOf FACTOR_LIMIT self }
        requires tick { IsTick ticks }
        ensures { result ≡ self.rise *ℤ pos ticks +ℤ self.start }
    {
        plus(times(self.rise, i128::from(ticks)), self.start)
    }
}
