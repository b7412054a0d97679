//! Numbers with three decimals, slopes and points.
ghost use Rattle.std.specs.Prelude.{◌≡◌, ◌≤◌, unsigned_abs, IfSome, SomeIff};
ghost use Rattle.std.specs.Int.{int_min, int_max};
ghost use Rattle.fixed_point.specs.Decimal.{thousandths_of};
ghost use Rattle.fixed_point.specs.Canonical.{fix_text};
ghost use Rattle.fixed_point.specs.Sizes.{IsFix, IsReadable, IsSlope};

use crate::number_text::FixText;
use crate::reading::read_thousandths;
use std::marker::Model;

/// The largest size of a `Fix`, in thousandths.
pub const FIX_LIMIT: u64 = 1_000_000_000_000_000_000;

/// The largest size of a `Fix` that is read from a text, in thousandths.
pub const READ_LIMIT: u64 = 1_000_000_000_000;

/// The largest size of a `Slope`, in thousandths per tick.
pub const SLOPE_LIMIT: u64 = 1_000_000;

/// A number with three decimals: a count of thousandths from -10^18 to 10^18.
#[derive(Clone, Copy, Debug, PartialEq, Eq, Hash, PartialOrd, Ord)]
pub struct Fix {
    thousandths: i64,
}

impl Model for Fix {
    ghost use Rattle.std.specs.Prelude.{ℤ, ◌≤◌, unsigned_abs};
    ghost use Rattle.fixed_point.specs.declared.number.TheConstants.{FIX_LIMIT};

    ghost Value = { ℤ };

    ghost view = { λ a. a.thousandths };

    ghost invariant = { λ a. unsigned_abs a.thousandths ≤ FIX_LIMIT };

    ghost inverse = { λ n. record { thousandths = n } };
}

impl Fix {
    /// The number of `thousandths`. None exactly where they are not from -10^18 to 10^18.
    #[inline]
    pub fn of(thousandths: i64) -> Option<Fix>
        ensures { SomeIff result (unsigned_abs thousandths ≤ FIX_LIMIT) thousandths }
    {
        if thousandths.unsigned_abs() <= FIX_LIMIT {
            Some(Fix { thousandths })
        } else {
            None
        }
    }

    /// The thousandths of this number.
    #[inline]
    pub fn raw(self) -> i64
        ensures value { result ≡ self }
        ensures in_range { IsFix self }
    {
        self.thousandths
    }

    /// The lesser of two numbers.
    #[inline]
    pub fn lesser(self, other: Fix) -> Fix
        ensures { result ≡ int_min self other }
    {
        if other < self { other } else { self }
    }

    /// The greater of two numbers.
    #[inline]
    pub fn greater(self, other: Fix) -> Fix
        ensures { result ≡ int_max self other }
    {
        if self < other { other } else { self }
    }

    /// The number that the text writes: a `-` or none, from one to ten digits, and a point with from
    /// one to three decimals or none, as in `-0.5`. None exactly where the text has another form, or
    /// the number is not within 10^12 thousandths of 0. Zeros in front are allowed, and `-0` is 0.
    pub fn read(text: &[u8]) -> Option<Fix>
        ensures value { result ≡ thousandths_of READ_LIMIT text.now }
        ensures in_range { IfSome result (λ number. IsReadable number) }
    {
        let thousandths = read_thousandths(text, READ_LIMIT)?;
        Some(Fix { thousandths })
    }

    /// The canonical text: a `-` where the number is negative, the whole part without zeros in front,
    /// and a point with the decimals without zeros at their end where they are not all zeros. `0`,
    /// `-0.5`, `3.4` and `1000000000` are such texts.
    #[tactic(auto, using(crate::proofs::CanonicalLemmas::print_steps), unfolding(crate::specs::Canonical::fix_text))]
    pub fn print(self) -> FixText
        ensures { result ≡ fix_text self }
    {
        let size = self.thousandths.unsigned_abs();
        let mut text = FixText::empty();
        text.prepend_decimals(size % 1000);
        text.prepend_whole(size / 1000);
        if self.thousandths < 0 {
            text.prepend(b'-');
        }
        text
    }
}

/// A change per tick: a count of thousandths per tick from -10^6 to 10^6.
#[derive(Clone, Copy, Debug, PartialEq, Eq, Hash, PartialOrd, Ord)]
pub struct Slope {
    thousandths: i32,
}

impl Model for Slope {
    ghost use Rattle.std.specs.Prelude.{ℤ, ◌≤◌, unsigned_abs};
    ghost use Rattle.fixed_point.specs.declared.number.TheConstants.{SLOPE_LIMIT};

    ghost Value = { ℤ };

    ghost view = { λ a. a.thousandths };

    ghost invariant = { λ a. unsigned_abs a.thousandths ≤ SLOPE_LIMIT };

    ghost inverse = { λ n. record { thousandths = n } };
}

impl Slope {
    /// The slope of `thousandths` per tick. None exactly where they are not from -10^6 to 10^6.
    #[inline]
    pub fn of(thousandths: i64) -> Option<Slope>
        ensures { SomeIff result (unsigned_abs thousandths ≤ SLOPE_LIMIT) thousandths }
    {
        if thousandths.unsigned_abs() <= SLOPE_LIMIT {
            Some(Slope {
                thousandths: thousandths as i32,
            })
        } else {
            None
        }
    }

    /// The thousandths per tick of this slope.
    #[inline]
    pub fn raw(self) -> i64
        ensures value { result ≡ self }
        ensures in_range { IsSlope self }
    {
        self.thousandths as i64
    }

    /// The slope that the text writes, in the form of a `Fix`. None exactly where the text has another
    /// form, or the slope is not within 10^6 thousandths per tick of 0.
    pub fn read(text: &[u8]) -> Option<Slope>
        ensures value { result ≡ thousandths_of SLOPE_LIMIT text.now }
        ensures in_range { IfSome result (λ slope. IsSlope slope) }
    {
        let thousandths = read_thousandths(text, SLOPE_LIMIT)? as i32;
        Some(Slope { thousandths })
    }
}

/// A place in the plane.
#[derive(Clone, Copy, Debug, PartialEq, Eq, Hash, PartialOrd, Ord)]
pub struct Point {
    pub x: Fix,
    pub y: Fix,
}
