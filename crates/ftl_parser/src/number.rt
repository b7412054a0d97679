//! Numbers by their places, and words.

ghost use Rattle.std.specs.Prelude.{◌≡◌, ◌≤ℤ◌, pos, neg_ℤ, [], IfSome};
ghost use Rattle.fixed_point.specs.Decimal.{thousandths_of};
ghost use Rattle.fixed_point.specs.Sizes.{IsReadable};
ghost use Rattle.geometry.specs.declared.limits.TheConstants.{RADIUS_LIMIT};
ghost use Rattle.ftl_parser.specs.Number.{whole_of, up_to, literal, radius_of, ticks, times, is_number_fit, Ticks, Times, Literal, Radius};
ghost use Rattle.ftl_parser.specs.Words.{is_short, short_word};

use fixed_point::{Fix, Slope, WORD_LIMIT, Word};
use formula_shape::TIMES_LIMIT;
use tick_set::LAST_TICK;

// The whole number that digits alone stand for, if it is at most `most`.
#[tactic(auto, using(crate::proofs::reader::DigitLemmas::whole_steps))]
fn up_to(text: &[u8], most: u32) -> Option<u32>
    ensures { result ≡ up_to most text.now }
{
    let mut value = 0u64;
    let mut rest = text;
    while let Some((byte, later)) = rest.split_first() {
        if !byte.is_ascii_digit() {
            return None;
        }
        value = value * 10 + u64::from(*byte - b'0');
        if value > u64::from(most) {
            return None;
        }
        rest = later;
    }
    Some(value as u32)
}

/// The whole number that digits alone stand for. None where it is not from `least` to `most`, or where
/// there is another byte than a digit.
pub fn whole(text: &[u8], least: u32, most: u32) -> Option<u32>
    ensures { result ≡ whole_of least most text.now }
{
    let value = up_to(text, most)?;
    if value >= least { Some(value) } else { None }
}

/// The number 0.
#[inline]
pub fn zero() -> Fix
    ensures { result ≡ pos 0 }
{
    Fix::of(0).unwrap()
}

// A number of ticks; 0 where it is none in its range.
pub(crate) fn ticks(text: &[u8]) -> u32
    ensures { result ≡ ticks text.now }
{
    whole(text, 0, LAST_TICK).unwrap_or(0)
}

// A multiplier; 0 where it is none in its range.
pub(crate) fn times(text: &[u8]) -> u32
    ensures { result ≡ times text.now }
{
    whole(text, 0, TIMES_LIMIT).unwrap_or(0)
}

// A literal; 0 where it is none in its range.
pub(crate) fn literal(text: &[u8]) -> Fix
    ensures value { result ≡ literal text.now }
    ensures in_range { IsReadable result }
{
    match Fix::read(text) {
        Some(number) => number,
        None => zero(),
    }
}

/// The radius that a number is: from 0 to 1,000, with at most three decimals. None where it is none.
pub fn read_radius(text: &[u8]) -> Option<Fix>
    ensures { result ≡ thousandths_of RADIUS_LIMIT text.now }
{
    let radius = Slope::read(text)?;
    Fix::of(radius.raw())
}

// A radius; 0 where it is none in its range.
pub(crate) fn radius(text: &[u8]) -> Fix
    ensures { result ≡ radius_of text.now }
{
    match read_radius(text) {
        Some(number) => number,
        None => zero(),
    }
}

// The number below 0 of this size.
pub(crate) fn negated(number: Fix) -> Fix
    ensures { result ≡ neg_ℤ number }
{
    Fix::of(-number.raw()).unwrap()
}

// Whether a number is one of ticks in their range.
pub(crate) fn ticks_fit(text: &[u8]) -> bool
    ensures { result ≡ is_number_fit Ticks text.now }
{
    whole(text, 0, LAST_TICK).is_some()
}

// Whether a number is a multiplier in its range.
pub(crate) fn times_fit(text: &[u8]) -> bool
    ensures { result ≡ is_number_fit Times text.now }
{
    whole(text, 0, TIMES_LIMIT).is_some()
}

// Whether a number is a literal in its range.
pub(crate) fn literal_fits(text: &[u8]) -> bool
    ensures { result ≡ is_number_fit Literal text.now }
{
    Fix::read(text).is_some()
}

// Whether a number is a radius in its range.
pub(crate) fn radius_fits(text: &[u8]) -> bool
    ensures { result ≡ is_number_fit Radius text.now }
{
    read_radius(text).is_some()
}

/// Whether a word has room for these bytes: there are at most `fixed_point::WORD_LIMIT`.
pub fn is_short(bytes: &[u8]) -> bool
    ensures { result ≡ is_short bytes.now }
{
    bytes.len() <= WORD_LIMIT
}

fn empty() -> Word
    ensures { result ≡ [] }
{
    Word::of(b"").unwrap()
}

/// The word of these bytes; the empty one where there are more than a word has room for.
#[inline]
pub fn word(bytes: &[u8]) -> Word
    ensures { result ≡ short_word bytes.now }
{
    match Word::of(bytes) {
        Some(word) => word,
        None => empty(),
    }
}
