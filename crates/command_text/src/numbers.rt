//! Names, texts and numbers.
ghost use Rattle.std.specs.Prelude.{◌≡◌, pos, option_map};
ghost use Rattle.command_text.specs.Ranges.{Span, Steps, Capacity, Nearest, Value, Rate, Width, negated, signed_in};
ghost use Rattle.command_text.specs.inner.Reading.{name, text, number, whole, radius, minus, signed_number, num};
ghost use Rattle.command_text.specs.inner.Standing.{standing};

use crate::at::{At, next, noting_fit, sign};
use crate::ranges::NEAREST_LIMIT;
use case_table::symbol;
use fixed_point::{Fix, Slope, Word};
use ftl_lexer::{Kind, Tokens, unquoted};
use ftl_parser::{read_radius, whole, word, zero};
use motion::CAPACITY_LIMIT;
use tick_set::LAST_TICK;

#[tactic(auto, using(crate::proofs::reader::TableLemmas::token_tests), unfolding(crate::specs::inner::Reading::name))]
pub(crate) fn name(tokens: &Tokens, at: At) -> Option<(Word, At)>
    ensures { option_map (λ r. (r.0, standing tokens.now r.1)) result ≡ name (standing tokens.now at) }
{
    let (kind, bytes, behind) = next(tokens, at)?;
    match kind {
        Kind::Name => Some((word(bytes), behind)),
        _ => None,
    }
}

/// A text, without its quotes.
#[tactic(auto, using(crate::proofs::reader::TableLemmas::token_tests), unfolding(crate::specs::inner::Reading::text))]
pub(crate) fn text(tokens: &Tokens, at: At) -> Option<(Word, At)>
    ensures { option_map (λ r. (r.0, standing tokens.now r.1)) result ≡ text (standing tokens.now at) }
{
    let (kind, bytes, behind) = next(tokens, at)?;
    match kind {
        Kind::Text => Some((word(unquoted(bytes)), behind)),
        _ => None,
    }
}

/// The bytes of a number.
#[tactic(auto, using(crate::proofs::reader::TableLemmas::token_tests), unfolding(crate::specs::inner::Reading::number))]
fn number<'a>(tokens: &'a Tokens, at: At) -> Option<(&'a [u8], At)>
    ensures { option_map (λ r. (r.0.now, standing tokens.now r.1)) result ≡ number (standing tokens.now at) }
{
    let (kind, bytes, behind) = next(tokens, at)?;
    match kind {
        Kind::Number => Some((bytes, behind)),
        _ => None,
    }
}

/// A number of ticks, 0 among them.
#[tactic(auto, unfolding(crate::specs::inner::Reading::whole))]
pub(crate) fn span(tokens: &Tokens, at: At) -> Option<(u32, At)>
    ensures { option_map (λ r. (r.0, standing tokens.now r.1)) result ≡ whole Span (standing tokens.now at) }
{
    let (digits, behind) = number(tokens, at)?;
    let found = whole(digits, 0, LAST_TICK);
    Some((found.unwrap_or(0), noting_fit(behind, found.is_some())))
}

/// A number of ticks, at least 1.
#[tactic(auto, unfolding(crate::specs::inner::Reading::whole))]
pub(crate) fn ticks(tokens: &Tokens, at: At) -> Option<(u32, At)>
    ensures { option_map (λ r. (r.0, standing tokens.now r.1)) result ≡ whole Steps (standing tokens.now at) }
{
    let (digits, behind) = number(tokens, at)?;
    let found = whole(digits, 1, LAST_TICK);
    Some((found.unwrap_or(0), noting_fit(behind, found.is_some())))
}

/// The capacity of a class.
#[tactic(auto, unfolding(crate::specs::inner::Reading::whole))]
pub(crate) fn capacity(tokens: &Tokens, at: At) -> Option<(u32, At)>
    ensures { option_map (λ r. (r.0, standing tokens.now r.1)) result ≡ whole Capacity (standing tokens.now at) }
{
    let (digits, behind) = number(tokens, at)?;
    let found = whole(digits, 1, CAPACITY_LIMIT);
    Some((found.unwrap_or(0), noting_fit(behind, found.is_some())))
}

/// How many objects `nearest` looks for.
#[tactic(auto, unfolding(crate::specs::inner::Reading::whole))]
pub(crate) fn most_near(tokens: &Tokens, at: At) -> Option<(u32, At)>
    ensures { option_map (λ r. (r.0, standing tokens.now r.1)) result ≡ whole Nearest (standing tokens.now at) }
{
    let (digits, behind) = number(tokens, at)?;
    let found = whole(digits, 1, NEAREST_LIMIT);
    Some((found.unwrap_or(0), noting_fit(behind, found.is_some())))
}

#[inline]
fn level() -> Slope
    ensures { result ≡ pos 0 }
{
    Slope::of(0).unwrap()
}

/// The error of `must` and `may`.
#[tactic(auto, unfolding(crate::specs::inner::Reading::radius))]
pub(crate) fn radius(tokens: &Tokens, at: At) -> Option<(Fix, At)>
    ensures { option_map (λ r. (r.0, standing tokens.now r.1)) result ≡ radius (standing tokens.now at) }
{
    let (digits, behind) = number(tokens, at)?;
    let found = read_radius(digits);
    Some((found.unwrap_or(zero()), noting_fit(behind, found.is_some())))
}

/// Whether a `-` comes next, and the place after it or else the same place.
#[tactic(auto, unfolding(crate::specs::inner::Reading::minus))]
fn minus(tokens: &Tokens, at: At) -> (bool, At)
    ensures { minus (standing tokens.now at) ≡ (result.0, standing tokens.now result.1) }
{
    match sign(tokens, at, symbol::MINUS) {
        Some(behind) => (true, behind),
        None => (false, at),
    }
}

/// Whether a number has a `-`, and its bytes.
#[tactic(auto, unfolding(crate::specs::inner::Reading::signed_number))]
fn signed_number<'a>(tokens: &'a Tokens, at: At) -> Option<(bool, &'a [u8], At)>
    ensures { option_map (λ r. ((r.0, r.1.now), standing tokens.now r.2)) result ≡ signed_number (standing tokens.now at) }
{
    let (minus, at) = minus(tokens, at);
    let (digits, behind) = number(tokens, at)?;
    Some((minus, digits, behind))
}

#[inline]
fn negated(minus: bool, size: Option<Fix>) -> Option<Fix>
    ensures { result ≡ negated minus size }
{
    match size {
        Some(size) if minus => Fix::of(-size.raw()),
        _ => size,
    }
}

#[inline]
fn signed_slope(minus: bool, size: Option<Slope>) -> Option<Slope>
    ensures { result ≡ negated minus size }
{
    match size {
        Some(size) if minus => Slope::of(-size.raw()),
        _ => size,
    }
}

/// A coordinate, a value of an attribute or a bound of `range`.
#[tactic(auto, unfolding(crate::specs::inner::Reading::num))]
pub(crate) fn value(tokens: &Tokens, at: At) -> Option<(Fix, At)>
    ensures { option_map (λ r. (r.0, standing tokens.now r.1)) result ≡ num Value (standing tokens.now at) }
{
    let (minus, digits, behind) = signed_number(tokens, at)?;
    let found = negated(minus, Fix::read(digits));
    Some((found.unwrap_or(zero()), noting_fit(behind, found.is_some())))
}

#[tactic(auto, unfolding(crate::specs::inner::Reading::num))]
pub(crate) fn slope(tokens: &Tokens, at: At) -> Option<(Slope, At)>
    ensures { option_map (λ r. (r.0, standing tokens.now r.1)) result ≡ num Rate (standing tokens.now at) }
{
    let (minus, digits, behind) = signed_number(tokens, at)?;
    let found = signed_slope(minus, Slope::read(digits));
    Some((
        found.unwrap_or(level()),
        noting_fit(behind, found.is_some()),
    ))
}

fn width_of(minus: bool, digits: &[u8]) -> Option<Fix>
    ensures { result ≡ signed_in Width minus digits.now }
{
    match negated(minus, Fix::read(digits)) {
        Some(width) if width.raw() >= 1 => Some(width),
        _ => None,
    }
}

/// The width of a strip of values.
#[tactic(auto, unfolding(crate::specs::inner::Reading::num))]
pub(crate) fn width(tokens: &Tokens, at: At) -> Option<(Fix, At)>
    ensures { option_map (λ r. (r.0, standing tokens.now r.1)) result ≡ num Width (standing tokens.now at) }
{
    let (minus, digits, behind) = signed_number(tokens, at)?;
    let found = width_of(minus, digits);
    Some((found.unwrap_or(zero()), noting_fit(behind, found.is_some())))
}
