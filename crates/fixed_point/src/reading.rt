//! Reading a number with up to three decimals.
ghost use Rattle.std.specs.Prelude.{◌≡◌, ◌↔◌, ◌<◌, ◌≤◌, ◌-◌, ◌*◌, ◌^◌, unsigned_abs, IfSome, IsNone};
ghost use Rattle.std.specs.Option.{option_map};
ghost use Rattle.std.specs.Char.{is_ascii_digit};
ghost use Rattle.std.specs.List.{prefix_len};
ghost use Rattle.fixed_point.specs.Decimal.{digits_at, decimals_of, unsigned_thousandths, thousandths_of};
ghost use Rattle.fixed_point.specs.Digits.{IsFirstDigit, written_number};

/// The most digits of the whole part of a number that is read.
pub const WHOLE_DIGITS_LIMIT: usize = 10;

/// The most decimals of a number that is read.
pub const DECIMALS_LIMIT: usize = 3;

// The digit at the front, and what follows it.
#[inline]
fn first_digit(text: &[u8]) -> Option<(u64, &[u8])>
    ensures none { IsNone result ↔ (prefix_len is_ascii_digit text.now ≡ 0) }
    ensures digit { IfSome result (λ parts. IsFirstDigit text.now parts.0 parts.1.now) }
{
    let (byte, rest) = text.split_first()?;
    if byte.is_ascii_digit() {
        Some((u64::from(byte - b'0'), rest))
    } else {
        None
    }
}

// The number that from one to `most` digits at the front write, how many they are, and what follows them.
fn split_number(text: &[u8], most: usize) -> Option<(u64, usize, &[u8])>
    requires { most ≤ WHOLE_DIGITS_LIMIT }
    ensures value { option_map (λ parts. (parts.0, parts.1, parts.2.now)) result ≡ option_map written_number (digits_at most text.now) }
    ensures small { IfSome result (λ parts. parts.0 < 10 ^ parts.1) }
    ensures some { IfSome result (λ parts. 1 ≤ parts.1) }
    ensures few { IfSome result (λ parts. parts.1 ≤ most) }
{
    let mut number = 0;
    let mut count = 0;
    let mut rest = text;
    while let Some((digit, later)) = first_digit(rest) {
        if count == most {
            return None;
        }
        number = number * 10 + digit;
        count += 1;
        rest = later;
    }
    if count == 0 {
        None
    } else {
        Some((number, count, rest))
    }
}

// The thousandths that `count` digits after a point stand for.
#[inline]
#[tactic(auto, using(crate::proofs::DigitLemmas::power_steps))]
fn in_thousandths(number: u64, count: usize) -> u64
    requires some { 1 ≤ count }
    requires few { count ≤ DECIMALS_LIMIT }
    requires below { number < 10 ^ count }
    ensures value { result ≡ number * 10 ^ (DECIMALS_LIMIT - count) }
    ensures small { result < 1000 }
{
    match count {
        1 => number * 100,
        2 => number * 10,
        _ => number,
    }
}

// The thousandths after the whole part: of nothing, or of a point and from one to three digits.
#[tactic(auto, unfolding(crate::specs::Decimal::decimals_of))]
fn read_decimals(text: &[u8]) -> Option<u64>
    ensures value { result ≡ decimals_of text.now }
    ensures small { IfSome result (λ decimals. decimals < 1000) }
{
    let Some((first, rest)) = text.split_first() else {
        return Some(0);
    };
    if *first != b'.' {
        return None;
    }
    let (number, count, after) = split_number(rest, DECIMALS_LIMIT)?;
    if after.is_empty() {
        Some(in_thousandths(number, count))
    } else {
        None
    }
}

// The thousandths of a number without a sign.
#[tactic(auto, using(crate::proofs::DigitLemmas::ten_digits_are_few), unfolding(crate::specs::Decimal::unsigned_thousandths))]
fn read_size(text: &[u8]) -> Option<u64>
    ensures value { result ≡ unsigned_thousandths text.now }
    ensures small { IfSome result (λ size. size < 10 ^ 13) }
{
    let (whole, _, rest) = split_number(text, WHOLE_DIGITS_LIMIT)?;
    let decimals = read_decimals(rest)?;
    Some(1000 * whole + decimals)
}

/// The thousandths of a number: a `-` or none, from one to ten digits, and a point with from one to
/// three decimals or none. None exactly where the text has another form, or the thousandths are not
/// within `limit` of 0.
#[tactic(auto, unfolding(crate::specs::Decimal::thousandths_of))]
pub(crate) fn read_thousandths(text: &[u8], limit: u64) -> Option<i64>
    ensures value { result ≡ thousandths_of limit text.now }
    ensures in_range { IfSome result (λ thousandths. unsigned_abs thousandths ≤ limit) }
{
    let negative = text.starts_with(b"-");
    let size = read_size(if negative { &text[1..] } else { text })?;
    if size > limit {
        return None;
    }
    let thousandths = size as i64;
    Some(if negative { -thousandths } else { thousandths })
}
