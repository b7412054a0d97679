//! Ticks, spans, names and targets in a line.
ghost use Rattle.std.specs.Prelude.{◌≡◌, ◌+◌, ◌-◌, ◌*◌, ◌<◌, ◌==◌, ◌&&◌, option_map, position, length, IfSome, IfOk, Some, true};
ghost use Rattle.std.specs.Char.{is_ascii_digit};
ghost use Rattle.std.specs.List.{list_all, prefix_len};
ghost use Rattle.std.specs.Str.{bytes_eq};
ghost use Rattle.std.specs.Str.Parse.{digits_value};
ghost use Rattle.fixed_point.specs.Decimal.{AreDigits, digits_at};
ghost use Rattle.fixed_point.specs.declared.reading.TheConstants.{WHOLE_DIGITS_LIMIT};
ghost use Rattle.fixed_point.specs.Digits.{has_spare_zero};
ghost use Rattle.ftl_lexer.specs.Cut.{is_word};
ghost use Rattle.ftl_lexer.specs.Forms.{begins_name, continues_name};
ghost use Rattle.tick_set.specs.Runs.{IsNormal, pairs};
ghost use Rattle.tick_set.specs.declared.spans.TheConstants.{LAST_TICK};
ghost use Rattle.tick_set.specs.Ticks.{IsTick};
ghost use Rattle.replica.specs.Text.{after_text, before_text, cut_at_mark, is_free_name, is_target, span_of, spans_from, tick_at, tick_of, words};

use case_table::reserved_code;
use fixed_point::{WHOLE_DIGITS_LIMIT, WORD_LIMIT};
use formula_shape::OBJECT_LIMIT;
use std::alloc::{AllocError, Global};
use tick_set::{LAST_TICK, Span};

// The place of the first of these bytes.
fn place_of(mark: u8, text: &[u8]) -> Option<usize>
    ensures value { result ≡ position (λ b. b == mark) text.now }
    ensures within { IfSome result (λ place. place < length text.now) }
{
    text.iter().position(|b| *b == mark)
}

/// What stands before the first of these bytes, and what after it, where there is one.
pub(crate) fn cut(mark: u8, text: &[u8]) -> (&[u8], Option<&[u8]>)
    ensures value { (result.0.now, option_map (λ later. later.now) result.1) ≡ cut_at_mark mark text.now }
    ensures shorter { IfSome result.1 (λ later. length later.now < length text.now) }
{
    match place_of(mark, text) {
        Some(place) => (&text[..place], Some(&text[place + 1..])),
        None => (text, None),
    }
}

/// Whether a word is these bytes.
pub(crate) fn is(word: &[u8], bytes: &[u8]) -> bool
    ensures { result ≡ bytes_eq word.now bytes.now }
{
    word == bytes
}

/// What follows a text.
pub(crate) fn after_text<'a>(front: &[u8], text: &'a [u8]) -> Option<&'a [u8]>
    ensures { option_map (λ rest. rest.now) result ≡ after_text front.now text.now }
{
    text.strip_prefix(front)
}

/// What stands before a text at the end.
pub(crate) fn before_text<'a>(end: &[u8], text: &'a [u8]) -> Option<&'a [u8]>
    ensures { option_map (λ rest. rest.now) result ≡ before_text end.now text.now }
{
    text.strip_suffix(end)
}

// How many digits stand at the front.
#[tactic(auto, using(std::proofs::lemmas::List::Sums::prefix_len_is))]
fn digit_count(text: &[u8]) -> usize
    ensures { result ≡ prefix_len is_ascii_digit text.now }
{
    text.iter().take_while(|byte| byte.is_ascii_digit()).count()
}

// The digits at the front and what follows them, if there are from one to ten.
#[tactic(auto, using(crate::proofs::DigitLemmas::front_steps))]
fn digits_at(text: &[u8]) -> Option<(&[u8], &[u8])>
    ensures value { option_map (λ parts. (parts.0.now, parts.1.now)) result ≡ digits_at WHOLE_DIGITS_LIMIT text.now }
    ensures digits { IfSome result (λ parts. AreDigits 1 WHOLE_DIGITS_LIMIT parts.0.now) }
{
    let count = digit_count(text);
    if 1 <= count && count <= WHOLE_DIGITS_LIMIT {
        Some(text.split_at(count))
    } else {
        None
    }
}

// The number that digits write.
#[tactic(auto, using(crate::proofs::DigitLemmas::number_steps))]
fn number_of(digits: &[u8]) -> u64
    requires { AreDigits 0 WHOLE_DIGITS_LIMIT digits.now }
    ensures { result ≡ digits_value 10 digits.now }
{
    let mut number = 0;
    for digit in digits {
        number = number * 10 + u64::from(digit - b'0');
    }
    number
}

fn has_spare_zero(digits: &[u8]) -> bool
    requires { 0 < length digits.now }
    ensures { result ≡ has_spare_zero digits.now }
{
    digits[0] == b'0' && digits.len() != 1
}

// A tick at the front, without zeros before it, and what follows it.
#[tactic(auto, unfolding(crate::specs::Text::tick_at))]
fn tick_at(text: &[u8]) -> Option<(u32, &[u8])>
    ensures value { option_map (λ found. (found.0, found.1.now)) result ≡ tick_at text.now }
    ensures small { IfSome result (λ found. IsTick found.0) }
{
    let (digits, rest) = digits_at(text)?;
    let number = number_of(digits);
    if !has_spare_zero(digits) && number <= u64::from(LAST_TICK) {
        Some((number as u32, rest))
    } else {
        None
    }
}

/// A tick and nothing else.
#[tactic(auto, unfolding(crate::specs::Text::tick_of))]
pub(crate) fn tick_of(text: &[u8]) -> Option<u32>
    ensures value { result ≡ tick_of text.now }
    ensures small { IfSome result (λ tick. IsTick tick) }
{
    let (tick, rest) = tick_at(text)?;
    if rest.is_empty() { Some(tick) } else { None }
}

// `3..7`.
#[tactic(auto, unfolding(crate::specs::Text::span_of))]
fn span_of(word: &[u8]) -> Option<Span>
    ensures { option_map (λ span. (span.lo, span.hi)) result ≡ span_of word.now }
{
    let (lo, rest) = tick_at(word)?;
    let last = after_text(b"..", rest)?;
    let hi = tick_of(last)?;
    Span::new(lo, hi)
}

/// The spans of a text, if they ascend with at least one tick between two, and nothing else is there.
pub(crate) fn spans_of(alloc: Global, text: &[u8]) -> Result<Option<Vec<Span>>, AllocError>
    ensures value { IfOk result (λ found. option_map (λ spans. pairs spans.items) found ≡ spans_from 0 (words text.now)) }
    ensures normal { IfOk result (λ found. IfSome found (λ spans. IsNormal spans.items)) }
{
    let mut spans = Vec::new(alloc);
    let mut least = 0;
    let mut rest = Some(text);
    'words: while let Some(left) = rest {
        let (word, later) = cut(b' ', left);
        let Some(span) = span_of(word) else {
            return Ok(None);
        };
        if span.lo < least {
            return Ok(None);
        }
        spans.push(span)?;
        least = span.hi + 2;
        rest = later;
    }
    Ok(Some(spans))
}

fn begins_name(byte: u8) -> bool
    ensures { result ≡ begins_name byte }
{
    byte.is_ascii_alphabetic() || byte == b'_'
}

fn continues_name(byte: u8) -> bool
    ensures { result ≡ continues_name byte }
{
    byte.is_ascii_alphanumeric() || byte == b'_'
}

fn all_continue(bytes: &[u8]) -> bool
    ensures { result ≡ list_all continues_name bytes.now }
{
    bytes.iter().all(|byte| continues_name(*byte))
}

fn is_word(word: &[u8]) -> bool
    ensures { result ≡ is_word word.now }
{
    match word.split_first() {
        Some((first, later)) => begins_name(*first) && all_continue(later),
        None => false,
    }
}

// A name that isn't reserved.
fn is_name(word: &[u8]) -> bool
    ensures { result ≡ is_free_name word.now }
{
    is_word(word) && word.len() <= WORD_LIMIT && reserved_code(word).is_none()
}

fn are_names(text: &[u8]) -> bool
    ensures { result ≡ list_all is_free_name (words text.now) }
{
    let mut rest = Some(text);
    'words: while let Some(left) = rest {
        let (word, later) = cut(b' ', left);
        if !is_name(word) {
            return false;
        }
        rest = later;
    }
    true
}

fn word_count(text: &[u8]) -> usize
    ensures { result ≡ length (words text.now) }
{
    let mut count = 0;
    let mut rest = Some(text);
    'words: while let Some(left) = rest {
        let (_, later) = cut(b' ', left);
        count += 1;
        rest = later;
    }
    count
}

/// Whether a text is the names of target objects.
pub(crate) fn is_target(text: &[u8]) -> bool
    ensures { result ≡ is_target text.now }
{
    are_names(text) && word_count(text) <= OBJECT_LIMIT
}
