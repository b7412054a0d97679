//! Which token begins at a byte.

ghost use Rattle.std.specs.Prelude.{◌≡◌, ℕ, ◌+◌, ◌<◌, ◌≤◌, ◌∷◌, [], Option, length, option_map, position, IfSome};
ghost use Rattle.std.specs.List.{prefix_len};
ghost use Rattle.case_table.specs.Rows.{code_of};
ghost use Rattle.case_table.specs.Language.{symbols};
ghost use Rattle.ftl_lexer.specs.Forms.{is_blank, begins_name, continues_name, is_quote, name_len, digits_len, fraction_len, number_len, text_len, word_kind, single_symbol, symbol_at, token_at};

use crate::Kind;
use case_table::{reserved_code, symbol};

#[inline]
fn is_blank(byte: u8) -> bool
    ensures { result ≡ is_blank byte }
{
    byte == b' ' || byte == b'\t'
}

#[inline]
fn begins_name(byte: u8) -> bool
    ensures { result ≡ begins_name byte }
{
    byte.is_ascii_alphabetic() || byte == b'_'
}

#[inline]
fn continues_name(byte: u8) -> bool
    ensures { result ≡ continues_name byte }
{
    byte.is_ascii_alphanumeric() || byte == b'_'
}

pub(crate) fn blank_len(bytes: &[u8]) -> usize
    ensures value { result ≡ prefix_len is_blank bytes.now }
    ensures within { result ≤ length bytes.now }
{
    bytes.iter().take_while(|byte| is_blank(**byte)).count()
}

fn name_len(bytes: &[u8]) -> usize
    ensures value { result ≡ name_len bytes.now }
    ensures within { result ≤ length bytes.now }
{
    bytes
        .iter()
        .take_while(|byte| continues_name(**byte))
        .count()
}

fn digits_len(bytes: &[u8]) -> usize
    ensures value { result ≡ digits_len bytes.now }
    ensures within { result ≤ length bytes.now }
{
    bytes
        .iter()
        .take_while(|byte| byte.is_ascii_digit())
        .count()
}

// A point with digits after it.
fn fraction_len(bytes: &[u8]) -> usize
    ensures value { result ≡ fraction_len bytes.now }
    ensures within { result ≤ length bytes.now }
{
    match bytes {
        [b'.', rest @ ..] => match digits_len(rest) {
            0 => 0,
            digits => 1 + digits,
        },
        _ => 0,
    }
}

fn number_len(bytes: &[u8]) -> usize
    ensures { result ≡ number_len bytes.now }
{
    let whole = digits_len(bytes);
    whole + fraction_len(&bytes[whole..])
}

// The place of the first quote.
fn quote_place(bytes: &[u8]) -> Option<usize>
    ensures value { result ≡ position is_quote bytes.now }
    ensures within { IfSome result (λ place. place < length bytes.now) }
{
    bytes.iter().position(|byte| *byte == b'"')
}

// A text with both its quotes, by the bytes after the first one.
fn text_len(bytes: &[u8]) -> Option<usize>
    ensures { result ≡ text_len bytes.now }
{
    let inside = quote_place(bytes)?;
    Some(inside + 2)
}

fn word_kind(word: &[u8]) -> Kind
    ensures { result ≡ word_kind word.now }
{
    match reserved_code(word) {
        Some(code) => Kind::Key(code),
        None => Kind::Name,
    }
}

// The code of the symbol of these two bytes.
#[tactic(auto, unfolding(case_table::specs::Language::symbols))]
fn pair_code(first: u8, second: u8) -> Option<u8>
    ensures { result ≡ code_of symbols (first ∷ second ∷ []) }
{
    match (first, second) {
        (b'!', b'=') => Some(symbol::NOT_EQUAL),
        (b'<', b'=') => Some(symbol::AT_MOST),
        (b'>', b'=') => Some(symbol::AT_LEAST),
        (b'<', b'-') => Some(symbol::ASSIGN),
        _ => None,
    }
}

// The code of the symbol of this byte.
#[tactic(auto, unfolding(case_table::specs::Language::symbols))]
fn single_code(byte: u8) -> Option<u8>
    ensures { result ≡ code_of symbols (byte ∷ []) }
{
    match byte {
        b'(' => Some(symbol::OPEN_ROUND),
        b')' => Some(symbol::CLOSE_ROUND),
        b'[' => Some(symbol::OPEN_SQUARE),
        b']' => Some(symbol::CLOSE_SQUARE),
        b',' => Some(symbol::COMMA),
        b'.' => Some(symbol::POINT),
        b'+' => Some(symbol::PLUS),
        b'-' => Some(symbol::MINUS),
        b'*' => Some(symbol::TIMES),
        b'=' => Some(symbol::EQUAL),
        b'<' => Some(symbol::BELOW),
        b'>' => Some(symbol::ABOVE),
        _ => None,
    }
}

// The longest symbol that a byte and those after it begin with.
fn symbol_at(first: u8, rest: &[u8]) -> Option<(Kind, usize)>
    ensures { result ≡ symbol_at first rest.now }
{
    if let [second, ..] = rest {
        if let Some(code) = pair_code(first, *second) {
            return Some((Kind::Sym(code), 2));
        }
    }
    let code = single_code(first)?;
    Some((Kind::Sym(code), 1))
}

// The token at the front, by its kind and its number of bytes. None where no token begins there.
#[inline(always)]
#[tactic(auto, unfolding(crate::specs::Forms::token_at))]
pub(crate) fn token_at(bytes: &[u8]) -> Option<(Kind, usize)>
    ensures { result ≡ token_at bytes.now }
{
    let [first, rest @ ..] = bytes else {
        return None;
    };
    if begins_name(*first) {
        let len = name_len(bytes);
        Some((word_kind(&bytes[..len]), len))
    } else if first.is_ascii_digit() {
        Some((Kind::Number, number_len(bytes)))
    } else if *first == b'"' {
        let len = text_len(rest)?;
        Some((Kind::Text, len))
    } else {
        symbol_at(*first, rest)
    }
}
