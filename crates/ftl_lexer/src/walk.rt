//! The walk along a line, token by token.

ghost use Rattle.std.specs.Prelude.{◌≡◌, ℕ, ◌≤◌, drop, length};
ghost use Rattle.ftl_lexer.specs.Tokens.{bad_place};
ghost use Rattle.ftl_lexer.specs.inner.Walk.{ComesNext};

use crate::Kind;
use crate::scan::{blank_len, token_at};

#[inline]
fn rest_of(line: &[u8], from: usize) -> &[u8]
    requires { from ≤ length line.now }
    ensures { result.now ≡ drop from line.now }
{
    &line[from..]
}

// What stands after the blanks from a place on.
#[derive(Clone, Copy)]
pub(crate) enum Step {
    End,
    Token { kind: Kind, lo: usize, hi: usize },
    Bad(usize),
}

#[inline(always)]
pub(crate) fn next(line: &[u8], from: usize) -> Step
    requires { from ≤ length line.now }
    ensures { ComesNext line.now from result }
{
    let at = from + blank_len(rest_of(line, from));
    if at == line.len() {
        return Step::End;
    }
    match token_at(rest_of(line, at)) {
        Some((kind, len)) => Step::Token {
            kind,
            lo: at,
            hi: at + len,
        },
        None => Step::Bad(at),
    }
}

/// The first byte of a line, counted from 0, at which no token begins. Takes no memory.
pub fn bad_token(line: &[u8]) -> Option<usize>
    ensures { result ≡ bad_place line.now }
{
    let mut at = 0;
    'walking: loop {
        match next(line, at) {
            Step::End => return None,
            Step::Token { hi, .. } => at = hi,
            Step::Bad(place) => return Some(place),
        }
    }
}
