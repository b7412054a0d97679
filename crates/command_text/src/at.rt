//! Where a reader stands in the tokens of a line.
ghost use Rattle.std.specs.Prelude.{◌≡◌, ◌<◌, ◌≤◌, ◌&&◌, IfSome, option_map};
ghost use Rattle.case_table.specs.declared.key.TheConstants.{CLASS};
ghost use Rattle.case_table.specs.declared.symbol.TheConstants.{ASSIGN};
ghost use Rattle.ftl_lexer.specs.Cut.{HasForm};
ghost use Rattle.command_text.specs.Piece.{piece_of};
ghost use Rattle.command_text.specs.inner.Reading.{next, begins, key, sign, noting_fit, noting_small};
ghost use Rattle.command_text.specs.inner.Standing.{standing};
ghost use Rattle.command_text.specs.inner.Tests.{is_key, is_sign, is_name, is_text};

use crate::kinds::{is_key, is_name, is_sign, is_text};
use ftl_lexer::{Kind, Tokens};

/// The token that comes next, whether each number so far is in the range of its place, and whether each
/// size so far is within its limit, but for the lengths of names and texts, at which `end` looks.
#[derive(Clone, Copy)]
pub(crate) struct At {
    pub place: usize,
    pub fit: bool,
    pub small: bool,
}

/// Notes whether a number is in the range of its place.
#[inline]
pub(crate) fn noting_fit(at: At, fit: bool) -> At
    ensures value { result ≡ record { place = at.place; fit = at.fit && fit; small = at.small } }
{
    At {
        place: at.place,
        fit: at.fit && fit,
        small: at.small,
    }
}

/// Notes whether a size is within its limit.
#[inline]
pub(crate) fn noting_small(at: At, small: bool) -> At
    ensures value { result ≡ record { place = at.place; fit = at.fit; small = at.small && small } }
{
    At {
        place: at.place,
        fit: at.fit,
        small: at.small && small,
    }
}

/// The token that comes next, and the place after it.
#[tactic(auto, using(crate::proofs::reader::StandingLemmas::next_token))]
pub(crate) fn next<'a>(tokens: &'a Tokens, at: At) -> Option<(Kind, &'a [u8], At)>
    ensures value { option_map (λ t. (piece_of t.0 t.1.now, standing tokens.now t.2)) result ≡ next (standing tokens.now at) }
    ensures form { IfSome result (λ t. HasForm t.0 t.1.now) }
{
    if at.place >= tokens.len() {
        return None;
    }
    let (kind, text) = tokens.lexeme(at.place)?;
    let behind = At {
        place: at.place + 1,
        fit: at.fit,
        small: at.small,
    };
    Some((kind, text, behind))
}

/// Whether the reserved word of this code comes next.
#[tactic(auto, unfolding(crate::specs::inner::Reading::begins, crate::specs::inner::Reading::next))]
pub(crate) fn begins_key(tokens: &Tokens, at: At, code: u8) -> bool
    requires { CLASS ≤ code }
    ensures { result ≡ begins (is_key code) (standing tokens.now at) }
{
    match next(tokens, at) {
        Some((kind, _, _)) => is_key(kind, code),
        None => false,
    }
}

/// Whether the symbol of this code comes next.
#[tactic(auto, unfolding(crate::specs::inner::Reading::begins, crate::specs::inner::Reading::next))]
pub(crate) fn begins_sign(tokens: &Tokens, at: At, code: u8) -> bool
    requires { code < ASSIGN }
    ensures { result ≡ begins (is_sign code) (standing tokens.now at) }
{
    match next(tokens, at) {
        Some((kind, _, _)) => is_sign(kind, code),
        None => false,
    }
}

/// Whether a name comes next.
#[tactic(auto, unfolding(crate::specs::inner::Reading::begins, crate::specs::inner::Reading::next))]
pub(crate) fn begins_name(tokens: &Tokens, at: At) -> bool
    ensures { result ≡ begins is_name (standing tokens.now at) }
{
    match next(tokens, at) {
        Some((kind, _, _)) => is_name(kind),
        None => false,
    }
}

/// Whether a text comes next.
#[tactic(auto, unfolding(crate::specs::inner::Reading::begins, crate::specs::inner::Reading::next))]
pub(crate) fn begins_text(tokens: &Tokens, at: At) -> bool
    ensures { result ≡ begins is_text (standing tokens.now at) }
{
    match next(tokens, at) {
        Some((kind, _, _)) => is_text(kind),
        None => false,
    }
}

/// The place after the reserved word of this code.
#[tactic(auto, unfolding(crate::specs::inner::Reading::key))]
pub(crate) fn key(tokens: &Tokens, at: At, code: u8) -> Option<At>
    requires { CLASS ≤ code }
    ensures { option_map (standing tokens.now) result ≡ key code (standing tokens.now at) }
{
    let (kind, _, behind) = next(tokens, at)?;
    if is_key(kind, code) {
        Some(behind)
    } else {
        None
    }
}

/// The place after the symbol of this code.
#[tactic(auto, unfolding(crate::specs::inner::Reading::sign))]
pub(crate) fn sign(tokens: &Tokens, at: At, code: u8) -> Option<At>
    requires { code < ASSIGN }
    ensures { option_map (standing tokens.now) result ≡ sign code (standing tokens.now at) }
{
    let (kind, _, behind) = next(tokens, at)?;
    if is_sign(kind, code) {
        Some(behind)
    } else {
        None
    }
}
