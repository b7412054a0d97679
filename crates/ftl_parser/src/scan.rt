//! Numbers that don't fit their places, and names and texts that are too long, told by the tokens alone.

ghost use Rattle.std.specs.Prelude.{◌≡◌, ℕ, List};
ghost use Rattle.ftl_lexer.specs.Cut.{HasForm};
ghost use Rattle.ftl_lexer.specs.Tokens.{tokens_of, lexemes};
ghost use Rattle.ftl_parser.specs.Piece.{piece_of, pieces, pieces_from, lexemes_from, is_long, has_long, NUMBER};
ghost use Rattle.ftl_parser.specs.declared.scan.Coming.TheVariants as comings;
ghost use Rattle.ftl_parser.specs.inner.Scan.{coming, first_from, mark, scan, star_next};
ghost use Rattle.ftl_parser.specs.inner.Views.{piece_view};

use crate::number::{is_short, literal_fits, radius_fits, ticks_fit, times_fit};
use crate::piece::{Piece, lexeme_at, piece_at, sign, word};
use fixed_point::UntilForm;
use ftl_lexer::{Kind, Tokens, unquoted};

/// What the next number token is, by the tokens before it.
#[derive(Clone, Copy, PartialEq, Eq)]
pub(crate) enum Coming {
    /// A factor, its multiplier, or the number of a DIST.
    Factor,
    /// The number of a bounded form.
    Ticks,
    /// A factor; but WITHIN_SPHERE stands before it, so a bracket would change that.
    Circle,
    /// A radius.
    Radius,
}

// What the next number is, after one more word or symbol.
fn coming_after(before: Coming, piece: Piece<'_>) -> Coming
    ensures { result ≡ coming before (piece_view piece.entry) }
{
    match (before, piece) {
        (_, Piece::Bounded(_)) => Coming::Ticks,
        (_, Piece::Until(UntilForm::Within | UntilForm::After)) => Coming::Ticks,
        (_, Piece::Sphere) => Coming::Circle,
        (Coming::Circle, Piece::Open) => Coming::Radius,
        _ => Coming::Factor,
    }
}

// What the next number is, after one more token. Names, numbers and texts have no part in it, so their
// bytes aren't looked at.
fn coming_behind(before: Coming, kind: Kind) -> Coming
    ensures { (bytes : List ℕ) → result ≡ coming before (piece_of kind bytes) }
{
    match kind {
        Kind::Sym(code) => coming_after(before, sign(code)),
        Kind::Key(code) => coming_after(before, word(code)),
        _ => Coming::Factor,
    }
}

// Whether the token at a place is `*`.
#[tactic(auto, using(crate::proofs::reader::TokenLemmas::token_steps))]
fn is_star(tokens: &Tokens, at: usize) -> bool
    ensures { result ≡ star_next (pieces_from at tokens.now) }
{
    at < tokens.len() && matches!(piece_at(tokens, at), Piece::Star)
}

// Whether a number, after which the tokens from a place on stand, doesn't fit its place.
fn is_unfit(before: Coming, number: &[u8], tokens: &Tokens, next: usize) -> bool
    ensures { result ≡ mark before (NUMBER number.now) (pieces_from next tokens.now) }
{
    !match before {
        Coming::Ticks => ticks_fit(number),
        Coming::Radius => radius_fits(number),
        _ if is_star(tokens, next) => times_fit(number),
        _ => literal_fits(number),
    }
}

// The same of any token.
fn is_marked(before: Coming, kind: Kind, bytes: &[u8], tokens: &Tokens, next: usize) -> bool
    ensures { result ≡ mark before (piece_of kind bytes.now) (pieces_from next tokens.now) }
{
    match kind {
        Kind::Number => is_unfit(before, bytes, tokens, next),
        _ => false,
    }
}

// The first number token from a place on that doesn't fit its place.
#[tactic(auto, using(crate::proofs::reader::TokenLemmas::token_steps))]
pub(crate) fn first_unfit(tokens: &Tokens, from: usize) -> Option<usize>
    ensures { result ≡ first_from from (scan comings.Factor (pieces_from from tokens.now)) }
{
    let mut before = Coming::Factor;
    for at in from..tokens.len() {
        let (kind, bytes) = lexeme_at(tokens, at);
        if is_marked(before, kind, bytes, tokens, at + 1) {
            return Some(at);
        }
        before = coming_behind(before, kind);
    }
    None
}

// Whether a token is a name or a text that is too long. Few tokens have so many bytes, which is looked at first.
#[inline]
#[tactic(auto, using(crate::proofs::reader::TokenLemmas::few_bytes))]
fn is_long(kind: Kind, bytes: &[u8]) -> bool
    requires { HasForm kind bytes.now }
    ensures { result ≡ is_long kind bytes.now }
{
    if is_short(bytes) {
        return false;
    }
    match kind {
        Kind::Name => !is_short(bytes),
        Kind::Text => !is_short(unquoted(bytes)),
        Kind::Number | Kind::Sym(_) | Kind::Key(_) => false,
    }
}

/// Whether some name or text from a token on has more than 32 bytes, and so stands for the empty one.
#[tactic(auto, using(crate::proofs::reader::TokenLemmas::token_steps))]
pub fn has_long(tokens: &Tokens, from: usize) -> bool
    ensures { result ≡ has_long (lexemes_from from tokens.now) }
{
    for at in from..tokens.len() {
        let (kind, bytes) = lexeme_at(tokens, at);
        if is_long(kind, bytes) {
            return true;
        }
    }
    false
}
