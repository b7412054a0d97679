//! The factors of a term, token by token.

ghost use Rattle.std.specs.Prelude.{◌≡◌, [], ◌∷◌, ◌++◌, Some, None, IfOk, IsTrue, true, false, MatchBool, MatchOption};
ghost use Rattle.ftl_parser.specs.Grammar.{signed};
ghost use Rattle.ftl_parser.specs.inner.Machine.{reference, factor_begun, term_begun, lengthened, whole_factor};
ghost use Rattle.ftl_parser.specs.inner.Views.{piece_view, AddsWhole};

use crate::lists::Factors;
use crate::number::{literal, times, word};
use crate::piece::Piece;
use crate::state::Factor;
use crate::{Signed, Unit};
use std::alloc::AllocError;

// The beginning of a reference. Says whether the token is one; where it isn't, nothing changes.
fn refer(last: &mut Factor, minus: bool, multiplier: Option<u32>, piece: Piece<'_>) -> bool
    ensures { MatchBool result (reference minus multiplier (piece_view piece.entry) ≡ Some last.new)
        ((reference minus multiplier (piece_view piece.entry) ≡ None) × (last.new ≡ last.old)) }
{
    match piece {
        Piece::Name(name) => *last = Factor::Alone(minus, multiplier, word(name)),
        Piece::Time => *last = Factor::Whole(minus, multiplier, Unit::Time),
        _ => return false,
    }
    true
}

// The beginning of a factor after its sign.
fn begin_factor(last: &mut Factor, minus: bool, piece: Piece<'_>) -> bool
    ensures { MatchBool result (factor_begun minus (piece_view piece.entry) ≡ Some last.new)
        ((factor_begun minus (piece_view piece.entry) ≡ None) × (last.new ≡ last.old)) }
{
    match piece {
        Piece::Number(number) => *last = Factor::Number(minus, literal(number), times(number)),
        Piece::Text(text) => *last = Factor::Whole(minus, None, Unit::Text(word(text))),
        _ => return refer(last, minus, None, piece),
    }
    true
}

// The beginning of a term.
fn begin_term(last: &mut Factor, piece: Piece<'_>) -> bool
    ensures { MatchBool result (term_begun (piece_view piece.entry) ≡ Some last.new)
        ((term_begun (piece_view piece.entry) ≡ None) × (last.new ≡ last.old)) }
{
    match piece {
        Piece::Minus => {
            *last = Factor::Wanted(true);
            true
        }
        _ => begin_factor(last, false, piece),
    }
}

// Makes the factor longer by a token, where the token does that; else nothing changes.
pub(crate) fn lengthen(last: &mut Factor, piece: Piece<'_>) -> bool
    ensures { MatchBool result (lengthened last.old (piece_view piece.entry) ≡ Some last.new)
        ((lengthened last.old (piece_view piece.entry) ≡ None) × (last.new ≡ last.old)) }
{
    match (&*last, piece) {
        (Factor::First, _) => return begin_term(last, piece),
        (Factor::Wanted(minus), _) => {
            let minus = *minus;
            return begin_factor(last, minus, piece);
        }
        (Factor::Number(minus, _, multiplier), Piece::Star) => {
            *last = Factor::Times(*minus, *multiplier)
        }
        (Factor::Times(minus, multiplier), _) => {
            let (minus, multiplier) = (*minus, *multiplier);
            return refer(last, minus, Some(multiplier), piece);
        }
        (Factor::Alone(minus, multiplier, name), Piece::Point) => {
            *last = Factor::Dotted(*minus, *multiplier, *name)
        }
        (Factor::Dotted(minus, multiplier, name), Piece::Name(attribute)) => {
            *last = Factor::Attr(*minus, *multiplier, *name, word(attribute))
        }
        (Factor::Attr(minus, multiplier, name, attribute), Piece::Point) => {
            *last = Factor::DottedTwice(*minus, *multiplier, *name, *attribute)
        }
        (Factor::DottedTwice(minus, multiplier, name, attribute), Piece::Part(part)) => {
            let unit = Unit::Sub(*name, *attribute, part);
            *last = Factor::Whole(*minus, *multiplier, unit)
        }
        _ => return false,
    }
    true
}

fn signed(minus: bool, times: Option<u32>, unit: Unit) -> Signed
    ensures { result ≡ signed minus times unit }
{
    Signed { minus, times, unit }
}

// Adds the factor to those before it, where it may end. Says whether it may.
pub(crate) fn add_whole(factors: &mut Factors, last: &Factor) -> Result<bool, AllocError>
    ensures { IfOk result (λ added. AddsWhole factors.old factors.new (whole_factor last.now) added) }
{
    match last {
        Factor::Number(minus, value, _) => {
            factors.push(signed(*minus, None, Unit::Literal(*value)))?
        }
        Factor::Alone(minus, multiplier, name) => {
            factors.push(signed(*minus, *multiplier, Unit::Alone(*name)))?
        }
        Factor::Attr(minus, multiplier, name, attribute) => {
            factors.push(signed(*minus, *multiplier, Unit::Attr(*name, *attribute)))?
        }
        Factor::Whole(minus, multiplier, unit) => {
            factors.push(signed(*minus, *multiplier, *unit))?
        }
        _ => return Ok(false),
    }
    Ok(true)
}
