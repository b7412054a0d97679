//! Tokens as the grammar sees them.

ghost use Rattle.std.specs.Prelude.{◌≡◌, ◌<◌, Some, length, map, slice_get, unwrap_or};
ghost use Rattle.ftl_lexer.specs.Cut.{HasForm};
ghost use Rattle.ftl_lexer.specs.Tokens.{lexemes, tokens_of};
ghost use Rattle.ftl_parser.specs.Piece.{piece_of, pieces, signs, reserved, ARROW, WORD};
ghost use Rattle.ftl_parser.specs.inner.Views.{piece_view};

use crate::prefix::Prefix;
use case_table::Op;
use fixed_point::{BoundForm, SubName, UntilForm};
use ftl_lexer::{Kind, Tokens, unquoted};

/// A token: words and symbols that stand in the same places share a variant; names, numbers and texts
/// have their bytes.
#[derive(Clone, Copy)]
pub(crate) enum Piece<'a> {
    Retrieve,
    From,
    Where,
    And,
    Or,
    /// TRUE, FALSE
    Truth(bool),
    /// NOT, NEXTTIME, EVENTUALLY, ALWAYS
    Prefix(Prefix),
    /// EVENTUALLY_WITHIN, EVENTUALLY_AFTER, ALWAYS_FOR
    Bounded(BoundForm),
    /// UNTIL, UNTIL_WITHIN, UNTIL_AFTER
    Until(UntilForm),
    Inside,
    Outside,
    Dist,
    Sphere,
    Time,
    /// value, updatetime, function
    Part(SubName),
    Open,
    Close,
    OpenSquare,
    CloseSquare,
    Comma,
    Point,
    Plus,
    Minus,
    Star,
    Arrow,
    Comparison(Op),
    Name(&'a [u8]),
    Number(&'a [u8]),
    /// A text without its quotes.
    Text(&'a [u8]),
    /// A word that no query has, by its code.
    Word(u8),
}

// The words of queries and the parts of attributes, in the order of their codes.
const WORDS: [Piece<'static>; 25] = [
    Piece::Retrieve,
    Piece::From,
    Piece::Where,
    Piece::Truth(true),
    Piece::Truth(false),
    Piece::Prefix(Prefix::Not),
    Piece::And,
    Piece::Or,
    Piece::Until(UntilForm::Plain),
    Piece::Until(UntilForm::Within),
    Piece::Until(UntilForm::After),
    Piece::Prefix(Prefix::Next),
    Piece::Prefix(Prefix::Eventually),
    Piece::Bounded(BoundForm::Within),
    Piece::Bounded(BoundForm::After),
    Piece::Prefix(Prefix::Always),
    Piece::Bounded(BoundForm::Always),
    Piece::Inside,
    Piece::Outside,
    Piece::Dist,
    Piece::Sphere,
    Piece::Time,
    Piece::Part(SubName::Value),
    Piece::Part(SubName::UpdateTime),
    Piece::Part(SubName::Function),
];

// The symbols, in the order of their codes.
const SIGNS: [Piece<'static>; 16] = [
    Piece::Open,
    Piece::Close,
    Piece::OpenSquare,
    Piece::CloseSquare,
    Piece::Comma,
    Piece::Point,
    Piece::Plus,
    Piece::Minus,
    Piece::Star,
    Piece::Comparison(Op::Eq),
    Piece::Comparison(Op::Ne),
    Piece::Comparison(Op::Le),
    Piece::Comparison(Op::Ge),
    Piece::Comparison(Op::Lt),
    Piece::Comparison(Op::Gt),
    Piece::Arrow,
];

// The word or symbol of this code in its table, or else the other one.
fn at(table: &'static [Piece<'static>], code: u8, other: Piece<'static>) -> Piece<'static>
    ensures { piece_view result ≡ unwrap_or (slice_get (map piece_view table.now) code) (piece_view other.entry) }
{
    match table.get(usize::from(code)) {
        Some(piece) => *piece,
        None => other,
    }
}

// The symbol of this code.
pub(crate) fn sign(code: u8) -> Piece<'static>
    ensures { piece_view result ≡ unwrap_or (slice_get signs code) ARROW }
{
    at(&SIGNS, code, Piece::Arrow)
}

// The word of this code.
pub(crate) fn word(code: u8) -> Piece<'static>
    ensures { piece_view result ≡ unwrap_or (slice_get reserved code) (WORD code) }
{
    at(&WORDS, code, Piece::Word(code))
}

// A token by its kind and its bytes.
pub(crate) fn piece_of(kind: Kind, bytes: &[u8]) -> Piece<'_>
    requires { HasForm kind bytes.now }
    ensures { piece_view result ≡ piece_of kind bytes.now }
{
    match kind {
        Kind::Name => Piece::Name(bytes),
        Kind::Number => Piece::Number(bytes),
        Kind::Text => Piece::Text(unquoted(bytes)),
        Kind::Sym(code) => sign(code),
        Kind::Key(code) => word(code),
    }
}

// The token at a place, by its kind and its bytes.
pub(crate) fn lexeme_at(tokens: &Tokens, at: usize) -> (Kind, &[u8])
    requires { at < length (tokens_of tokens.now) }
    ensures lexeme { slice_get (lexemes tokens.now) at ≡ Some (result.0, result.1.now) }
    ensures token { slice_get (pieces (lexemes tokens.now)) at ≡ Some (piece_of result.0 result.1.now) }
    ensures form { HasForm result.0 result.1.now }
{
    tokens.lexeme(at).unwrap()
}

// The token at a place.
pub(crate) fn piece_at(tokens: &Tokens, at: usize) -> Piece<'_>
    requires { at < length (tokens_of tokens.now) }
    ensures { slice_get (pieces (lexemes tokens.now)) at ≡ Some (piece_view result) }
{
    let (kind, bytes) = lexeme_at(tokens, at);
    piece_of(kind, bytes)
}
